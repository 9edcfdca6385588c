// What the standing question tells of a line.
ghost use Rattle.std.specs.Prelude.{◌≡◌};
ghost use Rattle.bench.specs.Standings.{shown_of};

use standings::turns::Standing;

/// A line is armed or resting.
#[derive(Clone, Copy, PartialEq, Eq, Debug)]
pub enum LineState {
    Armed,
    Resting,
}

impl From<Standing> for LineState {
    ghost from_gives = { λ standing state. state ≡ shown_of standing };

    fn from(standing: Standing) -> LineState {
        match standing {
            Standing::Armed { .. } => LineState::Armed,
            Standing::Resting => LineState::Resting,
        }
    }
}
