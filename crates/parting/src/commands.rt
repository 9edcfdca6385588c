// What is asked of benches, and what they answer.
ghost use Rattle.std.specs.Prelude.{◌≡◌};
ghost use Rattle.parting.specs.declared.commands.Answer.TheVariants.{Tick, Done, Standing};

use bench::states::LineState;
use columns::numbers::Numbers;
use refusals::Refusal;

/// A call of a bench, whose samples are of the type S.
#[derive(Clone, Copy, PartialEq, Eq, Debug)]
pub enum Command<S> {
    Feed(S),
    Arm(u16),
    Rest(u16),
    Clear,
    Standing(u16),
}

/// What an accepted call answers.
#[derive(Clone, Copy)]
pub enum Answer {
    /// The tick, the numbers of the lines that are reported, and the points that are due.
    Tick(u32, Numbers, i32),
    Done,
    Standing(Option<LineState>),
}

// A feed answers a tick.
impl From<(u32, Numbers, i32)> for Answer {
    ghost from_gives = { λ told given. given ≡ Tick told.0 told.1 told.2 };

    fn from((tick, reported, points): (u32, Numbers, i32)) -> Answer {
        Answer::Tick(tick, reported, points)
    }
}

// Arm, rest and clear answer that they are done.
impl From<()> for Answer {
    ghost from_gives = { λ _ given. given ≡ Done };

    fn from(_done: ()) -> Answer {
        Answer::Done
    }
}

// The standing question answers a standing.
impl From<Option<LineState>> for Answer {
    ghost from_gives = { λ state given. given ≡ Standing state };

    fn from(state: Option<LineState>) -> Answer {
        Answer::Standing(state)
    }
}

/// One for the whole book, and one for each of its two parts. As `Trio` alone, what three benches answer to one command.
#[derive(Clone, Copy, Drop)]
pub struct Trio<W = Result<Answer, Refusal>, X = W, Y = W> {
    pub whole: W,
    pub first: X,
    pub second: Y,
}
