// How standings are made, asked and turned.
ghost use Rattle.std.specs.Prelude.{◌≡◌, ℕ, ◌-◌, length, Some, None, if◌then◌else◌};
ghost use Rattle.book.specs.Rules.{within};
ghost use Rattle.standings.specs.Turning.{placed, standing_at, answer, turned_at, first_standing};

use crate::tables::Standings;
use crate::turns::{Standing, Turn};
use book::rows::LineRow;
use refusals::Refusal;

// The place of a number in a table that has number 1 first, and 128 last.
fn place(number: u16) -> Option<usize>
    ensures { result ≡ (if within 1 128 number then Some (number - 1) else None) }
{
    if (1..=128).contains(&number) {
        Some(number as usize - 1)
    } else {
        None
    }
}

// The places of a table in which every line is armed, with mark 0.
fn all_armed(lines: &[LineRow]) -> [Option<Standing>; 128]
    ensures whole { length result ≡ 128 }
    ensures standings { (n : ℕ) → placed result n ≡ first_standing lines.now n }
{
    let mut at = [None; 128];
    for line in lines {
        if let Some(place) = place(line.number as u16) {
            at[place] = Some(Standing::Armed { mark: 0 });
        }
    }
    at
}

impl Standings {
    /// Every line of a book is armed, with mark 0.
    pub fn new(lines: &[LineRow]) -> Standings
        ensures { (n : ℕ) → standing_at result n ≡ first_standing lines.now n }
    {
        Standings {
            at: all_armed(lines),
        }
    }

    /// The standing of a number: none for one that is no line's.
    pub fn standing(&self, number: u16) -> Option<Standing>
        ensures { result ≡ standing_at self.now number }
    {
        self.at[place(number)?]
    }

    /// Arms or rests a line, at a tick count, or refuses and changes nothing. The other lines are untouched.
    pub fn turn(&mut self, number: u16, turn: Turn, count: u32) -> Result<(), Refusal>
        ensures answer { result ≡ answer (standing_at self.old number) turn }
        ensures table { self.new.at ≡ turned_at self.old number turn count }
    {
        let place = place(number).ok_or(Refusal::NoSuchLine)?;
        match (&mut self.at[place], turn) {
            (None, _) => Err(Refusal::NoSuchLine),
            (Some(Standing::Armed { .. }), Turn::Arm) => Err(Refusal::AlreadyArmed),
            (Some(s @ Standing::Resting), Turn::Arm) => {
                *s = Standing::Armed { mark: count };
                Ok(())
            }
            (Some(s @ Standing::Armed { .. }), Turn::Rest) => {
                *s = Standing::Resting;
                Ok(())
            }
            (Some(Standing::Resting), Turn::Rest) => Err(Refusal::AlreadyResting),
        }
    }
}
