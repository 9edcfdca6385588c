// What an occurrence of a line is, and which mark of the look-back ring tells it.
#![tactic(auto)]

ghost use Rattle.std.specs.Prelude.{◌≡◌, ◌+◌, ◌-◌};
ghost use Rattle.occurrences.specs.Marked.{LastMark};

use book::rows::LineRow;
use cells::kinds::Cell;

// The mark of a keyword, which tells an occurrence where the keyword is the last of its line.
fn telling<C: Cell>(keyword: usize) -> usize
    ensures same { result ≡ keyword }
    ensures tells { LastMark C.Cell.hears }
{
    keyword
}

/// The number of a line's last keyword. At each tick the mark of that keyword stands in the look-back ring exactly when
/// the line occurs ending at the tick.
pub fn last_keyword<C: Cell>(line: &LineRow) -> usize
    ensures value { result ≡ line.now.first + line.now.keywords - 1 }
    ensures tells { LastMark C.Cell.hears }
{
    let end = line.first as usize + line.keywords as usize;
    telling::<C>(end.saturating_sub(1))
}
