// The tables of an automaton.
ghost use Rattle.book.specs.Stored.{sealed_book};
ghost use Rattle.automaton.specs.Linked.{Sized, Linked};

use book::sealed::SealedBook;
use cells::letters::LetterCell;

mod making;
mod reading;

/// A book, and the automaton of its keywords in memory that is lent.
// Four slices side by side, since the caller lends one row of numbers, which is cut into them.
#[derive(Drop)]
pub struct Tables<'a> {
    pub(crate) book: SealedBook<'a, LetterCell>,
    // where each letter leads from each state
    next: &'a [u16],
    // the fail link of each state
    fail: &'a [u16],
    // the state of each place
    states: &'a [u16],
    // the turn of each state in the queue
    turns: &'a [u16],
    ghost sized: { Sized next.now fail.now states.now turns.now },
    ghost linked: { ∥ Linked (sealed_book book) next.now fail.now states.now turns.now ∥₁ },
}
