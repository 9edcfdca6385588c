// How the tables are made.
ghost use Rattle.std.specs.Prelude.{◌≡◌};
ghost use Rattle.book.specs.Stored.{sealed_book};
ghost use Rattle.automaton.specs.Standing.{book_of};

use crate::letters::NUMBERS;
use crate::linking::link;
use crate::memory::{EDGES, STATES};
use crate::tables::Tables;
use crate::trie::plant;
use book::sealed::SealedBook;
use cells::letters::LetterCell;

impl<'a> Tables<'a> {
    // The automaton of a book's keywords.
    pub(crate) fn new(
        book: SealedBook<'a, LetterCell>,
        memory: &'a mut [u16; NUMBERS],
    ) -> Tables<'a>
        ensures { book_of result ≡ sealed_book book.entry }
    {
        let (next, rest) = memory.split_at_mut(EDGES);
        let (fail, rest) = rest.split_at_mut(STATES);
        let (states, rest) = rest.split_at_mut(STATES);
        let (turns, slots) = rest.split_at_mut(STATES);
        plant(&book, next, states);
        link(next, fail, turns, slots);
        Tables {
            book,
            next,
            fail,
            states,
            turns,
        }
    }
}
