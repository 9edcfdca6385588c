// How a letter automaton is made, and that it is a finder.
ghost use Rattle.std.specs.Prelude.{◌≡◌, ℕ, false, Some, None};
ghost use Rattle.book.specs.Stored.{sealed_book};
ghost use Rattle.cells.specs.Letters.{letter_of, letter_admits, letter_hears};
ghost use Rattle.automaton.specs.Meaning.{automaton_book, stands};

use crate::letters::{LetterAutomaton, NUMBERS};
use crate::tables::Tables;
use book::rows::{KeywordRow, LineRow};
use book::sealed::SealedBook;
use cells::kinds::Cell;
use cells::letters::{Letter, LetterCell};
use finders::finding::Finder;

// The symbol of a sample, as its kind of cell reads it.
fn read_as<C: Cell>(sample: C::Sample) -> Option<C::Symbol>
    ensures value { result ≡ C.Cell.reads sample }
    ensures heard { (c : C) (y : C.Symbol) → C.Cell.reads sample ≡ Some y → C.Cell.admits c y ≡ C.Cell.hears c sample }
    ensures deaf { (c : C) → C.Cell.reads sample ≡ None → C.Cell.hears c sample ≡ false }
{
    C::read(sample)
}

impl<'a> LetterAutomaton<'a> {
    /// A finder of a book's keywords, with no run. Whatever the memory holds is overwritten.
    pub fn new(
        book: SealedBook<'a, LetterCell>,
        memory: &'a mut [u16; NUMBERS],
    ) -> LetterAutomaton<'a>
        ensures book { automaton_book result ≡ sealed_book book.entry }
        ensures none { (p : ℕ) → stands result p ≡ false }
    {
        let tables = Tables::new(book, memory);
        let state = tables.root();
        LetterAutomaton { tables, state }
    }
}

impl<'a> Finder<LetterCell> for LetterAutomaton<'a> {
    type Symbol = Letter;

    ghost book = { automaton_book };

    ghost stands = { stands };

    ghost reads = { letter_of };

    ghost admits = { letter_admits };

    fn read(sample: u8) -> Option<Letter>
        ensures value { result ≡ letter_of sample }
        ensures heard { (c : LetterCell) (y : Letter) → letter_of sample ≡ Some y → letter_admits c y ≡ letter_hears c sample }
        ensures deaf { (c : LetterCell) → letter_of sample ≡ None → letter_hears c sample ≡ false }
    {
        read_as::<LetterCell>(sample)
    }

    fn take(&mut self, symbol: Letter) {
        let state = self.tables.after(self.state, symbol);
        self.state = state;
    }

    fn clear(&mut self) {
        let state = self.tables.root();
        self.state = state;
    }

    fn ended(&self, keyword: usize) -> bool {
        let Some(last) = self.tables.last_state(keyword) else {
            return false;
        };
        self.tables.meets(self.state, last)
    }

    fn lines(&self) -> &[LineRow] {
        self.tables.book.lines()
    }

    fn keywords(&self) -> &[KeywordRow] {
        self.tables.book.keywords()
    }
}
