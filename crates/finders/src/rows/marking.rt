// How a row finder is made, and that it is a finder.
ghost use Rattle.std.specs.Prelude.{◌≡◌, ℕ, false};
ghost use Rattle.book.specs.Stored.{sealed_book};
ghost use Rattle.finders.specs.Places.{marked};

use crate::finding::Finder;
use crate::rows::RowFinder;
use crate::rows::places::{first_places, move_on, no_runs, runs_last};
use book::rows::{KeywordRow, LineRow};
use book::sealed::SealedBook;
use cells::kinds::Cell;

impl<'a, C: Cell> RowFinder<'a, C> {
    /// A finder of a book's keywords, with no run.
    pub fn new(book: SealedBook<'a, C>) -> RowFinder<'a, C>
        ensures book { sealed_book result.book ≡ sealed_book book.entry }
        ensures none { (p : ℕ) → marked result.runs p ≡ false }
    {
        let firsts = first_places(&book);
        let runs = no_runs();
        RowFinder { book, firsts, runs }
    }
}

impl<'a, C: Cell> Finder<C> for RowFinder<'a, C> {
    type Symbol = C::Symbol;

    ghost book = { λ f. sealed_book f.book };

    ghost stands = { λ f p. marked f.runs p };

    ghost reads = { C.Cell.reads };

    ghost admits = { C.Cell.admits };

    fn read(sample: C::Sample) -> Option<C::Symbol> {
        C::read(sample)
    }

    fn take(&mut self, symbol: C::Symbol) {
        let cells = self.book.cells();
        move_on(&mut self.runs, &self.firsts, cells, symbol);
    }

    fn clear(&mut self) {
        let none = no_runs();
        self.runs = none;
    }

    fn ended(&self, keyword: usize) -> bool {
        runs_last(&self.book, &self.runs, keyword)
    }

    fn lines(&self) -> &[LineRow] {
        self.book.lines()
    }

    fn keywords(&self) -> &[KeywordRow] {
        self.book.keywords()
    }
}
