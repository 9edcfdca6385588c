// What a sealed book tells of itself.
ghost use Rattle.std.specs.Prelude.{◌≡◌, ◌≤◌, length};
ghost use Rattle.book.specs.Book.{all_cells, has_number};
ghost use Rattle.book.specs.Proper.{Proper, AllFit};
ghost use Rattle.book.specs.Rows.{line_rows, keyword_rows};
ghost use Rattle.book.specs.Stored.{sealed_book};

use crate::rows::{KeywordRow, LineRow};
use crate::sealed::SealedBook;
use cells::kinds::Cell;

impl<'a, C: Cell> SealedBook<'a, C> {
    /// The lines, in entry order; and what the book keeps to.
    #[tactic(auto, using(crate::proofs::Holdings::held_lines, crate::proofs::Holdings::held_proper))]
    pub fn lines(&self) -> &[LineRow]
        ensures rows { result.now ≡ line_rows (sealed_book self.now) }
        ensures proper { Proper (sealed_book self.now) }
    {
        &self.ledger.lines
    }

    /// The keywords, line after line, each within its limits: 512 at most.
    #[tactic(auto, using(crate::proofs::Holdings::held_keyword_rows, crate::proofs::Holdings::keywords_fit))]
    pub fn keywords(&self) -> &[KeywordRow]
        ensures rows { result.now ≡ keyword_rows (sealed_book self.now) }
        ensures fit { AllFit result.now }
        ensures few { length result.now ≤ 512 }
    {
        &self.ledger.keywords
    }

    /// The cells by place, keyword after keyword: 1,023 at most.
    #[tactic(auto, using(crate::proofs::Holdings::held_cells))]
    pub fn cells(&self) -> &'a [C]
        ensures cells { result.now ≡ all_cells (sealed_book self.now) }
        ensures few { length result.now ≤ 1023 }
    {
        &self.cells[..self.ledger.counts().cells]
    }

    /// Whether there is a line of that number.
    #[tactic(auto, using(crate::proofs::Holdings::held_has_number))]
    pub fn has_number(&self, number: u16) -> bool
        ensures { result ≡ has_number number (sealed_book self.now) }
    {
        self.ledger.has_number(number)
    }
}
