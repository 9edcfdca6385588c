// The meaning that every finder has.
ghost use Rattle.std.specs.Prelude.{◌≡◌, ℕ, ◌≤◌, Bool, false, length, Some, None, Option};
ghost use Rattle.book.specs.Book.{Book};
ghost use Rattle.book.specs.Proper.{Proper, AllFit};
ghost use Rattle.book.specs.Rows.{line_rows, keyword_rows};
ghost use Rattle.columns.specs.Marks.{mark};
ghost use Rattle.finders.specs.Runs.{taken, ends};

use book::rows::{KeywordRow, LineRow};
use cells::kinds::Cell;
use columns::marks::Column;

/// A finder of the keywords of one book, over a kind of cell.
pub trait Finder<C: Cell>: Sized {
    // a sample as this sort of finder reads it
    type Symbol: Copy;

    // the book that it was made from
    ghost book: { Self → Book C };

    // the places at which a run stands
    ghost stands: { Self → ℕ → Bool };

    // the symbol that a sample is read as, if this sort of finder takes it
    ghost reads: { C.Sample → Option Self.Symbol };

    // the symbols that a cell admits
    ghost admits: { C → Self.Symbol → Bool };

    /// The symbol of a sample, if this sort of finder takes it.
    fn read(sample: C::Sample) -> Option<Self::Symbol>
        ensures value { result ≡ reads sample }
        ensures heard { (c : C) (y : Self.Symbol) → reads sample ≡ Some y → admits c y ≡ C.Cell.hears c sample }
        ensures deaf { (c : C) → reads sample ≡ None → C.Cell.hears c sample ≡ false };

    /// Takes a symbol: a run then stands where the cell admits it and the place is the first of its keyword,
    /// or a run stood one place earlier.
    fn take(&mut self, symbol: Self::Symbol)
        ensures book { book self.new ≡ book self.old }
        ensures stands { (p : ℕ) → stands self.new p ≡ taken (book self.old) (λ c. admits c symbol) (stands self.old) p };

    /// Forgets every run.
    fn clear(&mut self)
        ensures book { book self.new ≡ book self.old }
        ensures stands { (p : ℕ) → stands self.new p ≡ false };

    /// Whether a run stands at the last place of a keyword.
    fn ended(&self, keyword: usize) -> bool
        ensures { result ≡ ends (book self.now) (stands self.now) keyword };

    /// The lines of its book.
    fn lines(&self) -> &[LineRow]
        ensures rows { result.now ≡ line_rows (book self.now) }
        ensures proper { Proper (book self.now) };

    /// The keywords of its book.
    fn keywords(&self) -> &[KeywordRow]
        ensures rows { result.now ≡ keyword_rows (book self.now) }
        ensures fit { AllFit result.now }
        ensures few { length result.now ≤ 512 };

    /// All keywords that have ended, as one column.
    fn ended_all(&self) -> Column
        ensures { (k : ℕ) → mark result k ≡ ends (book self.now) (stands self.now) k }
    {
        let mut all = Column::none();
        // The number of a keyword, by which it is asked for and marked; no slice is read at it.
        for keyword in 0..self.keywords().len() {
            if self.ended(keyword) {
                all = all.with(keyword);
            }
        }
        all
    }
}
