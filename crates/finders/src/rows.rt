// The row finder: rows of marks by place, over any kind of cell.
ghost use Rattle.std.specs.Prelude.{◌≡◌, ℕ, ◌<◌, ◌≤◌, false, length};
ghost use Rattle.book.specs.Book.{all_cells};
ghost use Rattle.book.specs.Stored.{sealed_book};
ghost use Rattle.finders.specs.Places.{marked};
ghost use Rattle.finders.specs.Runs.{begins};

use book::sealed::SealedBook;

pub mod marking;
mod places;

/// A finder that keeps of each place whether a run stands there.
// Two arrays, since a symbol and a clear write the runs alone, and a clear writes them all alike.
#[derive(Drop)]
pub struct RowFinder<'a, C> {
    book: SealedBook<'a, C>,
    // whether a place is the first of its keyword
    firsts: [bool; 1023],
    // whether a run stands at a place
    runs: [bool; 1023],
    ghost long: { length runs ≡ 1023 },
    // the first places of the keywords are marked
    ghost begun: { (p : ℕ) → p < 1023 → marked firsts p ≡ begins (sealed_book book) p },
    // no run stands past the book's places
    ghost still: { (p : ℕ) → length (all_cells (sealed_book book)) ≤ p → marked runs p ≡ false },
}
