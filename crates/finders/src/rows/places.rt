// What a row finder keeps of the places.
ghost use Rattle.std.specs.Prelude.{◌≡◌, ℕ, ◌-◌, ◌<◌, ◌≤◌, false, ◌&&◌, ◌||◌, length, nat_lt};
ghost use Rattle.book.specs.Stored.{sealed_book};
ghost use Rattle.finders.specs.Places.{marked};
ghost use Rattle.finders.specs.Runs.{begins, passes, ends};

use book::sealed::SealedBook;
use cells::kinds::Cell;

// The places of a book, at most.
pub(crate) const PLACES: usize = 1023;

// No run anywhere.
pub(crate) fn no_runs() -> [bool; PLACES]
    ensures long { length result ≡ 1023 }
    ensures none { (p : ℕ) → marked result p ≡ false }
{
    [false; PLACES]
}

// The first places of a book's keywords, marked.
pub(crate) fn first_places<C: Cell>(book: &SealedBook<'_, C>) -> [bool; PLACES]
    ensures { (p : ℕ) → p < 1023 → marked result p ≡ begins (sealed_book book.now) p }
{
    let mut firsts = [false; PLACES];
    for keyword in book.keywords() {
        firsts[keyword.first as usize] = true;
    }
    firsts
}

// Whether a run that may reach a cell stands there after the symbol. Both are asked, since with letters a branch for each
// place costs more than it saves.
fn goes_on<C: Cell>(cell: &C, symbol: C::Symbol, reached: bool) -> bool
    ensures { result ≡ (C.Cell.admits cell.now symbol && reached) }
{
    reached & cell.admits(symbol)
}

// Moves the runs on by a symbol, over the cells of the places.
pub(crate) fn move_on<C: Cell>(
    runs: &mut [bool; PLACES],
    firsts: &[bool; PLACES],
    cells: &[C],
    symbol: C::Symbol,
)
    requires long { length runs.old ≡ 1023 }
    requires few { length cells.now ≤ 1023 }
    ensures long { length runs.new ≡ 1023 }
    ensures runs { (p : ℕ) → p < length cells.now → marked runs.new p ≡ (passes (λ c. C.Cell.admits c symbol) cells.now p && (marked firsts.now p || (nat_lt 0 p && marked runs.old (p - 1)))) }
    ensures rest { (p : ℕ) → length cells.now ≤ p → marked runs.new p ≡ marked runs.old p }
{
    let mut stood = false;
    // An index, since a mark is read and written where its cell stands, and nothing is known of what is written by `zip`.
    for (i, cell) in cells.iter().enumerate() {
        let reached = firsts[i] | stood;
        stood = runs[i];
        runs[i] = goes_on(cell, symbol, reached);
    }
}

// Whether a run stands at the last place of a keyword.
pub(crate) fn runs_last<C: Cell>(
    book: &SealedBook<'_, C>,
    runs: &[bool; PLACES],
    keyword: usize,
) -> bool
    requires { length runs.now ≡ 1023 }
    ensures { result ≡ ends (sealed_book book.now) (λ p. marked runs.now p) keyword }
{
    book.keywords()
        .get(keyword)
        .is_some_and(|row| runs[row.last_place()])
}
