// Which lines of a book occur at each tick: any lawful finder, and the look-back ring of its book.
#![tactic(auto)]

ghost use Rattle.std.specs.Prelude.{◌≡◌, List, [], ◌∷◌};
ghost use Rattle.book.specs.Book.{Book};
ghost use Rattle.book.specs.Proper.{Proper};
ghost use Rattle.matching.specs.Seen.{Heard, Has, Spots, Sees, Occur};

use cells::kinds::Cell;
use columns::marks::Column;
use finders::finding::Finder;
use lookback::lookbacks::Lookback;

pub mod matchers;

// Gives a finder a symbol, and answers the keywords that end with it.
fn spot<C: Cell, F: Finder<C>>(finder: &mut F, symbol: F::Symbol) -> Column
    ensures finder { (b : Book C) (newest : List C.Sample) (s : C.Sample) → Has C.Cell F.Finder finder.old b newest → Heard C.Cell F.Finder symbol s → Has C.Cell F.Finder finder.new b (s ∷ newest) }
    ensures spots { (b : Book C) (newest : List C.Sample) (s : C.Sample) → Has C.Cell F.Finder finder.old b newest → Heard C.Cell F.Finder symbol s → Spots C.Cell.hears result b (s ∷ newest) }
{
    finder.take(symbol);
    finder.ended_all()
}

// Clears a finder: it has had no sample.
fn restart<C: Cell, F: Finder<C>>(finder: &mut F)
    ensures book { F.Finder.book finder.new ≡ F.Finder.book finder.old }
    ensures finder { (b : Book C) → F.Finder.book finder.old ≡ b → Proper b → Has C.Cell F.Finder finder.new b [] }
{
    finder.clear();
}

/// Clears a finder, and makes the look-back ring of its book.
pub fn start<C: Cell, F: Finder<C>>(finder: &mut F) -> Lookback
    ensures { Sees C.Cell F.Finder finder.new result (F.Finder.book finder.old) [] }
{
    restart::<C, F>(finder);
    Lookback::new::<C, F>(finder)
}

/// Gives a finder a symbol, and answers the column in which the mark of a line's last keyword tells whether the line
/// occurs ending at this tick.
pub fn take<C: Cell, F: Finder<C>>(
    finder: &mut F,
    lookback: &mut Lookback,
    symbol: F::Symbol,
) -> Column
    ensures sees { (b : Book C) (newest : List C.Sample) (s : C.Sample) → Sees C.Cell F.Finder finder.old lookback.old b newest → Heard C.Cell F.Finder symbol s → Sees C.Cell F.Finder finder.new lookback.new b (s ∷ newest) }
    ensures occur { (b : Book C) (newest : List C.Sample) (s : C.Sample) → Sees C.Cell F.Finder finder.old lookback.old b newest → Heard C.Cell F.Finder symbol s → Occur C.Cell.hears result b (s ∷ newest) }
{
    let ended = spot::<C, F>(finder, symbol);
    lookback.step(ended)
}

/// Forgets every tick: the finder's runs, and what the ring shows.
pub fn clear<C: Cell, F: Finder<C>>(finder: &mut F, lookback: &mut Lookback)
    ensures { (b : Book C) (newest : List C.Sample) → Sees C.Cell F.Finder finder.old lookback.old b newest → Sees C.Cell F.Finder finder.new lookback.new b [] }
{
    lookback.clear();
    restart::<C, F>(finder)
}
