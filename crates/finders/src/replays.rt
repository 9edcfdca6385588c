// What a finder has found after many symbols.
ghost use Rattle.std.specs.Prelude.{◌≡◌, ℕ, false};
ghost use Rattle.book.specs.Book.{Book};
ghost use Rattle.finders.specs.Latest.{run};

use crate::finding::Finder;
use cells::kinds::Cell;

// Gives symbols in turn to a finder without a run.
fn take_all<C: Cell, F: Finder<C>>(finder: &mut F, symbols: &[F::Symbol])
    requires { (p : ℕ) → F.Finder.stands finder.old p ≡ false }
    ensures book { F.Finder.book finder.new ≡ F.Finder.book finder.old }
    ensures stands { (b : Book C) → F.Finder.book finder.old ≡ b → (p : ℕ) → F.Finder.stands finder.new p ≡ run F.Finder.admits b symbols.now p }
{
    for symbol in symbols {
        finder.take(*symbol);
    }
}

/// Clears a finder and gives it symbols in turn. Whichever finder it is, a run then stands at a place exactly when the
/// keyword's cells up to that place admit the latest symbols, one for one, the cell there the newest.
pub fn replay<C: Cell, F: Finder<C>>(finder: &mut F, symbols: &[F::Symbol])
    ensures book { F.Finder.book finder.new ≡ F.Finder.book finder.old }
    ensures stands { (p : ℕ) → F.Finder.stands finder.new p ≡ run F.Finder.admits (F.Finder.book finder.old) symbols.now p }
{
    finder.clear();
    take_all::<C, F>(finder, symbols);
}
