// One tick of a matcher.
ghost use Rattle.std.specs.Prelude.{◌≡◌, List, [], ◌∷◌};
ghost use Rattle.book.specs.Book.{Book};
ghost use Rattle.matching.specs.Seen.{Heard, Sees, Occur};

use crate::matchers::Matcher;
use crate::{clear, start, take};
use cells::kinds::Cell;
use columns::marks::Column;
use finders::finding::Finder;
use std::marker::PhantomData;

impl<C: Cell, F: Finder<C>> Matcher<C, F> {
    /// A matcher over a finder, which it takes over and clears.
    pub fn new(mut finder: F) -> Matcher<C, F>
        ensures { Sees C.Cell F.Finder result.finder result.lookback (F.Finder.book finder) [] }
    {
        let lookback = start::<C, F>(&mut finder);
        Matcher {
            finder,
            lookback,
            kind: PhantomData,
        }
    }

    /// Takes a symbol, and answers the column in which the mark of a line's last keyword tells whether the line occurs.
    pub fn take(&mut self, symbol: F::Symbol) -> Column
        ensures sees { (b : Book C) (newest : List C.Sample) (s : C.Sample) → Sees C.Cell F.Finder self.old.finder self.old.lookback b newest → Heard C.Cell F.Finder symbol s → Sees C.Cell F.Finder self.new.finder self.new.lookback b (s ∷ newest) }
        ensures occur { (b : Book C) (newest : List C.Sample) (s : C.Sample) → Sees C.Cell F.Finder self.old.finder self.old.lookback b newest → Heard C.Cell F.Finder symbol s → Occur C.Cell.hears result b (s ∷ newest) }
    {
        take::<C, F>(&mut self.finder, &mut self.lookback, symbol)
    }

    /// Forgets every tick.
    pub fn clear(&mut self)
        ensures { (b : Book C) (newest : List C.Sample) → Sees C.Cell F.Finder self.old.finder self.old.lookback b newest → Sees C.Cell F.Finder self.new.finder self.new.lookback b [] }
    {
        clear::<C, F>(&mut self.finder, &mut self.lookback);
    }
}
