// One tick of the look-back ring.
ghost use Rattle.std.specs.Prelude.{◌≡◌, ℕ, ◌+◌, ◌<◌, ◌≤◌, Bool, false, List, [], ◌∷◌, length};
ghost use Rattle.book.specs.declared.rows.LineRow.{LineRow};
ghost use Rattle.book.specs.declared.rows.KeywordRow.{KeywordRow};
ghost use Rattle.book.specs.Proper.{AllFit, Proper};
ghost use Rattle.book.specs.Rows.{line_rows, keyword_rows};
ghost use Rattle.columns.specs.Marks.{mark};
ghost use Rattle.lookback.specs.Apart.{OwnMarks};
ghost use Rattle.lookback.specs.Linked.{LinkedTo};
ghost use Rattle.lookback.specs.Represented.{Represents, looked_back};
ghost use Rattle.lookback.specs.Ticking.{Shows, Ticks};

use crate::distances::Distances;
use crate::links::Links;
use crate::lookbacks::Lookback;
use cells::kinds::Cell;
use columns::marks::Column;
use finders::finding::Finder;

impl Lookback {
    /// A ring for the keywords that a finder spots, before the first tick.
    pub fn new<C: Cell, F: Finder<C>>(finder: &F) -> Lookback
        ensures ring { Represents result (line_rows (F.Finder.book finder.now)) (keyword_rows (F.Finder.book finder.now)) [] }
        ensures proper { Proper (F.Finder.book finder.now) }
    {
        let links = Links::of(finder.lines(), finder.keywords());
        Lookback::over(links)
    }

    // A ring over links, before the first tick.
    fn over(links: Links) -> Lookback
        ensures { (lines : List LineRow) (keywords : List KeywordRow) → LinkedTo links lines keywords (length keywords) → AllFit keywords → Represents result lines keywords [] }
    {
        Lookback {
            links,
            near: Distances::of(links.near),
            ring: [Column::none(); 128],
            newest: 0,
        }
    }

    // What the distances in use show, looking back from a slot.
    fn look_back(&self, from: usize) -> Column
        requires { from < 128 }
        ensures { (k : ℕ) → mark result k ≡ looked_back self.now from k }
    {
        let mut seen = Column::none();
        for distance in self.near.as_slice() {
            let distance = *distance as usize;
            let column = self.ring[(from + 256 - distance) % 128];
            seen = seen.or(column.and(self.links.follow[distance % 128]));
        }
        seen
    }

    // The column of the tick to come: keywords that end at it, each behind the rest of its prefix.
    fn next_column(&self, ended: Column) -> Column
        ensures { Shows self.now ended result }
    {
        let next = (self.newest + 1) % 128;
        let seen = self.look_back(next);
        seen.shifted().or(self.links.firsts).and(ended)
    }

    // Puts the newest column in the place of the oldest.
    fn store(&mut self, column: Column)
        ensures { (ended : Column) → Shows self.old ended column → Ticks self.old ended self.new }
    {
        let next = (self.newest + 1) % 128;
        self.ring[next] = column;
        self.newest = next;
    }

    /// Takes the keywords that ended at this tick, and answers those up to which a prefix of a line ends at it.
    pub fn step(&mut self, ended: Column) -> Column
        ensures shows { Shows self.old ended result }
        ensures ticks { Ticks self.old ended self.new }
    {
        let column = self.next_column(ended);
        self.store(column);
        column
    }

    /// Forgets every tick.
    pub fn clear(&mut self)
        ensures { (lines : List LineRow) (keywords : List KeywordRow) (past : List (ℕ → Bool)) → Represents self.old lines keywords past → Represents self.new lines keywords [] }
    {
        *self = Lookback::over(self.links);
    }

    /// How many columns there are. Packed side by side in them, the marks of one line never depend on another line's.
    pub fn columns(&self) -> usize
        ensures count { result ≡ 128 }
        ensures apart { OwnMarks }
    {
        self.ring.len()
    }
}
