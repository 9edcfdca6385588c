// How links are made of a book's rows.
ghost use Rattle.std.specs.Prelude.{◌≡◌, ℕ, ◌+◌, ◌<◌, ◌≤◌, List, length};
ghost use Rattle.book.specs.Proper.{AllFit, Fits};
ghost use Rattle.columns.specs.Marks.{mark};
ghost use Rattle.lookback.specs.Prefixes.{opens, reach};
ghost use Rattle.lookback.specs.Linked.{LinkedTo};

use crate::links::Links;
use book::rows::{KeywordRow, LineRow};
use columns::marks::Column;
use columns::numbers::Numbers;

// The first keywords of lines.
fn first_keywords(lines: &[LineRow]) -> Column
    ensures { (k : ℕ) → k < 512 → mark result k ≡ opens lines.now k }
{
    let mut firsts = Column::none();
    for line in lines {
        firsts = firsts.with(line.first as usize);
    }
    firsts
}

// Which keywords the links are of is said by each function, since the links do not hold the keywords.
impl Links {
    // One more keyword: it opens its line, or follows the one before it.
    fn link(&mut self, before: usize, row: KeywordRow)
        requires { (before < 511) × Fits row }
        ensures { (lines : List LineRow) (keywords : List KeywordRow) → LinkedTo self.old lines keywords (before + 1) → reach keywords (before + 1) ≡ row.gap + row.length → LinkedTo self.new lines keywords (before + 2) }
    {
        if !self.firsts.has(before + 1) {
            let distance = row.gap + row.length;
            let at = distance as usize % 128;
            self.near.insert(distance);
            self.follow[at] = self.follow[at].with(before);
        }
    }

    // The links of a book's keywords.
    pub(crate) fn of(lines: &[LineRow], keywords: &[KeywordRow]) -> Links
        requires fit { AllFit keywords.now }
        requires few { length keywords.now ≤ 512 }
        ensures { LinkedTo result lines.now keywords.now (length keywords.now) }
    {
        let mut links = Links {
            firsts: first_keywords(lines),
            follow: [Column::none(); 128],
            near: Numbers::none(),
        };
        for (before, row) in keywords.iter().skip(1).enumerate() {
            links.link(before, *row);
        }
        links
    }
}
