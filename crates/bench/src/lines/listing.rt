// How the lines are taken down.
ghost use Rattle.std.specs.Prelude.{◌≡◌, ◌+◌, ◌≤◌, map, length, sum};
ghost use Rattle.bench.specs.Listed.{watched_row, row_span, Listable, ListableRow};

use crate::lines::Watched;
use arrayvec::ArrayVec;
use book::rows::{KeywordRow, LineRow};
use cells::kinds::Cell;
use occurrences::last_keyword;

// The cells of some keywords, and the gaps before them.
fn reach(keywords: &[KeywordRow]) -> u32
    requires { length keywords.now ≤ 255 }
    ensures { result ≡ sum (map (λ k. k.gap + k.length) keywords.now) }
{
    keywords
        .iter()
        .map(|k| k.gap as u32 + k.length as u32)
        .sum()
}

// The span of a line: the cells of its keywords and the gaps between them.
fn span(line: &LineRow, keywords: &[KeywordRow]) -> u32
    requires { line.now.first + line.now.keywords ≤ length keywords.now }
    ensures { result ≡ row_span keywords.now line.now }
{
    let first = line.first as usize;
    reach(&keywords[first..first + line.keywords as usize])
}

impl Watched {
    // A line by its rows.
    fn new<C: Cell>(line: &LineRow, keywords: &[KeywordRow]) -> Watched
        requires { ListableRow keywords.now line.now }
        ensures { result ≡ watched_row keywords.now line.now }
    {
        Watched {
            number: line.number,
            points: line.points as i16,
            lag: line.lag,
            last: last_keyword::<C>(line),
            span: span(line, keywords),
        }
    }
}

// The lines of a book by its rows, in entry order.
pub(crate) fn watched_lines<C: Cell>(
    lines: &[LineRow],
    keywords: &[KeywordRow],
) -> ArrayVec<Watched, 128>
    requires { Listable lines.now keywords.now }
    ensures { result.items ≡ map (watched_row keywords.now) lines.now }
{
    let mut all = ArrayVec::new();
    for line in lines {
        all.push(Watched::new::<C>(line, keywords));
    }
    all
}
