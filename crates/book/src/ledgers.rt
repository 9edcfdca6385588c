// A book's tables of lines and keywords.
ghost use Rattle.std.specs.Prelude.{◌≡◌, ◌≤◌, true, map, length};
ghost use Rattle.std.specs.List.{list_all};
ghost use Rattle.book.specs.Layout.{lines_laid, keywords_laid, opened, line_ok, keyword_ok, distinct};
ghost use Rattle.book.specs.Tables.{items};

use crate::rows::{KeywordRow, LineRow};
use crate::tables::Table;

/// The tables, and how many cells are in use. They hold no reference, so that a book can move as a whole.
#[derive(Clone, Copy)]
pub struct Ledger {
    pub(crate) lines: Table<LineRow, 128>,
    pub(crate) keywords: Table<KeywordRow, 512>,
    pub(crate) cell_count: usize,
    ghost few: { (length (items lines) ≤ 128) × (length (items keywords) ≤ 512) × (cell_count ≤ 1023) },
    // each line's keywords follow those of the line before, and each keyword's cells those of the keyword before
    ghost joined: { lines_laid (items lines) 0 (length (items keywords)) ≡ true },
    ghost laid: { keywords_laid (items keywords) 0 cell_count ≡ true },
    // the first keyword of a line has no gap before it
    ghost openings: { opened (items lines) (items keywords) ≡ true },
    ghost proper: { list_all line_ok (items lines) ≡ true },
    ghost sized: { list_all keyword_ok (items keywords) ≡ true },
    ghost apart: { distinct (map (λ l. l.number) (items lines)) ≡ true },
}
