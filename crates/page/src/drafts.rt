// A line as far as it has been read from its row.
ghost use Rattle.std.specs.Prelude.{◌≡◌, ◌*◌, ◌≤◌, length, drop, Some};
ghost use Rattle.page.specs.Columns.{number_field, points_field, lag_field, keywords_in};
ghost use Rattle.page.specs.Decimals.{decimal_in, points_in};
ghost use Rattle.page.specs.Flaws.{keyword_flaws, first_of, row_flaw};
ghost use Rattle.page.specs.Row.{lengths_up_to, gaps_up_to, cells_up_to};

use crate::rows::Row;
use arrayvec::ArrayVec;
use cells::letters::LetterCell;

pub(crate) mod reading;

/// The first keywords of a line, in whose columns no flaw was found: their lengths, the gap before each, 0 before the
/// first, and all their cells.
#[derive(Drop)]
pub(crate) struct Draft<'r> {
    pub(crate) row: Row<'r>,
    pub(crate) number: u16,
    pub(crate) points: i32,
    pub(crate) lag: u16,
    pub(crate) lengths: ArrayVec<u16, 16>,
    pub(crate) gaps: ArrayVec<u16, 16>,
    pub(crate) cells: ArrayVec<LetterCell, 256>,
    ghost few: { (length lengths.items ≤ keywords_in (length row.bytes.now)) × (length gaps.items ≡ length lengths.items) × (length cells.items ≤ 16 * length lengths.items) },
    ghost number_read: { decimal_in (number_field row.bytes.now) ≡ Some number },
    ghost points_read: { points_in (points_field row.bytes.now) ≡ Some points },
    ghost lag_read: { decimal_in (lag_field row.bytes.now) ≡ Some lag },
    ghost lengths_read: { lengths.items ≡ lengths_up_to row.bytes.now (length lengths.items) },
    ghost gaps_read: { gaps.items ≡ gaps_up_to row.bytes.now (length lengths.items) },
    ghost cells_read: { cells.items ≡ cells_up_to row.bytes.now (length lengths.items) },
    ghost flawless: { row_flaw row.bytes.now ≡ first_of (drop (length lengths.items) (keyword_flaws row.bytes.now)) },
}
