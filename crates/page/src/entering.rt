// How the line of a row is entered.
ghost use Rattle.std.specs.Prelude.{◌≡◌, ◌≤◌, length, Some, Err};
ghost use Rattle.std.specs.Result.{result_err};
ghost use Rattle.std.specs.List.{prefix_len};
ghost use Rattle.book.specs.Entering.{enter_answer, entered, cells_after};
ghost use Rattle.book.specs.Rules.{gap_ok};
ghost use Rattle.book.specs.Stored.{open_book, places};
ghost use Rattle.page.specs.Drafts.{draft_request};
ghost use Rattle.page.specs.Told.{book_column, book_flaw};

use crate::drafts::Draft;
use crate::faults::{Flaw, Layer};
use book::entries::Entry;
use book::open::OpenBook;
use cells::letters::LetterCell;
use refusals::Refusal;

const LONGEST_GAP: u16 = 112;

// How many gaps stand before the first that is too long.
fn count_fitting(gaps: &[u16]) -> usize
    ensures count { result ≡ prefix_len gap_ok gaps.now }
    ensures within { result ≤ length gaps.now }
{
    gaps.iter().take_while(|gap| **gap <= LONGEST_GAP).count()
}

// The column that a refusal by the book speaks of.
fn column_of(refusal: Refusal, gaps: &[u16]) -> usize
    requires { length gaps.now ≤ 15 }
    ensures { result ≡ book_column gaps.now refusal }
{
    match refusal {
        Refusal::NumberOutOfRange | Refusal::NumberTaken => 1,
        Refusal::PointsOutOfRange => 4,
        Refusal::LagTooLong => 9,
        Refusal::GapTooLong => 12 + 21 * (1 + count_fitting(gaps)),
        _ => 12,
    }
}

// The flaw of a line that the book refuses.
fn refused(refusal: Refusal, gaps: &[u16]) -> Flaw
    requires { length gaps.now ≤ 15 }
    ensures { Some result ≡ book_flaw gaps.now (Err refusal) }
{
    Flaw {
        refusal,
        layer: Layer::Book,
        column: column_of(refusal, gaps),
    }
}

// Enters a line that has been read whole.
pub(crate) fn enter_draft(
    book: &mut OpenBook<'_, LetterCell>,
    draft: &Draft<'_>,
) -> Result<(), Flaw>
    requires { 1 ≤ length draft.now.lengths.items }
    ensures answer { result_err result ≡ book_flaw (draft_request draft.now).gaps (enter_answer (open_book book.old) (places book.old) (draft_request draft.now)) }
    ensures book { open_book book.new ≡ entered (open_book book.old) (places book.old) (draft_request draft.now) }
    ensures memory { book.new.cells.now ≡ cells_after (open_book book.old) book.old.cells.now (draft_request draft.now) }
    ensures lender { book.new.cells.ghost_name ≡ book.old.cells.ghost_name }
{
    let gaps = &draft.gaps[1..];
    let entry = Entry {
        number: draft.number,
        points: draft.points,
        lag: draft.lag,
        lengths: draft.lengths.as_slice(),
        gaps,
        cells: draft.cells.as_slice(),
    };
    book.enter(entry).map_err(|refusal| refused(refusal, gaps))
}
