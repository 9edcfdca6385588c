// A page of rows, entered one by one.
ghost use Rattle.std.specs.Prelude.{◌≡◌};
ghost use Rattle.book.specs.Stored.{open_book};
ghost use Rattle.page.specs.Page.{fault_at, page_answer, page_book, page_cells};
ghost use Rattle.page.specs.Writing.{ReadsBack, EntersLines};

use crate::drafts::Draft;
use crate::entering::enter_draft;
use crate::faults::{Fault, Flaw};
use book::open::OpenBook;
use cells::letters::LetterCell;
use inputs::split_row;

impl Flaw {
    // The flaw of a row of the page. No `From`, since the row's number comes beside it.
    fn at(self, row: usize) -> Fault
        ensures { result ≡ fault_at row self }
    {
        Fault {
            refusal: self.refusal,
            layer: self.layer,
            row,
            column: self.column,
        }
    }
}

/// Enters the rows of a page one by one, up to the first bad one. The rows before it stay entered.
/// A line within its limits that is written as a row is read back as that line, and a page of such rows does what
/// entering the lines in turn does.
pub fn enter_page(book: &mut OpenBook<'_, LetterCell>, page: &[u8]) -> Result<(), Fault>
    ensures answer { result ≡ page_answer (open_book book.old) book.old.cells.now page.now }
    ensures book { open_book book.new ≡ page_book (open_book book.old) book.old.cells.now page.now }
    ensures memory { book.new.cells.now ≡ page_cells (open_book book.old) book.old.cells.now page.now }
    ensures lender { book.new.cells.ghost_name ≡ book.old.cells.ghost_name }
    ensures read_back { ReadsBack }
    ensures lines { EntersLines }
{
    let mut rest = page;
    let mut number = 1;
    // The rows and the blocks of their keywords are nested loops, which a flaw leaves by label.
    'rows: loop {
        if rest.is_empty() {
            break 'rows Ok(());
        }
        let (row, behind) = split_row(rest);
        let mut draft = match Draft::open(row) {
            Ok(draft) => draft,
            Err(flaw) => break 'rows Err(flaw.at(number)),
        };
        'blocks: loop {
            if draft.is_whole() {
                break 'blocks;
            }
            if let Err(flaw) = draft.read_keyword() {
                break 'rows Err(flaw.at(number));
            }
        }
        if let Err(flaw) = enter_draft(book, &draft) {
            break 'rows Err(flaw.at(number));
        }
        rest = behind;
        number += 1;
    }
}
