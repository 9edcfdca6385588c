// How a row is cut into fields, and what is read in them.
ghost use Rattle.std.specs.Prelude.{◌≡◌, ℕ, ◌+◌, ◌*◌, ◌<◌, ◌≤◌, length, Some, None, MatchResult};
ghost use Rattle.std.specs.Option.{ok_or};
ghost use Rattle.std.specs.Result.{result_err};
ghost use Rattle.refusals.specs.declared.Refusal.TheVariants.{BadDecimal};
ghost use Rattle.page.specs.Columns.{from_column, keywords_in};
ghost use Rattle.page.specs.Decimals.{decimal_in, points_in};
ghost use Rattle.page.specs.Flaws.{at_column, blank_flaw, gap_flaw, length_flaw, letter_flaw};
ghost use Rattle.page.specs.Letters.{letters_of};
ghost use Rattle.page.specs.Row.{gap_of};

use crate::faults::{Flaw, Layer};
use crate::fields::{count_blanks, first_bad, read_decimal, read_letters, read_points};
use crate::rows::{Field, Row};
use arrayvec::ArrayVec;
use cells::letters::LetterCell;
use refusals::Refusal;

// A refusal by the row's own bytes.
fn flaw(refusal: Refusal, column: usize) -> Flaw
    ensures { result ≡ at_column refusal column }
{
    Flaw {
        refusal,
        layer: Layer::Row,
        column,
    }
}

// How many keywords a row has room for.
fn count_keywords(row: &[u8]) -> usize
    ensures { result ≡ keywords_in (length row.now) }
{
    row.len().saturating_sub(11) / 21
}

impl<'r> Row<'r> {
    // A row by its length: 11 columns, and 21 for each of 1 to 16 keywords.
    pub(crate) fn new(bytes: &'r [u8]) -> Result<Row<'r>, Flaw>
        ensures { MatchResult result (λ r. (r.bytes.now ≡ bytes.now) × (length_flaw bytes.now ≡ None)) (λ f. length_flaw bytes.now ≡ Some f) }
    {
        let keywords = count_keywords(bytes);
        if (1..=16).contains(&keywords) && bytes.len() == 11 + 21 * keywords {
            Ok(Row { bytes })
        } else {
            Err(flaw(Refusal::RowLength, bytes.len() + 1))
        }
    }

    // How many keywords it has.
    pub(crate) fn keywords(&self) -> usize
        ensures { result ≡ keywords_in (length self.now.bytes.now) }
    {
        count_keywords(self.bytes)
    }

    // So many bytes of it, from a column on.
    pub(crate) fn field(&self, column: usize, width: usize) -> Field<'r>
        requires { (1 ≤ column) × (column + width ≤ length self.now.bytes.now + 1) }
        ensures bytes { result.bytes.now ≡ from_column column width self.now.bytes.now }
        ensures long { length result.bytes.now ≡ width }
        ensures column { result.column ≡ column }
    {
        let from = column - 1;
        Field {
            column,
            bytes: &self.bytes[from..from + width],
        }
    }

    // The gap before a keyword.
    pub(crate) fn gap(&self, keyword: usize) -> Result<u16, Flaw>
        requires { keyword < keywords_in (length self.now.bytes.now) }
        ensures { MatchResult result (λ g. (g ≡ gap_of self.now.bytes.now keyword) × (gap_flaw self.now.bytes.now keyword ≡ None)) (λ f. gap_flaw self.now.bytes.now keyword ≡ Some f) }
    {
        let field = self.field(12 + 21 * keyword, 4);
        if keyword == 0 {
            field.check_blank()?;
            Ok(0)
        } else {
            field.decimal()
        }
    }
}

impl Field<'_> {
    // The decimal in it.
    pub(crate) fn decimal(&self) -> Result<u16, Flaw>
        requires { length self.now.bytes.now ≤ 4 }
        ensures { result ≡ ok_or (decimal_in self.now.bytes.now) (at_column BadDecimal self.now.column) }
    {
        read_decimal(self.bytes).ok_or(flaw(Refusal::BadDecimal, self.column))
    }

    // The points in it. The line is that of `decimal`, with another reading; a third function for both would be longer.
    pub(crate) fn points(&self) -> Result<i32, Flaw>
        requires { length self.now.bytes.now ≤ 5 }
        ensures { result ≡ ok_or (points_in self.now.bytes.now) (at_column BadDecimal self.now.column) }
    {
        read_points(self.bytes).ok_or(flaw(Refusal::BadDecimal, self.column))
    }

    // Whether it is blank.
    pub(crate) fn check_blank(&self) -> Result<(), Flaw>
        ensures { result_err result ≡ blank_flaw self.now.column self.now.bytes.now }
    {
        let blanks = count_blanks(self.bytes);
        if blanks == self.bytes.len() {
            Ok(())
        } else {
            Err(flaw(Refusal::BadKeyword, self.column + blanks))
        }
    }

    // The cells of its letters, one or more, behind which it is blank.
    pub(crate) fn letters(&self) -> Result<ArrayVec<LetterCell, 16>, Flaw>
        requires { length self.now.bytes.now ≤ 16 }
        ensures { MatchResult result (λ cells. (cells.items ≡ letters_of self.now.bytes.now) × (letter_flaw self.now.column self.now.bytes.now ≡ None)) (λ f. letter_flaw self.now.column self.now.bytes.now ≡ Some f) }
    {
        let cells = read_letters(self.bytes);
        match first_bad(self.bytes, cells.len()) {
            None => Ok(cells),
            Some(bad) => Err(flaw(Refusal::BadKeyword, self.column + bad)),
        }
    }
}
