// How a row is read into a draft.
ghost use Rattle.std.specs.Prelude.{◌≡◌, ◌+◌, ◌<◌, ◌==◌, [], length, Some, MatchResult};
ghost use Rattle.page.specs.Columns.{keywords_in};
ghost use Rattle.page.specs.Flaws.{row_flaw};

use crate::drafts::Draft;
use crate::faults::Flaw;
use crate::rows::Row;
use arrayvec::ArrayVec;

impl<'r> Draft<'r> {
    // Reads what stands before the keywords.
    pub(crate) fn open(bytes: &'r [u8]) -> Result<Draft<'r>, Flaw>
        ensures { MatchResult result (λ d. (d.row.bytes.now ≡ bytes.now) × (d.lengths.items ≡ [])) (λ f. row_flaw bytes.now ≡ Some f) }
    {
        let row = Row::new(bytes)?;
        let number = row.field(1, 3).decimal()?;
        let points = row.field(4, 5).points()?;
        let lag = row.field(9, 3).decimal()?;
        Ok(Draft {
            row,
            number,
            points,
            lag,
            lengths: ArrayVec::new(),
            gaps: ArrayVec::new(),
            cells: ArrayVec::new(),
        })
    }

    // Whether all keywords of the row have been read.
    pub(crate) fn is_whole(&self) -> bool
        ensures { result ≡ (length self.now.lengths.items == keywords_in (length self.now.row.bytes.now)) }
    {
        self.lengths.len() == self.row.keywords()
    }

    // Reads the next keyword: its gap, its blank and its letters.
    pub(crate) fn read_keyword(&mut self) -> Result<(), Flaw>
        requires { length self.old.lengths.items < keywords_in (length self.old.row.bytes.now) }
        ensures { MatchResult result (λ _. (self.new.row.bytes.now ≡ self.old.row.bytes.now) × (length self.new.lengths.items ≡ length self.old.lengths.items + 1)) (λ f. row_flaw self.old.row.bytes.now ≡ Some f) }
    {
        let keyword = self.lengths.len();
        let gap = self.row.gap(keyword)?;
        self.row.field(16 + 21 * keyword, 1).check_blank()?;
        let letters = self.row.field(17 + 21 * keyword, 16).letters()?;
        self.lengths.push(letters.len() as u16);
        self.gaps.push(gap);
        self.cells
            .try_extend_from_slice(letters.as_slice())
            .unwrap();
        Ok(())
    }
}
