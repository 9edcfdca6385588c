// How an open book takes lines.
ghost use Rattle.std.specs.Prelude.{◌≡◌, ℕ, ◌+◌, ◌<◌, ◌≤◌, true, false, not, ◌&&◌, [], ◌∷◌, ◌++◌, length, ◌==◌, slice_index};
ghost use Rattle.std.specs.List.{list_all, list_any};
ghost use Rattle.book.specs.Book.{has_number};
ghost use Rattle.book.specs.Cutting.{total, filled};
ghost use Rattle.book.specs.Admitted.{Admitted, Writable, line_row};
ghost use Rattle.book.specs.Entering.{request, counts_ok, lengths_ok, has_room, judged, enter_answer, entered, cells_after};
ghost use Rattle.book.specs.Rows.{keyword_rows_from};
ghost use Rattle.book.specs.Rules.{within, points_ok};
ghost use Rattle.book.specs.Stored.{open_book, sealed_book, places};
ghost use Rattle.book.specs.Tables.{items};

use crate::entries::Entry;
use crate::ledgers::Ledger;
use crate::open::OpenBook;
use crate::rows::{Counts, KeywordRow, LineRow};
use crate::sealed::SealedBook;
use crate::tables::Table;
use cells::kinds::Cell;
use refusals::Refusal;

// Whether each of some numbers lies from a lowest to a highest, ends counted.
fn all_within(numbers: &[u16], lowest: u16, highest: u16) -> bool
    ensures { result ≡ list_all (within lowest highest) numbers.now }
{
    numbers
        .iter()
        .all(|number| (lowest..=highest).contains(number))
}

// Whether numbers add up to a sum.
fn add_up_to(numbers: &[u16], sum: usize) -> bool
    requires { length numbers.now ≤ 16 }
    ensures { result ≡ (total numbers.now == sum) }
{
    numbers.iter().map(|n| usize::from(*n)).sum::<usize>() == sum
}

// Refuses where a rule does not hold.
fn ensure(holds: bool, refusal: Refusal) -> Result<(), Refusal>
    ensures { result ≡ judged ((holds, refusal) ∷ []) }
{
    holds.then_some(()).ok_or(refusal)
}

// Copies cells into a memory, from a place on.
fn fill<C: Cell>(memory: &mut [C], at: usize, cells: &[C])
    requires { at + length cells.now ≤ length memory.old }
    ensures { memory.new ≡ filled memory.old at cells.now }
{
    memory[at..at + cells.len()].copy_from_slice(cells);
}

impl<C: Cell> Entry<'_, C> {
    // Whether there are 1 to 16 keywords and one gap fewer.
    fn counts_match(&self) -> bool
        ensures { result ≡ counts_ok (request self.now) }
    {
        let keywords = self.lengths.len();
        (1..=16).contains(&keywords) && self.gaps.len() == keywords - 1
    }

    // Whether the points are within their limits.
    fn points_fit(&self) -> bool
        ensures { result ≡ points_ok self.now.points }
    {
        (-999..=999).contains(&self.points)
    }

    // Whether the keywords have 1 to 16 cells each and make up the cells given.
    fn lengths_match(&self) -> bool
        requires { length self.now.lengths.now ≤ 16 }
        ensures { result ≡ lengths_ok (request self.now) }
    {
        all_within(self.lengths, 1, 16) && add_up_to(self.lengths, self.cells.len())
    }

    // The row of the line, whose first keyword has that position.
    fn row(&self, first: usize) -> LineRow
        requires { (self.now.number ≤ 128) × (self.now.lag ≤ 63) × (length self.now.lengths.now ≤ 16) × (first ≤ 512) }
        ensures { result ≡ line_row first (request self.now) }
    {
        LineRow {
            number: self.number as u8,
            points: self.points,
            lag: self.lag as u8,
            first: first as u16,
            keywords: self.lengths.len() as u8,
        }
    }

    // The gap before a keyword: none before the first.
    fn gap_before(&self, keyword: usize) -> u16
        requires { keyword ≤ length self.now.gaps.now }
        ensures { result ≡ slice_index (0 ∷ self.now.gaps.now) keyword }
    {
        if keyword == 0 {
            0
        } else {
            self.gaps[keyword - 1]
        }
    }

    // Puts a row for each keyword behind some rows, the cells from a place on.
    fn push_keywords(&self, rows: &mut Table<KeywordRow, 512>, place: usize)
        requires { Writable (length (items rows.old)) place self.now.lengths.now self.now.gaps.now }
        ensures { items rows.new ≡ items rows.old ++ keyword_rows_from place (0 ∷ self.now.gaps.now) self.now.lengths.now }
    {
        let mut first = place;
        // An index, since the gap before a keyword stands in another slice, which has none before the first.
        for (i, length) in self.lengths.iter().enumerate() {
            let gap = self.gap_before(i);
            rows.push(KeywordRow {
                gap: gap as u8,
                first: first as u16,
                length: *length as u8,
            });
            first += usize::from(*length);
        }
    }
}

impl Ledger {
    // Tables with nothing in them. Written out, since no default is derived for a struct with ghost fields.
    fn new() -> Ledger
        ensures lines { items result.lines ≡ [] }
        ensures keywords { items result.keywords ≡ [] }
        ensures cells { result.cell_count ≡ 0 }
    {
        Ledger {
            lines: Table::new(),
            keywords: Table::new(),
            cell_count: 0,
        }
    }

    // How much there is of each.
    pub(crate) fn counts(&self) -> Counts
        ensures lines { result.lines ≡ length (items self.now.lines) }
        ensures keywords { result.keywords ≡ length (items self.now.keywords) }
        ensures cells { result.cells ≡ self.now.cell_count }
    {
        Counts {
            lines: self.lines.len(),
            keywords: self.keywords.len(),
            cells: self.cell_count,
        }
    }

    // Whether there is a line of that number.
    pub(crate) fn has_number(&self, number: u16) -> bool
        ensures { result ≡ list_any (λ l. l.number == number) (items self.now.lines) }
    {
        self.lines
            .iter()
            .any(|line| u16::from(line.number) == number)
    }

    // The line goes behind the others.
    fn push<C: Cell>(&mut self, entry: &Entry<'_, C>)
        requires { Admitted self.old (request entry.now) }
        ensures lines { items self.new.lines ≡ items self.old.lines ++ line_row (length (items self.old.keywords)) (request entry.now) ∷ [] }
        ensures keywords { items self.new.keywords ≡ items self.old.keywords ++ keyword_rows_from self.old.cell_count (0 ∷ entry.now.gaps.now) entry.now.lengths.now }
        ensures cells { self.new.cell_count ≡ self.old.cell_count + length entry.now.cells.now }
    {
        let used = self.counts();
        entry.push_keywords(&mut self.keywords, used.cells);
        self.lines.push(entry.row(used.keywords));
        self.cell_count += entry.cells.len();
    }
}

impl<'a, C: Cell> OpenBook<'a, C> {
    /// An empty book over the caller's memory.
    #[tactic(auto, unfolding(crate::specs::Stored::held))]
    pub fn new(cells: &'a mut [C]) -> OpenBook<'a, C>
        ensures book { open_book result ≡ [] }
        ensures memory { result.cells.now ≡ cells.old }
        ensures lender { result.cells.ghost_name ≡ cells.entry.ghost_name }
    {
        let ledger = Ledger::new();
        OpenBook { cells, ledger }
    }

    // Whether no line has that number.
    #[tactic(auto, using(crate::proofs::Holdings::held_has_number))]
    fn is_free(&self, number: u16) -> bool
        ensures { result ≡ not (has_number number (open_book self.now)) }
    {
        !self.ledger.has_number(number)
    }

    // Whether there is room for the keywords and cells of an entry.
    #[tactic(auto, using(crate::proofs::Holdings::held_keyword_count, crate::proofs::Holdings::held_cell_count))]
    fn has_room(&self, entry: &Entry<'_, C>) -> bool
        ensures { result ≡ has_room (open_book self.now) (places self.now) (request entry.now) }
    {
        let keywords = self.ledger.keywords.remaining_capacity();
        let cells = self.cells.len().min(1023) - self.ledger.counts().cells;
        entry.lengths.len() <= keywords && entry.cells.len() <= cells
    }

    // Whether the book takes an entry: the refusal of the first rule that it breaks.
    fn judge(&self, entry: &Entry<'_, C>) -> Result<(), Refusal>
        ensures { result ≡ enter_answer (open_book self.now) (places self.now) (request entry.now) }
    {
        ensure((1..=128).contains(&entry.number), Refusal::NumberOutOfRange)?;
        ensure(self.is_free(entry.number), Refusal::NumberTaken)?;
        ensure(entry.points_fit(), Refusal::PointsOutOfRange)?;
        ensure(entry.lag <= 63, Refusal::LagTooLong)?;
        ensure(entry.counts_match(), Refusal::KeywordCount)?;
        ensure(entry.lengths_match(), Refusal::KeywordLength)?;
        ensure(all_within(entry.gaps, 0, 112), Refusal::GapTooLong)?;
        ensure(self.has_room(entry), Refusal::BookFull)
    }

    // The line goes behind the others, and its cells into the next free places.
    fn place(&mut self, entry: &Entry<'_, C>)
        requires { enter_answer (open_book self.old) (places self.old) (request entry.now) ≡ Ok tt }
        ensures book { open_book self.new ≡ entered (open_book self.old) (places self.old) (request entry.now) }
        ensures memory { self.new.cells.now ≡ cells_after (open_book self.old) self.old.cells.now (request entry.now) }
        ensures lender { self.new.cells.ghost_name ≡ self.old.cells.ghost_name }
    {
        fill(self.cells, self.ledger.cell_count, entry.cells);
        self.ledger.push(entry);
    }

    /// Enters a line behind the others, or refuses it and changes nothing.
    pub fn enter(&mut self, entry: Entry<'_, C>) -> Result<(), Refusal>
        ensures answer { result ≡ enter_answer (open_book self.old) (places self.old) (request entry.entry) }
        ensures book { open_book self.new ≡ entered (open_book self.old) (places self.old) (request entry.entry) }
        ensures memory { self.new.cells.now ≡ cells_after (open_book self.old) self.old.cells.now (request entry.entry) }
        ensures lender { self.new.cells.ghost_name ≡ self.old.cells.ghost_name }
    {
        self.judge(&entry)?;
        self.place(&entry);
        Ok(())
    }

    /// From here on the book takes no line.
    pub fn seal(self) -> SealedBook<'a, C>
        ensures { sealed_book result ≡ open_book self.entry }
    {
        let OpenBook { cells, ledger } = self;
        SealedBook { cells, ledger }
    }
}
