// The worked example: three lines, and one that is refused.
use arrayvec::ArrayVec;
use book::entries::Entry;
use book::open::OpenBook;
use cells::letters::LetterCell;
use refusals::Refusal;

/// Lines 5, 7 and 9, in letters; then a second line 5, which the book refuses.
pub(crate) const LINES: [Entry<'static, u8>; 4] = [
    Entry {
        number: 5,
        points: 30,
        lag: 0,
        lengths: &[2, 1],
        gaps: &[2],
        cells: b"ABC",
    },
    Entry {
        number: 7,
        points: -10,
        lag: 3,
        lengths: &[1, 1],
        gaps: &[2],
        cells: b"BC",
    },
    Entry {
        number: 9,
        points: 5,
        lag: 0,
        lengths: &[1, 1],
        gaps: &[0],
        cells: b"CC",
    },
    Entry {
        number: 5,
        points: 1,
        lag: 0,
        lengths: &[1],
        gaps: &[],
        cells: b"P",
    },
];

/// The worked example's trace.
pub(crate) const TRACE: &[u8] = b"ABDDCABCC";

/// Enters a line of at most 16 letters. A byte that is no letter refuses it too.
pub(crate) fn enter(
    book: &mut OpenBook<'_, LetterCell>,
    line: Entry<'_, u8>,
) -> Result<(), Refusal> {
    let mut cells: ArrayVec<LetterCell, 16> = ArrayVec::new();
    for letter in line.cells {
        if cells.try_push(LetterCell::new(*letter)?).is_err() {
            break;
        }
    }
    book.enter(Entry {
        number: line.number,
        points: line.points,
        lag: line.lag,
        lengths: line.lengths,
        gaps: line.gaps,
        cells: &cells,
    })
}
