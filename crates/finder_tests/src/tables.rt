// The table: lines, a trace, and the keywords that have ended at each tick.
use book::entries::Entry;
use book::open::OpenBook;
use cells::bands::{BandCell, Bounds, Gauges};
use cells::kinds::Cell;
use cells::letters::LetterCell;
use finders::finding::Finder;
use refusals::Refusal;

/// A line: its points and lag do not matter here.
#[derive(Drop)]
pub(crate) struct Line<T: 'static> {
    pub(crate) number: u16,
    pub(crate) lengths: &'static [u16],
    pub(crate) gaps: &'static [u16],
    pub(crate) cells: &'static [T],
}

/// A case: at tick t, counted from 0, just the keywords `ended[t]` have ended.
#[derive(Drop)]
pub(crate) struct Case<T: 'static, S: 'static> {
    pub(crate) lines: &'static [Line<T>],
    pub(crate) trace: &'static [S],
    pub(crate) ended: &'static [&'static [usize]],
}

pub(crate) static LETTER_CASES: [Case<u8, u8>; 5] = [
    // a book without lines
    Case {
        lines: &[],
        trace: b"ABC",
        ended: &[&[], &[], &[]],
    },
    // the worked example: AB C, B C, C C
    Case {
        lines: &[
            Line {
                number: 5,
                lengths: &[2, 1],
                gaps: &[2],
                cells: b"ABC",
            },
            Line {
                number: 7,
                lengths: &[1, 1],
                gaps: &[2],
                cells: b"BC",
            },
            Line {
                number: 9,
                lengths: &[1, 1],
                gaps: &[0],
                cells: b"CC",
            },
        ],
        trace: b"ABDDCABCC",
        ended: &[
            &[],
            &[0, 2],
            &[],
            &[],
            &[1, 3, 4, 5],
            &[],
            &[0, 2],
            &[1, 3, 4, 5],
            &[1, 3, 4, 5],
        ],
    },
    // keywords that overlap themselves and end inside one another
    Case {
        lines: &[
            Line {
                number: 1,
                lengths: &[3],
                gaps: &[],
                cells: b"ABA",
            },
            Line {
                number: 2,
                lengths: &[2],
                gaps: &[],
                cells: b"BA",
            },
            Line {
                number: 3,
                lengths: &[1],
                gaps: &[],
                cells: b"A",
            },
        ],
        trace: b"ABABAA",
        ended: &[&[2], &[], &[0, 1, 2], &[], &[0, 1, 2], &[2]],
    },
    // neighbours: the last letter of one keyword and the first of the next make no keyword
    Case {
        lines: &[Line {
            number: 1,
            lengths: &[2, 2],
            gaps: &[0],
            cells: b"ABCD",
        }],
        trace: b"ABCDBCD",
        ended: &[&[], &[0], &[], &[1], &[], &[], &[1]],
    },
    // the longest keyword, all alike
    Case {
        lines: &[Line {
            number: 128,
            lengths: &[16],
            gaps: &[],
            cells: b"PPPPPPPPPPPPPPPP",
        }],
        trace: b"PPPPPPPPPPPPPPPPP",
        ended: &[
            &[],
            &[],
            &[],
            &[],
            &[],
            &[],
            &[],
            &[],
            &[],
            &[],
            &[],
            &[],
            &[],
            &[],
            &[],
            &[0],
            &[0],
        ],
    },
];

/// Lowest and highest rpm, lowest and highest oil.
pub(crate) type Band = (u16, u16, u16, u16);

const CRANKING: Band = (100, 200, 0, 9999);

const RUNNING: Band = (600, 900, 150, 9999);

pub(crate) static BAND_CASES: [Case<Band, Gauges>; 2] = [
    Case {
        lines: &[Line {
            number: 1,
            lengths: &[2],
            gaps: &[],
            cells: &[CRANKING, RUNNING],
        }],
        trace: &[
            Gauges { rpm: 100, oil: 0 },
            Gauges { rpm: 900, oil: 150 },
            Gauges { rpm: 900, oil: 150 },
        ],
        ended: &[&[], &[0], &[]],
    },
    Case {
        lines: &[Line {
            number: 1,
            lengths: &[2],
            gaps: &[],
            cells: &[CRANKING, RUNNING],
        }],
        trace: &[
            Gauges { rpm: 99, oil: 0 },
            Gauges { rpm: 900, oil: 150 },
            Gauges { rpm: 200, oil: 0 },
            Gauges { rpm: 600, oil: 149 },
        ],
        ended: &[&[], &[], &[], &[]],
    },
];

/// The cell of a letter, as the table writes it.
pub(crate) fn letter(byte: u8) -> Result<LetterCell, Refusal> {
    LetterCell::new(byte)
}

/// The cell of a band, as the table writes it.
pub(crate) fn band(
    (rpm_lowest, rpm_highest, oil_lowest, oil_highest): Band,
) -> Result<BandCell, Refusal> {
    let rpm = Bounds::new(rpm_lowest, rpm_highest)?;
    let oil = Bounds::new(oil_lowest, oil_highest)?;
    Ok(BandCell::new(rpm, oil))
}

// Enters a line. `made` makes a cell of what the table writes for it, in room that is lent for the cells of a line.
fn enter_line<T: Copy, C: Cell, F: Fn(T) -> Result<C, Refusal>>(
    book: &mut OpenBook<'_, C>,
    line: &Line<T>,
    room: &mut [C],
    made: &F,
) -> Result<(), Refusal>
    requires { F.IsAlwaysCallable made.now }
{
    for (place, written) in room.iter_mut().zip(line.cells) {
        *place = made(*written)?;
    }
    let cells = &room[..line.cells.len().min(room.len())];
    book.enter(Entry {
        number: line.number,
        points: 0,
        lag: 0,
        lengths: line.lengths,
        gaps: line.gaps,
        cells,
    })
}

/// Whether all lines were entered.
pub(crate) fn enter_lines<T: Copy, C: Cell, F: Fn(T) -> Result<C, Refusal>>(
    book: &mut OpenBook<'_, C>,
    lines: &[Line<T>],
    room: &mut [C],
    made: &F,
) -> bool
    requires { F.IsAlwaysCallable made.now }
{
    for line in lines {
        if enter_line(book, line, room, made).is_err() {
            return false;
        }
    }
    true
}

// Whether just these keywords have ended, of those that the book has and one more.
fn just<C: Cell, F: Finder<C>>(finder: &F, ended: &[usize]) -> bool {
    (0..=finder.keywords().len()).all(|keyword| finder.ended(keyword) == ended.contains(&keyword))
}

/// Whether a finder finds, tick by tick, the keywords that have ended; and finds none after a clear.
pub(crate) fn finds<C: Cell, F: Finder<C>>(
    finder: &mut F,
    trace: &[C::Sample],
    ended: &[&[usize]],
) -> bool {
    let mut alike = trace.len() == ended.len();
    for (sample, keywords) in trace.iter().zip(ended) {
        match F::read(*sample) {
            Some(symbol) => finder.take(symbol),
            None => alike = false,
        }
        alike = just::<C, F>(finder, keywords) && alike;
    }
    finder.clear();
    just::<C, F>(finder, &[]) && alike
}
