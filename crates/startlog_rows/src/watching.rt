// Watches a trace, and writes the rows of its ticks.
use bench::benches::Bench;
use cells::letters::LetterCell;
use columns::numbers::Numbers;
use finders::finding::Finder;
use printout::{ROOM, tick_row};
use programs::write_refusal;
use refusals::Refusal;
use std::io;
use std::io::Write;
use tray::{Report, Tray};

/// As many reports as a tick may have: one for each line of a book.
const REPORTS: usize = 128;

// Writes the row of a tick. It stands beside `write_refusal`, as one function for both would be no shorter.
fn write_tick(out: &mut impl Write, tick: u32, points: i32, reported: Numbers) -> io::Result<()> {
    let mut bytes = [0; ROOM];
    let length = tick_row(tick, points, reported, &mut bytes).unwrap();
    out.write_all(&bytes[..length])
}

// Puts the reports of a tick in the tray.
fn put_reports(tray: &mut Tray<'_>, tick: u32, reported: Numbers) -> Result<(), Refusal> {
    for number in reported.members() {
        tray.put(Report { tick, number })?;
    }
    Ok(())
}

// Takes the reports of the tray, up to absent: their numbers.
fn take_reports(tray: &mut Tray<'_>) -> Numbers {
    let mut numbers = Numbers::none();
    while let Some(report) = tray.take() {
        numbers.insert(report.number);
    }
    numbers
}

// Feeds a sample: what its tick tells, with the reports passed through the tray.
fn feed<F: Finder<LetterCell>>(
    bench: &mut Bench<LetterCell, F>,
    tray: &mut Tray<'_>,
    sample: u8,
) -> Result<(u32, Numbers, i32), Refusal> {
    let (tick, reported, points) = bench.feed(sample)?;
    put_reports(tray, tick, reported)?;
    Ok((tick, take_reports(tray), points))
}

/// Feeds a trace to a bench, and writes a row for each tick with a report or with points other than 0. At a refusal it
/// writes the refusal's row, with the sample's place in the trace, and stops.
pub(crate) fn watch<F: Finder<LetterCell>>(
    bench: &mut Bench<LetterCell, F>,
    trace: &[u8],
    out: &mut impl Write,
) -> io::Result<()> {
    let mut places = [Report { tick: 0, number: 0 }; REPORTS];
    let mut tray = Tray::new(&mut places);
    for (i, sample) in trace.iter().enumerate() {
        match feed(bench, &mut tray, *sample) {
            Ok((tick, reported, points)) => {
                if !reported.is_empty() || points != 0 {
                    write_tick(out, tick, points, reported)?;
                }
            }
            Err(refusal) => return write_refusal(out, refusal, 0, i.saturating_add(1)),
        }
    }
    Ok(())
}
