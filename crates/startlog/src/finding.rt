// Prints the ticks of a trace at which keywords end.
use automaton::letters::LetterAutomaton;
use cells::kinds::Cell;
use cells::letters::LetterCell;
use finders::finding::Finder;
use std::io;

/// Gives a trace to a keyword automaton. For each tick at which a keyword ends there is a row: the tick, and each
/// keyword as the line's number and the keyword's place in the line. A byte that is no letter ends the trace.
pub(crate) fn watch(
    rt: &impl Print,
    finder: &mut LetterAutomaton<'_>,
    trace: &[u8],
) -> io::Result<()> {
    for (i, byte) in trace.iter().enumerate() {
        let Some(symbol) = <LetterAutomaton<'_> as Finder<LetterCell>>::read(*byte) else {
            return println!(rt; "no letter at {}", i.saturating_add(1));
        };
        finder.take(symbol);
        if !finder.ended_all().is_empty() {
            print!(rt; "{:>10}", i.saturating_add(1))?;
            show_ended(rt, finder)?;
        }
    }
    Ok(())
}

// The keywords that end at a tick.
fn show_ended(rt: &impl Print, finder: &LetterAutomaton<'_>) -> io::Result<()> {
    for line in finder.lines() {
        // Numbers, since a finder is asked by the number of a keyword.
        for place in 0..line.keywords {
            if finder.ended(line.first as usize + place as usize) {
                print!(rt; " {}.{}", line.number, place.saturating_add(1))?;
            }
        }
    }
    println!(rt; "")
}
