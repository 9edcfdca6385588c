// startlog: enters the worked example's lines in a book, prints what the sealed book holds, and prints the ticks of the
// worked example's trace at which keywords end.
#![tactic(auto)]

mod example;
mod finding;
mod showing;

use automaton::letters::{LetterAutomaton, NUMBERS};
use book::open::OpenBook;
use cells::letters::LetterCell;
use programs::PLACES;

fn run(rt: &impl Print) -> anyhow::Result<()> {
    let mut memory = [LetterCell::default(); PLACES];
    let mut book = OpenBook::new(&mut memory);
    for line in example::LINES {
        match example::enter(&mut book, line) {
            Ok(()) => println!(rt; "line {} entered", line.number)?,
            Err(refusal) => println!(rt; "line {} refused {}", line.number, refusal.number())?,
        }
    }
    let sealed = book.seal();
    showing::show(rt, &sealed)?;
    let mut numbers = [0u16; NUMBERS];
    let mut finder = LetterAutomaton::new(sealed, &mut numbers);
    finding::watch(rt, &mut finder, example::TRACE)?;
    Ok(())
}

fn main(rt: HostRuntime) -> anyhow::Result<()> {
    run(&rt)
}
