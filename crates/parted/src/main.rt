// parted: reads two pages and then commands from standard input. The whole book has the lines of both pages, and each
// part those of one. It gives every command to three benches and prints what they answer, side by side.
#![tactic(auto)]

mod parsing;
mod showing;

use automaton::letters::{LetterAutomaton, NUMBERS};
use book::open::OpenBook;
use cells::letters::LetterCell;
use finders::rows::RowFinder;
use inputs::split_page;
use page::faults::Fault;
use page::pages::enter_page;
use parting::commands::{Answer, Command, Trio};
use parting::runs::run_parted;
use programs::{PLACES, Program, run};
use std::alloc::Global;
use std::io::{BufWriter, Write};

/// What a place of the log holds before it is written. Written out, since an answer has no default.
const UNWRITTEN: Trio = Trio {
    whole: Ok(Answer::Done),
    first: Ok(Answer::Done),
    second: Ok(Answer::Done),
};

// Enters a page in the whole book and in the part that it is for.
fn enter_both(
    whole: &mut OpenBook<'_, LetterCell>,
    part: &mut OpenBook<'_, LetterCell>,
    page: &[u8],
) -> Result<(), Fault> {
    enter_page(whole, page)?;
    enter_page(part, page)
}

struct Parted;

impl Program for Parted {
    // What is written is tested, and nothing is promised of it.
    ghost leaves = { λ _ _ _. Unit {0} };

    // Enters the pages, runs the commands on three benches, and writes what they answer.
    fn answer<W: Write>(alloc: Global, input: &[u8], out: &mut W) -> anyhow::Result<()> {
        let (makers, rest) = split_page(input);
        let (yards, rest) = split_page(rest);
        let mut whole_memory = [LetterCell::default(); PLACES];
        let mut first_memory = [LetterCell::default(); PLACES];
        let mut second_memory = [LetterCell::default(); PLACES];
        let mut whole = OpenBook::new(&mut whole_memory);
        let mut first = OpenBook::new(&mut first_memory);
        let mut second = OpenBook::new(&mut second_memory);
        if let Err(fault) = enter_both(&mut whole, &mut first, makers) {
            showing::write_fault(out, "first", fault)?;
            return Ok(());
        }
        if let Err(fault) = enter_both(&mut whole, &mut second, yards) {
            showing::write_fault(out, "second", fault)?;
            return Ok(());
        }
        let rows = parsing::read_rows(alloc, rest)?;
        let commands: Vec<Command<u8>> = rows.iter().filter_map(|row| row.ok()).collect(alloc)?;
        let mut log = vec![in alloc; UNWRITTEN; commands.len()]?;
        let mut whole_numbers = [0u16; NUMBERS];
        let mut second_numbers = [0u16; NUMBERS];
        run_parted(
            LetterAutomaton::new(whole.seal(), &mut whole_numbers),
            RowFinder::new(first.seal()),
            LetterAutomaton::new(second.seal(), &mut second_numbers),
            &commands,
            &mut log,
        );
        showing::write_rows(out, &rows, &log)?;
        Ok(())
    }
}

fn main(rt: HostRuntime) -> anyhow::Result<()> {
    let mut out = BufWriter::new(rt.alloc(), rt.stdout())?;
    run::<Parted, _, _>(rt.alloc(), &mut rt.stdin(), &mut out)?;
    out.flush()?;
    Ok(())
}

#[cfg(test)]
mod tests {
    use super::*;
    use programs::answers;
    use std::test::Fail;

    #[test]
    fn bad_pages(rt: HostRuntime) -> Result<(), Fail> {
        let cases = [
            (
                b"  9    5  0     Q               \n\n\nclear\n".as_slice(),
                b"first page\nrefused  23     1         17\n".as_slice(),
            ),
            // the number stands on the first page already
            (
                b"  9    5  0     C               \n\n  9    5  0     B               \n\nclear\n",
                b"second page\nrefused  12     1          1\n",
            ),
        ];
        for (input, output) in cases {
            assert!(rt; answers::<Parted>(rt.alloc(), input, output)?);
        }
        Ok(())
    }
}
