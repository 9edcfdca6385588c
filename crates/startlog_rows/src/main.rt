// startlog_rows: reads a page of lines and a trace of letters from standard input, and prints a row for each tick at
// which lines are reported or points are due. At a refusal it prints the refusal's row and stops.
#![tactic(auto)]

mod watching;

use automaton::letters::{LetterAutomaton, NUMBERS};
use bench::benches::Bench;
use book::open::OpenBook;
use cells::letters::LetterCell;
use inputs::{split_page, split_row};
use page::pages::enter_page;
use programs::{PLACES, Program, run, write_refusal};
use std::alloc::Global;
use std::io::{BufWriter, Write};

struct StartlogRows;

impl Program for StartlogRows {
    // What is written is tested, and nothing is promised of it.
    ghost leaves = { λ _ _ _. Unit {0} };

    // Reads the page up to an empty row and the trace up to the end of its row, and writes the rows.
    fn answer<W: Write>(_alloc: Global, input: &[u8], out: &mut W) -> anyhow::Result<()> {
        let (page, rest) = split_page(input);
        let (trace, _) = split_row(rest);
        let mut memory = [LetterCell::default(); PLACES];
        let mut book = OpenBook::new(&mut memory);
        if let Err(fault) = enter_page(&mut book, page) {
            write_refusal(out, fault.refusal, fault.row, fault.column)?;
            return Ok(());
        }
        let mut numbers = [0u16; NUMBERS];
        let mut bench = Bench::new(LetterAutomaton::new(book.seal(), &mut numbers));
        watching::watch(&mut bench, trace, out)?;
        Ok(())
    }
}

fn main(rt: HostRuntime) -> anyhow::Result<()> {
    let mut out = BufWriter::new(rt.alloc(), rt.stdout())?;
    run::<StartlogRows, _, _>(rt.alloc(), &mut rt.stdin(), &mut out)?;
    out.flush()?;
    Ok(())
}

#[cfg(test)]
mod tests {
    use super::*;
    use programs::answers;
    use std::test::Fail;

    #[test]
    fn refusals(rt: HostRuntime) -> Result<(), Fail> {
        let cases = [
            // a sample that is no symbol: the rows before it stay
            (
                b"  9    5  0     C                  0 C               \n\nCCQ".as_slice(),
                b"         2       5   9\nrefused  31     0          3\n".as_slice(),
            ),
            // a letter field with a byte that is no letter
            (
                b"  9    5  0     C                  0 C               \n  5   30  0     AQ                 2 C               \n\nCC",
                b"refused  23     2         18\n",
            ),
            // a number that is taken
            (
                b"  9    5  0     C               \n  9    5  0     B               \n\nCC\n",
                b"refused  12     2          1\n",
            ),
            // no empty row: all is page
            (b"ABC", b"refused  21     1          4\n"),
        ];
        for (input, output) in cases {
            assert!(rt; answers::<StartlogRows>(rt.alloc(), input, output)?);
        }
        Ok(())
    }

    #[test]
    fn quiet(rt: HostRuntime) -> Result<(), Fail> {
        let cases = [
            (b"".as_slice(), b"".as_slice()),
            (b"\nABC\nQ", b""),
            (b"\nAB\r\n", b"refused  31     0          3\n"),
        ];
        for (input, output) in cases {
            assert!(rt; answers::<StartlogRows>(rt.alloc(), input, output)?);
        }
        Ok(())
    }
}
