// Writes what three benches answer, side by side.
use crate::parsing::NoCommand;
use bench::states::LineState;
use columns::numbers::{Members, Numbers};
use page::faults::Fault;
use parting::commands::{Answer, Command, Trio};
use programs::write_refusal;
use refusals::Refusal;
use std::io::Write;
use std::{fmt, io};

/// Writes which page is bad, and the refusal's row.
pub(crate) fn write_fault(out: &mut impl Write, page: &str, fault: Fault) -> io::Result<()> {
    writeln!(out, "{page} page")?;
    write_refusal(out, fault.refusal, fault.row, fault.column)
}

// A number, or blanks where there is none.
#[derive(Clone, Copy)]
struct Field(Option<u8>);

impl fmt::Display for Field {
    fn fmt<W: fmt::Write>(&self, f: &mut fmt::Formatter<W>) -> fmt::Result {
        match self.0 {
            Some(number) => number.fmt(f),
            None => "".fmt(f),
        }
    }
}

// The block of a bench, 24 columns: what it answers. The first of the reported numbers is the last field of a tick's.
#[derive(Clone, Copy)]
struct Block {
    answer: Result<Answer, Refusal>,
    first: Option<u8>,
}

impl Block {
    // The block of an answer, and the numbers that it reports beside the first.
    fn of(answer: Result<Answer, Refusal>) -> (Block, Members) {
        let mut numbers = reported(answer);
        let first = numbers.next();
        (Block { answer, first }, numbers)
    }
}

impl fmt::Display for Block {
    fn fmt<W: fmt::Write>(&self, f: &mut fmt::Formatter<W>) -> fmt::Result {
        match self.answer {
            Ok(Answer::Tick(tick, _, points)) => {
                let first = Field(self.first);
                write!(f, "{tick:>12}{points:>8}{first:>4}")
            }
            Ok(Answer::Done) => write!(f, "{:>24}", "done"),
            Ok(Answer::Standing(state)) => write!(f, "{:>24}", word(state)),
            Err(refusal) => write!(f, "{:>20}{:>4}", "refused", refusal.number()),
        }
    }
}

// The word for a standing.
fn word(state: Option<LineState>) -> &'static str {
    match state {
        Some(LineState::Armed) => "armed",
        Some(LineState::Resting) => "resting",
        None => "absent",
    }
}

// The numbers that an answer reports, rising.
fn reported(answer: Result<Answer, Refusal>) -> Members {
    match answer {
        Ok(Answer::Tick(_, numbers, _)) => numbers.members(),
        _ => Numbers::none().members(),
    }
}

// The row of a command, and a row for each further number that a bench reports.
fn write_trio(out: &mut impl Write, row: usize, trio: Trio) -> io::Result<()> {
    let (whole, others) = Block::of(trio.whole);
    let (first, mut others_of_first) = Block::of(trio.first);
    let (second, mut others_of_second) = Block::of(trio.second);
    writeln!(out, "{row:>6}{whole}{first}{second}")?;
    for number in others {
        let first = Field(others_of_first.next());
        let second = Field(others_of_second.next());
        writeln!(out, "{number:>30}{first:>24}{second:>24}")?;
    }
    Ok(())
}

/// Writes the answers to the proper rows, in turn, and says which rows are no command and where they go wrong.
pub(crate) fn write_rows(
    out: &mut impl Write,
    rows: &[Result<Command<u8>, NoCommand>],
    log: &[Trio],
) -> io::Result<()> {
    let mut answers = log.iter();
    for (i, read) in rows.iter().enumerate() {
        let row = i.saturating_add(1);
        match read {
            Ok(_) => {
                if let Some(trio) = answers.next() {
                    write_trio(out, row, *trio)?;
                }
            }
            Err(wrong) => writeln!(out, "{row:>6}  {wrong}")?,
        }
    }
    Ok(())
}
