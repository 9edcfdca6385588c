// Reads the rows of commands.
use inputs::split_row;
use parting::commands::Command;
use std::alloc::{AllocError, Global};
use std::fmt;

/// A row is no command: the column at which it goes wrong, counted from 1.
#[derive(Clone, Copy, PartialEq, Eq, Debug)]
pub(crate) struct NoCommand {
    column: usize,
}

impl NoCommand {
    // A row that goes wrong behind so many bytes.
    fn behind(bytes: usize) -> NoCommand {
        NoCommand {
            column: bytes.saturating_add(1),
        }
    }
}

impl fmt::Display for NoCommand {
    fn fmt<W: fmt::Write>(&self, f: &mut fmt::Formatter<W>) -> fmt::Result {
        let column = self.column;
        write!(f, "no command, column {column}")
    }
}

// The number that stands behind a word of so many bytes: digits without leading zeros. A number too large for a line
// reads as the largest, which is no line's either.
fn read_number(word: usize, digits: &[u8]) -> Result<u16, NoCommand> {
    if digits.is_empty() {
        return Err(NoCommand::behind(word));
    }
    let mut number: u16 = 0;
    for (i, byte) in digits.iter().enumerate() {
        let leading = i == 1 && number == 0;
        if leading || !byte.is_ascii_digit() {
            return Err(NoCommand::behind(word.saturating_add(i)));
        }
        number = number
            .saturating_mul(10)
            .saturating_add(u16::from(*byte - b'0'));
    }
    Ok(number)
}

// The sample that stands behind a word of so many bytes.
fn read_sample(word: usize, bytes: &[u8]) -> Result<u8, NoCommand> {
    match bytes {
        [sample] => Ok(*sample),
        [] => Err(NoCommand::behind(word)),
        [_, ..] => Err(NoCommand::behind(word.saturating_add(1))),
    }
}

// The command of a row.
fn read_command(row: &[u8]) -> Result<Command<u8>, NoCommand> {
    if let Some(bytes) = row.strip_prefix(b"feed ") {
        return Ok(Command::Feed(read_sample(5, bytes)?));
    }
    if let Some(bytes) = row.strip_prefix(b"arm ") {
        return Ok(Command::Arm(read_number(4, bytes)?));
    }
    if let Some(bytes) = row.strip_prefix(b"rest ") {
        return Ok(Command::Rest(read_number(5, bytes)?));
    }
    if let Some(bytes) = row.strip_prefix(b"standing ") {
        return Ok(Command::Standing(read_number(9, bytes)?));
    }
    if row == b"clear".as_slice() {
        return Ok(Command::Clear);
    }
    Err(NoCommand::behind(0))
}

/// Reads an input row after row.
pub(crate) fn read_rows(
    alloc: Global,
    input: &[u8],
) -> Result<Vec<Result<Command<u8>, NoCommand>>, AllocError> {
    let mut rows = Vec::new(alloc);
    let mut rest = input;
    while !rest.is_empty() {
        let (row, behind) = split_row(rest);
        rows.push(read_command(row))?;
        rest = behind;
    }
    Ok(rows)
}
