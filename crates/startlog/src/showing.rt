// Prints what a sealed book holds.
use book::rows::{KeywordRow, LineRow};
use book::sealed::SealedBook;
use cells::letters::LetterCell;
use std::io;

/// A row for the book, and one for each line: number, points, lag, and the keywords with the gaps between them.
pub(crate) fn show(rt: &impl Print, book: &SealedBook<'_, LetterCell>) -> io::Result<()> {
    let lines = book.lines();
    println!(rt;
        "lines {}, keywords {}, cells {}",
        lines.len(),
        book.keywords().len(),
        book.cells().len()
    )?;
    for line in lines {
        show_line(rt, book, line)?;
    }
    Ok(())
}

// A line's row.
// Piece by piece, since a Display would have to hold the line beside both of the book's tables.
fn show_line(rt: &impl Print, book: &SealedBook<'_, LetterCell>, line: &LineRow) -> io::Result<()> {
    print!(rt; "{:>4}{:>8}{:>4} ", line.number, line.points, line.lag)?;
    let first = line.first as usize;
    let keywords = book
        .keywords()
        .iter()
        .skip(first)
        .take(line.keywords as usize);
    for (i, keyword) in keywords.enumerate() {
        if i > 0 {
            print!(rt; " gap {}", keyword.gap)?;
        }
        show_keyword(rt, book, keyword)?;
    }
    println!(rt; "")
}

// A keyword in letters.
fn show_keyword(
    rt: &impl Print,
    book: &SealedBook<'_, LetterCell>,
    keyword: &KeywordRow,
) -> io::Result<()> {
    print!(rt; " ")?;
    for cell in book
        .cells()
        .iter()
        .skip(keyword.first as usize)
        .take(keyword.length as usize)
    {
        print!(rt; "{}", char::from(cell.letter().byte()))?;
    }
    Ok(())
}
