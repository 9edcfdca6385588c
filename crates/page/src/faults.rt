// What is told of a bad row.
use refusals::Refusal;

/// Who refused the row: the page, by the row's own bytes, or the book, by the line that the row holds.
#[derive(Clone, Copy, PartialEq, Eq, Debug)]
pub enum Layer {
    Row,
    Book,
}

// What is wrong with a row, and at which of its columns, counted from 1.
#[derive(Clone, Copy)]
pub(crate) struct Flaw {
    pub(crate) refusal: Refusal,
    pub(crate) layer: Layer,
    pub(crate) column: usize,
}

/// What is wrong with a page: the flaw of its first bad row, with the row's number, counted from 1.
#[derive(Clone, Copy)]
pub struct Fault {
    pub refusal: Refusal,
    pub layer: Layer,
    pub row: usize,
    pub column: usize,
}
