// The lines of a book, by what a bench asks of them.
pub(crate) mod listing;

/// A line: its number, its points and lag, its last keyword, and its span.
#[derive(Clone, Copy, Default)]
pub(crate) struct Watched {
    pub(crate) number: u8,
    pub(crate) points: i16,
    pub(crate) lag: u8,
    pub(crate) last: usize,
    pub(crate) span: u32,
}
