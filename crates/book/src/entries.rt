// What the book writer hands in.
// Three flat slices, since a list of keywords that hold their cells would need a heap.

/// A line to be entered: the lengths of its keywords, the gap between each keyword and the next,
/// and the cells of all keywords, one after another.
#[derive(Clone, Copy)]
pub struct Entry<'e, C> {
    pub number: u16,
    pub points: i32,
    pub lag: u16,
    pub lengths: &'e [u16],
    pub gaps: &'e [u16],
    pub cells: &'e [C],
}
