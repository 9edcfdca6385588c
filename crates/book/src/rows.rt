// What a book tells of its lines and keywords: plain rows.
// They give positions, since a row that borrowed from its own book could not move with it.
ghost use Rattle.std.specs.Prelude.{◌≡◌, ◌+◌, ◌-◌};

/// A line: its keywords are `keywords` rows of the book's table of keywords, from `first` on.
#[derive(Clone, Copy, PartialEq, Eq, Debug, Default)]
pub struct LineRow {
    pub number: u8,
    pub points: i32,
    pub lag: u8,
    pub first: u16,
    pub keywords: u8,
}

/// A keyword: its cells are `length` places of the book, from `first` on.
/// The gap is the one before it, 0 before the first keyword of a line.
#[derive(Clone, Copy, PartialEq, Eq, Debug, Default)]
pub struct KeywordRow {
    pub gap: u8,
    pub first: u16,
    pub length: u8,
}

/// How much a book has of each.
#[derive(Clone, Copy, PartialEq, Eq, Debug, Default)]
pub struct Counts {
    pub lines: usize,
    pub keywords: usize,
    pub cells: usize,
}

impl KeywordRow {
    /// The last place of the keyword; 0 where it begins at place 0 and has no length.
    pub fn last_place(&self) -> usize
        ensures { result ≡ self.now.first + self.now.length - 1 }
    {
        (usize::from(self.first) + usize::from(self.length)).saturating_sub(1)
    }
}
