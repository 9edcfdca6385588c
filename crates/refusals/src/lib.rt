// The refusal table: every refusal that a call of the start watcher gives, with its number.
#![tactic(auto)]

ghost use Rattle.std.specs.Prelude.{◌≡◌};
ghost use Rattle.refusals.specs.Numbers.{number_of};

#[derive(Clone, Copy, PartialEq, Eq, Debug)]
pub enum Refusal {
    // a line entered in a book
    NumberOutOfRange = 11,
    NumberTaken = 12,
    PointsOutOfRange = 13,
    LagTooLong = 14,
    KeywordCount = 15,
    KeywordLength = 16,
    GapTooLong = 17,
    BookFull = 18,
    // a row of a page
    RowLength = 21,
    BadDecimal = 22,
    BadKeyword = 23,
    // samples and cells
    NoSymbol = 31,
    BadBounds = 32,
    // calls of a bench
    TicksSpent = 33,
    NoSuchLine = 34,
    AlreadyArmed = 35,
    AlreadyResting = 36,
    // the tray
    TrayFull = 41,
}

impl Refusal {
    /// The number in the refusal table.
    // The variant's own number by a cast: a `From` or a `Display` of it would say the same cast a second time.
    pub fn number(self) -> u8
        ensures { result ≡ number_of self }
    {
        self as u8
    }
}
