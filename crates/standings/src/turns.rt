// One line's standing, and what a mechanic does to it.

/// A line's standing: armed, with the tick count at its latest arming, or resting.
#[derive(Clone, Copy, PartialEq, Eq, Debug)]
pub enum Standing {
    Armed { mark: u32 },
    Resting,
}

/// What a mechanic asks of a line.
#[derive(Clone, Copy, PartialEq, Eq, Debug)]
pub enum Turn {
    Arm,
    Rest,
}
