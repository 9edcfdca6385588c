// Readings and band cells: the types, which nobody can make out of bounds.
ghost use Rattle.std.specs.Prelude.{◌≡◌, true};
ghost use Rattle.cells.specs.Scale.{on_scale, are_bounds};

pub mod admitting;
pub mod making;

/// A sample of the two gauges, as it arrives.
#[derive(Clone, Copy, PartialEq, Eq, Debug)]
pub struct Gauges {
    pub rpm: u16,
    pub oil: u16,
}

/// A reading: the symbol of a sample whose two numbers are on the scale.
#[derive(Clone, Copy, PartialEq, Eq, Debug)]
pub struct Reading {
    rpm: u16,
    oil: u16,
    ghost ok: { on_scale rpm oil ≡ true },
}

/// A lowest and a highest value on the scale, the lowest not above the highest.
#[derive(Clone, Copy, PartialEq, Eq, Debug)]
pub struct Bounds {
    lowest: u16,
    highest: u16,
    ghost ok: { are_bounds lowest highest ≡ true },
}

/// A band cell admits the readings inside both bounds, ends counted.
#[derive(Clone, Copy, PartialEq, Eq, Debug)]
pub struct BandCell {
    rpm: Bounds,
    oil: Bounds,
}
