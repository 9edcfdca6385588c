// How readings, bounds and band cells are made, and what they tell.
ghost use Rattle.std.specs.Prelude.{◌≡◌};
ghost use Rattle.cells.specs.Bands.{reading_of, bounds_of, inside};

use crate::bands::{BandCell, Bounds, Gauges, Reading};
use refusals::Refusal;

// the end of the scale
const HIGHEST: u16 = 9999;

impl Reading {
    /// The reading of a sample, if both numbers are on the scale.
    pub fn new(sample: Gauges) -> Option<Reading>
        ensures { result ≡ reading_of sample }
    {
        let Gauges { rpm, oil } = sample;
        if rpm <= HIGHEST && oil <= HIGHEST {
            Some(Reading { rpm, oil })
        } else {
            None
        }
    }

    pub fn rpm(self) -> u16
        ensures { result ≡ self.rpm }
    {
        self.rpm
    }

    pub fn oil(self) -> u16
        ensures { result ≡ self.oil }
    {
        self.oil
    }
}

impl Bounds {
    /// The bounds from one value to another; BadBounds where they are no bounds.
    pub fn new(lowest: u16, highest: u16) -> Result<Bounds, Refusal>
        ensures { result ≡ bounds_of lowest highest }
    {
        if lowest <= highest && highest <= HIGHEST {
            Ok(Bounds { lowest, highest })
        } else {
            Err(Refusal::BadBounds)
        }
    }

    /// Whether a number lies inside, ends counted.
    pub fn hold(self, number: u16) -> bool
        ensures { result ≡ inside self number }
    {
        (self.lowest..=self.highest).contains(&number)
    }
}

impl BandCell {
    pub fn new(rpm: Bounds, oil: Bounds) -> BandCell
        ensures { result ≡ record { rpm = rpm; oil = oil } }
    {
        BandCell { rpm, oil }
    }
}
