// Samples, symbols and cells: what arrives, what it is read as, and what a keyword is made of.
#![tactic(auto)]

pub mod bands;
pub mod kinds;
pub mod letters;

#[cfg(test)]
mod tests {
    use super::bands::{BandCell, Bounds, Gauges};
    use super::kinds::Cell;
    use super::letters::LetterCell;
    use refusals::Refusal;
    use std::test::Fail;

    // Whether a band of rpm 100 to 200 with any oil admits a sample.
    fn in_band(rpm: u16, oil: u16) -> Result<bool, Refusal> {
        let cell = BandCell::new(Bounds::new(100, 200)?, Bounds::new(0, 9999)?);
        let reading = BandCell::read(Gauges { rpm, oil }).ok_or(Refusal::NoSymbol)?;
        Ok(cell.admits(reading))
    }

    #[test]
    fn letters_end_at_both_ends(rt: HostRuntime) {
        for (byte, made) in [(64u8, false), (65, true), (80, true), (81, false)] {
            assert!(rt; LetterCell::new(byte).is_ok() == made);
            assert!(rt; LetterCell::read(byte).is_some() == made);
        }
    }

    #[test]
    fn bounds_end_at_both_ends(rt: HostRuntime) {
        for (lowest, highest, made) in [
            (0u16, 9999u16, true),
            (0, 10000, false),
            (9999, 9999, true),
            (10000, 10000, false),
            (7, 7, true),
            (8, 7, false),
        ] {
            assert!(rt; Bounds::new(lowest, highest).is_ok() == made);
        }
    }

    #[test]
    fn bands_admit_their_ends(rt: HostRuntime) -> Result<(), Fail> {
        assert!(rt; !in_band(99, 0)?);
        assert!(rt; in_band(100, 0)?);
        assert!(rt; in_band(200, 9999)?);
        assert!(rt; !in_band(201, 9999)?);
        assert!(rt; in_band(150, 10000).is_err());
        Ok(())
    }
}
