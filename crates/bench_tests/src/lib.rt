// Tests of benches over real finders: bands, and the letters of the worked example.
#![tactic(auto)]

#[cfg(test)]
mod tests {
    use automaton::letters::{LetterAutomaton, NUMBERS};
    use bench::benches::Bench;
    use bench::states::LineState;
    use book::entries::Entry;
    use book::open::OpenBook;
    use cells::bands::{BandCell, Bounds, Gauges};
    use cells::letters::LetterCell;
    use finders::finding::Finder;
    use finders::rows::RowFinder;
    use refusals::Refusal;
    use std::process::Abort;
    use std::test::Fail;

    // A keyword of two bands: rpm 100 to 200 with any oil, then rpm 600 to 900 with oil 150 and more.
    fn bands() -> Result<[BandCell; 2], Refusal> {
        Ok([
            BandCell::new(Bounds::new(100, 200)?, Bounds::new(0, 9999)?),
            BandCell::new(Bounds::new(600, 900)?, Bounds::new(150, 9999)?),
        ])
    }

    // Whether line 1, whose keyword is the two bands, is reported at the second of two samples.
    fn reported(first: Gauges, second: Gauges) -> Result<bool, Refusal> {
        let cells = bands()?;
        let mut memory = cells;
        let mut book = OpenBook::new(&mut memory);
        book.enter(Entry {
            number: 1,
            points: 1,
            lag: 0,
            lengths: &[2],
            gaps: &[],
            cells: &cells,
        })?;
        let mut bench = Bench::new(RowFinder::new(book.seal()));
        bench.feed(first)?;
        let (tick, numbers, points) = bench.feed(second)?;
        Ok(tick == 2 && numbers.contains(1) && points == 1)
    }

    #[test]
    fn bands_end_at_both_ends(rt: HostRuntime) -> Result<(), Fail> {
        let fire = Gauges { rpm: 900, oil: 150 };
        assert!(rt; reported(Gauges { rpm: 100, oil: 0 }, fire)?);
        assert!(rt; !reported(Gauges { rpm: 99, oil: 0 }, fire)?);
        let off = reported(
            Gauges {
                rpm: 100,
                oil: 10000,
            },
            fire,
        );
        assert!(rt; off == Err(Refusal::NoSymbol));
        Ok(())
    }

    // Rests and arms line 7 of a bench, whose keyword is A, and tells what it then stands.
    fn turned<F: Finder<LetterCell>>(
        rt: &impl Abort,
        bench: &mut Bench<LetterCell, F>,
    ) -> Result<(), Fail> {
        assert_eq!(rt; bench.standing(7), Some(LineState::Armed));
        assert_eq!(rt; bench.arm(7), Err(Refusal::AlreadyArmed));
        bench.rest(7)?;
        assert_eq!(rt; bench.standing(7), Some(LineState::Resting));
        let (_, numbers, _) = bench.feed(b'A')?;
        assert!(rt; numbers.is_empty());
        assert_eq!(rt; bench.rest(7), Err(Refusal::AlreadyResting));
        bench.arm(7)?;
        let (tick, numbers, _) = bench.feed(b'A')?;
        assert!(rt; tick == 2 && numbers.contains(7));
        assert_eq!(rt; bench.standing(6), None);
        bench.clear();
        let (tick, _, _) = bench.feed(b'A')?;
        assert_eq!(rt; tick, 1);
        Ok(())
    }

    #[test]
    fn standings_turn(rt: HostRuntime) -> Result<(), Fail> {
        let cells = [LetterCell::new(b'A')?];
        let mut memory = cells;
        let mut book = OpenBook::new(&mut memory);
        book.enter(Entry {
            number: 7,
            points: 1,
            lag: 0,
            lengths: &[1],
            gaps: &[],
            cells: &cells,
        })?;
        let mut numbers = [0u16; NUMBERS];
        turned(
            &rt,
            &mut Bench::new(LetterAutomaton::new(book.seal(), &mut numbers)),
        )
    }
}
