// One table of books and traces that every finder runs through.
#![tactic(auto)]

#[cfg(test)]
mod tables;

#[cfg(test)]
mod tests {
    use crate::tables::{BAND_CASES, Case, LETTER_CASES, band, enter_lines, finds, letter};
    use automaton::letters::labels::label_after;
    use automaton::letters::{LetterAutomaton, NUMBERS};
    use book::open::OpenBook;
    use cells::kinds::Cell;
    use cells::letters::{Letter, LetterCell};
    use finders::rows::RowFinder;
    use refusals::Refusal;
    use std::test::Fail;

    // Whether a row finder finds what a case says, with room for its book and for a line.
    fn rows_find<T: Copy, C: Cell, F: Fn(T) -> Result<C, Refusal>>(
        case: &Case<T, C::Sample>,
        memory: &mut [C],
        room: &mut [C],
        made: &F,
    ) -> bool
        requires { F.IsAlwaysCallable made.now }
    {
        let mut book = OpenBook::new(memory);
        let entered = enter_lines(&mut book, case.lines, room, made);
        let mut finder = RowFinder::new(book.seal());
        let found = finds::<C, RowFinder<'_, C>>(&mut finder, case.trace, case.ended);
        entered && found
    }

    #[test]
    fn rows_find_letters(rt: HostRuntime) -> Result<(), Fail> {
        let blank = letter(b'A')?;
        for case in &LETTER_CASES {
            let mut memory = [blank; 64];
            let mut room = [blank; 16];
            assert!(rt; rows_find(case, &mut memory, &mut room, &letter));
        }
        Ok(())
    }

    #[test]
    fn automata_find_letters(rt: HostRuntime) -> Result<(), Fail> {
        let blank = letter(b'A')?;
        for case in &LETTER_CASES {
            let mut memory = [blank; 64];
            let mut numbers = [7u16; NUMBERS];
            let mut book = OpenBook::new(&mut memory);
            let entered = enter_lines(&mut book, case.lines, &mut [blank; 16], &letter);
            let mut finder = LetterAutomaton::new(book.seal(), &mut numbers);
            let found = finds::<LetterCell, LetterAutomaton<'_>>(
                &mut finder,
                case.trace,
                case.ended,
            );
            assert!(rt; entered && found);
        }
        Ok(())
    }

    #[test]
    fn labels_are_the_longest(rt: HostRuntime) -> Result<(), Fail> {
        let blank = letter(b'A')?;
        let mut memory = [blank; 64];
        let mut numbers = [7u16; NUMBERS];
        let mut book = OpenBook::new(&mut memory);
        let entered = enter_lines(&mut book, LETTER_CASES[2].lines, &mut [blank; 16], &letter);
        let mut finder = LetterAutomaton::new(book.seal(), &mut numbers);
        let a = Letter::new(b'A').ok_or(Refusal::NoSymbol)?;
        let b = Letter::new(b'B').ok_or(Refusal::NoSymbol)?;
        let c = Letter::new(b'C').ok_or(Refusal::NoSymbol)?;
        assert!(rt; entered);
        assert_eq!(rt; label_after(&mut finder, &[c, a, b, a]).len(), 3);
        assert_eq!(rt; label_after(&mut finder, &[a, b, a, b]).len(), 2);
        assert_eq!(rt; label_after(&mut finder, &[b, b]).len(), 1);
        assert_eq!(rt; label_after(&mut finder, &[a, b, c]).len(), 0);
        Ok(())
    }

    #[test]
    fn rows_find_bands(rt: HostRuntime) -> Result<(), Fail> {
        let blank = band((0, 9999, 0, 9999))?;
        for case in &BAND_CASES {
            let mut memory = [blank; 64];
            let mut room = [blank; 16];
            assert!(rt; rows_find(case, &mut memory, &mut room, &band));
        }
        Ok(())
    }
}
