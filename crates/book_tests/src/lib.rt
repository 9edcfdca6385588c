// Tests of the start book: every refusal of a line at its first and last value, on both sides.
#![tactic(auto)]

#[cfg(test)]
mod tests {
    use book::entries::Entry;
    use book::open::OpenBook;
    use cells::letters::LetterCell;
    use refusals::Refusal;
    use std::test::Fail;

    // The refusal's number, if the line was refused.
    fn told(answer: Result<(), Refusal>) -> Option<u8> {
        answer.err().map(Refusal::number)
    }

    // A line of one keyword.
    fn short_line(number: u16, cells: &[LetterCell]) -> Entry<'_, LetterCell> {
        Entry {
            number,
            points: 0,
            lag: 0,
            lengths: &[1],
            gaps: &[],
            cells,
        }
    }

    #[test]
    fn numbers_are_1_to_128_and_distinct(rt: HostRuntime) -> Result<(), Fail> {
        let a = LetterCell::new(b'A')?;
        let mut memory = [a; 4];
        let mut book = OpenBook::new(&mut memory);
        for (number, refusal) in [
            (0u16, Some(11u8)),
            (1, None),
            (1, Some(12)),
            (128, None),
            (128, Some(12)),
            (129, Some(11)),
            (65535, Some(11)),
        ] {
            assert_eq!(rt; told(book.enter(short_line(number, &[a]))), refusal);
        }
        let sealed = book.seal();
        assert!(rt; sealed.lines().len() == 2);
        assert!(rt; sealed.has_number(128));
        assert!(rt; !sealed.has_number(129));
        Ok(())
    }

    #[test]
    fn points_and_lags_keep_their_limits(rt: HostRuntime) -> Result<(), Fail> {
        let a = LetterCell::new(b'A')?;
        let cells = [a];
        let mut memory = [a; 8];
        let mut book = OpenBook::new(&mut memory);
        for (number, points, lag, refusal) in [
            (1u16, -1000i32, 0u16, Some(13u8)),
            (1, -999, 0, None),
            (2, 999, 63, None),
            (3, 1000, 0, Some(13)),
            (3, 0, 64, Some(14)),
            (3, 0, 65535, Some(14)),
            (3, 1000, 64, Some(13)),
            (2, 1000, 64, Some(12)),
        ] {
            let entry = Entry {
                points,
                lag,
                ..short_line(number, &cells)
            };
            assert_eq!(rt; told(book.enter(entry)), refusal);
        }
        Ok(())
    }

    // A line of several keywords.
    fn line_of<'e>(
        number: u16,
        lengths: &'e [u16],
        gaps: &'e [u16],
        cells: &'e [LetterCell],
    ) -> Entry<'e, LetterCell> {
        Entry {
            number,
            points: 7,
            lag: 9,
            lengths,
            gaps,
            cells,
        }
    }

    #[test]
    fn keywords_are_1_to_16_with_a_gap_between(rt: HostRuntime) -> Result<(), Fail> {
        let cells = [LetterCell::new(b'A')?; 17];
        let ones = [1u16; 17];
        let gaps = [3u16; 17];
        let mut memory = cells;
        let mut book = OpenBook::new(&mut memory);
        for (keywords, between, refusal) in [
            (0usize, 0usize, Some(15u8)),
            (1, 1, Some(15)),
            (2, 0, Some(15)),
            (2, 2, Some(15)),
            (17, 16, Some(15)),
            (16, 15, None),
        ] {
            let entry = line_of(
                4,
                &ones[0..keywords],
                &gaps[0..between],
                &cells[0..keywords],
            );
            assert_eq!(rt; told(book.enter(entry)), refusal);
        }
        let sealed = book.seal();
        assert!(rt; sealed.keywords().len() == 16);
        Ok(())
    }

    #[test]
    fn lengths_are_1_to_16_and_add_up(rt: HostRuntime) -> Result<(), Fail> {
        let cells = [LetterCell::new(b'A')?; 18];
        let mut memory = cells;
        let mut book = OpenBook::new(&mut memory);
        for (first, second, given, refusal) in [
            (0u16, 1u16, 1usize, Some(16u8)),
            (1, 0, 1, Some(16)),
            (17, 1, 18, Some(16)),
            (1, 17, 18, Some(16)),
            (1, 1, 1, Some(16)),
            (1, 1, 3, Some(16)),
            (65535, 1, 18, Some(16)),
            (16, 1, 17, None),
        ] {
            let lengths = [first, second];
            let entry = line_of(4, &lengths, &[3], &cells[0..given]);
            assert_eq!(rt; told(book.enter(entry)), refusal);
        }
        Ok(())
    }

    #[test]
    fn gaps_are_0_to_112(rt: HostRuntime) -> Result<(), Fail> {
        let cells = [LetterCell::new(b'A')?; 3];
        let mut memory = [cells[0]; 9];
        let mut book = OpenBook::new(&mut memory);
        for (number, first, second, refusal) in [
            (1u16, 113u16, 0u16, Some(17u8)),
            (1, 0, 113, Some(17)),
            (1, 65535, 0, Some(17)),
            (1, 0, 112, None),
            (2, 112, 0, None),
        ] {
            let gaps = [first, second];
            let entry = line_of(number, &[1, 1, 1], &gaps, &cells);
            assert_eq!(rt; told(book.enter(entry)), refusal);
        }
        let sealed = book.seal();
        let keywords = sealed.keywords();
        assert!(rt; keywords.len() == 6);
        assert!(rt; keywords[2].gap == 112 && keywords[3].gap == 0 && keywords[4].gap == 112);
        Ok(())
    }

    #[test]
    fn a_book_takes_no_more_cells_than_its_memory_has(rt: HostRuntime) -> Result<(), Fail> {
        let a = LetterCell::new(b'A')?;
        let mut none = [a; 0];
        let mut book = OpenBook::new(&mut none);
        assert_eq!(rt; told(book.enter(short_line(1, &[a]))), Some(18));
        assert!(rt; book.seal().lines().is_empty());
        let mut one = [a; 1];
        let mut book = OpenBook::new(&mut one);
        assert_eq!(rt; told(book.enter(short_line(1, &[a]))), None);
        assert_eq!(rt; told(book.enter(short_line(2, &[a]))), Some(18));
        Ok(())
    }

    // Enters lines from 1 up to a last number, until one is refused.
    fn fill<'e>(
        book: &mut OpenBook<'_, LetterCell>,
        last: u16,
        lengths: &'e [u16],
        gaps: &'e [u16],
        cells: &'e [LetterCell],
    ) -> Result<(), Refusal> {
        for number in 1..=last {
            book.enter(line_of(number, lengths, gaps, cells))?;
        }
        Ok(())
    }

    #[test]
    fn a_book_takes_1023_cells_at_most(rt: HostRuntime) -> Result<(), Fail> {
        let a = LetterCell::new(b'A')?;
        let cells = [a; 16];
        let fewer = [a; 15];
        let mut memory = [a; 1100];
        let mut book = OpenBook::new(&mut memory);
        let taken = fill(&mut book, 63, &[16], &[], &cells);
        let over = told(book.enter(line_of(64, &[16], &[], &cells)));
        let fits = told(book.enter(line_of(64, &[15], &[], &fewer)));
        let full = told(book.enter(short_line(65, &[a])));
        let count = book.seal().cells().len();
        assert_eq!(rt;
            (told(taken), over, fits, full),
            (None, Some(18), None, Some(18))
        );
        assert_eq!(rt; count, 1023);
        Ok(())
    }

    #[test]
    fn a_book_takes_512_keywords_and_128_lines(rt: HostRuntime) -> Result<(), Fail> {
        let a = LetterCell::new(b'A')?;
        let four = [a; 4];
        let five = [a; 5];
        let mut memory = [a; 600];
        let mut book = OpenBook::new(&mut memory);
        let taken = fill(&mut book, 127, &[1; 4], &[0; 3], &four);
        let over = told(book.enter(line_of(128, &[1; 5], &[0; 4], &five)));
        let fits = told(book.enter(line_of(128, &[1; 4], &[0; 3], &four)));
        let again = told(book.enter(short_line(128, &[a])));
        let sealed = book.seal();
        assert_eq!(rt;
            (told(taken), over, fits, again),
            (None, Some(18), None, Some(12))
        );
        assert!(rt; sealed.lines().len() == 128);
        assert!(rt; sealed.keywords().len() == 512);
        Ok(())
    }
}
