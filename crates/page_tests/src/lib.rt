// Tests of the page: damaged rows, with each fault at its first and last column.
#![tactic(auto)]

#[cfg(test)]
mod tests {
    use book::open::OpenBook;
    use cells::letters::LetterCell;
    use page::faults::{Fault, Layer};
    use page::pages::enter_page;

    // Line 5 of the worked example: AB, gap 2, C.
    const FIVE: &[u8] = b"  5   30  0     AB                 2 C               ";

    // What is told of a page: number, layer, row and column; nothing but 0 where it was accepted.
    #[derive(Clone, Copy, PartialEq, Debug)]
    struct Told(u8, char, usize, usize);

    impl From<Result<(), Fault>> for Told {
        fn from(answer: Result<(), Fault>) -> Told {
            match answer {
                Ok(()) => Told(0, '-', 0, 0),
                Err(fault) => {
                    let layer = match fault.layer {
                        Layer::Row => 'r',
                        Layer::Book => 'b',
                    };
                    Told(fault.refusal.number(), layer, fault.row, fault.column)
                }
            }
        }
    }

    // Writes bytes over a row, from a column on.
    fn put(row: &mut [u8], column: usize, bytes: &[u8]) {
        for (place, byte) in row.iter_mut().skip(column.saturating_sub(1)).zip(bytes) {
            *place = *byte;
        }
    }

    // What a book over so many places, at most 48, tells of a page.
    fn tell(page: &[u8], places: usize) -> Told {
        let mut memory = [LetterCell::default(); 48];
        let mut book = OpenBook::new(&mut memory[0..places.min(48)]);
        Told::from(enter_page(&mut book, page))
    }

    // What is told of a row over which bytes are written from a column on.
    fn tell_changed<const N: usize>(mut row: [u8; N], column: usize, bytes: &str) -> Told {
        put(&mut row, column, bytes.as_bytes());
        tell(&row, 48)
    }

    // Bytes written over row 5 from a column on, and what is told of it.
    const TWO_KEYWORDS: [(usize, &str, Told); 39] = [
        (1, "  5", Told(0, '-', 0, 0)),
        (1, "05 ", Told(22, 'r', 1, 1)),
        (1, "005", Told(22, 'r', 1, 1)),
        (1, "   ", Told(22, 'r', 1, 1)),
        (1, " -5", Told(22, 'r', 1, 1)),
        (3, "+", Told(22, 'r', 1, 1)),
        (4, "   -0", Told(22, 'r', 1, 4)),
        (4, " - 10", Told(22, 'r', 1, 4)),
        (4, "  -05", Told(22, 'r', 1, 4)),
        (8, "-", Told(22, 'r', 1, 4)),
        (9, "   ", Told(22, 'r', 1, 9)),
        (9, "00", Told(22, 'r', 1, 9)),
        (12, "0", Told(23, 'r', 1, 12)),
        (15, "0", Told(23, 'r', 1, 15)),
        (16, "A", Told(23, 'r', 1, 16)),
        (17, "                ", Told(23, 'r', 1, 17)),
        (17, "a", Told(23, 'r', 1, 17)),
        (18, "Q", Told(23, 'r', 1, 18)),
        (18, " B", Told(23, 'r', 1, 19)),
        (32, "A", Told(23, 'r', 1, 32)),
        (17, "PPPPPPPPPPPPPPPP", Told(0, '-', 0, 0)),
        (33, "    ", Told(22, 'r', 1, 33)),
        (33, "1 2", Told(22, 'r', 1, 33)),
        (37, "C", Told(23, 'r', 1, 37)),
        (53, "C", Told(23, 'r', 1, 53)),
        (1, "  0", Told(11, 'b', 1, 1)),
        (1, "128", Told(0, '-', 0, 0)),
        (1, "129", Told(11, 'b', 1, 1)),
        (4, "  999", Told(0, '-', 0, 0)),
        (4, " 1000", Told(13, 'b', 1, 4)),
        (4, " -999", Told(0, '-', 0, 0)),
        (4, "-1000", Told(13, 'b', 1, 4)),
        (9, " 63", Told(0, '-', 0, 0)),
        (9, " 64", Told(14, 'b', 1, 9)),
        (33, " 112", Told(0, '-', 0, 0)),
        (33, " 113", Told(17, 'b', 1, 33)),
        (1, "999   30 64     AQ", Told(23, 'r', 1, 18)),
        (1, "05    30 64     AQ", Told(22, 'r', 1, 1)),
        (1, "129   30 64", Told(11, 'b', 1, 1)),
    ];

    #[test]
    fn rows_of_two_keywords(rt: HostRuntime) {
        let mut row = [b' '; 53];
        put(&mut row, 1, FIVE);
        for (column, bytes, told) in &TWO_KEYWORDS {
            assert_eq!(rt; tell_changed(row, *column, bytes), *told, "{}", *bytes);
        }
    }

    // Writes keywords of one letter, each behind a gap of 0.
    fn put_keywords(row: &mut [u8], keywords: usize) {
        for k in 0..keywords.min(18) {
            put(row, 15 + 21 * k, b"0 P");
        }
    }

    // A row of 16 keywords, each a letter P but the last, which has 16.
    fn put_longest(row: &mut [u8], keywords: usize) {
        put_keywords(row, keywords);
        put(row, 1, b"128 -999 63    ");
        put(row, 332, b"PPPPPPPPPPPPPPPP");
    }

    const SIXTEEN_KEYWORDS: [(usize, &str, Told); 8] = [
        (1, "128", Told(0, '-', 0, 0)),
        (327, "   x", Told(22, 'r', 1, 327)),
        (331, "P", Told(23, 'r', 1, 331)),
        (332, " ", Told(23, 'r', 1, 332)),
        (347, "Q", Told(23, 'r', 1, 347)),
        (327, " 112", Told(0, '-', 0, 0)),
        (327, " 113", Told(17, 'b', 1, 327)),
        (306, "9999 P               9999", Told(17, 'b', 1, 306)),
    ];

    #[test]
    fn rows_of_sixteen_keywords(rt: HostRuntime) {
        let mut row = [b' '; 347];
        put_longest(&mut row, 16);
        for (column, bytes, told) in &SIXTEEN_KEYWORDS {
            assert_eq!(rt; tell_changed(row, *column, bytes), *told, "{}", *bytes);
        }
        assert_eq!(rt; tell(&row, 30), Told(18, 'b', 1, 12));
        assert_eq!(rt; tell(&row, 31), Told(0, '-', 0, 0));
    }

    // What is told of a row of letters P by its length alone.
    fn told_by_length(length: usize) -> Told {
        let whole = (32..=347).contains(&length) && (length - 11) % 21 == 0;
        if whole {
            Told(0, '-', 0, 0)
        } else {
            Told(21, 'r', 1, length.saturating_add(1))
        }
    }

    #[test]
    fn rows_of_every_length(rt: HostRuntime) {
        let mut row = [b' '; 400];
        put_longest(&mut row, 18);
        for length in 1..=row.len() {
            assert_eq!(rt;
                tell(&row[0..length], 48),
                told_by_length(length),
                "{length}"
            );
        }
    }

    // Row 5, a closing byte, and other bytes.
    const PAGES: [(&str, Told); 8] = [
        ("", Told(0, '-', 0, 0)),
        ("\n", Told(21, 'r', 2, 1)),
        ("x", Told(21, 'r', 2, 2)),
        ("\r\n", Told(21, 'r', 2, 2)),
        ("  5   30  0     A               ", Told(12, 'b', 2, 1)),
        ("  5   30  0     A               \n", Told(12, 'b', 2, 1)),
        ("005   30  0     A               \n", Told(22, 'r', 2, 1)),
        ("  6   30  0     A               \n\n", Told(21, 'r', 3, 1)),
    ];

    #[test]
    fn pages_of_rows(rt: HostRuntime) {
        for (bytes, told) in &PAGES {
            let mut page = [b' '; 100];
            put(&mut page, 1, FIVE);
            put(&mut page, 54, b"\n");
            put(&mut page, 55, bytes.as_bytes());
            let length = 54 + bytes.len().min(46);
            assert_eq!(rt; tell(&page[0..length], 48), *told, "{}", *bytes);
        }
        assert_eq!(rt; tell(b"", 0), Told(0, '-', 0, 0));
        assert_eq!(rt; tell(b"\n", 0), Told(21, 'r', 1, 1));
    }

    #[test]
    fn rows_before_a_bad_one_stay(rt: HostRuntime) {
        let mut page = [b' '; 107];
        put(&mut page, 1, FIVE);
        put(&mut page, 54, b"\n");
        put(&mut page, 55, FIVE);
        let mut memory = [LetterCell::default(); 6];
        let mut book = OpenBook::new(&mut memory);
        let told = Told::from(enter_page(&mut book, &page));
        let sealed = book.seal();
        assert_eq!(rt; told, Told(12, 'b', 2, 1));
        assert!(rt; sealed.has_number(5) && sealed.cells().len() == 3);
    }
}
