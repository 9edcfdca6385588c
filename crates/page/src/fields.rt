// How the fields of a row are read.
ghost use Rattle.std.specs.Prelude.{◌≡◌, ℕ, ◌+◌, ◌^◌, ◌<◌, ◌≤◌, true, ◌++◌, length, take, IfSome, Some};
ghost use Rattle.page.specs.Bytes.{blanks, behind_blanks};
ghost use Rattle.page.specs.Decimals.{begins_well, whole_of, below_zero, decimal_in, points_in};
ghost use Rattle.page.specs.Letters.{letters_of, bad_letter};

use arrayvec::ArrayVec;
use cells::letters::LetterCell;

const BLANK: u8 = b' ';

const MINUS: u8 = b'-';

// How many blanks stand first.
pub(crate) fn count_blanks(field: &[u8]) -> usize
    ensures count { result ≡ blanks field.now }
    ensures within { result ≤ length field.now }
{
    field.iter().take_while(|byte| **byte == BLANK).count()
}

// What stands behind the blanks.
fn skip_blanks(field: &[u8]) -> &[u8]
    ensures rest { result.now ≡ behind_blanks field.now }
    ensures within { length result.now ≤ length field.now }
{
    &field[count_blanks(field)..]
}

// Whether digits begin as a number does: a 0 in front stands alone.
fn starts_well(digits: &[u8]) -> bool
    ensures { result ≡ begins_well digits.now }
{
    digits.len() == 1 || (digits.len() > 1 && digits[0] != b'0')
}

// The whole number that bytes write, with no leading zero.
fn read_whole(digits: &[u8]) -> Option<u32>
    requires { length digits.now ≤ 5 }
    ensures value { result ≡ whole_of digits.now }
    ensures small { IfSome result (λ n. n < 10 ^ length digits.now) }
{
    if !starts_well(digits) {
        return None;
    }
    let mut value = 0;
    for digit in digits {
        if !digit.is_ascii_digit() {
            return None;
        }
        value = value * 10 + u32::from(*digit - b'0');
    }
    Some(value)
}

// A decimal field of at most four columns.
pub(crate) fn read_decimal(field: &[u8]) -> Option<u16>
    requires { length field.now ≤ 4 }
    ensures { result ≡ decimal_in field.now }
{
    read_whole(skip_blanks(field)).map(|value| value as u16)
}

// A number below 0; there is no -0.
fn negated(value: u32) -> Option<i32>
    requires { value < 2 ^ 31 }
    ensures { result ≡ below_zero (Some value) }
{
    if value == 0 {
        None
    } else {
        Some(-(value as i32))
    }
}

// The points, with a minus or none, in at most five columns.
pub(crate) fn read_points(field: &[u8]) -> Option<i32>
    requires { length field.now ≤ 5 }
    ensures { result ≡ points_in field.now }
{
    match skip_blanks(field) {
        [MINUS, digits @ ..] => read_whole(digits).and_then(negated),
        digits => read_whole(digits).map(|value| value as i32),
    }
}

// The cells of the letters that stand first in a field.
pub(crate) fn read_letters(field: &[u8]) -> ArrayVec<LetterCell, 16>
    requires { length field.now ≤ 16 }
    ensures cells { result.items ≡ letters_of field.now }
    ensures within { length result.items ≤ length field.now }
{
    let mut cells = ArrayVec::new();
    for byte in field {
        let Ok(cell) = LetterCell::new(*byte) else {
            break;
        };
        cells.push(cell);
    }
    cells
}

// The position of the first byte that breaks the rule of a letter field, in which so many letters stand first.
pub(crate) fn first_bad(field: &[u8], letters: usize) -> Option<usize>
    requires { (letters ≡ length (letters_of field.now)) × (letters ≤ length field.now) }
    ensures value { result ≡ bad_letter field.now }
    ensures within { IfSome result (λ i. i ≤ length field.now) }
{
    if letters == 0 {
        return Some(0);
    }
    // A loop that is left by break, with the byte at which refusal 23 is told.
    let mut column = letters;
    loop {
        if column == field.len() {
            break None;
        }
        if field[column] != BLANK {
            break Some(column);
        }
        column += 1;
    }
}
