// How a row is written, from left to right.
ghost use Rattle.std.specs.Prelude.{◌≡◌, ◌+◌, ◌*◌, ◌≤◌, true, ◌++◌, length, is_some};
ghost use Rattle.columns.specs.Numbers.{rising};
ghost use Rattle.printout.specs.Fields.{right};
ghost use Rattle.printout.specs.Rows.{number_fields};
ghost use Rattle.printout.specs.Written.{answer, memory};

use crate::ROOM;
use arrayvec::ArrayString;
use columns::numbers::Numbers;
use itoa::{Buffer, Integer};

/// A row in the making. It has room for more than the longest row: two fields of at most 11 bytes, 128 fields of 4, and
/// byte 10.
pub(crate) type Row = ArrayString<ROOM>;

// A number in its field, behind blanks, with its minus directly before the first digit.
// By `itoa` and not by `write!`, since a format's contract does not say where it is Ok, so nothing could be answered there.
pub(crate) fn number<I: Integer>(row: &mut Row, width: usize, n: I)
    requires width { length row.old.bytes + width ≤ 576 }
    requires longest { length row.old.bytes + I.MAX_STR_LEN ≤ 576 }
    ensures text { row.new.bytes ≡ row.old.bytes ++ right width (I.text n) }
    ensures short { length (I.text n) ≤ I.MAX_STR_LEN }
    ensures bound { length row.new.bytes ≤ length row.old.bytes + width + I.MAX_STR_LEN }
    ensures exact { length (I.text n) ≤ width → length row.new.bytes ≡ length row.old.bytes + width }
{
    let mut buffer = Buffer::new();
    let decimal = buffer.format(n);
    for _ in 0..width.saturating_sub(decimal.len()) {
        row.push(' ');
    }
    row.push_str(decimal);
}

// Line numbers in rising order, each in its field.
pub(crate) fn line_numbers(row: &mut Row, numbers: Numbers)
    requires { length row.old.bytes ≤ 63 }
    ensures text { row.new.bytes ≡ row.old.bytes ++ number_fields (rising numbers) }
    ensures longer { length row.new.bytes ≡ length row.old.bytes + 4 * length (rising numbers) }
    ensures few { length (rising numbers) ≤ 128 }
{
    for line in numbers.members() {
        number(row, 4, line);
    }
}

// Copies the row to the front of a memory that is long enough, and tells its length.
pub(crate) fn copy_to(row: &Row, out: &mut [u8]) -> Option<usize>
    ensures result { result ≡ answer row.now.bytes out.old }
    ensures memory { out.new ≡ memory row.now.bytes out.old }
    ensures enough { 576 ≤ length out.old → is_some result ≡ true }
{
    let bytes = row.as_bytes();
    if bytes.len() > out.len() {
        return None;
    }
    out[..bytes.len()].copy_from_slice(bytes);
    Some(bytes.len())
}
