// The bytes of the rows that are printed.
#![tactic(auto)]

ghost use Rattle.std.specs.Prelude.{◌≡◌, ◌+◌, ◌*◌, ◌^◌, ◌<◌, ◌≤◌, true, length, is_some};
ghost use Rattle.std.specs.Fmt.{signed_decimal};
ghost use Rattle.columns.specs.Numbers.{rising};
ghost use Rattle.printout.specs.Rows.{tick_row, refusal_row};
ghost use Rattle.printout.specs.Written.{answer, memory};

use crate::rows::{Row, copy_to, line_numbers, number};
use columns::numbers::Numbers;
use refusals::Refusal;

mod rows;

/// A memory of so many bytes is long enough for every row.
pub const ROOM: usize = 576;

/// Writes the row of a tick into the caller's memory, from its start on, and tells the row's length. Where the memory
/// is too short it stays as it was.
pub fn tick_row(tick: u32, points: i32, reported: Numbers, out: &mut [u8]) -> Option<usize>
    ensures result { result ≡ answer (tick_row tick points (rising reported)) out.old }
    ensures memory { out.new ≡ memory (tick_row tick points (rising reported)) out.old }
    ensures columns { length (signed_decimal points) ≤ 8 → length (tick_row tick points (rising reported)) ≡ 10 + 8 + 4 * length (rising reported) + 1 }
    ensures enough { 576 ≤ length out.old → is_some result ≡ true }
{
    let mut row = Row::new();
    number(&mut row, 10, tick);
    number(&mut row, 8, points);
    line_numbers(&mut row, reported);
    row.push('\n');
    copy_to(&row, out)
}

/// Writes the row of a refusal into the caller's memory, from its start on, and tells the row's length. Where the
/// memory is too short it stays as it was.
pub fn refusal_row(refusal: Refusal, row: u64, column: u64, out: &mut [u8]) -> Option<usize>
    ensures result { result ≡ answer (refusal_row refusal row column) out.old }
    ensures memory { out.new ≡ memory (refusal_row refusal row column) out.old }
    ensures columns { row < 10 ^ 6 → column < 10 ^ 11 → length (refusal_row refusal row column) ≡ 7 + 4 + 6 + 11 + 1 }
    ensures enough { 576 ≤ length out.old → is_some result ≡ true }
{
    let mut line = Row::new();
    line.push_str("refused");
    number(&mut line, 4, refusal.number());
    number(&mut line, 6, row);
    number(&mut line, 11, column);
    line.push('\n');
    copy_to(&line, out)
}

#[cfg(test)]
mod tests {
    use super::*;
    use std::process::Abort;

    fn check_bytes(rt: &impl Abort, length: Option<usize>, out: &[u8], bytes: &[u8]) {
        assert_eq!(rt; length, Some(bytes.len()));
        assert!(rt; out.starts_with(bytes));
    }

    fn check_tick(rt: &impl Abort, tick: u32, points: i32, numbers: &[u8], bytes: &[u8]) {
        let mut reported = Numbers::none();
        for number in numbers {
            reported.insert(*number);
        }
        let mut out = [0; ROOM];
        let length = tick_row(tick, points, reported, &mut out);
        check_bytes(rt, length, &out, bytes);
    }

    fn check_refusal(rt: &impl Abort, refusal: Refusal, row: u64, column: u64, bytes: &[u8]) {
        let mut out = [0; ROOM];
        let length = refusal_row(refusal, row, column, &mut out);
        check_bytes(rt, length, &out, bytes);
    }

    #[test]
    fn tick_rows(rt: HostRuntime) {
        check_tick(&rt, 5, 30, &[7, 5], b"         5      30   5   7\n");
        check_tick(&rt, 8, -10, &[], b"         8     -10\n");
        check_tick(&rt, 2, 0, &[7], b"         2       0   7\n");
        let widest = b"4000000000 -127872   1 128\n";
        check_tick(&rt, 4000000000, -127872, &[128, 1], widest);
    }

    #[test]
    fn refusal_rows(rt: HostRuntime) {
        let cases = [
            (
                Refusal::BadKeyword,
                2,
                18,
                b"refused  23     2         18\n",
            ),
            (Refusal::RowLength, 1, 39, b"refused  21     1         39\n"),
            (Refusal::NoSymbol, 0, 3, b"refused  31     0          3\n"),
            (
                Refusal::TicksSpent,
                0,
                4000000001,
                b"refused  33     0 4000000001\n",
            ),
        ];
        for (refusal, row, column, bytes) in cases {
            check_refusal(&rt, refusal, row, column, bytes);
        }
    }

    #[test]
    fn too_short(rt: HostRuntime) {
        let mut out = [7; 18];
        assert_eq!(rt; tick_row(8, -10, Numbers::none(), &mut out), None);
        assert_eq!(rt; out, [7; 18]);
    }
}
