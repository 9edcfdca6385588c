// Where pages and rows lie in the input of a program.
#![tactic(auto)]

ghost use Rattle.std.specs.Prelude.{◌≡◌, ◌+◌, ◌≤◌, true, length, take, drop};
ghost use Rattle.inputs.specs.Parts.{page_length, row_length};

// The byte that closes a row.
const CLOSE: u8 = b'\n';

// How many bytes lie before the first empty row.
fn before_empty_row(input: &[u8]) -> usize
    ensures value { result ≡ page_length true input.now }
    ensures within { result ≤ length input.now }
{
    // A loop, since what a byte closes depends on the byte before it.
    let mut at_start = true;
    for (i, byte) in input.iter().enumerate() {
        let closes = *byte == CLOSE;
        if at_start && closes {
            return i;
        }
        at_start = closes;
    }
    input.len()
}

// How many bytes lie before the first byte that closes a row.
fn before_close(input: &[u8]) -> usize
    ensures value { result ≡ row_length input.now }
    ensures within { result ≤ length input.now }
{
    input.iter().take_while(|byte| **byte != CLOSE).count()
}

// The first so many bytes, and those past the byte behind them.
fn cut(input: &[u8], at: usize) -> (&[u8], &[u8])
    requires { at ≤ length input.now }
    ensures front { result.0.now ≡ take at input.now }
    ensures back { result.1.now ≡ drop (at + 1) input.now }
{
    (&input[..at], input.get(at + 1..).unwrap_or_default())
}

/// A page up to an empty row, which is not part of it, and what lies behind that row.
pub fn split_page(input: &[u8]) -> (&[u8], &[u8])
    ensures page { result.0.now ≡ take (page_length true input.now) input.now }
    ensures rest { result.1.now ≡ drop (page_length true input.now + 1) input.now }
{
    let length = before_empty_row(input);
    cut(input, length)
}

/// A row up to the byte that closes it, which is not part of it, and what lies behind that byte.
pub fn split_row(input: &[u8]) -> (&[u8], &[u8])
    ensures row { result.0.now ≡ take (row_length input.now) input.now }
    ensures rest { result.1.now ≡ drop (row_length input.now + 1) input.now }
{
    let length = before_close(input);
    cut(input, length)
}
