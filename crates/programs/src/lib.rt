// What the programs share: an input that is read whole, an output that is buffered, and the rows of refusals.
#![tactic(auto)]

ghost use Rattle.std.specs.Prelude.{◌≡◌, ◌↔◌, ℕ, List, [], ◌++◌, Option, Some, IsTrue, OnOk, IfOk, IfSome};
ghost use Rattle.std.specs.Io.KnownBytes.{Appends};
ghost use Rattle.printout.specs.Rows.{refusal_row};

use printout::{ROOM, refusal_row};
use refusals::Refusal;
use std::alloc::Global;
use std::io;
use std::io::{Read, Write};

/// The cells of each book of a program.
pub const PLACES: usize = 1023;

/// A program that writes an output for an input.
pub trait Program {
    // what the program may leave in an output, for an input and what the output held before
    ghost leaves: { List ℕ → Option (List ℕ) → Option (List ℕ) → Type 0 };

    fn answer<W: Write>(alloc: Global, input: &[u8], out: &mut W) -> anyhow::Result<()>
        ensures { OnOk result (leaves input.now (W.contents out.old) (W.contents out.new)) };
}

/// Runs a program on all of an input.
pub fn run<P: Program, R: Read, W: Write>(
    alloc: Global,
    reader: &mut R,
    out: &mut W,
) -> anyhow::Result<()>
    ensures { OnOk result (IfSome (R.remaining reader.old) (λ input. P.leaves input (W.contents out.old) (W.contents out.new))) }
{
    let mut input = Vec::new(alloc);
    reader.read_to_end(&mut input)?;
    P::answer(alloc, &input, out)
}

/// Whether a program writes exactly an output for an input, where nothing was written before.
pub fn answers<P: Program>(alloc: Global, input: &[u8], output: &[u8]) -> anyhow::Result<bool>
    ensures { IfOk result (λ same. (left : List ℕ) × P.leaves input.now (Some []) (Some left) × (IsTrue same ↔ (left ≡ output.now))) }
{
    let mut out = Vec::new(alloc);
    P::answer(alloc, input, &mut out)?;
    Ok(out.as_slice() == output)
}

/// Writes the row of a refusal.
pub fn write_refusal<W: Write>(
    out: &mut W,
    refusal: Refusal,
    row: usize,
    column: usize,
) -> io::Result<()>
    ensures { OnOk result (Appends (W.contents out.old) (W.contents out.new) (refusal_row refusal row column)) }
{
    let mut bytes = [0; ROOM];
    let length = refusal_row(refusal, row as u64, column as u64, &mut bytes).unwrap();
    out.write_all(&bytes[..length])
}

#[cfg(test)]
mod tests {
    use super::*;
    use std::test::Fail;

    // Writes its input twice.
    struct Twice;

    impl Program for Twice {
        ghost leaves = { λ input old new. Appends old new (input ++ input) };

        fn answer<W: Write>(_alloc: Global, input: &[u8], out: &mut W) -> anyhow::Result<()> {
            out.write_all(input)?;
            out.write_all(input)?;
            Ok(())
        }
    }

    #[test]
    fn outputs(rt: HostRuntime) -> Result<(), Fail> {
        assert!(rt; answers::<Twice>(rt.alloc(), b"AB", b"ABAB")?);
        assert!(rt; !answers::<Twice>(rt.alloc(), b"AB", b"AB")?);
        Ok(())
    }

    #[test]
    fn runs(rt: HostRuntime) -> Result<(), Fail> {
        let mut out = Vec::new(rt.alloc());
        run::<Twice, _, _>(rt.alloc(), &mut b"AB".as_slice(), &mut out)?;
        assert!(rt; out.as_slice() == b"ABAB".as_slice());
        Ok(())
    }

    #[test]
    fn refusals(rt: HostRuntime) -> Result<(), Fail> {
        let mut out = Vec::new(rt.alloc());
        write_refusal(&mut out, Refusal::NoSymbol, 0, 3)?;
        assert!(rt; out.as_slice() == b"refused  31     0          3\n".as_slice());
        Ok(())
    }
}
