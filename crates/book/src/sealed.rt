// The sealed book. A type of its own, so that a late enter does not compile.
ghost use Rattle.std.specs.Prelude.{◌≤◌, length};

use crate::ledgers::Ledger;

/// A book that takes no line any more.
#[derive(Drop)]
pub struct SealedBook<'a, C> {
    pub(crate) cells: &'a [C],
    pub(crate) ledger: Ledger,
    ghost room: { ledger.cell_count ≤ length cells.now },
}
