// The open book.
ghost use Rattle.std.specs.Prelude.{◌≤◌, length};

use crate::ledgers::Ledger;

/// A book that takes lines, over the caller's cell memory.
#[derive(Drop)]
pub struct OpenBook<'a, C> {
    pub(crate) cells: &'a mut [C],
    pub(crate) ledger: Ledger,
    ghost room: { ledger.cell_count ≤ length cells.now },
}
