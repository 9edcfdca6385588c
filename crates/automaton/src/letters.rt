// The keyword automaton over letter cells.
ghost use Rattle.std.specs.Prelude.{◌<◌, slice_index};

use crate::memory::STATES;
use crate::tables::Tables;

pub mod finding;
pub mod labels;

/// The numbers of memory that an automaton takes: 20 for each of at most 1,024 states.
pub const NUMBERS: usize = 20 * STATES;

/// The automaton of a book's keywords, and the state that it is in.
#[derive(Drop)]
pub struct LetterAutomaton<'a> {
    tables: Tables<'a>,
    state: u16,
    ghost turned: { 0 < slice_index tables.turns.now state },
}
