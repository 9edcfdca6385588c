// How the memory of an automaton is laid out.
ghost use Rattle.std.specs.Prelude.{◌≡◌, ℕ, ◌+◌, ◌*◌};
ghost use Rattle.automaton.specs.Memory.{at};

// The states of an automaton, at most.
pub(crate) const STATES: usize = 1024;

// The letters of the alphabet.
pub(crate) const LETTERS: u8 = 16;

// The numbers of the table: one for each state and letter.
pub(crate) const EDGES: usize = 16 * STATES;

// The state that stands for no letters.
pub(crate) const ROOT: u16 = 0;

// Where in the table a state's letter lies.
pub(crate) fn edge(state: u16, letter: u8) -> usize
    ensures { result ≡ state * 16 + letter }
{
    usize::from(state) * usize::from(LETTERS) + usize::from(letter)
}

// Sets every number to 0.
pub(crate) fn wipe(part: &mut [u16])
    ensures { (i : ℕ) → at part.new i ≡ 0 }
{
    part.fill(0);
}
