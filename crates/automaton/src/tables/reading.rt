// What the tables tell.
ghost use Rattle.std.specs.Prelude.{◌≡◌, ℕ, ◌+◌, ◌-◌, ◌<◌, ◌≤◌, false, List, MatchOption, ◌≢◌};
ghost use Rattle.cells.specs.Letters.{letter_admits};
ghost use Rattle.finders.specs.Latest.{run};
ghost use Rattle.finders.specs.Runs.{taken, ends};
ghost use Rattle.automaton.specs.Labels.{word, spelt, keyword_words, Label};
ghost use Rattle.automaton.specs.Memory.{at};
ghost use Rattle.automaton.specs.Standing.{book_of, State, stands_in};
ghost use Rattle.automaton.specs.Walk.{meets};

use crate::memory::{ROOT, edge};
use crate::tables::Tables;
use book::rows::KeywordRow;
use cells::letters::{Letter, LetterCell};

impl<'a> Tables<'a> {
    // The root, in which no run stands.
    pub(crate) fn root(&self) -> u16
        ensures state { State self.now result }
        ensures none { (p : ℕ) → stands_in self.now result p ≡ false }
    {
        ROOT
    }

    // The state to which a letter leads.
    pub(crate) fn after(&self, state: u16, letter: Letter) -> u16
        requires { State self.now state }
        ensures state { State self.now result }
        ensures stands { (p : ℕ) → stands_in self.now result p ≡ taken (book_of self.now) (λ c. letter_admits c letter) (stands_in self.now state) p }
    {
        self.next[edge(state, letter.index())]
    }

    // Whether a state is met on the walk of fail links from another. The turns fall on the way, so that the walk goes
    // no further than to the goal's turn.
    pub(crate) fn meets(&self, state: u16, goal: u16) -> bool
        requires state { State self.now state }
        requires goal { State self.now goal }
        ensures { result ≡ meets (at self.now.fail.now) state goal }
    {
        let mut met = state;
        while self.turns[met as usize] > self.turns[goal as usize] {
            met = self.fail[met as usize];
        }
        met == goal
    }

    // The state of a keyword's last place, if there is such a keyword. Where it is met, the keyword has ended.
    pub(crate) fn last_state(&self, keyword: usize) -> Option<u16>
        ensures { MatchOption result ((state : ℕ) → false ≡ ends (book_of self.now) (stands_in self.now state) keyword) (λ last. State self.now last × ((state : ℕ) → meets (at self.now.fail.now) state last ≡ ends (book_of self.now) (stands_in self.now state) keyword)) }
    {
        let row = self.book.keywords().get(keyword)?;
        Some(self.states[row.last_place()])
    }

    // How many cells of a keyword lead from the root to a state, if some do.
    fn cells_to(&self, keyword: KeywordRow, state: u16) -> Option<usize>
        requires { keyword.first + keyword.length ≤ 1023 }
        ensures { MatchOption result ((i : ℕ) → i < keyword.length → at self.now.states.now (keyword.first + i) ≢ state) (λ count. (0 < count) × (count ≤ keyword.length) × (at self.now.states.now (keyword.first + count - 1) ≡ state)) }
    {
        let first = usize::from(keyword.first);
        let end = first + usize::from(keyword.length);
        self.states[first..end]
            .iter()
            .position(|reached| *reached == state)
            .map(|before| before + 1)
    }

    // The label of a state: the cells of a keyword that lead to it from the root.
    pub(crate) fn label(&self, state: u16) -> &'a [LetterCell]
        requires { State self.now state }
        ensures { (letters : List Letter) → ((p : ℕ) → stands_in self.now state p ≡ run letter_admits (book_of self.now) letters p) → Label (keyword_words (book_of self.now)) (word letters) (spelt result.now) }
    {
        let cells = self.book.cells();
        for keyword in self.book.keywords() {
            if let Some(count) = self.cells_to(*keyword, state) {
                let first = keyword.first as usize;
                return &cells[first..first + count];
            }
        }
        &cells[0..0]
    }
}
