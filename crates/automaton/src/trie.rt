// How the trie of a book's keywords is planted.
ghost use Rattle.std.specs.Prelude.{◌≡◌, ℕ, ◌+◌, ◌<◌, ◌≤◌, length};
ghost use Rattle.book.specs.Book.{all_cells};
ghost use Rattle.book.specs.Stored.{sealed_book};
ghost use Rattle.automaton.specs.Memory.{at};
ghost use Rattle.automaton.specs.Places.{letters, before};
ghost use Rattle.automaton.specs.Planting.{HasPlanted, StaysLent};
ghost use Rattle.automaton.specs.Trie.{Planted, Lies};

use crate::memory::{ROOT, edge, wipe};
use book::rows::KeywordRow;
use book::sealed::SealedBook;
use cells::letters::LetterCell;

// The letter of a place, and how many places there are at most.
fn letter_at(book: &SealedBook<'_, LetterCell>, place: usize) -> u8
    requires { place < length (all_cells (sealed_book book.now)) }
    ensures value { at (letters (all_cells (sealed_book book.now))) place ≡ result }
    ensures bound { result < 16 }
    ensures few { length (all_cells (sealed_book book.now)) ≤ 1023 }
{
    book.cells()[place].letter().index()
}

/// A trie that grows in lent memory.
#[derive(Drop)]
pub struct Planter<'a> {
    // where each letter leads from each state
    next: &'a mut [u16],
    // the state of each place
    states: &'a mut [u16],
    // how many states there are besides the root
    made: u16,
}

impl Planter<'_> {
    // Gives a place its state, to which its letter leads from the state before it. It is made if there is none.
    fn plant_letter(&mut self, book: &SealedBook<'_, LetterCell>, place: usize, from: u16) -> u16
        requires planted { HasPlanted (sealed_book book.now) self.old place }
        requires place { place < length (all_cells (sealed_book book.now)) }
        requires from { before (sealed_book book.now) self.old.states.now place ≡ from }
        ensures planted { HasPlanted (sealed_book book.now) self.new (place + 1) }
        ensures state { at self.new.states.now place ≡ result }
        ensures lent { StaysLent self.old self.new }
    {
        let edge = edge(from, letter_at(book, place));
        let found = self.next[edge];
        if found == ROOT {
            let state = self.made + 1;
            self.next[edge] = state;
            self.states[place] = state;
            self.made = state;
            state
        } else {
            self.states[place] = found;
            found
        }
    }

    // Gives each place of a keyword its state.
    fn plant_keyword(&mut self, book: &SealedBook<'_, LetterCell>, keyword: KeywordRow)
        requires planted { HasPlanted (sealed_book book.now) self.old keyword.first }
        requires lies { Lies (sealed_book book.now) keyword }
        ensures planted { HasPlanted (sealed_book book.now) self.new (keyword.first + keyword.length) }
        ensures lent { StaysLent self.old self.new }
    {
        let first = keyword.first as usize;
        let end = first + keyword.length as usize;
        let mut state = ROOT;
        // The number of a place: the book is read at it, and the planter writes at it.
        for place in first..end {
            state = self.plant_letter(book, place, state);
        }
    }
}

// The trie of a book's keywords.
pub(crate) fn plant<'a>(
    book: &SealedBook<'_, LetterCell>,
    next: &'a mut [u16],
    states: &'a mut [u16],
)
    requires next { length next.old ≡ 16384 }
    requires states { length states.old ≡ 1024 }
    ensures { (made : ℕ) × Planted (sealed_book book.now) next.new states.new (length (all_cells (sealed_book book.now))) made }
{
    wipe(next);
    let mut planter = Planter {
        next,
        states,
        made: 0,
    };
    for keyword in book.keywords() {
        planter.plant_keyword(book, *keyword);
    }
}
