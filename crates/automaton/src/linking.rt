// How a trie becomes an automaton: breadth first, each state gets its fail link, and each letter leads somewhere.
ghost use Rattle.std.specs.Prelude.{◌≡◌, ℕ, ◌+◌, ◌<◌, [], ◌∷◌, ◌++◌, length, slice_set};
ghost use Rattle.queue.specs.Queued.{queued, room};
ghost use Rattle.automaton.specs.Breadth.{fallen_back};
ghost use Rattle.automaton.specs.Linking.{Inside, StaysLent};
ghost use Rattle.automaton.specs.Memory.{at, leads};
ghost use Rattle.automaton.specs.Pass.{Automaton};
ghost use Rattle.automaton.specs.Places.{Places};
ghost use Rattle.automaton.specs.Trie.{Trie};

use crate::memory::{LETTERS, ROOT, edge, wipe};
use queue::Queue;

/// The pass over the states, in lent memory.
#[derive(Drop)]
pub struct Linker<'a> {
    // where each letter leads from each state
    next: &'a mut [u16],
    // the fail link of each state
    fail: &'a mut [u16],
    // the turn of each state in the queue
    turns: &'a mut [u16],
    // the states that wait
    queue: Queue<'a, u16>,
    // the last turn given
    turn: u16,
}

impl Linker<'_> {
    // Where a letter leads that the trie lacks after a state: where it leads from the fail link, and from the root to
    // the root.
    fn fall_back(&self, state: u16, letter: u8) -> u16
        requires within { (w : Places) × Inside w self.now state letter }
        requires letter { letter < 16 }
        ensures { result ≡ fallen_back self.now.next.now self.now.fail.now state letter }
    {
        if state == ROOT {
            ROOT
        } else {
            self.next[edge(self.fail[state as usize], letter)]
        }
    }

    // Gives a state its fail link and the next turn, and has it wait behind the others.
    fn give_turn(&mut self, state: u16, link: u16)
        requires fail { state < length self.old.fail.now }
        requires turns { state < length self.old.turns.now }
        requires room { length (queued self.old.queue) < room self.old.queue }
        requires turn { self.old.turn < 1024 }
        ensures next { self.new.next.now ≡ self.old.next.now }
        ensures fail { self.new.fail.now ≡ slice_set self.old.fail.now state link }
        ensures turns { self.new.turns.now ≡ slice_set self.old.turns.now state (self.old.turn + 1) }
        ensures queue { queued self.new.queue ≡ queued self.old.queue ++ state ∷ [] }
        ensures turn { self.new.turn ≡ self.old.turn + 1 }
        ensures lent { StaysLent self.old self.new }
    {
        self.turn += 1;
        self.fail[state as usize] = link;
        self.turns[state as usize] = self.turn;
        let _ = self.queue.put(state);
    }

    // Settles a letter of a state.
    fn settle(&mut self, state: u16, letter: u8)
        requires within { (w : Places) × Inside w self.old state letter }
        requires letter { letter < 16 }
        requires room { room self.old.queue ≡ 1024 }
        ensures within { (w : Places) → Inside w self.old state letter → Inside w self.new state (letter + 1) }
        ensures turn { at self.new.turns.now state ≡ at self.old.turns.now state }
        ensures lent { StaysLent self.old self.new }
    {
        let edge = edge(state, letter);
        let found = self.next[edge];
        let back = self.fall_back(state, letter);
        if found == ROOT {
            self.next[edge] = back;
        } else {
            self.give_turn(found, back);
        }
    }

    // Settles each letter of a state, the oldest of the queue.
    fn settle_state(&mut self, state: u16)
        requires within { (w : Places) × Inside w self.old state 0 }
        requires room { room self.old.queue ≡ 1024 }
        ensures within { (w : Places) → Inside w self.old state 0 → Inside w self.new state 16 }
        ensures turn { at self.new.turns.now state ≡ at self.old.turns.now state }
        ensures lent { StaysLent self.old self.new }
    {
        for letter in 0..LETTERS {
            self.settle(state, letter);
        }
    }
}

// The automaton of a trie. The queue has a place for every state.
pub(crate) fn link<'a>(
    next: &'a mut [u16],
    fail: &'a mut [u16],
    turns: &'a mut [u16],
    slots: &'a mut [u16],
)
    requires trie { (w : Places) × ((made : ℕ) × Trie w (leads next.old) made) }
    requires next { length next.old ≡ 16384 }
    requires fail { length fail.old ≡ 1024 }
    requires turns { length turns.old ≡ 1024 }
    requires slots { length slots.old ≡ 1024 }
    ensures { (w : Places) (made : ℕ) → Trie w (leads next.old) made → Automaton w (leads next.new) (at fail.new) (at turns.new) }
{
    wipe(fail);
    wipe(turns);
    turns[ROOT as usize] = 1;
    let mut queue = Queue::new(slots);
    let _ = queue.put(ROOT);
    let mut linker = Linker {
        next,
        fail,
        turns,
        queue,
        turn: 1,
    };
    while let Some(state) = linker.queue.take() {
        linker.settle_state(state);
    }
    // The memory goes back as the pass has left it.
    let Linker {
        next,
        fail,
        turns,
        ..
    } = linker;
}
