#![tactic(auto)]

ghost use Rattle.std.specs.Prelude.{◌≡◌, ℕ, ◌+◌, ◌-◌, ◌<◌, ◌≤◌, [], ◌∷◌, ◌++◌, length, MatchOption, slice_index_or, slice_set};
ghost use Rattle.queue.specs.Queued.{waiting, queued, room};
ghost use Rattle.queue.specs.Places.{start, past, back};
ghost use Rattle.queue.specs.Answers.{put_answer, put_after, put_slots, first, rest};

/// A queue of fixed size over a lent slice: first in, first out.
// Slots with a head and a count beside them, since the memory is the caller's, lent and not owned.
#[derive(Drop)]
pub struct Queue<'a, T> {
    slots: &'a mut [T],
    head: usize,
    count: usize,
}

/// A refusal: every place is filled.
#[derive(Clone, Copy, PartialEq, Eq, Debug)]
pub struct Full;

impl<'a, T: Copy> Queue<'a, T> {
    /// An empty queue over the whole slice, which is not altered.
    pub fn new(slots: &'a mut [T]) -> Queue<'a, T>
        ensures items { queued result ≡ [] }
        ensures room { room result ≡ length slots.old }
        ensures memory { result.slots.now ≡ slots.old }
        ensures lender { result.slots.ghost_name ≡ slots.entry.ghost_name }
    {
        Queue {
            slots,
            head: 0,
            count: 0,
        }
    }

    /// Puts `x` behind the others. It is refused, and nothing changes, if every place is filled.
    pub fn put(&mut self, x: T) -> Result<(), Full>
        ensures result { result ≡ put_answer (queued self.old) (room self.old) }
        ensures items { queued self.new ≡ put_after (queued self.old) (room self.old) x }
        ensures room { room self.new ≡ room self.old }
        ensures memory { self.new.slots.now ≡ put_slots self.old x }
        ensures lender { self.new.slots.ghost_name ≡ self.old.slots.ghost_name }
    {
        let count = self.len();
        if count >= self.room() {
            return Err(Full);
        }
        let at = self.back();
        write(self.slots, at, x);
        self.count = count + 1;
        Ok(())
    }

    /// Takes the one that has waited longest, if any waits. Its place is used again.
    pub fn take(&mut self) -> Option<T>
        ensures result { result ≡ first (queued self.old) }
        ensures items { queued self.new ≡ rest (queued self.old) }
        ensures room { room self.new ≡ room self.old }
        ensures memory { self.new.slots.now ≡ self.old.slots.now }
        ensures lender { self.new.slots.ghost_name ≡ self.old.slots.ghost_name }
    {
        let oldest = self.oldest()?;
        let count = self.len();
        self.head = self.second();
        self.count = count - 1;
        Some(oldest)
    }

    /// How many wait: never more than there are places.
    pub fn len(&self) -> usize
        ensures value { result ≡ length (queued self.now) }
        ensures within { result ≤ room self.now }
    {
        held(self.slots, self.count)
    }

    /// How many places there are.
    pub fn room(&self) -> usize
        ensures { result ≡ room self.now }
    {
        self.slots.len()
    }

    // The one that has waited longest.
    fn oldest(&self) -> Option<T>
        ensures { MatchOption result (queued self.now ≡ []) (λ x. queued self.now ≡ x ∷ rest (queued self.now)) }
    {
        if self.len() == 0 {
            return None;
        }
        let at = self.start();
        Some(read(self.slots, at))
    }

    // The head's slot: a head past the slots reads as the first slot.
    fn start(&self) -> usize
        ensures { result ≡ start self.now.head (room self.now) }
    {
        if self.head < self.room() {
            self.head
        } else {
            0
        }
    }

    // The slot past the head's: all but the oldest wait from there on.
    fn second(&self) -> usize
        requires { 0 < length (queued self.now) }
        ensures { waiting self.now.slots.now result (length (queued self.now) - 1) ≡ rest (queued self.now) }
    {
        past(self.start(), 1, self.room())
    }

    // The slot behind those that wait: what is written there waits behind them.
    fn back(&self) -> usize
        requires { length (queued self.now) < room self.now }
        ensures place { result ≡ back self.now }
        ensures within { result < room self.now }
        ensures adds { (x : T) → waiting (slice_set self.now.slots.now result x) self.now.head (length (queued self.now) + 1) ≡ queued self.now ++ x ∷ [] }
    {
        past(self.start(), self.len(), self.room())
    }
}

// Functions over the slice, since a queue's methods hand its slots to them.

// How many wait where `count` are said to, whatever the head: no more than there are slots.
fn held<T>(slots: &[T], count: usize) -> usize
    ensures value { (head : ℕ) → result ≡ length (waiting slots.now head count) }
    ensures within { result ≤ length slots.now }
{
    count.min(slots.len())
}

// The slot that lies `by` places past the slot `at`: the first slot follows the last.
fn past(at: usize, by: usize, size: usize) -> usize
    requires { (at < size) × (by ≤ size) }
    ensures { result ≡ past at by size }
{
    let left = size - at;
    if by < left { at + by } else { by - left }
}

fn read<T: Copy>(slots: &[T], at: usize) -> T
    requires { at < length slots.now }
    ensures { result ≡ slice_index_or slots.now at result }
{
    slots[at]
}

fn write<T: Copy>(slots: &mut [T], at: usize, x: T)
    requires { at < length slots.old }
    ensures { slots.new ≡ slice_set slots.old at x }
{
    slots[at] = x;
}

#[cfg(test)]
mod tests {
    use super::*;
    use std::test::Fail;

    #[derive(Clone, Copy, PartialEq, Debug)]
    struct Report {
        tick: u32,
        number: u8,
    }

    #[test]
    fn first_in_first_out(rt: HostRuntime) -> Result<(), Fail> {
        let mut memory = [0u16; 3];
        let mut queue = Queue::new(&mut memory);
        queue.put(1)?;
        queue.put(2)?;
        assert_eq!(rt; queue.take(), Some(1));
        queue.put(3)?;
        queue.put(4)?;
        assert_eq!(rt; queue.take(), Some(2));
        assert_eq!(rt; queue.take(), Some(3));
        assert_eq!(rt; queue.take(), Some(4));
        assert_eq!(rt; queue.take(), None);
        Ok(())
    }

    #[test]
    fn full(rt: HostRuntime) -> Result<(), Fail> {
        let mut memory = [0u16; 2];
        let mut queue = Queue::new(&mut memory);
        queue.put(1)?;
        queue.put(2)?;
        assert_eq!(rt; queue.put(3), Err(Full));
        assert_eq!(rt; (queue.len(), queue.room()), (2, 2));
        assert_eq!(rt; queue.take(), Some(1));
        assert_eq!(rt; queue.put(3), Ok(()));
        Ok(())
    }

    #[test]
    fn no_memory(rt: HostRuntime) {
        let mut memory: [u16; 0] = [];
        let mut queue = Queue::new(&mut memory);
        assert_eq!(rt; queue.put(1), Err(Full));
        assert_eq!(rt; queue.take(), None);
    }

    #[test]
    fn reports(rt: HostRuntime) -> Result<(), Fail> {
        let early = Report { tick: 7, number: 2 };
        let late = Report { tick: 9, number: 1 };
        let mut memory = [Report { tick: 0, number: 0 }; 2];
        let mut queue = Queue::new(&mut memory);
        queue.put(early)?;
        queue.put(late)?;
        assert_eq!(rt; queue.take(), Some(early));
        assert_eq!(rt; queue.take(), Some(late));
        Ok(())
    }
}
