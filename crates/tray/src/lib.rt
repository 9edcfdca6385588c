// The tray: reports that wait to be taken, in the caller's memory.
#![tactic(auto)]

ghost use Rattle.std.specs.Prelude.{◌≡◌, [], length};
ghost use Rattle.queue.specs.Answers.{put_after, put_slots, first, rest};
ghost use Rattle.tray.specs.Waiting.{reports, places, put_answer};

use queue::{Full, Queue};
use refusals::Refusal;

/// A report: a line, by its number, was reported at a tick.
#[derive(Clone, Copy, PartialEq, Eq, Debug)]
pub struct Report {
    pub tick: u32,
    pub number: u8,
}

/// A tray of reports, one a place, the oldest taken first.
#[derive(Drop)]
pub struct Tray<'a> {
    queue: Queue<'a, Report>,
}

impl<'a> Tray<'a> {
    /// An empty tray over the caller's memory, which is not altered.
    pub fn new(memory: &'a mut [Report]) -> Tray<'a>
        ensures reports { reports result ≡ [] }
        ensures places { places result ≡ length memory.old }
        ensures memory { result.queue.slots.now ≡ memory.old }
        ensures lender { result.queue.slots.ghost_name ≡ memory.entry.ghost_name }
    {
        Tray {
            queue: Queue::new(memory),
        }
    }

    /// Puts a report behind the others. It is refused, and nothing changes, if all places are filled.
    pub fn put(&mut self, report: Report) -> Result<(), Refusal>
        ensures result { result ≡ put_answer (reports self.old) (places self.old) }
        ensures reports { reports self.new ≡ put_after (reports self.old) (places self.old) report }
        ensures places { places self.new ≡ places self.old }
        ensures memory { self.new.queue.slots.now ≡ put_slots self.old.queue report }
        ensures lender { self.new.queue.slots.ghost_name ≡ self.old.queue.slots.ghost_name }
    {
        self.queue.put(report).map_err(|_: Full| Refusal::TrayFull)
    }

    /// Takes the report that has waited longest, if any waits. Its place is used again.
    pub fn take(&mut self) -> Option<Report>
        ensures result { result ≡ first (reports self.old) }
        ensures reports { reports self.new ≡ rest (reports self.old) }
        ensures places { places self.new ≡ places self.old }
        ensures memory { self.new.queue.slots.now ≡ self.old.queue.slots.now }
        ensures lender { self.new.queue.slots.ghost_name ≡ self.old.queue.slots.ghost_name }
    {
        self.queue.take()
    }

    /// How many reports wait.
    pub fn len(&self) -> usize
        ensures { result ≡ length (reports self.now) }
    {
        self.queue.len()
    }
}

#[cfg(test)]
mod tests {
    use super::*;
    use std::test::Fail;

    #[test]
    fn one_place(rt: HostRuntime) -> Result<(), Fail> {
        let early = Report { tick: 7, number: 2 };
        let late = Report { tick: 9, number: 1 };
        let mut memory = [late; 1];
        let mut tray = Tray::new(&mut memory);
        tray.put(early)?;
        assert_eq!(rt; tray.put(late), Err(Refusal::TrayFull));
        assert_eq!(rt; tray.take(), Some(early));
        assert_eq!(rt; tray.take(), None);
        assert_eq!(rt; tray.put(late), Ok(()));
        Ok(())
    }
}
