// What a bench does.
ghost use Rattle.std.specs.Prelude.{◌≡◌, [], IfOk, IfErr, Ok, Err};
ghost use Rattle.history.specs.Calls.{arm, rest, clear};
ghost use Rattle.bench.specs.Keeping.{Fed, Did, Stands, Ready, turn_of};
ghost use Rattle.bench.specs.Life.{Lives};
ghost use Rattle.bench.specs.Lived.{Represents};
ghost use Rattle.bench.specs.Standings.{shown};

use crate::benches::Bench;
use crate::desks::Desk;
use crate::lines::listing::watched_lines;
use crate::recent::Recent;
use crate::states::LineState;
use cells::kinds::Cell;
use columns::numbers::Numbers;
use finders::finding::Finder;
use matching::{clear, start, take};
use refusals::Refusal;
use standings::tables::Standings;
use standings::turns::{Standing, Turn};
use std::marker::PhantomData;

// The ticks that a bench counts at most.
const MOST_TICKS: u32 = 4_000_000_000;

// Clears a finder, and makes the desk of a bench over it that has been through nothing.
fn begin<C: Cell, F: Finder<C>>(finder: &mut F) -> Desk
    ensures { Lives C.Cell F.Finder finder.new result (F.Finder.book finder.old) [] }
{
    let lookback = start::<C, F>(finder);
    let lines = finder.lines();
    Desk {
        lines: watched_lines::<C>(lines, finder.keywords()),
        lookback,
        standings: Standings::new(lines),
        recent: Recent::none(),
        count: 0,
    }
}

impl<C: Cell, F: Finder<C>> Bench<C, F> {
    /// A bench over a finder, which it takes over and clears: no tick is counted, every line is armed with mark 0, and
    /// no points are due.
    pub fn new(finder: F) -> Bench<C, F>
        ensures { Represents C.Cell F.Finder result (F.Finder.book finder) [] }
    {
        let mut finder = finder;
        let desk = begin::<C, F>(&mut finder);
        Bench {
            finder,
            desk,
            kind: PhantomData,
        }
    }

    // The symbol of a sample that a feed accepts, or the refusal.
    fn admit(&self, sample: C::Sample) -> Result<F::Symbol, Refusal>
        ensures accepted { IfOk result (λ y. Ready C.Cell F.Finder self.now sample y) }
        ensures refused { IfErr result (λ e. Fed C.Cell F.Finder self.now sample (Err e) self.now) }
    {
        let symbol = F::read(sample).ok_or(Refusal::NoSymbol)?;
        if self.desk.count >= MOST_TICKS {
            return Err(Refusal::TicksSpent);
        }
        Ok(symbol)
    }

    // Counts a tick, at which a symbol came: that of any sample that was read as it.
    fn advance(&mut self, symbol: F::Symbol) -> (u32, Numbers, i32)
        requires { (s : C.Sample) × Ready C.Cell F.Finder self.old s symbol }
        ensures { (s : C.Sample) → Ready C.Cell F.Finder self.old s symbol → Fed C.Cell F.Finder self.old s (Ok result) self.new }
    {
        let column = take::<C, F>(&mut self.finder, &mut self.desk.lookback, symbol);
        self.desk.tick(column)
    }

    /// Feeds the sample of the next tick: answers the tick, the numbers of the lines that are reported, and the points
    /// that are due. It refuses a sample that its finder does not take, and any past 4,000,000,000 ticks.
    pub fn feed(&mut self, sample: C::Sample) -> Result<(u32, Numbers, i32), Refusal>
        ensures { Fed C.Cell F.Finder self.old sample result self.new }
    {
        let symbol = self.admit(sample)?;
        Ok(self.advance(symbol))
    }

    // Arms or rests a line.
    fn turn(&mut self, number: u16, turn: Turn) -> Result<(), Refusal>
        ensures { Did C.Cell F.Finder self.old (turn_of turn number) result self.new }
    {
        let count = self.desk.count;
        self.desk.standings.turn(number, turn, count)
    }

    /// Arms a resting line: only occurrences that start after the present tick are reported from here on.
    pub fn arm(&mut self, number: u16) -> Result<(), Refusal>
        ensures { Did C.Cell F.Finder self.old (arm number) result self.new }
    {
        self.turn(number, Turn::Arm)
    }

    /// Rests an armed line: it is not reported from here on.
    pub fn rest(&mut self, number: u16) -> Result<(), Refusal>
        ensures { Did C.Cell F.Finder self.old (rest number) result self.new }
    {
        self.turn(number, Turn::Rest)
    }

    // Forgets every tick and every turn; the lines stay.
    fn forget(&mut self)
        ensures { Did C.Cell F.Finder self.old clear (Ok tt) self.new }
    {
        clear::<C, F>(&mut self.finder, &mut self.desk.lookback);
        self.desk.standings = Standings::new(self.finder.lines());
        self.desk.recent = Recent::none();
        self.desk.count = 0;
    }

    /// Returns to the just made condition: forgets every tick and every turn; the lines stay.
    pub fn clear(&mut self)
        ensures { Did C.Cell F.Finder self.old clear (Ok tt) self.new }
    {
        self.forget();
    }

    // The standing of a number, as it is kept.
    fn kept_standing(&self, number: u16) -> Option<Standing>
        ensures { Stands C.Cell F.Finder self.now number (shown result) }
    {
        self.desk.standings.standing(number)
    }

    /// Whether a line is armed or resting; absent where the book has no line of that number.
    pub fn standing(&self, number: u16) -> Option<LineState>
        ensures { Stands C.Cell F.Finder self.now number result }
    {
        self.kept_standing(number).map(LineState::from)
    }
}
