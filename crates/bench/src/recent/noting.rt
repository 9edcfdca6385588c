// How reports are noted and looked up.
ghost use Rattle.std.specs.Prelude.{◌≡◌, ℕ, ◌+◌, ◌%◌, ◌<◌, ◌≤◌, false, cond, length};
ghost use Rattle.columns.specs.Numbers.{member};
ghost use Rattle.bench.specs.Noted.{noted};

use crate::recent::Recent;
use columns::numbers::Numbers;

impl Recent {
    // No report yet.
    pub(crate) fn none() -> Recent
        ensures { (i n : ℕ) → noted result i n ≡ false }
    {
        let none = Numbers::none();
        Recent { at: [none; 64] }
    }

    // The numbers reported at a tick, one of the latest 64.
    pub(crate) fn reported_at(&self, tick: u32) -> Numbers
        ensures { (n : ℕ) → member result n ≡ noted self.now tick n }
    {
        self.at[tick as usize % 64]
    }

    // Notes the numbers reported at the newest tick, in the place of the one 64 ticks back.
    pub(crate) fn note(&mut self, tick: u32, reported: Numbers)
        ensures newest { (n : ℕ) → noted self.new tick n ≡ member reported n }
        ensures others { (i n : ℕ) → i < tick → tick < i + 64 → noted self.new i n ≡ noted self.old i n }
    {
        self.at[tick as usize % 64] = reported;
    }
}
