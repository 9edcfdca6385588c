// Sets of small numbers.
#![tactic(auto, unfolding(crate::specs::Numbers::member))]

ghost use Rattle.std.specs.Prelude.{◌≡◌, ℕ, false, ◌&&◌, ◌||◌, Decides, ◌==◌};
ghost use Rattle.std.specs.Iterator.{YieldsFirst, item_count};
ghost use Rattle.columns.specs.Numbers.{member, is_number, rising, to_come};

use crate::bits::Bits;

/// A set of numbers from 1 to 128, in two words. Line numbers are such, and distances between keywords.
///
/// A type of its own beside `Column`, so that neither is taken for the other; each method is one call of `Bits`.
#[derive(Clone, Copy)]
pub struct Numbers(Bits<1, 2>);

impl Numbers {
    /// Without a member.
    pub fn none() -> Numbers
        ensures { (n : ℕ) → member result n ≡ false }
    {
        Numbers(Bits::none())
    }

    /// Makes the number a member. Nothing changes where it is not 1 to 128.
    pub fn insert(&mut self, number: u8)
        ensures { (n : ℕ) → member self.new n ≡ ((is_number number && n == number) || member self.old n) }
    {
        self.0 = self.0.with(number as usize);
    }

    /// Whether the number is a member.
    pub fn contains(self, number: u8) -> bool
        ensures { result ≡ member self number }
    {
        self.0.has(number as usize)
    }

    /// Whether there is no member.
    pub fn is_empty(self) -> bool
        ensures { Decides result ((n : ℕ) → member self n ≡ false) }
    {
        self.0.is_empty()
    }

    /// The members, in rising order.
    pub fn members(self) -> Members
        ensures { to_come result ≡ rising self }
    {
        Members { rest: self }
    }

    // Takes out the least member, the first in rising order.
    fn take_least(&mut self) -> Option<u8>
        ensures { YieldsFirst rising self.old result self.new }
    {
        let number = self.0.take_least()?;
        Some(number as u8)
    }
}

/// An iterator over the members of a set, in rising order.
#[derive(Drop)]
pub struct Members {
    rest: Numbers,
}

impl Iterator for Members {
    type Item = u8;

    ghost next_gives = { YieldsFirst to_come };

    ghost remaining = { item_count to_come };

    fn next(&mut self) -> Option<u8> {
        self.rest.take_least()
    }
}

#[cfg(test)]
mod tests {
    use super::*;

    #[test]
    fn rising_order(rt: HostRuntime) {
        let mut set = Numbers::none();
        assert!(rt; set.is_empty());
        set.insert(128);
        set.insert(65);
        set.insert(1);
        set.insert(64);
        set.insert(65);
        let mut members = set.members();
        assert_eq!(rt; members.next(), Some(1));
        assert_eq!(rt; members.next(), Some(64));
        assert_eq!(rt; members.next(), Some(65));
        assert_eq!(rt; members.next(), Some(128));
        assert_eq!(rt; members.next(), None);
    }

    #[test]
    fn no_line_number(rt: HostRuntime) {
        let mut set = Numbers::none();
        set.insert(0);
        set.insert(129);
        assert!(rt; set.is_empty());
        assert_eq!(rt; set.contains(129), false);
        set.insert(128);
        assert_eq!(rt; (set.contains(128), set.contains(0)), (true, false));
    }
}
