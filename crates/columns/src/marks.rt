// Columns of marks.
#![tactic(auto, unfolding(crate::specs::Marks::mark))]

ghost use Rattle.std.specs.Prelude.{◌≡◌, ℕ, false, ◌&&◌, ◌||◌, Decides, ◌==◌, nat_lt};
ghost use Rattle.columns.specs.Marks.{mark};
ghost use Rattle.columns.specs.Passing.{one_up, how_many};

use crate::bits::Bits;

/// A column: the marks 0 to 511, in eight words.
///
/// A type of its own beside `Numbers`, so that neither is taken for the other; each method is one call of `Bits`.
#[derive(Clone, Copy)]
pub struct Column(Bits<0, 8>);

impl Column {
    /// Without a mark.
    pub fn none() -> Column
        ensures { (k : ℕ) → mark result k ≡ false }
    {
        Column(Bits::none())
    }

    /// The marks of both.
    pub fn and(self, other: Column) -> Column
        ensures { (k : ℕ) → mark result k ≡ (mark self k && mark other k) }
    {
        Column(self.0.and(other.0))
    }

    /// The marks of either.
    pub fn or(self, other: Column) -> Column
        ensures { (k : ℕ) → mark result k ≡ (mark self k || mark other k) }
    {
        Column(self.0.or(other.0))
    }

    /// Every mark one up: there is none at 0, and the mark 511 falls out.
    pub fn shifted(self) -> Column
        ensures { (k : ℕ) → mark result k ≡ (nat_lt k 512 && one_up (mark self) k) }
    {
        Column(self.0.shifted())
    }

    /// The mark `k` too. Nothing changes where `k` is past the marks.
    pub fn with(self, k: usize) -> Column
        ensures { (j : ℕ) → mark result j ≡ ((nat_lt k 512 && j == k) || mark self j) }
    {
        Column(self.0.with(k))
    }

    /// Whether the mark `k` stands.
    pub fn has(self, k: usize) -> bool
        ensures { result ≡ mark self k }
    {
        self.0.has(k)
    }

    /// Whether no mark stands.
    pub fn is_empty(self) -> bool
        ensures { Decides result ((k : ℕ) → mark self k ≡ false) }
    {
        self.0.is_empty()
    }

    /// How many marks stand.
    pub fn count(self) -> usize
        ensures { result ≡ how_many (mark self) 512 }
    {
        self.0.count()
    }
}

#[cfg(test)]
mod tests {
    use super::*;

    #[test]
    fn ends_of_words(rt: HostRuntime) {
        let column = Column::none().with(0).with(63).with(64).with(511);
        assert_eq!(rt;
            (
                column.has(0),
                column.has(63),
                column.has(64),
                column.has(511),
            ),
            (true, true, true, true)
        );
        assert_eq!(rt;
            (column.has(1), column.has(65), column.has(575)),
            (false, false, false)
        );
        assert_eq!(rt; column.count(), 4);
    }

    #[test]
    fn past_the_marks(rt: HostRuntime) {
        let column = Column::none().with(512);
        assert!(rt; column.is_empty());
        assert_eq!(rt; column.has(512), false);
    }

    #[test]
    fn shifted_over_words(rt: HostRuntime) {
        let column = Column::none().with(0).with(63).with(511).shifted();
        assert_eq!(rt; (column.has(1), column.has(64)), (true, true));
        assert_eq!(rt; column.count(), 2);
    }

    #[test]
    fn both_and_either(rt: HostRuntime) {
        let low = Column::none().with(7).with(100);
        let high = Column::none().with(100).with(400);
        let both = low.and(high);
        assert_eq!(rt; (both.has(100), both.count()), (true, 1));
        assert_eq!(rt; low.or(high).count(), 3);
    }
}
