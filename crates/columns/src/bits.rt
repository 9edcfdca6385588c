// Bits in words, each with a number.
ghost use Rattle.std.specs.Prelude.{◌≡◌, ℕ, ◌+◌, ◌*◌, ◌^◌, ◌<◌, ◌≤◌, true, false, not, ◌&&◌, ◌||◌, Decides, MatchOption, ◌==◌, slice_index, ◌≢◌};
ghost use Rattle.columns.specs.Bits.{bit, inside};
ghost use Rattle.columns.specs.Passing.{one_up, how_many, IsLeast};

/// The bits of N words, numbered from FIRST on.
#[derive(Clone, Copy)]
pub(crate) struct Bits<const FIRST: usize, const N: usize> {
    words: [u64; N],
}

impl<const FIRST: usize, const N: usize> Bits<FIRST, N> {
    pub(crate) fn none() -> Bits<FIRST, N>
        ensures { (k : ℕ) → bit result k ≡ false }
    {
        Bits { words: [0; N] }
    }

    // The sets joined word by word.
    fn joined<J: Fn(u64, u64) -> u64>(mut self, other: Bits<FIRST, N>, join: J) -> Bits<FIRST, N>
        requires { J.IsAlwaysCallable join }
        ensures { (i : ℕ) → i < N → J.post join (slice_index self.entry.words i) (slice_index other.entry.words i) (slice_index result.words i) }
    {
        // By index, since nothing is known of what is written by `zip`.
        for (i, word) in self.words.iter_mut().enumerate() {
            *word = join(*word, other.words[i]);
        }
        self
    }

    pub(crate) fn and(self, other: Bits<FIRST, N>) -> Bits<FIRST, N>
        ensures { (k : ℕ) → bit result k ≡ (bit self.entry k && bit other.entry k) }
    {
        self.joined(other, |word, others| word & others)
    }

    pub(crate) fn or(self, other: Bits<FIRST, N>) -> Bits<FIRST, N>
        ensures { (k : ℕ) → bit result k ≡ (bit self.entry k || bit other.entry k) }
    {
        self.joined(other, |word, others| word | others)
    }

    /// Every bit one number up: the last falls out.
    pub(crate) fn shifted(mut self) -> Bits<FIRST, N>
        ensures { (k : ℕ) → bit result k ≡ (inside FIRST N k && one_up (bit self.entry) k) }
    {
        let mut carry = 0;
        for word in self.words.iter_mut() {
            let last = *word >> 63;
            *word = (*word << 1) | carry;
            carry = last;
        }
        self
    }

    // The place of a number's bit, counted from 0, if it has a bit.
    fn place(number: usize) -> Option<usize>
        ensures { MatchOption result (inside FIRST N number ≡ false) (λ place. (place < 64 * N) × (number ≡ FIRST + place)) }
    {
        let place = number.checked_sub(FIRST)?;
        if place / 64 < N { Some(place) } else { None }
    }

    /// The same bits and the number's own, if it has one.
    pub(crate) fn with(mut self, number: usize) -> Bits<FIRST, N>
        ensures { (k : ℕ) → bit result k ≡ ((inside FIRST N number && k == number) || bit self.entry k) }
    {
        if let Some(place) = Self::place(number) {
            self.words[place / 64] |= 1 << (place % 64);
        }
        self
    }

    pub(crate) fn has(self, number: usize) -> bool
        ensures { result ≡ bit self.entry number }
    {
        match Self::place(number) {
            Some(place) => (self.words[place / 64] >> (place % 64)) & 1 == 1,
            None => false,
        }
    }

    // Where the first word is that has a bit set.
    fn first_word(self) -> Option<usize>
        ensures { MatchOption result ((i : ℕ) → i < N → slice_index self.entry.words i ≡ 0) (λ i. (i < N) × (slice_index self.entry.words i ≢ 0) × ((k : ℕ) → k < i → slice_index self.entry.words k ≡ 0)) }
    {
        self.words.iter().position(|word| *word != 0)
    }

    pub(crate) fn is_empty(self) -> bool
        ensures { Decides result ((k : ℕ) → bit self.entry k ≡ false) }
    {
        self.first_word().is_none()
    }

    /// How many bits are set, of so few that the count fits.
    pub(crate) fn count(self) -> usize
        requires { FIRST + 64 * N ≤ 2 ^ 32 }
        ensures { result ≡ how_many (bit self.entry) (FIRST + 64 * N) }
    {
        self.words
            .iter()
            .map(|word| word.count_ones() as usize)
            .sum()
    }

    /// Takes out the least number whose bit is set, of so few that each fits.
    pub(crate) fn take_least(&mut self) -> Option<usize>
        requires { FIRST + 64 * N ≤ 2 ^ 32 }
        ensures { MatchOption result (((k : ℕ) → bit self.old k ≡ false) × (self.new ≡ self.old)) (λ least. IsLeast (bit self.old) least × ((k : ℕ) → bit self.new k ≡ (bit self.old k && not (k == least)))) }
    {
        let i = self.first_word()?;
        let word = self.words[i];
        self.words[i] = word & (word - 1);
        Some(FIRST + 64 * i + word.trailing_zeros() as usize)
    }
}
