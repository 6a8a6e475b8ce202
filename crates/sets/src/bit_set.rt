// Sets of small numbers, each held in one word.
ghost use Rattle.std.specs.Prelude.{◌≡◌, ℕ, ◌-◌, ◌^◌, ◌<◌, not, ◌&&◌, ◌||◌, Decides, MatchOption, ◌==◌, bit_and, bit_or, count_ones, nat_lt, true, None};
ghost use Rattle.std.specs.Iterator.{at_most};
ghost use Rattle.sets.specs.Members.{member, members_below, width_of, Empty, Least, Subset, TakesLeast, least_from};

use std::marker::Model;

// A set of numbers below `WIDTH`, and below 64: bit n of the word is 1 where n is a member.
#[derive(Clone, Copy, PartialEq, Eq, Debug, Default)]
pub struct BitSet<const WIDTH: u32>(u64);

// A set of paths.
pub type PathSet = BitSet<64>;

// A set of routers.
pub type RouterSet = BitSet<32>;

// Clauses see the word.
impl<const WIDTH: u32> Model for BitSet<WIDTH> {
    ghost Value = { ℕ };

    ghost view = { λ s. s.0 };

    ghost invariant = { λ s. s.0 < 2 ^ width_of WIDTH };

    ghost inverse = { λ w. record { 0 = w } };
}

impl<const WIDTH: u32> BitSet<WIDTH> {
    // The set with no member.
    pub fn empty() -> Self
        ensures members { Empty result }
        ensures word { result ≡ 0 }
    {
        Self::default()
    }

    // The numbers below `n`; all that a set can hold where `n` is at or past the width.
    pub fn first(n: u32) -> Self
        ensures members { (k : ℕ) → member result k ≡ (nat_lt k n && nat_lt k (width_of WIDTH)) }
        ensures word { n < width_of WIDTH → result ≡ 2 ^ n - 1 }
    {
        let count = n.min(WIDTH);
        if count < u64::BITS {
            Self((1 << count) - 1)
        } else {
            Self(u64::MAX)
        }
    }

    // Whether `n` is a member.
    pub fn contains(self, n: u32) -> bool
        ensures { result ≡ member self.entry n }
    {
        n < u64::BITS && self.0 >> n & 1 == 1
    }

    // The set with `n` too.
    pub fn with(self, n: u32) -> Self
        ensures members { (k : ℕ) →
            member result k ≡ (member self.entry k || (k == n && nat_lt k (width_of WIDTH))) }
        ensures word { n < width_of WIDTH → result ≡ bit_or self.entry (2 ^ n) }
    {
        if n < WIDTH.min(u64::BITS) {
            Self(self.0 | 1 << n)
        } else {
            self
        }
    }

    // The set but for `n`.
    pub fn without(self, n: u32) -> Self
        ensures members { (k : ℕ) → member result k ≡ (member self.entry k && not (k == n)) }
        ensures word { n < width_of WIDTH → result ≡ bit_and self.entry (2 ^ width_of WIDTH - 1 - 2 ^ n) }
    {
        if n < u64::BITS {
            Self(self.0 & !(1 << n))
        } else {
            self
        }
    }

    // The numbers in either set.
    pub fn union(self, other: Self) -> Self
        ensures members { (k : ℕ) → member result k ≡ (member self.entry k || member other.entry k) }
        ensures word { result ≡ bit_or self.entry other.entry }
    {
        Self(self.0 | other.0)
    }

    // The numbers in both sets.
    pub fn intersection(self, other: Self) -> Self
        ensures members { (k : ℕ) → member result k ≡ (member self.entry k && member other.entry k) }
        ensures word { result ≡ bit_and self.entry other.entry }

        // A set is a word of its width.
        ensures narrow { self.entry < 2 ^ width_of WIDTH }
    {
        Self(self.0 & other.0)
    }

    // The numbers in this set that are not in the other.
    pub fn difference(self, other: Self) -> Self
        ensures members { (k : ℕ) →
            member result k ≡ (member self.entry k && not (member other.entry k)) }
        ensures word { result ≡ bit_and self.entry (2 ^ width_of WIDTH - 1 - other.entry) }
    {
        Self(self.0 & !other.0)
    }

    // Whether the set has no member.
    pub fn is_empty(self) -> bool
        ensures members { Decides result (Empty self.entry) }
        ensures word { result ≡ (self.entry == 0) }
    {
        self.0 == 0
    }

    // Whether every member is one of the other set.
    pub fn is_subset(self, other: Self) -> bool
        ensures { Decides result (Subset self.entry other.entry) }
    {
        self.0 & other.0 == self.0
    }

    // How many members there are.
    pub fn len(self) -> u32
        ensures count { result ≡ members_below self.entry (width_of WIDTH) }
        ensures word { result ≡ count_ones self.entry }
    {
        self.0.count_ones()
    }

    // The least member, if there is one.
    pub fn least(self) -> Option<u32>
        ensures { MatchOption result (Empty self.entry) (λ m. Least self.entry m × (m < width_of WIDTH)) }
    {
        if self.0 == 0 {
            None
        } else {
            Some(self.0.trailing_zeros())
        }
    }

    // The set but for its least member; the empty set is left as it is.
    fn without_least(self) -> Self
        ensures least { (m : ℕ) → Least self.entry m →
            (k : ℕ) → member result k ≡ (member self.entry k && not (k == m)) }
        ensures none { Empty self.entry → result ≡ self.entry }
    {
        Self(self.0 & self.0.wrapping_sub(1))
    }

    // The least member at or past `n`; none where all members are below `n`.
    pub fn least_from(self, n: u32) -> Option<u32>
        ensures value { result ≡ least_from (width_of WIDTH) self.entry n }
        ensures below { result ≡ None → (k : ℕ) → member self.entry k ≡ true → k < n }
    {
        self.difference(Self::first(n)).least()
    }

    // The members, the least first.
    pub fn iter(self) -> Iter<WIDTH>
        ensures { result ≡ self.entry }
    {
        Iter { rest: self }
    }
}

// Each kind of set comes from the number of its own width and goes back to it, so that neither can fail: an impl for
// each width.

// The set whose members are the bits that are 1.
impl From<u64> for PathSet {
    ghost from_gives = { λ bits set. set ≡ bits };

    fn from(bits: u64) -> Self {
        Self(bits)
    }
}

// The word that stands for the set.
impl From<PathSet> for u64 {
    ghost from_gives = { λ set bits. bits ≡ set };

    fn from(set: PathSet) -> Self {
        set.0
    }
}

// The set whose members are the bits that are 1.
impl From<u32> for RouterSet {
    ghost from_gives = { λ bits set. set ≡ bits };

    fn from(bits: u32) -> Self {
        Self(u64::from(bits))
    }
}

// The word that stands for the set.
impl From<RouterSet> for u32 {
    ghost from_gives = { λ set bits. bits ≡ set };

    fn from(set: RouterSet) -> Self {
        set.0 as u32
    }
}

// The members of a set, the least first, each once.
#[derive(Clone, Debug, Drop)]
pub struct Iter<const WIDTH: u32> {
    rest: BitSet<WIDTH>,
}

// Clauses see the set of the members that are left.
impl<const WIDTH: u32> Model for Iter<WIDTH> {
    ghost Value = { ℕ };

    ghost view = { λ s. s.rest };
}

impl<const WIDTH: u32> Iterator for Iter<WIDTH> {
    type Item = u32;

    ghost next_gives = { TakesLeast (width_of WIDTH) };

    ghost remaining = { λ s. at_most (count_ones s) };

    fn next(&mut self) -> Option<u32> {
        let least = self.rest.least()?;
        self.rest = self.rest.without_least();
        Some(least)
    }
}

impl<const WIDTH: u32> IntoIterator for BitSet<WIDTH> {
    type Item = u32;

    type IntoIter = Iter<WIDTH>;

    ghost into_iter_gives = { λ set members. members ≡ set };

    fn into_iter(self) -> Iter<WIDTH> {
        self.iter()
    }
}
