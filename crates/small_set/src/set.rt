//! A set of set.

/// How many members there are: a set has numbers below this one.
pub const MAX_MEMBERS: usize = 64;

/// A set of members, from 0 to 63.
#[derive(Clone, Copy, Debug, PartialEq, Eq)]
pub struct SmallSet {
    bits: u64,
}

impl SmallSet {
    ghost use Rattle.std.specs.Prelude.{◌≡◌, ℕ, ◌<◌, ◌≤◌, ◌↔◌, ◌⊎◌, IsTrue, IfSome, IfNone};
    ghost use Rattle.small_set.specs.SmallSets.{Has, IsEmpty, IsFirst, SameBut, members_below, weight};
    ghost use Rattle.std.specs.Int.{bit_at};

    /// No member.
    pub fn none() -> SmallSet
        ensures { IsEmpty result }
    {
        SmallSet { bits: 0 }
    }

    /// The first members, so many.
    pub fn below(count: usize) -> SmallSet
        requires { count ≤ MAX_MEMBERS }
        ensures { (i : ℕ) → Has result i ↔ (i < count) }
    {
        if count == MAX_MEMBERS {
            return SmallSet { bits: u64::MAX };
        }
        SmallSet {
            bits: (1 << count) - 1,
        }
    }

    /// The members whose bits are set in the word.
    #[inline(always)]
    pub fn of_word(word: u64) -> SmallSet
        ensures { (i : ℕ) → Has result i ↔ (bit_at word i ≡ 1) }
    {
        SmallSet { bits: word }
    }

    /// A word in which the bits of the members are set.
    #[inline(always)]
    pub fn word(self) -> u64
        ensures { (i : ℕ) → (bit_at result i ≡ 1) ↔ Has self i }
    {
        self.bits
    }

    /// Whether the member is in the set.
    pub fn has(self, member: usize) -> bool
        requires { member < MAX_MEMBERS }
        ensures { IsTrue result ↔ Has self member }
    {
        self.bits >> member & 1 == 1
    }

    /// Whether no member is in the set.
    pub fn is_empty(self) -> bool
        ensures { IsTrue result ↔ IsEmpty self }
    {
        self.bits == 0
    }

    /// Puts the member into the set.
    pub fn add(&mut self, member: usize)
        requires { member < MAX_MEMBERS }
        ensures there { Has self.new member }
        ensures others { SameBut member self.old self.new }
    {
        self.bits |= 1 << member;
    }

    /// Takes the member out of the set.
    pub fn remove(&mut self, member: usize)
        requires { member < MAX_MEMBERS }
        ensures gone { ¬ Has self.new member }
        ensures others { SameBut member self.old self.new }
        ensures lighter { weight self.new ≤ weight self.old }
    {
        let bits = self.bits;
        self.bits = bits & !(1 << member);
    }

    /// The members that are in both sets.
    pub fn both(self, other: SmallSet) -> SmallSet
        ensures { (i : ℕ) → Has result i ↔ (Has self i × Has other i) }
    {
        SmallSet {
            bits: self.bits & other.bits,
        }
    }

    /// The members that are in one of the sets, or in both.
    pub fn either(self, other: SmallSet) -> SmallSet
        ensures { (i : ℕ) → Has result i ↔ (Has self i ⊎ Has other i) }
    {
        SmallSet {
            bits: self.bits | other.bits,
        }
    }

    /// The members of this set that are not in the other one.
    pub fn except(self, other: SmallSet) -> SmallSet
        ensures { (i : ℕ) → Has result i ↔ (Has self i × ¬ Has other i) }
    {
        let bits = self.bits;
        SmallSet {
            bits: bits & !other.bits,
        }
    }

    /// How many members the set has. None is past the last number, so they are as many below each number from there on.
    #[inline(always)]
    pub fn count(self) -> usize
        ensures { (end : ℕ) → MAX_MEMBERS ≤ end → result ≡ members_below self end }
    {
        self.bits.count_ones() as usize
    }

    /// How many members of the set are below this number.
    #[inline(always)]
    pub fn count_below(self, end: usize) -> usize
        requires { end < MAX_MEMBERS }
        ensures { result ≡ members_below self end }
    {
        let below = self.bits & ((1 << end) - 1);
        below.count_ones() as usize
    }

    /// The lowest member of the set.
    #[inline(always)]
    pub fn first(self) -> Option<usize>
        ensures first { IfSome result (IsFirst self) }
        ensures none { IfNone result (IsEmpty self) }
    {
        if self.bits == 0 {
            return None;
        }
        Some(self.bits.trailing_zeros() as usize)
    }

    /// Takes the lowest member out of the set.
    #[inline(always)]
    pub fn pop(&mut self) -> Option<usize>
        ensures first { IfSome result (IsFirst self.old) }
        ensures gone { IfSome result (λ k. ¬ Has self.new k) }
        ensures others { IfSome result (λ k. SameBut k self.old self.new) }
        ensures lighter { IfSome result (λ _. weight self.new < weight self.old) }
        ensures none { IfNone result (IsEmpty self.old) }
        ensures same { IfNone result (self.new ≡ self.old) }
    {
        let member = self.first()?;
        // The lowest member alone is taken out by this.
        let bits = self.bits;
        self.bits = bits & (bits - 1);
        Some(member)
    }
}
