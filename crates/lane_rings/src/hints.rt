//! Hints of the flow lanes that may have something to be received.

ghost use Rattle.std.specs.Prelude.{◌≡◌, length};
ghost use Rattle.lane_rings.specs.Ends.{seen_deliveries};

use crate::far::Far;
use small_set::SmallSet;
use std::sync::atomic::{AtomicU64, Ordering};

/// How many lanes a word has a bit for.
const WORD: usize = 64;

/// How many lanes there is a hint of: the first ones. Of those past them there is none, and no set has them.
const HINTED: usize = 2 * WORD;

/// Some of the first flow lanes, those from 0 to 127. As a set of those that may have something it is no more than a hint.
#[derive(Clone, Copy)]
pub struct LaneSet {
    low: SmallSet,
    high: SmallSet,
}

impl LaneSet {
    ghost use Rattle.std.specs.Prelude.{◌≡◌, ◌+◌, ℕ, ◌<◌, ◌≤◌, ◌↔◌, ◌⊎◌, IfSome, IfNone};
    ghost use Rattle.lane_rings.specs.LaneSets.{AreLowest, Has, IsEmpty, IsFirst, SameBut, lanes_below, lanes_in};

    /// No lane.
    pub fn none() -> LaneSet
        ensures { IsEmpty result }
    {
        LaneSet {
            low: SmallSet::none(),
            high: SmallSet::none(),
        }
    }

    /// Puts the lane into the set, where there may be a hint of it.
    pub fn add(&mut self, lane: usize)
        ensures there { lane < 128 → Has self.new lane }
        ensures others { SameBut lane self.old self.new }
        ensures beyond { 128 ≤ lane → self.new ≡ self.old }
    {
        if lane < WORD {
            self.low.add(lane);
        } else if lane < HINTED {
            self.high.add(lane - WORD);
        }
    }

    /// Takes the lane out of the set.
    pub fn remove(&mut self, lane: usize)
        ensures gone { lane < 128 → ¬ Has self.new lane }
        ensures others { SameBut lane self.old self.new }
        ensures beyond { 128 ≤ lane → self.new ≡ self.old }
        ensures fewer { lanes_in self.new ≤ lanes_in self.old }
    {
        if lane < WORD {
            self.low.remove(lane);
        } else if lane < HINTED {
            self.high.remove(lane - WORD);
        }
    }

    /// The lanes that are in one of the sets, or in both.
    pub fn either(self, other: LaneSet) -> LaneSet
        ensures { (i : ℕ) → Has result i ↔ (Has self i ⊎ Has other i) }
    {
        LaneSet {
            low: self.low.either(other.low),
            high: self.high.either(other.high),
        }
    }

    /// The lanes that are in both sets.
    pub fn both(self, other: LaneSet) -> LaneSet
        ensures { (i : ℕ) → Has result i ↔ (Has self i × Has other i) }
    {
        LaneSet {
            low: self.low.both(other.low),
            high: self.high.both(other.high),
        }
    }

    // The lanes of this set that are not in the other one.
    fn except(self, other: LaneSet) -> LaneSet
        ensures { (i : ℕ) → Has result i ↔ (Has self i × ¬ Has other i) }
    {
        LaneSet {
            low: self.low.except(other.low),
            high: self.high.except(other.high),
        }
    }

    /// The lowest lane leaves the set; `None` where the set has none.
    #[inline(always)]
    pub fn take_lowest(&mut self) -> Option<usize>
        ensures first { IfSome result (IsFirst self.old) }
        ensures gone { IfSome result (λ lane. ¬ Has self.new lane) }
        ensures others { IfSome result (λ lane. SameBut lane self.old self.new) }
        ensures fewer { IfSome result (λ _. lanes_in self.new + 1 ≡ lanes_in self.old) }
        ensures none { IfNone result (IsEmpty self.old) }
        ensures same { IfNone result (self.new ≡ self.old) }
    {
        if let Some(lane) = self.low.pop() {
            return Some(lane);
        }
        let lane = self.high.pop()?;
        Some(WORD + lane)
    }

    /// The lowest lanes of the set, no more than so many. The whole set, where it has no more.
    pub fn lowest(self, most: usize) -> LaneSet
        ensures lowest { AreLowest self most result }
        ensures all { lanes_in self ≤ most → result ≡ self }
    {
        if self.count() <= most {
            return self;
        }
        let mut left = self;
        for _taken in 0..most {
            let _ = left.take_lowest();
        }
        self.except(left)
    }

    /// How many lanes of the set are below this one.
    #[inline(always)]
    pub fn count_below(self, lane: usize) -> usize
        ensures { result ≡ lanes_below self lane }
    {
        if lane < WORD {
            return self.low.count_below(lane);
        }
        let low = self.low.count();
        if lane < HINTED {
            return low + self.high.count_below(lane - WORD);
        }
        low + self.high.count()
    }

    /// How many lanes are in the set.
    pub fn count(self) -> usize
        ensures { result ≡ lanes_in self }
    {
        self.count_below(HINTED)
    }
}

/// Clears the bits of the word that are set.
fn take_out(word: &AtomicU64, bits: u64) {
    if word.load(Ordering::SeqCst) & bits != 0 {
        word.fetch_and(!bits, Ordering::SeqCst);
    }
}

/// Sets the bits of the word, which is written only where there are any.
fn put_in(word: &AtomicU64, bits: u64) {
    if bits != 0 {
        word.fetch_or(bits, Ordering::SeqCst);
    }
}

/// Which flow lanes may have something to be received: a bit for each. The scheduler sets a lane's bit once what it gave is in the
/// lane's ring. A port that is about to look for the lane clears the bit, and sets it again where it didn't get the lane or left
/// something in its ring. It is a hint, on which no promise rests: no clause says which bits are set.
#[derive(Drop)]
pub struct Hints {
    /// How many of the scheduler's lanes come before the first flow lane.
    before: usize,
    low: AtomicU64,
    high: AtomicU64,
}

impl Hints {
    ghost use Rattle.std.specs.Prelude.{◌≡◌, ◌-◌, ◌<◌, ◌≤◌};
    ghost use Rattle.lane_rings.specs.LaneSets.{Has, SameBut, lanes_before};

    /// Nothing in any lane. The scheduler has so many lanes before the first flow lane.
    pub fn new(before: usize) -> Hints
        ensures { lanes_before result ≡ before }
    {
        Hints {
            before,
            low: AtomicU64::new(0),
            high: AtomicU64::new(0),
        }
    }

    /// The scheduler put something into the ring of its lane of this number, which is noted among these lanes. Of a lane that isn't a
    /// flow lane there is no hint.
    #[inline(always)]
    pub fn gave(&self, gave: &mut LaneSet, lane: usize)
        ensures before { lane < lanes_before self.now → gave.new ≡ gave.old }
        ensures there { lanes_before self.now ≤ lane → lane - lanes_before self.now < 128 → Has gave.new (lane - lanes_before self.now) }
        ensures others { lanes_before self.now ≤ lane → SameBut (lane - lanes_before self.now) gave.old gave.new }
        ensures beyond { 128 ≤ lane - lanes_before self.now → gave.new ≡ gave.old }
    {
        if lane >= self.before {
            gave.add(lane - self.before);
        }
    }

    /// These flow lanes may have something.
    #[inline(always)]
    pub fn set_all(&self, lanes: LaneSet) {
        let LaneSet { low, high } = lanes;
        put_in(&self.low, low.word());
        put_in(&self.high, high.word());
    }

    /// The flow lane may have something.
    pub fn set(&self, lane: usize) {
        if lane < WORD {
            self.low.fetch_or(1 << lane, Ordering::SeqCst);
        } else if lane < HINTED {
            self.high.fetch_or(1 << (lane - WORD), Ordering::SeqCst);
        }
    }

    /// These flow lanes are about to be looked at. A word is written only where a bit of one is set.
    #[inline(always)]
    pub fn clear_all(&self, lanes: LaneSet) {
        let LaneSet { low, high } = lanes;
        take_out(&self.low, low.word());
        take_out(&self.high, high.word());
    }

    /// The lanes that may have something, as the words are now.
    #[inline(always)]
    pub fn lanes(&self) -> LaneSet {
        LaneSet {
            low: SmallSet::of_word(self.low.load(Ordering::SeqCst)),
            high: SmallSet::of_word(self.high.load(Ordering::SeqCst)),
        }
    }
}

impl Far {
    /// How many deliveries were seen in the ring and not received. More may have come since the last look.
    pub fn seen(&self) -> usize
        ensures { result ≡ length (seen_deliveries self.now) }
    {
        self.deliveries.ring.cached_slots()
    }
}
