//! Which lane holds each slot of an atomic queue.

ghost use Rattle.std.specs.Prelude.{◌≡◌, ℕ, ◌+◌, ◌<◌, ◌≤◌, ◌↔◌, List, count_by, length, map, replicate, slice_set, IfOk, IsTrue};
ghost use Rattle.evt_types.specs.declared.shape.TheConstants.{MAX_DEPTH};
ghost use Rattle.order_parts.specs.Held.{AreHeld, AreHeldBelow, AreNoted};
ghost use Rattle.order_parts.specs.Pins.{IsOn, Pin, cell_of, free, holder_of, is_on, pin_at, pin_of, pin_on, may_pin, pinned, unpinned};
ghost use Rattle.order_parts.specs.declared.pins.Hold.{Hold as HoldValue};
ghost use Rattle.small_set.specs.SmallSets.{Has};

use evt_types::{MAX_SLOTS, Memory};
use small_set::{MAX_MEMBERS, SmallSet};
use std::alloc::Global;
use std::marker::Model;

/// How many unanswered events of a slot stand on the lane that has them; where there are none, any lane may be next.
#[derive(Clone, Copy)]
pub(crate) struct Hold {
    pub(crate) count: u8,
    pub(crate) lane: usize,
}

/// The pins of an atomic queue: while events of a slot are unanswered, they all stand on one lane.
#[derive(Drop)]
pub struct Pins {
    pub(crate) holds: Vec<Hold>,
    /// For each lane the slots that stand on it, while this is kept up. Only the first lanes, as many as there are sets, have one of
    /// their own.
    held: [SmallSet; MAX_MEMBERS],
    /// Whether these sets are kept up: from when they are first asked for.
    is_kept: bool,
}

/// The set of the lane's slots.
fn cell_of(lane: usize) -> usize
    ensures value { result ≡ cell_of lane }
    ensures within { result < MAX_MEMBERS }
{
    lane % MAX_MEMBERS
}

/// The slot of these events stands on their lane, where there are any.
fn note_hold(held: &mut [SmallSet; MAX_MEMBERS], slot: usize, hold: Hold)
    requires { slot < MAX_SLOTS }
    ensures { (ps : List Pin) → AreHeldBelow ps slot held.old → slot < length ps → pin_at ps slot ≡ pin_of hold → AreHeldBelow ps (slot + 1) held.new }
{
    if hold.count > 0 {
        let cell = cell_of(hold.lane);
        let mut slots = held[cell];
        slots.add(slot);
        held[cell] = slots;
    }
}

/// The sets of the slots that stand on each lane.
fn held_slots(holds: &[Hold]) -> [SmallSet; MAX_MEMBERS]
    requires { length holds.now ≤ MAX_SLOTS }
    ensures { AreHeld (map pin_of holds.now) result }
{
    let mut held = [SmallSet::none(); MAX_MEMBERS];
    for slot in 0..holds.len() {
        let hold = holds[slot];
        note_hold(&mut held, slot, hold);
    }
    held
}

/// Makes the sets anew. Not inlined: memory for them is written only here.
#[cold]
#[inline(never)]
fn make(held: &mut [SmallSet; MAX_MEMBERS], holds: &[Hold])
    requires { length holds.now ≤ MAX_SLOTS }
    ensures { AreHeld (map pin_of holds.now) held.new }
{
    *held = held_slots(holds);
}

/// Makes the sets, where they aren't kept up.
#[inline(always)]
fn keep(held: &mut [SmallSet; MAX_MEMBERS], is_kept: bool, holds: &[Hold])
    requires { AreNoted (map pin_of holds.now) is_kept held.old }
    ensures { AreHeld (map pin_of holds.now) held.new }
{
    if !is_kept {
        make(held, holds);
    }
}

/// The slots that are in the sets of none of these lanes.
#[inline(always)]
fn slots_off(held: &[SmallSet; MAX_MEMBERS], lanes: SmallSet) -> SmallSet
    ensures { (ps : List Pin) (s : ℕ) → AreHeld ps held.now → s < 64 → (0 < (pin_at ps s).count → (pin_at ps s).lane < 64) → Has result s ↔ ((l : ℕ) → Has lanes l → ¬ IsOn (pin_at ps s) l) }
{
    let mut left = lanes;
    let mut slots = SmallSet::below(MAX_MEMBERS);
    while let Some(lane) = left.pop() {
        slots = slots.except(held[lane]);
    }
    slots
}

/// An event more of the slot stands on the lane, as is noted where the sets are kept up.
#[inline(always)]
fn note_pinned(held: &mut [SmallSet; MAX_MEMBERS], is_kept: bool, slot: usize, lane: usize)
    requires { slot < MAX_SLOTS }
    ensures { (ps : List Pin) → IsTrue is_kept → AreHeld ps held.old → slot < length ps → IsTrue (may_pin (pin_at ps slot) lane) → AreHeld (slice_set ps slot (pinned (pin_at ps slot) lane)) held.new }
{
    if is_kept {
        let cell = cell_of(lane);
        let mut slots = held[cell];
        slots.add(slot);
        held[cell] = slots;
    }
}

/// An event fewer of the slot stands on the lane, where so many are left, as is noted where the sets are kept up.
#[inline(always)]
fn note_unpinned(
    held: &mut [SmallSet; MAX_MEMBERS],
    is_kept: bool,
    slot: usize,
    lane: usize,
    left: u8,
)
    requires { slot < MAX_SLOTS }
    ensures { (ps : List Pin) → IsTrue is_kept → AreHeld ps held.old → slot < length ps → pin_at ps slot ≡ pin_on (left + 1) lane → AreHeld (slice_set ps slot (unpinned (pin_at ps slot))) held.new }
{
    if is_kept && left == 0 {
        let cell = cell_of(lane);
        let mut slots = held[cell];
        slots.remove(slot);
        held[cell] = slots;
    }
}

/// How many of these slots stand on the lane.
fn count_on(holds: &[Hold], lane: usize) -> usize
    ensures { result ≡ count_by (λ (h : HoldValue). is_on lane (pin_of h)) holds.now }
{
    holds
        .iter()
        .filter(|hold| hold.count > 0 && hold.lane == lane)
        .count()
}

impl Model for Pins {
    ghost use Rattle.std.specs.Prelude.{List, map};
    ghost use Rattle.order_parts.specs.Pins.{Pin, pin_of};
    ghost use Rattle.order_parts.specs.Held.{AreNoted};

    ghost Value = { List Pin };

    ghost view = { λ a. map pin_of a.holds.items };

    ghost invariant = { λ a. AreNoted (map pin_of a.holds.items) a.is_kept a.held };
}

impl Pins {
    /// Pins for so many slots, all free.
    pub fn new(alloc: Global, slots: usize) -> Result<Pins, Memory>
        requires { slots ≤ MAX_SLOTS }
        ensures { IfOk result (λ p. p ≡ replicate slots free) }
    {
        let holds = vec![in alloc; Hold { count: 0, lane: 0 }; slots]?;
        Ok(Pins {
            holds,
            held: [SmallSet::none(); MAX_MEMBERS],
            is_kept: false,
        })
    }

    /// How many slots there are.
    pub fn slots(&self) -> usize
        ensures { result ≡ length self.now }
    {
        self.holds.len()
    }

    /// The lane that has the slot, if one has it. A slot without a pin is free.
    #[inline(always)]
    pub(crate) fn holder(&self, slot: usize) -> Option<usize>
        ensures { result ≡ holder_of (pin_at self.now slot) }
    {
        let hold = self.holds.get(slot)?;
        if hold.count == 0 {
            return None;
        }
        Some(hold.lane)
    }

    /// Whether an event of the slot may go to the lane: the slot is free, or this lane has it.
    pub fn may(&self, slot: usize, lane: usize) -> bool
        requires { slot < length self.now }
        ensures { result ≡ may_pin (pin_at self.now slot) lane }
    {
        let hold = self.holds[slot];
        hold.count == 0 || hold.lane == lane
    }

    /// How many slots have unanswered events, all of which stand on the lane.
    pub fn slots_on(&self, lane: usize) -> usize
        ensures { result ≡ count_by (is_on lane) self.now }
    {
        count_on(&self.holds, lane)
    }

    /// One event more of the slot goes to the lane.
    pub fn pin(&mut self, slot: usize, lane: usize)
        requires there { slot < length self.old }
        requires may { IsTrue (may_pin (pin_at self.old slot) lane) }
        requires room { (pin_at self.old slot).count < MAX_DEPTH }
        ensures { self.new ≡ slice_set self.old slot (pinned (pin_at self.old slot) lane) }
    {
        let hold = &mut self.holds[slot];
        hold.count += 1;
        hold.lane = lane;
        note_pinned(&mut self.held, self.is_kept, slot, lane);
    }

    /// One event of the slot was answered. The slot is free once all of them were.
    pub fn unpin(&mut self, slot: usize)
        requires there { slot < length self.old }
        requires held { 0 < (pin_at self.old slot).count }
        ensures { self.new ≡ slice_set self.old slot (unpinned (pin_at self.old slot)) }
    {
        let hold = &mut self.holds[slot];
        hold.count -= 1;
        let Hold { count, lane } = *hold;
        note_unpinned(&mut self.held, self.is_kept, slot, lane, count);
    }

    /// The slots that stand on none of these lanes: they are free, or stand on another one. Of a slot that stands on a lane beyond the
    /// first 64 nothing is said. From here on the slots of each lane are kept up.
    #[inline(always)]
    pub fn slots_off(&mut self, lanes: SmallSet) -> SmallSet
        ensures same { self.new ≡ self.old }
        ensures off { (s : ℕ) → s < 64 → (0 < (pin_at self.old s).count → (pin_at self.old s).lane < 64) → Has result s ↔ ((l : ℕ) → Has lanes l → ¬ IsOn (pin_at self.old s) l) }
    {
        keep(&mut self.held, self.is_kept, &self.holds);
        self.is_kept = true;
        slots_off(&self.held, lanes)
    }
}
