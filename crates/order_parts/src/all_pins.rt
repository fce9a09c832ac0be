//! Which lane holds each slot of each queue.

ghost use Rattle.std.specs.Prelude.{◌≡◌, ◌≢◌, ℕ, ◌<◌, ◌≤◌, ◌↔◌, count_by, length, slice_get, slice_set, take, All, Some, IfOk, IsTrue};
ghost use Rattle.evt_types.specs.Plan.{atomic_slots};
ghost use Rattle.order_parts.specs.Pins.{IsOn, is_on, may_pin, pinned, unpinned};
ghost use Rattle.order_parts.specs.Histories.{lane_in};
ghost use Rattle.order_parts.specs.Unpinned.{AreHeldInTurn, IsOfQueue, without_entries};
ghost use Rattle.order_parts.specs.declared.history.Entry.{Entry as EntryValue};
ghost use Rattle.small_set.specs.SmallSets.{Has};
ghost use Rattle.order_parts.specs.QueuePins.{AreFreePins, pins_at, pin_in, with_pin};

use crate::histories::Histories;
use crate::history::History;
use crate::pins::Pins;
use evt_types::{MAX_DEPTH, Memory, QueueDraft, Shape};
use small_set::SmallSet;
use std::alloc::Global;
use std::marker::Model;

/// The pins of the slots of each queue. Only an atomic queue's slots have any: a slot without a pin counts as free, and
/// pinning it does nothing, so that no caller asks for the queue's kind.
#[derive(Drop)]
pub struct AllPins {
    pub(crate) queues: Vec<Pins>,
}

impl Model for AllPins {
    ghost use Rattle.std.specs.Prelude.{List};
    ghost use Rattle.order_parts.specs.Pins.{Pin};

    ghost Value = { List (List Pin) };

    ghost view = { λ a. a.queues.items };
}

/// How many slots of the queue have a pin.
fn slots_of(queue: &QueueDraft) -> usize
    ensures value { result ≡ atomic_slots queue.now }
{
    if queue.kind.is_atomic() {
        queue.slots as usize
    } else {
        0
    }
}

/// The slots of the oldest entries have an event fewer each, as far as these are of the queue and no more than so many: how many.
#[inline(always)]
fn unpin_entries(pins: &mut Pins, queue: usize, history: &History, most: usize) -> usize
    requires most { most ≤ length history.now.entries }
    requires held { AreHeldInTurn queue pins.old history.now.entries }
    ensures few { result ≤ most }
    ensures each { All (IsOfQueue queue) (take result history.now.entries) }
    ensures last { result < most → (y : EntryValue) × (slice_get history.now.entries result ≡ Some y) × (y.queue ≢ queue) }
    ensures value { pins.new ≡ without_entries pins.old (take result history.now.entries) }
{
    for index in 0..most {
        let entry = history.entry(index);
        if entry.queue != queue {
            return index;
        }
        if entry.slot < pins.slots() {
            pins.unpin(entry.slot);
        }
    }
    most
}

impl AllPins {
    /// The pins of the configuration's queues, all free.
    pub fn free(alloc: Global, shape: &Shape) -> Result<AllPins, Memory>
        ensures { IfOk result (λ ps. AreFreePins shape.now (length shape.now.queues) ps) }
    {
        // To read a limit makes known that the limits hold.
        let _ = shape.limit();
        let drafts = shape.queues();
        let count = drafts.len();
        let mut queues = Vec::with_capacity(alloc, count)?;
        for queue in 0..count {
            queues.push(Pins::new(alloc, slots_of(&drafts[queue]))?)?;
        }
        Ok(AllPins { queues })
    }

    /// Whether an event of the slot may go to the lane: the slot is free, or this lane has it.
    pub fn may(&self, queue: usize, slot: usize, lane: usize) -> bool
        requires { queue < length self.now }
        ensures { result ≡ may_pin (pin_in self.now queue slot) lane }
    {
        let pins = &self.queues[queue];
        pins.slots() <= slot || pins.may(slot, lane)
    }

    /// The slots that stand on none of these lanes: they are free, or stand on another one. Of a slot that stands on a lane beyond the
    /// first 64 nothing is said. From here on the slots of each lane are kept up.
    #[inline(always)]
    pub fn slots_off(&mut self, queue: usize, lanes: SmallSet) -> SmallSet
        requires { queue < length self.old }
        ensures same { self.new ≡ self.old }
        ensures off { (s : ℕ) → s < 64 → (0 < (pin_in self.old queue s).count → (pin_in self.old queue s).lane < 64) → Has result s ↔ ((l : ℕ) → Has lanes l → ¬ IsOn (pin_in self.old queue s) l) }
    {
        self.queues[queue].slots_off(lanes)
    }

    /// How many of the queue's slots have unanswered events on the lane. None of a queue whose slots have no pin.
    pub fn slots_on(&self, queue: usize, lane: usize) -> usize
        requires { queue < length self.now }
        ensures { result ≡ count_by (is_on lane) (pins_at self.now queue) }
    {
        self.queues[queue].slots_on(lane)
    }

    /// One event more of the slot goes to the lane.
    pub fn pin(&mut self, queue: usize, slot: usize, lane: usize)
        requires there { queue < length self.old }
        requires may { IsTrue (may_pin (pin_in self.old queue slot) lane) }
        requires room { (pin_in self.old queue slot).count < MAX_DEPTH }
        ensures { self.new ≡ with_pin self.old queue slot (pinned (pin_in self.old queue slot) lane) }
    {
        let pins = &mut self.queues[queue];
        if slot < pins.slots() {
            pins.pin(slot, lane);
        }
    }

    /// The lane's oldest events were answered, as far as they are of the queue and no more than so many: how many.
    #[inline(always)]
    pub fn unpin_oldest(
        &mut self,
        queue: usize,
        lanes: &Histories,
        lane: usize,
        most: usize,
    ) -> usize
        requires there { queue < length self.old }
        requires lane { lane < length lanes.now }
        requires most { most ≤ length (lane_in lanes.now lane).entries }
        requires held { AreHeldInTurn queue (pins_at self.old queue) (lane_in lanes.now lane).entries }
        ensures few { result ≤ most }
        ensures each { All (IsOfQueue queue) (take result (lane_in lanes.now lane).entries) }
        ensures last { result < most → (y : EntryValue) × (slice_get (lane_in lanes.now lane).entries result ≡ Some y) × (y.queue ≢ queue) }
        ensures value { self.new ≡ slice_set self.old queue (without_entries (pins_at self.old queue) (take result (lane_in lanes.now lane).entries)) }
    {
        unpin_entries(&mut self.queues[queue], queue, &lanes.lanes[lane], most)
    }

    /// One event of the slot was answered. The slot is free once all of them were.
    pub fn unpin(&mut self, queue: usize, slot: usize)
        requires there { queue < length self.old }
        requires held { slot < length (pins_at self.old queue) → 0 < (pin_in self.old queue slot).count }
        ensures { self.new ≡ with_pin self.old queue slot (unpinned (pin_in self.old queue slot)) }
    {
        let pins = &mut self.queues[queue];
        if slot < pins.slots() {
            pins.unpin(slot);
        }
    }
}
