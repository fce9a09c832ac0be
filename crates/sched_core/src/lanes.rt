//! The lanes that may take an event of a queue, and the slots whose events some lane may take.

ghost use Rattle.std.specs.Prelude.{◌≡◌, ℕ, ◌<◌, ◌↔◌, true, IsTrue, length, IfSome, IfNone};
ghost use Rattle.transcripts.specs.Choice.{HasNoOther, IsBetterLane};
ghost use Rattle.evt_types.specs.Plan.{has_flow_lanes, lanes_of, queue_of, is_atomic, serves};
ghost use Rattle.small_set.specs.SmallSets.{Has};
ghost use Rattle.sched_core.specs.Offered.{AreOpenLanes, FitsSlot, HasAllowed, HasPlace, MayHold};

use crate::skips::Skips;
use crate::slot_lanes::SLOTS;
use crate::state::Core;
use evt_types::Serving;
use small_set::{MAX_MEMBERS, SmallSet};

impl Core {
    /// The ports' lanes that serve the queue, have room and aren't passed over.
    pub(crate) fn open_lanes(&self, queue: usize, skips: &Skips) -> SmallSet
        requires { queue < length self.now.shape.queues }
        ensures { AreOpenLanes self.now skips.now queue result }
    {
        if !self.has_place(queue) {
            return SmallSet::none();
        }
        let links = self.links[queue];
        links.both(self.lanes.roomy()).except(skips.closed())
    }

    /// Whether one event more of the queue may be handed out: an ordered queue has a place for it.
    pub(crate) fn has_place(&self, queue: usize) -> bool
        requires { queue < length self.now.shape.queues }
        ensures { IsTrue result ↔ HasPlace self.now queue }
    {
        self.orders.has_place(queue)
    }

    /// The slots of the queue whose events some lane may take, and perhaps others: where flow lanes serve the queue, those whose lane may
    /// have room.
    #[inline(always)]
    pub(crate) fn allowed(&mut self, queue: usize, lanes: SmallSet, skips: &Skips) -> SmallSet
        requires queue { queue < length self.old.shape.queues }
        requires lanes { AreOpenLanes self.old skips.now queue lanes }
        ensures same { self.new ≡ self.old }
        ensures allowed { HasAllowed self.old skips.now queue result }
    {
        self.facts();
        if self.has_flow_lanes(queue) {
            return self.open_slots[queue];
        }
        if lanes.is_empty() {
            return lanes;
        }
        let closed = self.links[queue].except(lanes);
        self.pins.slots_off(queue, closed)
    }

    /// Whether the queue's events are handed to flow lanes.
    pub(crate) fn has_flow_lanes(&self, queue: usize) -> bool
        requires { queue < length self.now.shape.queues }
        ensures { result ≡ has_flow_lanes self.now.shape queue }
    {
        self.shape.serving() == Serving::Flows && self.shape.queues()[queue].kind.is_atomic()
    }

    /// Of the lanes that may take an event of the slot the one with fewest unanswered events, of several the first.
    #[inline(always)]
    pub(crate) fn lane_for(
        &self,
        queue: usize,
        slot: usize,
        lanes: SmallSet,
        skips: &Skips,
    ) -> Option<usize>
        requires queue { queue < length self.now.shape.queues }
        requires slot { slot < SLOTS }
        requires lanes { AreOpenLanes self.now skips.now queue lanes }
        ensures fits { IfSome result (FitsSlot self.now skips.now queue slot) }
        ensures best { IfSome result (λ l. (m : ℕ) → FitsSlot self.now skips.now queue slot m → ¬ IsBetterLane self.now m l) }
        ensures none { IfNone result ((l : ℕ) → ¬ FitsSlot self.now skips.now queue slot l) }
    {
        if self.has_flow_lanes(queue) {
            self.flow_for(queue, slot, skips)
        } else {
            self.port_for(queue, slot, lanes)
        }
    }

    /// Of these lanes the one that may hold the slot and has fewest unanswered events, of several the first.
    #[inline(always)]
    pub(crate) fn port_for(&self, queue: usize, slot: usize, lanes: SmallSet) -> Option<usize>
        requires queue { queue < length self.now.shape.queues }
        requires lanes { (l : ℕ) → Has lanes l → l < lanes_of self.now.shape }
        ensures fits { IfSome result (MayHold self.now lanes queue slot) }
        ensures best { IfSome result (λ l. (m : ℕ) → MayHold self.now lanes queue slot m → ¬ IsBetterLane self.now m l) }
        ensures none { IfNone result ((l : ℕ) → ¬ MayHold self.now lanes queue slot l) }
    {
        self.lanes.lane_among(&self.pins, lanes, queue, slot)
    }

    /// The slot's flow lane, where it may take an event.
    #[inline(always)]
    pub(crate) fn flow_for(&self, queue: usize, slot: usize, skips: &Skips) -> Option<usize>
        requires queue { queue < length self.now.shape.queues }
        requires slot { slot < SLOTS }
        requires flows { has_flow_lanes self.now.shape queue ≡ true }
        ensures fits { IfSome result (FitsSlot self.now skips.now queue slot) }
        ensures best { IfSome result (λ l. (m : ℕ) → FitsSlot self.now skips.now queue slot m → ¬ IsBetterLane self.now m l) }
        ensures none { IfNone result ((l : ℕ) → ¬ FitsSlot self.now skips.now queue slot l) }
    {
        let lane = self.slot_lanes[queue * SLOTS + slot]?;
        if self.fits(lane, queue, slot, skips) {
            Some(lane)
        } else {
            None
        }
    }

    /// Whether the slot's flow lane may take an event of it.
    #[inline(always)]
    fn fits(&self, lane: usize, queue: usize, slot: usize, skips: &Skips) -> bool
        requires lane { lane < lanes_of self.now.shape }
        requires queue { queue < length self.now.shape.queues }
        requires serves { serves self.now.shape lane queue slot ≡ true }
        requires flows { has_flow_lanes self.now.shape queue ≡ true }
        ensures { IsTrue result ↔ FitsSlot self.now skips.now queue slot lane }
    {
        !skips.has_bounced(lane) && self.lanes.room(lane) > 0 && self.may_hold(lane, queue, slot)
    }

    /// Whether the lane may hold events of the slot: those of an atomic queue stand on one lane at a time.
    pub(crate) fn may_hold(&self, lane: usize, queue: usize, slot: usize) -> bool
        requires { queue < length self.now.shape.queues }
        ensures { IsTrue result ↔ (is_atomic (queue_of self.now.shape queue).kind ≡ true → HasNoOther self.now lane queue slot) }
    {
        self.pins.may(queue, slot, lane)
    }
}
