//! Where several lanes are open, the first events of a queue and level are dealt among them as a row.

ghost use Rattle.std.specs.Prelude.{◌≡◌, ℕ, ◌+◌, ◌-◌, ◌<◌, ◌≤◌, [], ◌++◌, List, All, true, false, length, take, slice_index, IfNone, IfSome, IsTrue};
ghost use Rattle.evt_types.specs.Plan.{depth_of, has_flow_lanes};
ghost use Rattle.evt_types.specs.declared.shape.TheConstants.{MAX_QUEUES};
ghost use Rattle.sched_core.specs.Offered.{AreOpenLanes, HasAllowed, numbered_in};
ghost use Rattle.sched_core.specs.Runs.{AreDeals, AreDealtOut, HasLeft, HasTurn, IsChoiceAmong, IsNextGift, given_times, gifts_to, times};
ghost use Rattle.small_set.specs.SmallSets.{Has};
ghost use Rattle.transcripts.specs.Choice.{HasQuota, IsChoice};
ghost use Rattle.transcripts.specs.Standing.{unanswered_at};

use crate::offer::{Offer, numbered};
use crate::run::MAX_RUN;
use crate::skips::Skips;
use crate::state::Core;
use arrayvec::ArrayVec;
use evt_types::Delivery;
use parked_queue::Level;
use small_set::{MAX_MEMBERS, SmallSet};
use step_log::StepLog;

impl Core {
    /// The lanes that are open to the offer's queue, where its events are worth dealing: several wait, ports serve it, and several lanes are
    /// open; or, while events of the level are set aside, some of the queue were given in the sweep, and several may be given yet.
    #[inline(always)]
    pub fn deals(&self, offer: &Offer, skips: &Skips) -> Option<SmallSet>
        requires choice { IsChoice self.now skips.now offer.now.lane offer.now.delivery.queue (numbered_in offer.now.delivery) }
        ensures { IfSome result (λ among. IsChoiceAmong self.now skips.now among offer.now) }
    {
        let queue = offer.delivery.queue();
        if self.queues.count(queue) < 2 || self.has_flow_lanes(queue) {
            return None;
        }
        let is_aside = !self.queues.parked_slots(queue, offer.level).is_empty();
        // Where most of what waits may not go, the first event of a sweep is often its only one, which costs less by itself.
        if is_aside && !skips.has_given(queue) {
            return None;
        }
        let among = self.open_lanes(queue, skips);
        let mut others = among;
        // A lane that is open alone is given a run of what isn't set aside, and one event by itself.
        if others.pop().is_none()
            || others.is_empty() && !(is_aside && self.lanes.room(offer.lane) > 1)
        {
            return None;
        }
        Some(among)
    }

    /// How many events of the queue may be given before a count of its own is full that the choice asks for: of those that were given in
    /// the sweep, and of an ordered queue's places.
    #[inline(always)]
    fn left_for(&self, queue: usize, skips: &Skips) -> usize
        requires there { queue < length self.now.shape.queues }
        requires quota { slice_index skips.now.given queue ≤ self.now.shape.sweep }
        ensures left { HasLeft self.now skips.now queue result }
        ensures counts { length skips.now.given ≡ MAX_QUEUES }
    {
        self.facts();
        let quota = skips.quota_left(queue, self.shape.sweep());
        self.orders.places_for(queue, quota)
    }

    /// Deals the first events of the queue's level among these lanes, each of which is the choice then, as far as they are quick to see.
    /// Nothing is logged or counted yet.
    #[inline(always)]
    fn deal_out(
        &mut self,
        queue: usize,
        level: Level,
        among: SmallSet,
        bound: usize,
        _skips: &Skips,
        run: &mut ArrayVec<Delivery, 32>,
        to: &mut ArrayVec<usize, 32>,
    )
        requires turn { HasTurn self.old _skips.now queue level.number }
        requires ports { has_flow_lanes self.old.shape queue ≡ false }
        requires lanes { AreOpenLanes self.old _skips.now queue among }
        requires left { HasLeft self.old _skips.now queue bound }
        requires counts { length _skips.now.given ≡ MAX_QUEUES }
        requires room { bound ≤ 32 }
        requires none { run.old.items ≡ [] }
        requires no_lanes { to.old.items ≡ [] }
        ensures { AreDealtOut queue bound among self.old _skips.now run.new.items to.new.items self.new }
    {
        // To make the set of all slots makes known that there is one.
        let _ = SmallSet::below(MAX_MEMBERS);
        self.queues.push_heads(queue, level, bound, run);
        let slots = self.queues.slots(queue);
        self.lanes.deal_row(
            &mut self.orders,
            &mut self.pins,
            among,
            queue,
            run.as_slice(),
            |flow| slots.of(flow),
            to,
        );
        run.truncate(to.len());
        self.queues.remove_row(queue, level, run.as_slice());
    }

    /// Hands out the first event of the queue's level that one of these lanes may take, and counts it as given. It isn't logged yet.
    #[inline(always)]
    fn hand_next(
        &mut self,
        queue: usize,
        level: Level,
        lanes: SmallSet,
        allowed: SmallSet,
        skips: &mut Skips,
    ) -> Option<Offer>
        requires turn { HasTurn self.old skips.old queue level.number }
        requires quota { HasQuota self.old skips.old queue }
        requires lanes { AreOpenLanes self.old skips.old queue lanes }
        requires allowed { HasAllowed self.old skips.old queue allowed }
        ensures given { IfSome result (λ o. IsNextGift queue self.old skips.old o.lane o.delivery self.new skips.new) }
        ensures none { IfNone result ((self.new ≡ self.old) × (skips.new ≡ skips.old)) }
    {
        self.facts();
        let offer = self.offer_behind(queue, level, lanes, allowed, skips)?;
        let waiting = numbered(&offer.delivery);
        self.hand_out(offer.lane, queue, &waiting, level, offer.slot);
        skips.given(queue);
        Some(offer)
    }

    /// As `deal_out`, one by one, where events of the level are set aside. They count as given in what the sweep passes over.
    #[inline(always)]
    fn deal_behind(
        &mut self,
        queue: usize,
        level: Level,
        among: SmallSet,
        bound: usize,
        skips: &mut Skips,
        run: &mut ArrayVec<Delivery, 32>,
        to: &mut ArrayVec<usize, 32>,
    )
        requires turn { HasTurn self.old skips.old queue level.number }
        requires ports { has_flow_lanes self.old.shape queue ≡ false }
        requires lanes { AreOpenLanes self.old skips.old queue among }
        requires left { HasLeft self.old skips.old queue bound }
        requires counts { length skips.old.given ≡ MAX_QUEUES }
        requires room { bound ≤ 32 }
        requires none { run.old.items ≡ [] }
        requires no_lanes { to.old.items ≡ [] }
        ensures dealt { AreDealtOut queue bound among self.old skips.old run.new.items to.new.items self.new }
        ensures passed { skips.new ≡ given_times skips.old queue (length run.new.items) }
    {
        self.facts();
        let mut opened = among;
        let mut allowed = self.allowed(queue, opened, skips);
        // Where no slot is allowed, what waits isn't looked at, so that none of it is set aside.
        while run.len() < bound && !allowed.is_empty() {
            self.facts();
            let Some(offer) = self.hand_next(queue, level, opened, allowed, skips) else {
                return;
            };
            run.push(offer.delivery);
            to.push(offer.lane);
            if run.len() < bound && self.lane_room(offer.lane) == 0 {
                opened.remove(offer.lane);
                allowed = self.allowed(queue, opened, skips);
            }
        }
    }

    /// Deals the first events of the queue's level among these lanes, each of which is the choice then: as a row, or one by one where some of
    /// the level are set aside. They count as given. Nothing is logged yet.
    #[inline(always)]
    fn deal_first(
        &mut self,
        queue: usize,
        level: Level,
        among: SmallSet,
        bound: usize,
        skips: &mut Skips,
        run: &mut ArrayVec<Delivery, 32>,
        to: &mut ArrayVec<usize, 32>,
    )
        requires turn { HasTurn self.old skips.old queue level.number }
        requires ports { has_flow_lanes self.old.shape queue ≡ false }
        requires lanes { AreOpenLanes self.old skips.old queue among }
        requires left { HasLeft self.old skips.old queue bound }
        requires counts { length skips.old.given ≡ MAX_QUEUES }
        requires room { bound ≤ 32 }
        requires none { run.old.items ≡ [] }
        requires no_lanes { to.old.items ≡ [] }
        ensures dealt { AreDealtOut queue bound among self.old skips.old run.new.items to.new.items self.new }
        ensures passed { skips.new ≡ given_times skips.old queue (length run.new.items) }
    {
        if !self.queues.parked_slots(queue, level).is_empty() {
            self.deal_behind(queue, level, among, bound, skips, run, to);
            return;
        }
        self.facts();
        self.deal_out(queue, level, among, bound, skips, run, to);
        skips.given_row(queue, run.len());
    }

    /// Gives what is chosen, from what was proposed on, as long as just these lanes are open, those are events of its queue and level that
    /// are quick to see, and they are no more than `most`, and than `MAX_RUN`: `run` then has just these, in their order, and `to` the
    /// lane of each; the log has their steps, and they count as given in what the sweep passes over. Where none is quick to see nothing
    /// is given.
    #[inline(always)]
    pub fn deal_row<L: StepLog>(
        &mut self,
        offer: &Offer,
        among: SmallSet,
        most: usize,
        skips: &mut Skips,
        run: &mut ArrayVec<Delivery, 32>,
        to: &mut ArrayVec<usize, 32>,
        log: &mut L,
    )
        requires choice { IsChoiceAmong self.old skips.old among offer.now }
        requires room { self.old.shape.sweep ≤ L.room log.old + slice_index skips.old.given offer.now.delivery.queue }
        requires no_lanes { to.old.items ≡ [] }
        ensures deals { AreDeals self.old skips.old run.new.items to.new.items self.new skips.new }
        ensures few { length run.new.items ≤ most }
        ensures lanes { All (Has among) to.new.items }
        ensures room_of { (l : ℕ) → Has among l → times l to.new.items + length (unanswered_at self.old l) ≤ depth_of self.old.shape l }
        ensures logged { L.steps log.new ≡ L.steps log.old ++ gifts_to run.new.items to.new.items }
        ensures shape { self.new.shape ≡ self.old.shape }
        ensures room { L.room log.old ≤ L.room log.new + length run.new.items }
    {
        let queue = offer.delivery.queue();
        let left = self.left_for(queue, skips);
        let bound = left.min(most).min(MAX_RUN);
        self.facts();
        run.clear();
        self.deal_first(queue, offer.level, among, bound, skips, run, to);
        log.push_deals(queue, run.as_slice(), to.as_slice());
    }
}
