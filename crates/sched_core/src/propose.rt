//! The choice of the event that is given next, and of its lane.

ghost use Rattle.std.specs.Prelude.{◌≡◌, ℕ, ◌<◌, List, length, Some, IfSome, IfNone};
ghost use Rattle.transcripts.specs.Allowed.{Allowed};
ghost use Rattle.transcripts.specs.Choice.{HasNone, HasNoChoice, IsChoice, IsOffer};
ghost use Rattle.transcripts.specs.Standing.{Stands};
ghost use Rattle.small_set.specs.SmallSets.{Has, IsEmpty};
ghost use Rattle.transcripts.specs.Transcript.{event_at};
ghost use Rattle.evt_types.specs.declared.step.Step.{Step as StepValue};
ghost use Rattle.evt_types.specs.declared.step.Step.TheVariants as steps;
ghost use Rattle.sched_core.specs.Offered.{numbered_in, AreOpenLanes, HasAllowed, HasNoneIn, IsOfferIn, IsOfferOf};
ghost use Rattle.sched_core.specs.Runs.{HasSlot, IsTurn};
ghost use Rattle.sched_core.specs.Service.{IsServedFirst};

use crate::offer::Offer;
use crate::skips::Skips;
use crate::state::Core;
use crate::turn::Turn;
use parked_queue::Level;
use small_set::{MAX_MEMBERS, SmallSet};

impl Core {
    /// What is given next: of the first queue, by priority and then number, that has an event which some lane may take,
    /// its first such event, by level and then number, to the lane with fewest unanswered events, of several the first.
    /// Nothing that is seen of the core changes; a queue may set blocked events aside.
    #[inline(always)]
    pub fn propose(&mut self, skips: &Skips) -> Option<Offer>
        ensures same { self.new ≡ self.old }
        ensures choice { IfSome result (λ o. IsChoice self.old skips.now o.lane o.delivery.queue (numbered_in o.delivery)) }
        ensures none { IfNone result (HasNoChoice self.old skips.now) }
        ensures offer { IfSome result (λ o. IsOffer self.old o.lane o.delivery.queue (numbered_in o.delivery)) }
        ensures slot { IfSome result (HasSlot self.old) }
        ensures keeps { (T : List StepValue) → Stands T self.old → IfSome result (λ o. Allowed self.old.shape T (steps.Give o.lane o.delivery.queue o.delivery.number) × (event_at T o.delivery.queue o.delivery.number ≡ Some o.delivery.event)) }
    {
        let sweep = self.shape.sweep();
        let mut left = self.queues.busy();
        while let Some(queue) = self.first_served(left) {
            left.remove(queue);
            if skips.has_quota(queue, sweep) {
                let offer = self.offer_from(queue, skips);
                if offer.is_some() {
                    return offer;
                }
            }
        }
        None
    }

    /// As `propose`; whose turn it is, where that is known, is asked first.
    #[inline(always)]
    pub fn propose_next(&mut self, turn: Option<Turn>, skips: &Skips) -> Option<Offer>
        requires { IfSome turn (IsTurn self.old skips.now) }
        ensures same { self.new ≡ self.old }
        ensures choice { IfSome result (λ o. IsChoice self.old skips.now o.lane o.delivery.queue (numbered_in o.delivery)) }
        ensures none { IfNone result (HasNoChoice self.old skips.now) }
        ensures offer { IfSome result (λ o. IsOffer self.old o.lane o.delivery.queue (numbered_in o.delivery)) }
        ensures slot { IfSome result (HasSlot self.old) }
        ensures keeps { (T : List StepValue) → Stands T self.old → IfSome result (λ o. Allowed self.old.shape T (steps.Give o.lane o.delivery.queue o.delivery.number) × (event_at T o.delivery.queue o.delivery.number ≡ Some o.delivery.event)) }
    {
        let offer = self.offer_at(turn, skips);
        if offer.is_some() {
            return offer;
        }
        self.propose(skips)
    }

    /// What is given next, where that is quick to see: the first event of the queue and level whose turn it is, for its flow lane.
    #[inline(always)]
    fn offer_at(&self, turn: Option<Turn>, skips: &Skips) -> Option<Offer>
        requires { IfSome turn (IsTurn self.now skips.now) }
        ensures choice { IfSome result (λ o. IsChoice self.now skips.now o.lane o.delivery.queue (numbered_in o.delivery)) }
        ensures slot { IfSome result (HasSlot self.now) }
    {
        let Turn { queue, level } = turn?;
        if !skips.has_quota(queue, self.shape.sweep()) {
            return None;
        }
        let found = self
            .queues
            .head(queue, level, SmallSet::below(MAX_MEMBERS))?;
        let lane = self.flow_for(queue, found.slot, skips)?;
        Some(Offer::of(level, lane, found))
    }

    /// Of these queues the one that is served first: the first one by number, as long as none has a priority that is served before.
    #[inline(always)]
    fn first_served(&self, queues: SmallSet) -> Option<usize>
        requires { (q : ℕ) → Has queues q → q < length self.now.shape.queues }
        ensures first { IfSome result (IsServedFirst self.now.shape queues) }
        ensures none { IfNone result (IsEmpty queues) }
    {
        let mut first = queues.first()?;
        while let Some(ahead) = queues.both(self.ahead[first]).first() {
            first = ahead;
        }
        Some(first)
    }

    /// The queue's first event that some lane may take, by level and then number, for the best lane. Mostly it is the first event of the
    /// lowest level, or nothing of the only level may go; else the levels are walked.
    #[inline(always)]
    fn offer_from(&mut self, queue: usize, skips: &Skips) -> Option<Offer>
        requires { queue < length self.old.shape.queues }
        ensures same { self.new ≡ self.old }
        ensures offer { IfSome result (λ o. (o.delivery.queue ≡ queue) × IsOfferOf self.old skips.now queue o.lane (numbered_in o.delivery)) }
        ensures slot { IfSome result (HasSlot self.old) }
        ensures none { IfNone result (HasNone self.old skips.now queue) }
    {
        let lanes = self.open_lanes(queue, skips);
        // Where every lane is full there is no choice: what waits isn't looked at, so that none of it is set aside.
        if lanes.is_empty() && !self.has_flow_lanes(queue) {
            return None;
        }
        let mut others = self.queues.levels(queue);
        let level = others.pop()?;
        let allowed = self.allowed_at(queue, level, lanes, skips);
        let offer = self.offer_at_head(queue, level, lanes, allowed, skips);
        if offer.is_some() {
            return offer;
        }
        if others.is_empty() {
            if self.queues.is_blocked(queue, level, allowed) {
                return None;
            }
            let offer = self.offer_at_level(queue, level, lanes, allowed, skips)?;
            return Some(offer);
        }
        // Moved from a place of its own: memory for it is written only here.
        let offer = self.offer_by_level(queue, lanes, skips)?;
        Some(offer)
    }

    /// The slots of the queue whose events some lane may take, and perhaps others: all, as long as no event of the level is set aside.
    #[inline(always)]
    fn allowed_at(&mut self, queue: usize, level: Level, lanes: SmallSet, skips: &Skips) -> SmallSet
        requires queue { queue < length self.old.shape.queues }
        requires lanes { AreOpenLanes self.old skips.now queue lanes }
        ensures same { self.new ≡ self.old }
        ensures allowed { HasAllowed self.old skips.now queue result }
    {
        if self.queues.parked_slots(queue, level).is_empty() {
            SmallSet::below(MAX_MEMBERS)
        } else {
            self.allowed(queue, lanes, skips)
        }
    }

    /// The queue's first event that some lane may take, by level and then number, for the best lane, as each level is searched.
    #[cold]
    fn offer_by_level(&mut self, queue: usize, lanes: SmallSet, skips: &Skips) -> Option<Offer>
        requires queue { queue < length self.old.shape.queues }
        requires lanes { AreOpenLanes self.old skips.now queue lanes }
        ensures same { self.new ≡ self.old }
        ensures offer { IfSome result (λ o. (o.delivery.queue ≡ queue) × IsOfferOf self.old skips.now queue o.lane (numbered_in o.delivery)) }
        ensures slot { IfSome result (HasSlot self.old) }
        ensures none { IfNone result (HasNone self.old skips.now queue) }
    {
        let mut left = self.queues.levels(queue);
        while let Some(level) = left.pop() {
            let offer = self.offer_in(queue, level, lanes, skips);
            if offer.is_some() {
                return offer;
            }
        }
        None
    }

    /// The first event of the queue's level that some lane may take, for the best lane. Where slots are marked, these are the slots whose
    /// events may go; else those are found first.
    #[cold]
    fn offer_at_level(
        &mut self,
        queue: usize,
        level: Level,
        lanes: SmallSet,
        allowed: SmallSet,
        skips: &Skips,
    ) -> Option<Offer>
        requires queue { queue < length self.old.shape.queues }
        requires lanes { AreOpenLanes self.old skips.now queue lanes }
        requires allowed { HasAllowed self.old skips.now queue allowed }
        ensures same { self.new ≡ self.old }
        ensures offer { IfSome result (λ o. (o.delivery.queue ≡ queue) × IsOfferIn self.old skips.now queue level.number o.lane (numbered_in o.delivery)) }
        ensures slot { IfSome result (HasSlot self.old) }
        ensures none { IfNone result (HasNoneIn self.old skips.now queue level.number) }
    {
        if self.queues.parked_slots(queue, level).is_empty() {
            return self.offer_in(queue, level, lanes, skips);
        }
        self.facts();
        // Where no slot is allowed, what waits isn't looked at, so that none of it is set aside.
        if allowed.is_empty() {
            return None;
        }
        self.offer_behind(queue, level, lanes, allowed, skips)
    }

    /// The first event of the queue's level that some lane may take, for the best lane: the slots whose events may go are found first.
    #[inline(always)]
    fn offer_in(
        &mut self,
        queue: usize,
        level: Level,
        lanes: SmallSet,
        skips: &Skips,
    ) -> Option<Offer>
        requires queue { queue < length self.old.shape.queues }
        requires lanes { AreOpenLanes self.old skips.now queue lanes }
        ensures same { self.new ≡ self.old }
        ensures offer { IfSome result (λ o. (o.delivery.queue ≡ queue) × IsOfferIn self.old skips.now queue level.number o.lane (numbered_in o.delivery)) }
        ensures slot { IfSome result (HasSlot self.old) }
        ensures none { IfNone result (HasNoneIn self.old skips.now queue level.number) }
    {
        self.facts();
        let allowed = self.allowed(queue, lanes, skips);
        // Where no slot is allowed, what waits isn't looked at, so that none of it is set aside.
        if allowed.is_empty() {
            return None;
        }
        if self.queues.is_blocked(queue, level, allowed) {
            return None;
        }
        let offer = self.offer_at_head(queue, level, lanes, allowed, skips);
        if offer.is_some() {
            return offer;
        }
        self.offer_behind(queue, level, lanes, allowed, skips)
    }

    /// The first event of the queue's level whose slot is allowed, for the best lane, where it is found at once and some lane may
    /// take it.
    #[inline(always)]
    pub(crate) fn offer_at_head(
        &self,
        queue: usize,
        level: Level,
        lanes: SmallSet,
        allowed: SmallSet,
        skips: &Skips,
    ) -> Option<Offer>
        requires queue { queue < length self.now.shape.queues }
        requires lanes { AreOpenLanes self.now skips.now queue lanes }
        requires allowed { HasAllowed self.now skips.now queue allowed }
        ensures offer { IfSome result (λ o. (o.delivery.queue ≡ queue) × IsOfferIn self.now skips.now queue level.number o.lane (numbered_in o.delivery)) }
        ensures slot { IfSome result (HasSlot self.now) }
    {
        let found = self.queues.head(queue, level, allowed)?;
        let lane = self.lane_for(queue, found.slot, lanes, skips)?;
        Some(Offer::of(level, lane, found))
    }

    /// The first event of the queue's level that some lane may take, for the best lane, as it is searched. A slot whose event no
    /// lane may take is asked once.
    #[inline(always)]
    pub(crate) fn offer_behind(
        &mut self,
        queue: usize,
        level: Level,
        lanes: SmallSet,
        allowed: SmallSet,
        skips: &Skips,
    ) -> Option<Offer>
        requires queue { queue < length self.old.shape.queues }
        requires lanes { AreOpenLanes self.old skips.now queue lanes }
        requires allowed { HasAllowed self.old skips.now queue allowed }
        ensures same { self.new ≡ self.old }
        ensures offer { IfSome result (λ o. (o.delivery.queue ≡ queue) × IsOfferIn self.old skips.now queue level.number o.lane (numbered_in o.delivery)) }
        ensures slot { IfSome result (HasSlot self.old) }
        ensures none { IfNone result (HasNoneIn self.old skips.now queue level.number) }
    {
        let mut left = allowed;
        while let Some(found) = self.queues.first(queue, level, left) {
            if let Some(lane) = self.lane_for(queue, found.slot, lanes, skips) {
                return Some(Offer::of(level, lane, found));
            }
            left.remove(found.slot);
        }
        None
    }
}
