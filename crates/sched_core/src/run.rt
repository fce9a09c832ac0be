//! Events are given in a run: one after another of one queue and level, to one lane.

ghost use Rattle.std.specs.Prelude.{◌≡◌, ◌+◌, ◌<◌, ◌≤◌, false, List, ◌∷◌, [], ◌++◌, length, slice_index, IfSome, IsTrue};
ghost use Rattle.evt_types.specs.Plan.{has_flow_lanes, lanes_of};
ghost use Rattle.evt_types.specs.declared.shape.TheConstants.{MAX_QUEUES};
ghost use Rattle.evt_types.specs.declared.step.Step.{Step as StepValue};
ghost use Rattle.sched_core.specs.Offered.{AreOpenLanes, IsOnly, numbered_in};
ghost use Rattle.sched_core.specs.Runs.{AreChoices, HasSlot, IsSteady, IsTurn, HasTurn, gifts_of};
ghost use Rattle.transcripts.specs.Choice.{IsChoice};
ghost use Rattle.transcripts.specs.Standing.{Stands};

use crate::offer::{Offer, numbered};
use crate::skips::Skips;
use crate::state::Core;
use crate::turn::Turn;
use arrayvec::ArrayVec;
use evt_types::Delivery;
use parked_queue::Level;
use small_set::SmallSet;
use step_log::StepLog;

/// The most events that a run gives.
pub const MAX_RUN: usize = 32;

/// A run begins. One event is written over another at once, where to clear the run would write its place twice.
#[inline(always)]
fn begin(run: &mut ArrayVec<Delivery, 32>, delivery: Delivery)
    ensures { run.new.items ≡ delivery ∷ [] }
{
    if run.len() == 1 {
        run[0] = delivery;
    } else {
        run.clear();
        run.push(delivery);
    }
}

/// Whether the lane is the only one of these.
#[inline(always)]
fn is_only(lanes: SmallSet, lane: usize) -> bool
    ensures { IsTrue result → IsOnly lanes lane }
{
    let mut others = lanes;
    others.pop() == Some(lane) && others.is_empty()
}

impl Core {
    /// How many events of the queue may be given to the lane before a count is full that the choice asks for: of those that were given in
    /// the sweep, of the lane's unanswered ones, and of an ordered queue's places.
    #[inline(always)]
    fn steady_for(&self, queue: usize, lane: usize, skips: &Skips) -> usize
        requires there { queue < length self.now.shape.queues }
        requires lane { lane < lanes_of self.now.shape }
        requires quota { slice_index skips.now.given queue ≤ self.now.shape.sweep }
        ensures steady { (lanes : SmallSet) → AreOpenLanes self.now skips.now queue lanes → IsSteady self.now skips.now lane queue result lanes }
        ensures counts { length skips.now.given ≡ MAX_QUEUES }
    {
        self.facts();
        let quota = skips.quota_left(queue, self.shape.sweep());
        let room = self.lanes.room(lane);
        self.orders.places_for(queue, room.min(quota))
    }

    /// Gives the first events of the queue's level to the only open lane as a row, each of which is the choice then, as far as they are quick
    /// to see: which lanes are open doesn't change before a count is full.
    #[inline(always)]
    fn give_row<L: StepLog>(
        &mut self,
        lane: usize,
        queue: usize,
        level: Level,
        lanes: SmallSet,
        most: usize,
        skips: &mut Skips,
        run: &mut ArrayVec<Delivery, 32>,
        log: &mut L,
    )
        requires turn { HasTurn self.old skips.old queue level.number }
        requires ports { has_flow_lanes self.old.shape queue ≡ false }
        requires lane { lane < lanes_of self.old.shape }
        requires lanes { AreOpenLanes self.old skips.old queue lanes }
        requires alone { IsOnly lanes lane }
        requires quota { slice_index skips.old.given queue ≤ self.old.shape.sweep }
        requires room { self.old.shape.sweep ≤ L.room log.old + slice_index skips.old.given queue }
        requires none { run.old.items ≡ [] }
        ensures choices { AreChoices lane self.old skips.old run.new.items self.new skips.new }
        ensures logged { L.steps log.new ≡ L.steps log.old ++ gifts_of lane run.new.items }
        ensures few { length run.new.items ≤ most }
        ensures shape { self.new.shape ≡ self.old.shape }
        ensures room { L.room log.old ≤ L.room log.new + length run.new.items }
    {
        let steady = self.steady_for(queue, lane, skips);
        let bound = steady.min(most).min(MAX_RUN);
        self.facts();
        self.hand_row(lane, queue, level, lanes, bound, skips, run);
        let row = run.as_slice();
        log.push_gives(lane, queue, row);
        skips.given_row(queue, row.len());
    }

    /// The lanes that are open to the queue, where its events may be given as a row to this one: several wait, none is set aside, and no
    /// other port's lane is open.
    #[inline(always)]
    fn lanes_for_row(
        &self,
        lane: usize,
        queue: usize,
        level: Level,
        skips: &Skips,
    ) -> Option<SmallSet>
        requires { queue < length self.now.shape.queues }
        ensures ports { IfSome result (λ lanes. has_flow_lanes self.now.shape queue ≡ false) }
        ensures open { IfSome result (AreOpenLanes self.now skips.now queue) }
        ensures alone { IfSome result (λ lanes. IsOnly lanes lane) }
    {
        self.facts();
        // With flow lanes the next event mostly goes to another lane. While events are set aside each is chosen by itself.
        if self.has_flow_lanes(queue)
            || self.queues.count(queue) < 2
            || !self.queues.parked_slots(queue, level).is_empty()
        {
            return None;
        }
        let lanes = self.open_lanes(queue, skips);
        if is_only(lanes, lane) {
            Some(lanes)
        } else {
            None
        }
    }

    /// Gives what was proposed and what is chosen after it as a row, where that may be: whether it did. Else nothing has changed.
    #[inline(always)]
    fn gives_row<L: StepLog>(
        &mut self,
        offer: &Offer,
        most: usize,
        skips: &mut Skips,
        run: &mut ArrayVec<Delivery, 32>,
        log: &mut L,
    ) -> bool
        requires choice { IsChoice self.old skips.old offer.now.lane offer.now.delivery.queue (numbered_in offer.now.delivery) }
        requires room { self.old.shape.sweep ≤ L.room log.old + slice_index skips.old.given offer.now.delivery.queue }
        ensures choices { IsTrue result → AreChoices offer.now.lane self.old skips.old run.new.items self.new skips.new }
        ensures some { IsTrue result → 0 < length run.new.items }
        ensures few { IsTrue result → length run.new.items ≤ most }
        ensures logged { IsTrue result → L.steps log.new ≡ L.steps log.old ++ gifts_of offer.now.lane run.new.items }
        ensures shape { self.new.shape ≡ self.old.shape }
        ensures room { IsTrue result → L.room log.old ≤ L.room log.new + length run.new.items }
        ensures same { result ≡ false → (self.new ≡ self.old) × (skips.new ≡ skips.old) × (L.steps log.new ≡ L.steps log.old) × (L.room log.old ≤ L.room log.new) }
    {
        // A row of one event costs more than that event by itself.
        if most < 2 {
            return false;
        }
        let (lane, level) = (offer.lane, offer.level);
        let queue = offer.delivery.queue();
        let Some(lanes) = self.lanes_for_row(lane, queue, level, skips) else {
            return false;
        };
        run.clear();
        self.give_row(lane, queue, level, lanes, most, skips, run, log);
        !run.is_empty()
    }

    /// Gives what was proposed, as a run of one event.
    #[inline(always)]
    fn give_one<L: StepLog>(
        &mut self,
        offer: Offer,
        skips: &mut Skips,
        run: &mut ArrayVec<Delivery, 32>,
        log: &mut L,
    ) -> Option<Turn>
        requires choice { IsChoice self.old skips.old offer.lane offer.delivery.queue (numbered_in offer.delivery) }
        requires slot { HasSlot self.old offer }
        requires room { 0 < L.room log.old }
        ensures choices { AreChoices offer.lane self.old skips.old run.new.items self.new skips.new }
        ensures one { length run.new.items ≡ 1 }
        ensures logged { L.steps log.new ≡ L.steps log.old ++ gifts_of offer.lane run.new.items }
        ensures shape { self.new.shape ≡ self.old.shape }
        ensures room { L.room log.old ≤ L.room log.new + length run.new.items }
        ensures turn { IfSome result (IsTurn self.new skips.new) }
    {
        let Offer {
            lane,
            delivery,
            level,
            slot,
        } = offer;
        let queue = delivery.queue();
        self.facts();
        begin(run, delivery);
        self.give_at(lane, queue, &numbered(&delivery), level, slot, log);
        skips.given(queue);
        if !self.has_flow_lanes(queue) {
            return None;
        }
        self.close_slot(lane);
        Some(Turn { queue, level })
    }

    /// Gives what was proposed, and then, where no other lane is open, what is chosen after it, as long as that is an event of the same
    /// queue and level and is quick to see: no more than `most`, and than `MAX_RUN`. `run` then has just these, in their order, and the
    /// log their steps; they count as given in what the sweep passes over. Whose turn it is then, where that speeds the next choice.
    #[inline(always)]
    pub fn give_run<L: StepLog>(
        &mut self,
        offer: Offer,
        most: usize,
        skips: &mut Skips,
        run: &mut ArrayVec<Delivery, 32>,
        log: &mut L,
    ) -> Option<Turn>
        requires choice { IsChoice self.old skips.old offer.lane offer.delivery.queue (numbered_in offer.delivery) }
        requires slot { HasSlot self.old offer }
        requires room { self.old.shape.sweep ≤ L.room log.old + slice_index skips.old.given offer.delivery.queue }
        ensures choices { AreChoices offer.lane self.old skips.old run.new.items self.new skips.new }
        ensures some { 0 < most → 0 < length run.new.items }
        ensures few { length run.new.items ≤ most }
        ensures logged { L.steps log.new ≡ L.steps log.old ++ gifts_of offer.lane run.new.items }
        ensures stands { (T : List StepValue) → Stands T self.old → Stands (T ++ gifts_of offer.lane run.new.items) self.new }
        ensures shape { self.new.shape ≡ self.old.shape }
        ensures room { L.room log.old ≤ L.room log.new + length run.new.items }
        ensures turn { IfSome result (IsTurn self.new skips.new) }
    {
        if most == 0 {
            run.clear();
            return None;
        }
        if self.gives_row(&offer, most, skips, run, log) {
            return None;
        }
        self.give_one(offer, skips, run, log)
    }
}
