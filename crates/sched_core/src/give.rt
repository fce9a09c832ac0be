//! Events are given to the lanes.

ghost use Rattle.std.specs.Prelude.{◌≡◌, ◌≤◌, ◌+◌, ◌<◌, List, [], ◌∷◌, ◌++◌, Some, length};
ghost use Rattle.transcripts.specs.Choice.{IsOffer};
ghost use Rattle.transcripts.specs.Standing.{Stands, after};
ghost use Rattle.transcripts.specs.Transcript.{event_at};
ghost use Rattle.evt_types.specs.declared.step.Step.{Step as StepValue};
ghost use Rattle.evt_types.specs.Plan.{lanes_of, level_of};
ghost use Rattle.sched_core.specs.Offered.{numbered_in, slot_at};

use crate::offer::{Offer, numbered};
use crate::state::Core;
use evt_types::{Numbered, Step};
use order_parts::Entry;
use parked_queue::Level;
use step_log::StepLog;

impl Core {
    /// Gives what was offered, and appends that step to the log.
    pub fn give<L: StepLog>(&mut self, offer: Offer, log: &mut L)
        requires offer { IsOffer self.old offer.lane offer.delivery.queue (numbered_in offer.delivery) }
        requires room { 0 < L.room log.old }
        ensures view { self.new ≡ after self.old (Step.Give offer.lane offer.delivery.queue offer.delivery.number ∷ []) }
        ensures logged { L.steps log.new ≡ L.steps log.old ++ Step.Give offer.lane offer.delivery.queue offer.delivery.number ∷ [] }
        ensures stands { (T : List StepValue) → Stands T self.old → Stands (T ++ Step.Give offer.lane offer.delivery.queue offer.delivery.number ∷ []) self.new }
        ensures event { (T : List StepValue) → Stands T self.old → event_at T offer.delivery.queue offer.delivery.number ≡ Some offer.delivery.event }
        ensures shape { self.new.shape ≡ self.old.shape }
        ensures room { L.room log.old ≤ L.room log.new + 1 }
    {
        let (lane, queue) = (offer.lane, offer.delivery.queue());
        let waiting = numbered(&offer.delivery);
        let slot = self.queues.slot_of(queue, waiting.event.flow());
        self.give_at(lane, queue, &waiting, offer.level, slot, log);
    }

    /// Hands an event of the queue, of this level and slot, to the lane. Its step is not logged yet.
    #[inline(always)]
    pub(crate) fn hand_out(
        &mut self,
        lane: usize,
        queue: usize,
        waiting: &Numbered,
        level: Level,
        slot: usize,
    )
        requires offer { IsOffer self.old lane queue waiting.now }
        requires level { level.number ≡ level_of waiting.now.event }
        requires slot { slot ≡ slot_at self.old queue waiting.now }
        ensures view { self.new ≡ after self.old (Step.Give lane queue waiting.now.number ∷ []) }
        ensures shape { self.new.shape ≡ self.old.shape }
    {
        let number = waiting.number;
        // First, so that where the event was looked for just before, what was read of the queue's list serves to take it out too.
        self.queues.remove(queue, level, slot, number);
        let place = self.orders.hand(queue, number);
        self.pins.pin(queue, slot, lane);
        self.lanes.push(
            lane,
            Entry {
                queue,
                number,
                slot,
                place,
            },
        );
    }

    /// The same, and its step is appended to the log.
    #[inline(always)]
    pub(crate) fn give_at<L: StepLog>(
        &mut self,
        lane: usize,
        queue: usize,
        waiting: &Numbered,
        level: Level,
        slot: usize,
        log: &mut L,
    )
        requires offer { IsOffer self.old lane queue waiting.now }
        requires level { level.number ≡ level_of waiting.now.event }
        requires slot { slot ≡ slot_at self.old queue waiting.now }
        requires room { 0 < L.room log.old }
        ensures view { self.new ≡ after self.old (Step.Give lane queue waiting.now.number ∷ []) }
        ensures logged { L.steps log.new ≡ L.steps log.old ++ Step.Give lane queue waiting.now.number ∷ [] }
        ensures shape { self.new.shape ≡ self.old.shape }
        ensures room { L.room log.old ≤ L.room log.new + 1 }
    {
        self.hand_out(lane, queue, waiting, level, slot);
        log.push_step(Step::Give {
            lane,
            queue,
            number: waiting.number,
        });
    }

    /// Appends to the log that the lane's ring had no room for a delivery.
    pub fn bounce<L: StepLog>(&self, lane: usize, log: &mut L)
        requires lane { lane < lanes_of self.now.shape }
        requires room { 0 < L.room log.old }
        ensures logged { L.steps log.new ≡ L.steps log.old ++ Step.Bounced lane ∷ [] }
        ensures stands { (T : List StepValue) → Stands T self.now → Stands (T ++ Step.Bounced lane ∷ []) self.now }
        ensures room { L.room log.old ≤ L.room log.new + 1 }
    {
        log.push_step(Step::Bounced { lane });
    }
}
