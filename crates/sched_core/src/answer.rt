//! Events are accepted, added and answered.

ghost use Rattle.std.specs.Prelude.{◌≡◌, ◌+◌, ◌<◌, ◌≤◌, ◌^◌, true, false, [], ◌∷◌, ◌++◌, length, option_copied, Some, All};
ghost use Rattle.evt_types.specs.Plan.{bound_of, lanes_of, queue_of, is_ordered};
ghost use Rattle.transcripts.specs.Standing.{inside_of, entries_of, may_add, may_answer, oldest_at, events_of, accepts_from, after, after_accept, after_more};
ghost use Rattle.evt_types.specs.declared.event.Event.{Event as EventValue};
ghost use Rattle.sched_core.specs.Inner.{unplaced};
ghost use Rattle.sched_core.specs.Ordered.{outcome_of};
ghost use Rattle.sched_core.specs.Answered.{after_answer};

use crate::open_slots::open_slot;
use crate::state::Core;
use evt_types::{Outcome, PackedEvent, Source, Step};
use order_parts::Entry;
use step_log::StepLog;

/// How an event is answered, by what it is forwarded as.
#[inline(always)]
fn outcome_of(forward: Option<&PackedEvent>) -> Outcome
    ensures { result ≡ outcome_of (option_copied forward.entry) }
{
    match forward {
        Some(event) => Outcome::Forwarded(event.unpack()),
        None => Outcome::Released,
    }
}

impl Core {
    /// The event waits in its queue, under the next number.
    #[inline(always)]
    pub(crate) fn accept<L: StepLog>(&mut self, event: &PackedEvent, source: Source, log: &mut L)
        requires queue { event.now.queue < length self.old.shape.queues }
        requires inside { inside_of self.old < bound_of self.old.shape }
        requires entries { entries_of self.old < 2 ^ 63 }
        requires room { 0 < L.room log.old }
        ensures view { self.new ≡ after_accept self.old event.now.queue event.now }
        ensures counts { (inside_of self.new ≡ inside_of self.old + 1) × (entries_of self.new ≡ entries_of self.old + 1) }
        ensures logged { L.steps log.new ≡ L.steps log.old ++ Step.Accept event.now.queue event.now source ∷ [] }
        ensures room { L.room log.old ≤ L.room log.new + 1 }
    {
        let queue = usize::from(event.queue());
        self.queues.accept(event);
        self.inside += 1;
        self.entries += 1;
        log.push_step(Step::Accept {
            queue,
            event: event.unpack(),
            source,
        });
    }

    /// The events wait in their queues one after the other: what the queue's event of this number was passed on as.
    pub(crate) fn accept_all<L: StepLog>(
        &mut self,
        queue: usize,
        number: u64,
        events: &[PackedEvent],
        log: &mut L,
    )
        requires named { All (λ (e : EventValue). e.queue < length self.old.shape.queues) events.now }
        requires inside { inside_of self.old + length events.now ≤ bound_of self.old.shape }
        requires entries { entries_of self.old + length events.now ≤ 2 ^ 63 }
        requires room { length events.now ≤ L.room log.old }
        ensures view { self.new ≡ after self.old (accepts_from queue number events.now) }
        ensures logged { L.steps log.new ≡ L.steps log.old ++ accepts_from queue number events.now }
        ensures room { L.room log.old ≤ L.room log.new + length events.now }
    {
        for event in events {
            self.accept(event, Source::Of { queue, number }, log);
        }
    }

    /// The event is added beside the lane's oldest unanswered one. An ordered queue's event keeps it in its place.
    pub(crate) fn add<L: StepLog>(&mut self, lane: usize, event: &PackedEvent, log: &mut L) -> Entry
        requires lane { lane < lanes_of self.old.shape }
        requires may { may_add self.old lane event.now.queue ≡ true }
        requires room { 0 < L.room log.old }
        ensures oldest { oldest_at self.old lane ≡ Some (unplaced result) }
        ensures queue { result.queue < length self.old.shape.queues }
        ensures view { self.new ≡ after_more self.old lane event.now }
        ensures logged { L.steps log.new ≡ L.steps log.old ++ Step.More lane event.now ∷ [] }
        ensures inside { is_ordered (queue_of self.old.shape result.queue).kind ≡ false → inside_of self.new < bound_of self.old.shape }
        ensures entries { is_ordered (queue_of self.old.shape result.queue).kind ≡ false → entries_of self.new < 2 ^ 63 }
        ensures room { L.room log.old ≤ L.room log.new + 1 }
    {
        let entry = self.lanes.oldest(lane);
        self.extras[lane] += 1;
        let kept = self.orders.add(entry.queue, entry.place, *event);
        if kept {
            self.inside += 1;
            self.entries += 1;
        }
        log.push_step(Step::More {
            lane,
            event: event.unpack(),
        });
        entry
    }

    /// The lane's oldest unanswered event is answered, by a forward or by its release. What an ordered queue's event is forwarded as is kept at first.
    #[inline(always)]
    pub(crate) fn answer<L: StepLog>(
        &mut self,
        lane: usize,
        forward: Option<&PackedEvent>,
        log: &mut L,
    ) -> Entry
        requires lane { lane < lanes_of self.old.shape }
        requires some { may_answer self.old lane ≡ true }
        requires outcome { All (λ (e : EventValue). e.queue < length self.old.shape.queues) (events_of (outcome_of (option_copied forward))) }
        requires entries { entries_of self.old + length (events_of (outcome_of (option_copied forward))) ≤ 2 ^ 63 }
        requires room { 0 < L.room log.old }
        ensures oldest { oldest_at self.old lane ≡ Some (unplaced result) }
        ensures queue { result.queue < length self.old.shape.queues }
        ensures places { result.queue < length self.old.places }
        ensures view { self.new ≡ after_answer self.old lane (outcome_of (option_copied forward.entry)) }
        ensures logged { L.steps log.new ≡ L.steps log.old ++ Step.Done lane (outcome_of (option_copied forward.entry)) ∷ [] }
        ensures fewer { is_ordered (queue_of self.old.shape result.queue).kind ≡ false → inside_of self.new < bound_of self.old.shape }
        ensures room { L.room log.old ≤ L.room log.new + 1 }
    {
        let entry = self.lanes.pop(lane);
        open_slot(&mut self.open_slots, &self.shape, lane);
        self.extras[lane] = 0;
        self.pins.unpin(entry.queue, entry.slot);
        let kept = self.orders.resolve(entry.queue, entry.place, forward);
        if kept {
            self.entries += 1;
        } else {
            self.inside -= 1;
        }
        log.push_step(Step::Done {
            lane,
            outcome: outcome_of(forward),
        });
        entry
    }
}
