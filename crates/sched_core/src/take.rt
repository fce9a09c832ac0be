//! Replies of the lanes are taken.

ghost use Rattle.std.specs.Prelude.{◌≡◌, ◌+◌, ◌<◌, ◌≤◌, nat_lt, ◌&&◌, false, true, List, ◌++◌, length};
ghost use Rattle.evt_types.specs.Operation.{is_new_op};
ghost use Rattle.evt_types.specs.Plan.{is_ordered, lanes_of, queue_of};
ghost use Rattle.transcripts.specs.Standing.{Stands, AreStepsOf, may_be_taken, may_take, may_enter, may_answer, may_forward, may_add, answer_steps, steps_by, steps_of, after, kept_in};
ghost use Rattle.evt_types.specs.declared.step.Step.{Step as StepValue};
ghost use Rattle.sched_core.specs.Taken.{took_by, took_of};

use crate::state::Core;
use evt_types::{MAX_EXTRAS, Op, Outcome, PackedEvent, Reply, Source, Step};
use order_parts::Entry;
use step_log::StepLog;

/// What became of a reply.
#[derive(Clone, Copy, Debug, PartialEq, Eq)]
pub enum Took {
    /// Its event waits in its queue.
    Accepted,
    /// Its event is kept until all that was handed out before is answered, and the event that it was passed on from.
    Kept,
    /// The event that it answers is done with.
    Released,
    /// It was turned away, since the core is shut.
    Turned,
}

/// How many events a core accepts in all.
pub(crate) const MAX_ENTRIES: u64 = 1 << 63;

impl Core {
    /// Whether the lane's reply may be taken now: it is an answer and the lane has something to answer, or it adds an event beside one
    /// that the lane has, as one of few, and there is room for it; or a NEW of a port's own lane and, unless the core is shut, there is
    /// room for it; and the queue that it names is there. Whether or not, its steps would be two at most beside the kept events that it
    /// lets go.
    #[inline(always)]
    pub fn takes(&self, lane: usize, reply: &Reply) -> bool
        requires lane { lane < lanes_of self.now.shape }
        ensures value { result ≡ may_take self.now lane reply.now.event }
        ensures model { (T : List StepValue) → Stands T self.now → result ≡ may_be_taken self.now.shape T lane reply.now.event }
        ensures few { length (steps_of self.now lane reply.now.event) + kept_in (after self.now (steps_of self.now lane reply.now.event)) ≤ kept_in self.now + 2 }
    {
        self.facts();
        let queue = usize::from(reply.event.queue());
        if reply.event.is_new() {
            return self.may_bring(lane, queue);
        }
        match reply.event.op() {
            Op::Forward => self.may_forward(lane, queue),
            Op::Release => self.may_answer(lane),
            Op::New | Op::ForwardMore => self.may_add(lane, queue),
        }
    }

    /// Whether the lane may bring a new event for the queue: it must be a port's own.
    fn may_bring(&self, lane: usize, queue: usize) -> bool
        ensures { result ≡ (nat_lt lane (length self.now.shape.ports) && may_enter self.now queue) }
    {
        lane < self.shape.ports().len() && self.may_enter(queue)
    }

    /// Whether a new event for the queue may be taken: once the core is shut it is turned away, and needs no room.
    fn may_enter(&self, queue: usize) -> bool
        ensures { result ≡ may_enter self.now queue }
    {
        queue < self.queues.len()
            && (self.inside < self.bound && self.entries < MAX_ENTRIES || self.shut)
    }

    /// Whether an event for the queue may be added beside the lane's oldest.
    fn may_add(&self, lane: usize, queue: usize) -> bool
        requires { lane < lanes_of self.now.shape }
        ensures { result ≡ may_add self.now lane queue }
    {
        self.may_forward(lane, queue) && self.extras[lane] < MAX_EXTRAS && self.inside < self.bound
    }

    /// Whether the lane has something to answer, and the queue may accept what it is forwarded as.
    fn may_forward(&self, lane: usize, queue: usize) -> bool
        requires { lane < lanes_of self.now.shape }
        ensures { result ≡ may_forward self.now lane queue }
    {
        self.may_answer(lane) && queue < self.queues.len() && self.entries < MAX_ENTRIES
    }

    /// Whether the lane has something to answer.
    fn may_answer(&self, lane: usize) -> bool
        requires { lane < lanes_of self.now.shape }
        ensures { result ≡ may_answer self.now lane }
    {
        !self.lanes.is_empty(lane)
    }

    /// Whether the queue restores the order of its hand-out.
    pub(crate) fn restores_order(&self, queue: usize) -> bool
        requires { queue < length self.now.shape.queues }
        ensures { result ≡ is_ordered (queue_of self.now.shape queue).kind }
    {
        self.shape.queues()[queue].kind.is_ordered()
    }

    /// Takes the lane's reply, and appends its steps to the log.
    #[inline(always)]
    pub fn take<L: StepLog>(&mut self, lane: usize, reply: Reply, log: &mut L) -> Took
        requires lane { lane < lanes_of self.old.shape }
        requires takes { may_take self.old lane reply.event ≡ true }
        requires room { length (steps_of self.old lane reply.event) ≤ L.room log.old }
        ensures view { self.new ≡ after self.old (steps_of self.old lane reply.event) }
        ensures logged { L.steps log.new ≡ L.steps log.old ++ steps_of self.old lane reply.event }
        ensures stands { (T : List StepValue) → Stands T self.old → AreStepsOf self.old.shape T lane reply.event (steps_of self.old lane reply.event) × Stands (T ++ steps_of self.old lane reply.event) self.new }
        ensures took { result ≡ took_of self.old lane reply.event }
        ensures shape { self.new.shape ≡ self.old.shape }
        ensures room { L.room log.old ≤ L.room log.new + length (steps_of self.old lane reply.event) }
    {
        if reply.event.is_new() {
            self.take_new(lane, &reply, log)
        } else {
            self.take_answer(lane, &reply, log)
        }
    }

    /// The same of a NEW where it lies, whose event is copied from there to where it is kept.
    #[inline(always)]
    pub fn take_new<L: StepLog>(&mut self, lane: usize, reply: &Reply, log: &mut L) -> Took
        requires new { is_new_op reply.now.event.op ≡ true }
        requires lane { lane < lanes_of self.old.shape }
        requires takes { may_take self.old lane reply.now.event ≡ true }
        requires room { length (steps_of self.old lane reply.now.event) ≤ L.room log.old }
        ensures view { self.new ≡ after self.old (steps_of self.old lane reply.now.event) }
        ensures logged { L.steps log.new ≡ L.steps log.old ++ steps_of self.old lane reply.now.event }
        ensures stands { (T : List StepValue) → Stands T self.old → AreStepsOf self.old.shape T lane reply.now.event (steps_of self.old lane reply.now.event) × Stands (T ++ steps_of self.old lane reply.now.event) self.new }
        ensures took { result ≡ took_of self.old lane reply.now.event }
        ensures shape { self.new.shape ≡ self.old.shape }
        ensures room { L.room log.old ≤ L.room log.new + length (steps_of self.old lane reply.now.event) }
    {
        self.enter(lane, &reply.event, log)
    }

    /// The same of a reply that is no NEW.
    #[inline(always)]
    pub fn take_answer<L: StepLog>(&mut self, lane: usize, reply: &Reply, log: &mut L) -> Took
        requires answer { is_new_op reply.now.event.op ≡ false }
        requires lane { lane < lanes_of self.old.shape }
        requires takes { may_take self.old lane reply.now.event ≡ true }
        requires room { length (steps_of self.old lane reply.now.event) ≤ L.room log.old }
        ensures view { self.new ≡ after self.old (steps_of self.old lane reply.now.event) }
        ensures logged { L.steps log.new ≡ L.steps log.old ++ steps_of self.old lane reply.now.event }
        ensures stands { (T : List StepValue) → Stands T self.old → AreStepsOf self.old.shape T lane reply.now.event (steps_of self.old lane reply.now.event) × Stands (T ++ steps_of self.old lane reply.now.event) self.new }
        ensures took { result ≡ took_of self.old lane reply.now.event }
        ensures shape { self.new.shape ≡ self.old.shape }
        ensures room { L.room log.old ≤ L.room log.new + length (steps_of self.old lane reply.now.event) }
    {
        let event = &reply.event;
        match event.op() {
            Op::Forward => self.take_forward(lane, event, log),
            Op::Release => self.take_release(lane, log),
            Op::New | Op::ForwardMore => self.take_more(lane, event, log),
        }
    }

    /// A new event waits in its queue; once the core is shut it is turned away.
    #[inline(always)]
    fn enter<L: StepLog>(&mut self, lane: usize, event: &PackedEvent, log: &mut L) -> Took
        requires takes { may_enter self.old event.now.queue ≡ true }
        requires room { length (steps_by Op.New self.old lane event.now) ≤ L.room log.old }
        ensures view { self.new ≡ after self.old (steps_by Op.New self.old lane event.now) }
        ensures logged { L.steps log.new ≡ L.steps log.old ++ steps_by Op.New self.old lane event.now }
        ensures took { result ≡ took_by Op.New self.old lane event.now }
        ensures room { L.room log.old ≤ L.room log.new + length (steps_by Op.New self.old lane event.now) }
    {
        let is_turned = self.shut;
        if is_turned {
            log.push_step(Step::Turned {
                lane,
                event: event.unpack(),
            });
            return Took::Turned;
        }
        self.accept(event, Source::New { lane }, log);
        Took::Accepted
    }

    /// The lane's oldest unanswered event is done with, and what it is forwarded as waits in its queue. An ordered queue
    /// keeps it, with what was added beside it, until all that it handed out before is answered.
    #[inline(always)]
    fn take_forward<L: StepLog>(&mut self, lane: usize, event: &PackedEvent, log: &mut L) -> Took
        requires op { event.now.op ≡ Op.Forward }
        requires lane { lane < lanes_of self.old.shape }
        requires takes { may_forward self.old lane event.now.queue ≡ true }
        requires room { length (steps_by Op.Forward self.old lane event.now) ≤ L.room log.old }
        ensures view { self.new ≡ after self.old (steps_by Op.Forward self.old lane event.now) }
        ensures logged { L.steps log.new ≡ L.steps log.old ++ steps_by Op.Forward self.old lane event.now }
        ensures took { result ≡ took_by Op.Forward self.old lane event.now }
        ensures room { L.room log.old ≤ L.room log.new + length (steps_by Op.Forward self.old lane event.now) }
    {
        let Entry { queue, number, .. } = self.answer(lane, Some(event), log);
        if self.restores_order(queue) {
            let passed = self.settle(queue, number, log);
            return if passed { Took::Accepted } else { Took::Kept };
        }
        self.accept(event, Source::Of { queue, number }, log);
        Took::Accepted
    }

    /// The lane's oldest unanswered event is done with.
    #[inline(always)]
    fn take_release<L: StepLog>(&mut self, lane: usize, log: &mut L) -> Took
        requires lane { lane < lanes_of self.old.shape }
        requires takes { may_answer self.old lane ≡ true }
        requires room { length (answer_steps self.old lane Outcome.Released) ≤ L.room log.old }
        ensures view { self.new ≡ after self.old (answer_steps self.old lane Outcome.Released) }
        ensures logged { L.steps log.new ≡ L.steps log.old ++ answer_steps self.old lane Outcome.Released }
        ensures took { result ≡ Took.Released }
        ensures room { L.room log.old ≤ L.room log.new + length (answer_steps self.old lane Outcome.Released) }
    {
        self.facts();
        let Entry { queue, number, .. } = self.answer(lane, None, log);
        if self.restores_order(queue) {
            self.settle(queue, number, log);
        }
        Took::Released
    }

    /// The event is added beside the lane's oldest unanswered one. An ordered queue's event keeps it in its place; beside any other
    /// it waits in its queue at once.
    #[cold]
    fn take_more<L: StepLog>(&mut self, lane: usize, event: &PackedEvent, log: &mut L) -> Took
        requires op { event.now.op ≡ Op.ForwardMore }
        requires lane { lane < lanes_of self.old.shape }
        requires takes { may_add self.old lane event.now.queue ≡ true }
        requires room { length (steps_by Op.ForwardMore self.old lane event.now) ≤ L.room log.old }
        ensures view { self.new ≡ after self.old (steps_by Op.ForwardMore self.old lane event.now) }
        ensures logged { L.steps log.new ≡ L.steps log.old ++ steps_by Op.ForwardMore self.old lane event.now }
        ensures took { result ≡ took_by Op.ForwardMore self.old lane event.now }
        ensures room { L.room log.old ≤ L.room log.new + length (steps_by Op.ForwardMore self.old lane event.now) }
    {
        let Entry { queue, number, .. } = self.add(lane, event, log);
        if self.restores_order(queue) {
            return Took::Kept;
        }
        self.accept(event, Source::Of { queue, number }, log);
        Took::Accepted
    }
}
