//! The steps of a transcript are read, one after the other.

ghost use Rattle.std.specs.Prelude.{◌≡◌, ◌<◌, ◌≤◌, ◌^◌, ◌++◌, ◌∷◌, [], false, true, All, IfOk, MatchOption, Some, length, slice_get};
ghost use Rattle.evt_types.specs.Plan.{lanes_of, slot_of};
ghost use Rattle.evt_types.specs.declared.event.Numbered.{Numbered as NumberedValue};
ghost use Rattle.evt_types.specs.declared.step.Outcome.TheVariants as outcomes;
ghost use Rattle.evt_types.specs.declared.step.Source.TheVariants as sources;
ghost use Rattle.evt_types.specs.declared.step.Step.TheVariants as steps;
ghost use Rattle.transcripts.specs.Choice.{IsOffer};
ghost use Rattle.transcripts.specs.Lawful.{IsAddition, IsForwardEntry, IsFormed, IsHandOver, IsNewEntry, IsOutcome, IsTurnedAway, keeps_order};
ghost use Rattle.transcripts.specs.Standing.{event_in};
ghost use Rattle.transcripts.specs.Transcript.{Held, is_from_of};
ghost use Rattle.transcript_judge.specs.Fronts.{Breaks};
ghost use Rattle.transcript_judge.specs.Ledger.{releases, row, rows, view_in};
ghost use Rattle.transcript_judge.specs.Reading.{IsFollowed, IsRead, to_come};
ghost use Rattle.transcript_judge.specs.Scans.{IsOther};
ghost use Rattle.transcript_judge.specs.Waiting.{events_in};

use crate::formed::is_formed;
use crate::ledger::Ledger;
use crate::scans::{either, first_due, first_kept, is_event, is_next, is_pinned, lacks_place};
use crate::verdict::Clause;
use evt_types::{Event, KeptEvent, MAX_EXTRAS, Memory, Outcome, Shape, Source, Step};
use std::alloc::Global;

/// What the steps read so far lead to: what is held, what has to be accepted now and how many of that were, and how many events are
/// inside then.
#[derive(Drop)]
pub(crate) struct Reading {
    pub(crate) ledger: Ledger,
    pub(crate) due: Vec<KeptEvent>,
    pub(crate) taken: usize,
    pub(crate) inside: usize,
}

/// How many events an answer lets go.
fn released(outcome: &Outcome) -> usize
    ensures { result ≡ releases outcome.now }
{
    match outcome {
        Outcome::Forwarded(_) => 0,
        Outcome::Released => 1,
    }
}

/// Whether the step accepts what was passed on.
fn is_passed_on(step: &Step) -> bool
    ensures { result ≡ is_from_of step.now }
{
    match step {
        Step::Accept { source, .. } => match source {
            Source::New { .. } => false,
            Source::Of { .. } => true,
        },
        Step::Give { .. } => false,
        Step::Done { .. } => false,
        Step::More { .. } => false,
        Step::Turned { .. } => false,
        Step::Bounced { .. } => false,
        Step::Shut => false,
    }
}

impl Reading {
    /// Nothing is read yet.
    pub(crate) fn new(alloc: Global, shape: &Shape) -> Result<Reading, Memory>
        ensures { IfOk result (λ r. IsRead shape.now [] r) }
    {
        Ok(Reading {
            ledger: Ledger::new(alloc, shape)?,
            due: Vec::new(alloc),
            taken: 0,
            inside: 0,
        })
    }

    /// Whether something has to be accepted now.
    pub(crate) fn is_due(&self) -> bool
        ensures none { result ≡ false → to_come self.now ≡ [] }
        ensures some { result ≡ true → 0 < length (to_come self.now) }
    {
        self.taken < self.due.len()
    }

    /// A NEW is accepted.
    fn follow_new(
        &mut self,
        shape: &Shape,
        past: &[Step],
        queue: usize,
        event: &Event,
        lane: usize,
    ) -> Result<Option<Clause>, Memory>
        requires read { IsRead shape.now past.now self.old }
        requires none { to_come self.old ≡ [] }
        requires formed { IsNewEntry shape.now queue event.now lane }
        requires few { length past.now < 2 ^ 63 }
        ensures { IfOk result (λ c. IsFollowed shape.now past.now (steps.Accept queue event.now (sources.New lane)) c self.new) }
    {
        if self.ledger.shut {
            return Ok(Some(Clause::Closed));
        }
        if self.inside >= shape.bound() {
            return Ok(Some(Clause::Limit));
        }
        self.ledger.enter(queue, event)?;
        self.inside += 1;
        Ok(None)
    }

    /// Which clause is broken if the waiting event of this number is given to the lane.
    fn give_fault(
        &self,
        shape: &Shape,
        past: &[Step],
        lane: usize,
        queue: usize,
        number: u64,
        event: &Event,
    ) -> Option<Clause>
        requires read { IsRead shape.now past.now self.now }
        requires none { to_come self.now ≡ [] }
        requires formed { IsHandOver shape.now lane queue }
        requires waits { event_in (row (events_in self.now.ledger.waiting.items) queue) number ≡ Some event.now }
        ensures { MatchOption result (IsOffer (view_in shape.now self.now.ledger) lane queue (record { number = number; event = event.now })) (λ c. Breaks c shape.now (past.now ++ steps.Give lane queue number ∷ [])) }
    {
        let slot = shape.slot_of(queue, event.flow);
        if !shape.serves(lane, queue, slot) {
            return Some(Clause::Linked);
        }
        let held = &self.ledger.unanswered[lane];
        if held.len() >= shape.depth_of(lane) {
            return Some(Clause::Depth);
        }
        let places = &self.ledger.places[queue];
        let count = places.len();
        if lacks_place(shape, queue, count) {
            return Some(Clause::Places);
        }
        let waiting = &self.ledger.waiting[queue];
        if waiting.is_overtaking(number, event) {
            return Some(Clause::Flow);
        }
        if is_pinned(shape, &self.ledger.unanswered, lane, queue, slot) {
            return Some(Clause::Alone);
        }
        None
    }

    /// An event is given.
    fn follow_give(
        &mut self,
        alloc: Global,
        shape: &Shape,
        past: &[Step],
        lane: usize,
        queue: usize,
        number: u64,
    ) -> Result<Option<Clause>, Memory>
        requires read { IsRead shape.now past.now self.old }
        requires none { to_come self.old ≡ [] }
        requires formed { IsHandOver shape.now lane queue }
        ensures { IfOk result (λ c. IsFollowed shape.now past.now (steps.Give lane queue number) c self.new) }
    {
        let Some(event) = self.ledger.waiting[queue].find(number) else {
            return Ok(Some(Clause::Once));
        };
        if let Some(clause) = self.give_fault(shape, past, lane, queue, number, &event) {
            return Ok(Some(clause));
        }
        let slot = shape.slot_of(queue, event.flow);
        self.ledger.give(alloc, shape, lane, queue, number, slot)?;
        Ok(None)
    }

    /// An event is answered.
    fn follow_done(
        &mut self,
        alloc: Global,
        shape: &Shape,
        past: &[Step],
        lane: usize,
        outcome: &Outcome,
    ) -> Result<Option<Clause>, Memory>
        requires read { IsRead shape.now past.now self.old }
        requires none { to_come self.old ≡ [] }
        requires lane { lane < lanes_of shape.now }
        requires formed { IsOutcome shape.now outcome.now }
        ensures { IfOk result (λ c. IsFollowed shape.now past.now (steps.Done lane outcome.now) c self.new) }
    {
        let held = &self.ledger.unanswered[lane];
        if held.is_empty() {
            return Ok(Some(Clause::Answers));
        }
        let mut due = Vec::new(alloc);
        self.ledger.answer(shape, lane, outcome, &mut due)?;
        self.due = due;
        self.taken = 0;
        self.inside -= released(outcome);
        Ok(None)
    }

    /// An event is added beside another.
    fn follow_more(
        &mut self,
        alloc: Global,
        shape: &Shape,
        past: &[Step],
        lane: usize,
        event: &Event,
    ) -> Result<Option<Clause>, Memory>
        requires read { IsRead shape.now past.now self.old }
        requires none { to_come self.old ≡ [] }
        requires lane { lane < lanes_of shape.now }
        requires formed { IsAddition shape.now event.now }
        ensures { IfOk result (λ c. IsFollowed shape.now past.now (steps.More lane event.now) c self.new) }
    {
        let held = &self.ledger.unanswered[lane];
        if held.is_empty() {
            return Ok(Some(Clause::Extras));
        }
        if self.ledger.extras[lane] >= MAX_EXTRAS {
            return Ok(Some(Clause::Extras));
        }
        if self.inside >= shape.bound() {
            return Ok(Some(Clause::Limit));
        }
        let mut due = Vec::new(alloc);
        self.ledger.add(shape, lane, event, &mut due)?;
        self.due = due;
        self.taken = 0;
        self.inside += 1;
        Ok(None)
    }
}

impl Reading {
    /// Which clause is broken if the event is accepted from a number, and is not the one that has to be accepted now.
    fn passed_fault(
        &self,
        shape: &Shape,
        past: &[Step],
        queue: usize,
        event: &Event,
        from: usize,
        number: u64,
    ) -> Clause
        requires read { IsRead shape.now past.now self.now }
        requires formed { IsForwardEntry shape.now queue event.now from }
        requires other { IsOther (to_come self.now) (steps.Accept queue event.now (sources.Of from number)) }
        ensures { Breaks result shape.now (past.now ++ steps.Accept queue event.now (sources.Of from number) ∷ []) }
    {
        let due = first_due(&self.due[self.taken..], from, number);
        let kept = first_kept(&self.ledger.places[from], number);
        if is_event(either(due, kept), event) {
            Clause::Order
        } else {
            Clause::Origin
        }
    }

    /// What was passed on is accepted.
    fn follow_passed(
        &mut self,
        shape: &Shape,
        past: &[Step],
        queue: usize,
        event: &Event,
        from: usize,
        number: u64,
    ) -> Result<Option<Clause>, Memory>
        requires read { IsRead shape.now past.now self.old }
        requires formed { IsForwardEntry shape.now queue event.now from }
        requires few { length past.now < 2 ^ 63 }
        ensures { IfOk result (λ c. IsFollowed shape.now past.now (steps.Accept queue event.now (sources.Of from number)) c self.new) }
    {
        if !is_next(&self.due[self.taken..], event, from, number) {
            return Ok(Some(self.passed_fault(shape, past, queue, event, from, number)));
        }
        self.taken += 1;
        self.ledger.enter(queue, event)?;
        Ok(None)
    }

    /// A NEW is turned away.
    fn turned_fault(
        &self,
        shape: &Shape,
        past: &[Step],
        lane: usize,
        event: &Event,
    ) -> Option<Clause>
        requires read { IsRead shape.now past.now self.now }
        requires none { to_come self.now ≡ [] }
        requires formed { IsTurnedAway shape.now lane event.now }
        ensures { IsFollowed shape.now past.now (steps.Turned lane event.now) result self.now }
    {
        if self.ledger.shut {
            None
        } else {
            Some(Clause::Closed)
        }
    }

    /// A ring was full.
    fn follow_bounced(&self, shape: &Shape, past: &[Step], lane: usize) -> Option<Clause>
        requires read { IsRead shape.now past.now self.now }
        requires none { to_come self.now ≡ [] }
        requires formed { lane < lanes_of shape.now }
        ensures { IsFollowed shape.now past.now (steps.Bounced lane) result self.now }
    {
        None
    }

    /// The scheduler saw that the device is shut.
    fn follow_shut(&mut self, shape: &Shape, past: &[Step]) -> Option<Clause>
        requires read { IsRead shape.now past.now self.old }
        requires none { to_come self.old ≡ [] }
        ensures { IsFollowed shape.now past.now steps.Shut result self.new }
    {
        if self.ledger.shut {
            return Some(Clause::Closed);
        }
        self.ledger.shut = true;
        None
    }

    /// A step that accepts what was passed on.
    fn follow_accept(
        &mut self,
        shape: &Shape,
        past: &[Step],
        step: &Step,
    ) -> Result<Option<Clause>, Memory>
        requires read { IsRead shape.now past.now self.old }
        requires formed { IsFormed shape.now step.now }
        requires passed { is_from_of step.now ≡ true }
        requires few { length past.now < 2 ^ 63 }
        ensures { IfOk result (λ c. IsFollowed shape.now past.now step.now c self.new) }
    {
        match step {
            Step::Accept {
                queue,
                event,
                source,
            } => match source {
                Source::Of {
                    queue: from,
                    number,
                } => self.follow_passed(shape, past, *queue, event, *from, *number),
                Source::New { .. } => Ok(None),
            },
            Step::Give { .. } => Ok(None),
            Step::Done { .. } => Ok(None),
            Step::More { .. } => Ok(None),
            Step::Turned { .. } => Ok(None),
            Step::Bounced { .. } => Ok(None),
            Step::Shut => Ok(None),
        }
    }

    /// A step that accepts nothing that was passed on, where nothing has to be accepted now.
    fn follow_other(
        &mut self,
        alloc: Global,
        shape: &Shape,
        past: &[Step],
        step: &Step,
    ) -> Result<Option<Clause>, Memory>
        requires read { IsRead shape.now past.now self.old }
        requires none { to_come self.old ≡ [] }
        requires formed { IsFormed shape.now step.now }
        requires other { is_from_of step.now ≡ false }
        requires few { length past.now < 2 ^ 63 }
        ensures { IfOk result (λ c. IsFollowed shape.now past.now step.now c self.new) }
    {
        match step {
            Step::Accept {
                queue,
                event,
                source,
            } => match source {
                Source::New { lane } => self.follow_new(shape, past, *queue, event, *lane),
                Source::Of { .. } => Ok(None),
            },
            Step::Give {
                lane,
                queue,
                number,
            } => self.follow_give(alloc, shape, past, *lane, *queue, *number),
            Step::Done { lane, outcome } => self.follow_done(alloc, shape, past, *lane, outcome),
            Step::More { lane, event } => self.follow_more(alloc, shape, past, *lane, event),
            Step::Turned { lane, event } => Ok(self.turned_fault(shape, past, *lane, event)),
            Step::Bounced { lane } => Ok(self.follow_bounced(shape, past, *lane)),
            Step::Shut => Ok(self.follow_shut(shape, past)),
        }
    }

    /// A step is read; the first that can't be gone on with breaks the clause that is given.
    pub(crate) fn follow(
        &mut self,
        alloc: Global,
        shape: &Shape,
        past: &[Step],
        step: &Step,
    ) -> Result<Option<Clause>, Memory>
        requires read { IsRead shape.now past.now self.old }
        requires few { length past.now < 2 ^ 63 }
        ensures { IfOk result (λ c. IsFollowed shape.now past.now step.now c self.new) }
    {
        if !is_formed(shape, step) {
            return Ok(Some(Clause::Formed));
        }
        if is_passed_on(step) {
            return self.follow_accept(shape, past, step);
        }
        if self.is_due() {
            return Ok(Some(Clause::Prompt));
        }
        self.follow_other(alloc, shape, past, step)
    }
}
