//! What the check of a log knows of the steps that it has read.

ghost use Rattle.std.specs.Prelude.{◌≡◌, ◌≤◌, ◌<◌, ◌↔◌, true, ℕ, List, [], ◌∷◌, ◌++◌, All, IfOk, OnOk, length, replicate, slice_set};
ghost use Rattle.evt_types.specs.declared.step.Step.{Step as StepValue};
ghost use Rattle.pipeline_laws.specs.Past.{Follows, HasPlace, HasSizes, HasUnanswered, IsDueAfter, event_in, next_in, owed, row, rows};
ghost use Rattle.pipeline_laws.specs.Pipeline.{IsProper};

use crate::answers::answer;
use crate::stage::Action;
use evt_types::{Event, Outcome, Step};
use std::alloc::{AllocError, Global};

/// What the steps read so far say: for each queue the events that it accepted, for each lane the (queue, number) pairs that it was
/// given, and how many of them it answered.
#[derive(Drop)]
pub(crate) struct Past {
    accepted: Vec<Vec<Event>>,
    given: Vec<Vec<(usize, u64)>>,
    answered: Vec<usize>,
}

/// So many empty lists.
pub(crate) fn empty_lists<T: Drop>(alloc: Global, count: usize) -> Result<Vec<Vec<T>>, AllocError>
    ensures { IfOk result (λ lists. rows lists.items ≡ replicate count []) }
{
    let mut lists = Vec::with_capacity(alloc, count)?;
    for _ in 0..count {
        lists.push(Vec::new(alloc))?;
    }
    Ok(lists)
}

/// So many zeros.
fn zeros(alloc: Global, count: usize) -> Result<Vec<usize>, AllocError>
    ensures { IfOk result (λ counts. counts.items ≡ replicate count 0) }
{
    vec![in alloc; 0; count]
}

/// One item more at the end of one of the lists.
pub(crate) fn push_to<T: Drop>(
    lists: &mut Vec<Vec<T>>,
    place: usize,
    item: T,
) -> Result<(), AllocError>
    requires { place < length lists.old.items }
    ensures { OnOk result (rows lists.new.items ≡ slice_set (rows lists.old.items) place (row (rows lists.old.items) place ++ item ∷ [])) }
{
    lists[place].push(item)?;
    Ok(())
}

/// Whether the two events are the same.
fn is_same_event(first: &Event, second: &Event) -> bool
    ensures { (result ≡ true) ↔ (first.now ≡ second.now) }
{
    first == second
}

/// Whether the two answers are the same.
fn is_same(first: &Outcome, second: &Outcome) -> bool
    ensures { (result ≡ true) ↔ (first.now ≡ second.now) }
{
    match first {
        Outcome::Forwarded(event) => match second {
            Outcome::Forwarded(other) => is_same_event(event, other),
            Outcome::Released => false,
        },
        Outcome::Released => match second {
            Outcome::Forwarded(_) => false,
            Outcome::Released => true,
        },
    }
}

impl Past {
    /// Nothing is read yet.
    pub(crate) fn new(alloc: Global, queues: usize, lanes: usize) -> Result<Past, AllocError>
        ensures follows { IfOk result (λ past. Follows [] past) }
        ensures sizes { IfOk result (λ past. HasSizes past queues lanes) }
    {
        Ok(Past {
            accepted: empty_lists(alloc, queues)?,
            given: empty_lists(alloc, lanes)?,
            answered: zeros(alloc, lanes)?,
        })
    }

    /// The pair that the lane answers next.
    fn next_pair(&self, lane: usize) -> (usize, u64)
        requires { HasUnanswered self.now lane }
        ensures { next_in self.now lane ≡ Some result }
    {
        self.given[lane][self.answered[lane]]
    }

    /// The event of a queue and number.
    fn event_of(&self, queue: usize, number: u64) -> Option<Event>
        ensures { result ≡ event_in self.now queue number }
    {
        self.accepted.get(queue)?.get(number as usize).copied()
    }

    /// The answer that the lane owes next.
    fn owed(&self, actions: &[Action], lane: usize) -> Outcome
        requires actions { All IsProper actions.now }
        requires few { length actions.now ≤ 255 }
        requires unanswered { HasUnanswered self.now lane }
        ensures { result ≡ owed actions.now self.now lane }
    {
        let (queue, number) = self.next_pair(lane);
        match self.event_of(queue, number) {
            Some(event) => answer(actions, queue, &event),
            None => Outcome::Released,
        }
    }

    /// Reads one step more, and tells whether it is due, where it is an answer. An added event never is.
    pub(crate) fn follow(&mut self, actions: &[Action], step: &Step) -> Result<bool, AllocError>
        requires actions { All IsProper actions.now }
        requires few { length actions.now ≤ 255 }
        requires place { HasPlace self.old step.now }
        ensures due { (T : List StepValue) → Follows T self.old → IfOk result (λ b. (b ≡ true) ↔ IsDueAfter actions.now T step.now) }
        ensures follows { (T : List StepValue) → Follows T self.old → OnOk result (Follows (T ++ step.now ∷ []) self.new) }
        ensures sizes { (queues lanes : ℕ) → HasSizes self.old queues lanes → OnOk result (HasSizes self.new queues lanes) }
    {
        match step {
            Step::Accept { queue, event, .. } => {
                push_to(&mut self.accepted, *queue, *event)?;
                Ok(true)
            }
            Step::Give {
                lane,
                queue,
                number,
            } => {
                push_to(&mut self.given, *lane, (*queue, *number))?;
                Ok(true)
            }
            Step::Done { lane, outcome } => {
                let owed = self.owed(actions, *lane);
                self.answered[*lane] += 1;
                Ok(is_same(outcome, &owed))
            }
            Step::More { .. } => Ok(false),
            Step::Turned { .. } => Ok(true),
            Step::Bounced { .. } => Ok(true),
            Step::Shut => Ok(true),
        }
    }
}
