//! The events that each queue accepted, by one pass over a log.

ghost use Rattle.std.specs.Prelude.{◌≡◌, ◌<◌, ◌++◌, [], ◌∷◌, List, IfOk, OnOk, Some, length};
ghost use Rattle.evt_types.specs.declared.step.Step.{Step as StepValue};
ghost use Rattle.pipeline_laws.specs.Past.{HoldAccepted, accepted_by_step};

use crate::accepted_log::AcceptedLog;
use crate::past::{empty_lists, push_to};
use evt_types::{Event, Step};
use std::alloc::{AllocError, Global};
use step_log::StepLog;

/// The event that the step accepts, if it does, with its queue.
#[inline(always)]
pub(crate) fn accepted_by(step: &Step) -> Option<(usize, Event)>
    ensures { result ≡ accepted_by_step step.now }
{
    match step {
        Step::Accept { queue, event, .. } => Some((*queue, *event)),
        Step::Give { .. } => None,
        Step::Done { .. } => None,
        Step::More { .. } => None,
        Step::Turned { .. } => None,
        Step::Bounced { .. } => None,
        Step::Shut => None,
    }
}

/// Adds an event that its queue accepted to the queue's list, where there is one.
fn add_event(lists: &mut Vec<Vec<Event>>, queue: usize, event: Event) -> Result<(), AllocError>
    ensures count { OnOk result (length lists.new.items ≡ length lists.old.items) }
    ensures hold { (T : List StepValue) (s : StepValue) → accepted_by_step s ≡ Some (queue, event) → HoldAccepted T lists.old.items → OnOk result (HoldAccepted (T ++ s ∷ []) lists.new.items) }
{
    if queue >= lists.len() {
        return Ok(());
    }
    push_to(lists, queue, event)?;
    Ok(())
}

/// Adds the event that the step accepts to its queue's list, where there is one.
fn add_accepted(lists: &mut Vec<Vec<Event>>, step: &Step) -> Result<(), AllocError>
    ensures count { OnOk result (length lists.new.items ≡ length lists.old.items) }
    ensures hold { (T : List StepValue) → HoldAccepted T lists.old.items → OnOk result (HoldAccepted (T ++ step.now ∷ []) lists.new.items) }
{
    let Some((queue, event)) = accepted_by(step) else {
        return Ok(());
    };
    add_event(lists, queue, event)
}

/// The events that each of so many queues accepted, in order.
pub(crate) fn accepted_events(
    alloc: Global,
    queues: usize,
    log: &[Step],
) -> Result<Vec<Vec<Event>>, AllocError>
    ensures count { IfOk result (λ lists. length lists.items ≡ queues) }
    ensures hold { IfOk result (λ lists. HoldAccepted log.now lists.items) }
{
    let mut lists = empty_lists(alloc, queues)?;
    for step in log {
        add_accepted(&mut lists, step)?;
    }
    Ok(lists)
}

/// The same of the steps of a log that keeps what was accepted.
pub(crate) fn kept_events(
    alloc: Global,
    queues: usize,
    log: &AcceptedLog,
) -> Result<Vec<Vec<Event>>, AllocError>
    ensures count { IfOk result (λ lists. length lists.items ≡ queues) }
    ensures hold { IfOk result (λ lists. HoldAccepted (⟦<AcceptedLog as StepLog>⟧.steps log.now) lists.items) }
{
    let mut lists = empty_lists(alloc, queues)?;
    for (queue, event) in log.kept() {
        add_event(&mut lists, *queue, *event)?;
    }
    Ok(lists)
}
