//! What a single step did.

ghost use Rattle.std.specs.Prelude.{◌≡◌, ◌+◌, ◌<◌, ◌≤◌, ◌^◌, List, length};
ghost use Rattle.evt_types.specs.declared.event.Event.{Event};
ghost use Rattle.transcripts.specs.Transcript as transcripts;
ghost use Rattle.judge_app.specs.Steps as steps;

use crate::reason::Gift;
use evt_types::{Event, Outcome, Source, Step};

/// The event that the queue accepts with the step, if it accepts one.
pub(crate) fn accepted_in(of: usize, step: &Step) -> Option<Event>
    ensures { result ≡ transcripts.accepted_in of step.now }
{
    match step {
        Step::Accept { queue, event, .. } => { if *queue == of { Some(*event) } else { None } }
        Step::Give { .. }
        | Step::Done { .. }
        | Step::More { .. }
        | Step::Turned { .. }
        | Step::Bounced { .. }
        | Step::Shut => None,
    }
}

/// The queue and the number from which the step accepts an event, if it accepts one from a number.
pub(crate) fn source_of(step: &Step) -> Option<(usize, u64)>
    ensures { result ≡ steps.source_of step.now }
{
    match step {
        Step::Accept { source, .. } => match source {
            Source::New { .. } => None,
            Source::Of { queue, number } => Some((*queue, *number)),
        },
        Step::Give { .. }
        | Step::Done { .. }
        | Step::More { .. }
        | Step::Turned { .. }
        | Step::Bounced { .. }
        | Step::Shut => None,
    }
}

/// What the step gives, if it gives something.
pub(crate) fn gift_of(step: &Step) -> Option<Gift>
    ensures { result ≡ steps.gift_of step.now }
{
    match step {
        Step::Give {
            lane,
            queue,
            number,
        } => Some(Gift {
            lane: *lane,
            queue: *queue,
            number: *number,
        }),
        Step::Accept { .. }
        | Step::Done { .. }
        | Step::More { .. }
        | Step::Turned { .. }
        | Step::Bounced { .. }
        | Step::Shut => None,
    }
}

/// The lane with whose step an event is passed on, if one is.
pub(crate) fn passer_of(step: &Step) -> Option<usize>
    ensures { result ≡ steps.passer_of step.now }
{
    match step {
        Step::Done { lane, outcome } => match outcome {
            Outcome::Forwarded(_) => Some(*lane),
            Outcome::Released => None,
        },
        Step::More { lane, .. } => Some(*lane),
        Step::Accept { .. }
        | Step::Give { .. }
        | Step::Turned { .. }
        | Step::Bounced { .. }
        | Step::Shut => None,
    }
}

/// The answer of the lane with the step, if it answers.
pub(crate) fn answer_of(of: usize, step: &Step) -> Option<Outcome>
    ensures { result ≡ transcripts.answer_of of step.now }
{
    match step {
        Step::Done { lane, outcome } => { if *lane == of { Some(*outcome) } else { None } }
        Step::Accept { .. }
        | Step::Give { .. }
        | Step::More { .. }
        | Step::Turned { .. }
        | Step::Bounced { .. }
        | Step::Shut => None,
    }
}

/// The queue and the number that the lane is given with the step, if it is given one.
pub(crate) fn given_to(of: usize, step: &Step) -> Option<(usize, u64)>
    ensures { result ≡ transcripts.given_to of step.now }
{
    match gift_of(step) {
        Some(gift) => {
            if gift.lane == of {
                Some((gift.queue, gift.number))
            } else {
                None
            }
        }
        None => None,
    }
}

/// The number of the queue that is given with the step, if one is given.
pub(crate) fn given_of(of: usize, step: &Step) -> Option<u64>
    ensures { result ≡ transcripts.given_of of step.now }
{
    match gift_of(step) {
        Some(gift) => {
            if gift.queue == of {
                Some(gift.number)
            } else {
                None
            }
        }
        None => None,
    }
}

/// The number of the queue from which an event is accepted with the step, if one is.
pub(crate) fn source_in(of: usize, step: &Step) -> Option<u64>
    ensures { result ≡ transcripts.source_in of step.now }
{
    match source_of(step) {
        Some((queue, number)) => { if queue == of { Some(number) } else { None } }
        None => None,
    }
}

/// How many events are added beside what the lane answers next once the step is done, if there were so many before it.
pub(crate) fn extras_after(of: usize, count: usize, step: &Step) -> usize
    requires { count < 2 ^ 63 }
    ensures value { (es : List Event) → length es ≡ count → result ≡ length (transcripts.add_more of es step.now) }
    ensures few { result ≤ count + 1 }
{
    match step {
        Step::More { lane, .. } => { if *lane == of { count + 1 } else { count } }
        Step::Done { lane, .. } => { if *lane == of { 0 } else { count } }
        Step::Accept { .. }
        | Step::Give { .. }
        | Step::Turned { .. }
        | Step::Bounced { .. }
        | Step::Shut => count,
    }
}

/// Whether the queue accepts an event with the step.
pub(crate) fn accepts(of: usize, step: &Step) -> bool
    ensures { result ≡ steps.accepts of step.now }
{
    accepted_in(of, step).is_some()
}

/// Whether the number of the queue is given with the step.
pub(crate) fn gives(queue: usize, number: u64, step: &Step) -> bool
    ensures { result ≡ steps.gives queue number step.now }
{
    given_of(queue, step) == Some(number)
}

/// Whether an event is accepted from the number of the queue with the step.
pub(crate) fn takes(queue: usize, number: u64, step: &Step) -> bool
    ensures { result ≡ steps.takes queue number step.now }
{
    source_in(queue, step) == Some(number)
}

/// Whether the step shuts the device.
pub(crate) fn is_shut(step: &Step) -> bool
    ensures { result ≡ transcripts.is_shut step.now }
{
    match step {
        Step::Shut => true,
        Step::Accept { .. }
        | Step::Give { .. }
        | Step::Done { .. }
        | Step::More { .. }
        | Step::Turned { .. }
        | Step::Bounced { .. } => false,
    }
}
