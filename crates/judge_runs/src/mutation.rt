//! Changes of transcripts.

ghost use Rattle.std.specs.Prelude.{◌<◌, ◌^◌};

use crate::drawing::Drawing;
use evt_types::{Event, Op, Outcome, Source, Step};
use std::alloc::{AllocError, Global};

/// A kind of change.
#[derive(Clone, Copy)]
pub(crate) enum Change {
    Drop,
    Double,
    Exchange,
    Flow,
    Queue,
    Lane,
    Number,
    Payload,
    Operation,
    Shut,
}

/// Each kind with its name.
pub(crate) static CHANGES: [(Change, &str); 10] = [
    (Change::Drop, "a step is left out"),
    (Change::Double, "a step stands twice"),
    (Change::Exchange, "two steps change places"),
    (Change::Flow, "an event has another flow"),
    (Change::Queue, "a step has another queue"),
    (Change::Lane, "a step has another lane"),
    (Change::Number, "a step has another number"),
    (Change::Payload, "an event has another payload"),
    (Change::Operation, "an event has another operation"),
    (Change::Shut, "a Shut stands among the steps"),
];

/// The event that a step names.
fn event_of(step: &Step) -> Option<Event> {
    match step {
        Step::Accept { event, .. } => Some(*event),
        Step::Done { outcome, .. } => match outcome {
            Outcome::Forwarded(event) => Some(*event),
            Outcome::Released => None,
        },
        Step::More { event, .. } => Some(*event),
        Step::Turned { event, .. } => Some(*event),
        Step::Give { .. } | Step::Bounced { .. } | Step::Shut => None,
    }
}

/// The step with another event, where it names one.
fn with_event(step: Step, event: Event) -> Step {
    match step {
        Step::Accept { queue, source, .. } => Step::Accept {
            queue,
            event,
            source,
        },
        Step::Done { lane, outcome } => match outcome {
            Outcome::Forwarded(_) => Step::Done {
                lane,
                outcome: Outcome::Forwarded(event),
            },
            Outcome::Released => step,
        },
        Step::More { lane, .. } => Step::More { lane, event },
        Step::Turned { lane, .. } => Step::Turned { lane, event },
        Step::Give { .. } | Step::Bounced { .. } | Step::Shut => step,
    }
}

/// The step with another lane, where it names one.
fn with_lane(step: Step, lane: usize) -> Step {
    match step {
        Step::Accept {
            queue,
            event,
            source,
        } => Step::Accept {
            queue,
            event,
            source: match source {
                Source::New { .. } => Source::New { lane },
                Source::Of { queue, number } => Source::Of { queue, number },
            },
        },
        Step::Give { queue, number, .. } => Step::Give {
            lane,
            queue,
            number,
        },
        Step::Done { outcome, .. } => Step::Done { lane, outcome },
        Step::More { event, .. } => Step::More { lane, event },
        Step::Turned { event, .. } => Step::Turned { lane, event },
        Step::Bounced { .. } => Step::Bounced { lane },
        Step::Shut => Step::Shut,
    }
}

/// The step with another queue, where it names one.
fn with_queue(step: Step, queue: usize) -> Step {
    match step {
        Step::Accept { event, source, .. } => Step::Accept {
            queue,
            event,
            source,
        },
        Step::Give { lane, number, .. } => Step::Give {
            lane,
            queue,
            number,
        },
        _ => step,
    }
}

/// The step with another number, where it names one.
fn with_number(step: Step, number: u64) -> Step {
    match step {
        Step::Accept {
            queue,
            event,
            source,
        } => Step::Accept {
            queue,
            event,
            source: match source {
                Source::New { lane } => Source::New { lane },
                Source::Of { queue, .. } => Source::Of { queue, number },
            },
        },
        Step::Give { lane, queue, .. } => Step::Give {
            lane,
            queue,
            number,
        },
        _ => step,
    }
}

/// An operation.
fn op(drawing: &mut Drawing) -> Op {
    match drawing.below(4) {
        0 => Op::New,
        1 => Op::Forward,
        2 => Op::Release,
        _ => Op::ForwardMore,
    }
}

/// The event with another operation, flow and payload.
fn remade(event: Event, op: Op, flow: u32, payload: u64) -> Event
    requires { flow < 2 ^ 20 }
{
    Event {
        op,
        flow,
        payload,
        queue: event.queue,
        priority: event.priority,
        sub_type: event.sub_type,
        event_type: event.event_type,
        impl_opaque: event.impl_opaque,
    }
}

/// The event, changed.
fn changed_event(change: Change, event: Event, drawing: &mut Drawing) -> Event {
    match change {
        Change::Flow => {
            let flow = u32::from(drawing.byte_below(4));
            remade(event, event.op, flow, event.payload)
        }
        Change::Payload => {
            let payload = drawing.below(1000) as u64;
            remade(event, event.op, event.flow, payload)
        }
        Change::Operation => {
            let op = op(drawing);
            remade(event, op, event.flow, event.payload)
        }
        _ => event,
    }
}

/// The step, changed, on a device of about so many lanes and queues.
fn changed_step(change: Change, step: Step, drawing: &mut Drawing) -> Step {
    match change {
        Change::Lane => with_lane(step, drawing.below(5)),
        Change::Queue => with_queue(step, drawing.below(4)),
        Change::Number => with_number(step, drawing.below(8) as u64),
        _ => match event_of(&step) {
            Some(event) => with_event(step, changed_event(change, event, drawing)),
            None => step,
        },
    }
}

/// What stands in the place of one step.
fn push_changed(
    steps: &mut Vec<Step>,
    change: Change,
    step: Step,
    drawing: &mut Drawing,
) -> Result<(), AllocError> {
    match change {
        Change::Drop => {}
        Change::Double => {
            steps.push(step)?;
            steps.push(step)?;
        }
        Change::Shut => {
            steps.push(step)?;
            steps.push(Step::Shut)?;
        }
        _ => steps.push(changed_step(change, step, drawing))?,
    }
    Ok(())
}

/// The steps with one change somewhere.
pub(crate) fn changed(
    alloc: Global,
    steps: &[Step],
    change: Change,
    drawing: &mut Drawing,
) -> Result<Vec<Step>, AllocError> {
    let place = drawing.below(steps.len());
    let mut result = Vec::new(alloc);
    for (at, step) in steps.iter().enumerate() {
        if at == place {
            push_changed(&mut result, change, *step, drawing)?;
        } else {
            result.push(*step)?;
        }
    }
    if matches!(change, Change::Exchange) {
        let other = drawing.below(result.len());
        if place < result.len() && other < result.len() {
            result.swap(place, other);
        }
    }
    Ok(result)
}
