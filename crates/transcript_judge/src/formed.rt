//! Whether a step names what is there.

ghost use Rattle.std.specs.Prelude.{◌≡◌, nat_lt, length};
ghost use Rattle.evt_types.specs.Operation.{is_more_op, is_new_op, passes_on};
ghost use Rattle.transcript_judge.specs.Formed.{formed, formed_accept, formed_outcome, is_entry, is_forward_op};

use evt_types::{Event, Op, Outcome, Shape, Source, Step};

/// Whether it is NEW.
fn is_new(op: Op) -> bool
    ensures { result ≡ is_new_op op }
{
    match op {
        Op::New => true,
        Op::Forward | Op::Release | Op::ForwardMore => false,
    }
}

/// Whether it is FORWARD.
fn is_forward(op: Op) -> bool
    ensures { result ≡ is_forward_op op }
{
    match op {
        Op::Forward => true,
        Op::New | Op::Release | Op::ForwardMore => false,
    }
}

/// Whether it is FORWARD_MORE.
fn is_more(op: Op) -> bool
    ensures { result ≡ is_more_op op }
{
    match op {
        Op::ForwardMore => true,
        Op::New | Op::Forward | Op::Release => false,
    }
}

/// Whether there is such a port.
fn has_port(shape: &Shape, port: usize) -> bool
    ensures { result ≡ nat_lt port (length shape.now.ports) }
{
    port < shape.ports().len()
}

/// Whether there is such a queue.
fn has_queue(shape: &Shape, queue: usize) -> bool
    ensures { result ≡ nat_lt queue (length shape.now.queues) }
{
    queue < shape.queues().len()
}

/// Whether the queue is there and is the event's own.
fn is_own(shape: &Shape, queue: usize, event: &Event) -> bool
    ensures { result ≡ is_entry shape.now queue event.now }
{
    has_queue(shape, queue) && usize::from(event.queue) == queue
}

/// Whether the event is accepted from something that is there, with the operation that fits.
fn is_accept(shape: &Shape, queue: usize, event: &Event, source: Source) -> bool
    ensures { result ≡ formed_accept shape.now queue event.now source }
{
    match source {
        Source::New { lane } => {
            is_own(shape, queue, event) && is_new(event.op) && has_port(shape, lane)
        }
        Source::Of { queue: from, .. } => {
            is_own(shape, queue, event)
                && (is_forward(event.op) || is_more(event.op))
                && has_queue(shape, from)
        }
    }
}

/// Whether what it is forwarded as goes to a queue that is there.
fn is_outcome(shape: &Shape, outcome: &Outcome) -> bool
    ensures { result ≡ formed_outcome shape.now outcome.now }
{
    match outcome {
        Outcome::Forwarded(event) => {
            has_queue(shape, usize::from(event.queue)) && is_forward(event.op)
        }
        Outcome::Released => true,
    }
}

/// Whether the step names queues and lanes that are there, and has the operation that fits.
pub(crate) fn is_formed(shape: &Shape, step: &Step) -> bool
    ensures { result ≡ formed shape.now step.now }
{
    match step {
        Step::Accept {
            queue,
            event,
            source,
        } => is_accept(shape, *queue, event, *source),
        Step::Give { lane, queue, .. } => *lane < shape.lanes() && has_queue(shape, *queue),
        Step::Done { lane, outcome } => *lane < shape.lanes() && is_outcome(shape, outcome),
        Step::More { lane, event } => {
            *lane < shape.lanes() && has_queue(shape, usize::from(event.queue)) && is_more(event.op)
        }
        Step::Turned { lane, event } => {
            has_port(shape, *lane) && has_queue(shape, usize::from(event.queue)) && is_new(event.op)
        }
        Step::Bounced { lane } => *lane < shape.lanes(),
        Step::Shut => true,
    }
}
