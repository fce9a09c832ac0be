//! The objects of the answers.

ghost use Rattle.std.specs.Prelude.{◌≡◌, ◌++◌, IfOk, OnOk, flat_map, map, string_bytes};
ghost use Rattle.serde_json.specs.View.{view};
ghost use Rattle.event_answers.specs.declared.answer.Refused.TheVariants.{Backpressure};
ghost use Rattle.json_lines.specs.Lines as lines;

use crate::objects::{event_object, op_name, write_line};
use event_answers::{Behind, Refused, Swept};
use evt_types::{Delivery, Op, QueueDraft};
use play_text::Answer;
use serde_json::{Value, json};
use std::alloc::{AllocError, Global};

fn enqueued_object(alloc: Global, port: usize, op: Op, outcome: &str) -> Result<Value, AllocError>
    ensures { IfOk result (λ v. view v ≡ lines.enqueued_object port op outcome.now) }
{
    json!(in alloc; {
        "answer": "enqueue",
        "op": op_name(op),
        "outcome": outcome,
        "port": port,
    })
}

fn backpressure_object(alloc: Global, port: usize, op: Op, free: u64) -> Result<Value, AllocError>
    ensures { IfOk result (λ v. view v ≡ lines.refused_object port op (Backpressure free)) }
{
    json!(in alloc; {
        "answer": "enqueue",
        "free": free,
        "op": op_name(op),
        "outcome": "Backpressure",
        "port": port,
    })
}

fn refused_object(alloc: Global, port: usize, op: Op, refused: Refused) -> Result<Value, AllocError>
    ensures { IfOk result (λ v. view v ≡ lines.refused_object port op refused) }
{
    match refused {
        Refused::Stopped => enqueued_object(alloc, port, op, "Stopped"),
        Refused::BadQueue => enqueued_object(alloc, port, op, "BadQueue"),
        Refused::NothingHeld => enqueued_object(alloc, port, op, "NothingHeld"),
        Refused::TooMany => enqueued_object(alloc, port, op, "TooMany"),
        Refused::Backpressure { free } => backpressure_object(alloc, port, op, free),
        Refused::Raced { .. } => enqueued_object(alloc, port, op, "Raced"),
        Refused::Full => enqueued_object(alloc, port, op, "Full"),
    }
}

fn outcome_object(
    alloc: Global,
    port: usize,
    op: Op,
    outcome: Result<(), Refused>,
) -> Result<Value, AllocError>
    ensures { IfOk result (λ v. view v ≡ lines.outcome_object port op outcome) }
{
    match outcome {
        Ok(()) => enqueued_object(alloc, port, op, "ok"),
        Err(refused) => refused_object(alloc, port, op, refused),
    }
}

fn delivery_object(
    alloc: Global,
    queues: &[QueueDraft],
    delivery: &Delivery,
) -> Result<Value, AllocError>
    ensures { IfOk result (λ v. view v ≡ lines.delivery_object queues.now delivery.now) }
{
    let event = event_object(alloc, queues, &delivery.event())?;
    json!(in alloc; {
        "event": event,
        "number": delivery.number(),
        "queue": delivery.queue(),
    })
}

fn delivery_objects(
    alloc: Global,
    queues: &[QueueDraft],
    deliveries: &[Delivery],
) -> Result<Vec<Value>, AllocError>
    ensures { IfOk result (λ vs. map view vs.items ≡ map (lines.delivery_object queues.now) deliveries.now) }
{
    let mut objects = Vec::new(alloc);
    for delivery in deliveries {
        objects.push(delivery_object(alloc, queues, delivery)?)?;
    }
    Ok(objects)
}

fn dequeued_object(
    alloc: Global,
    queues: &[QueueDraft],
    port: usize,
    deliveries: &[Delivery],
) -> Result<Value, AllocError>
    ensures { IfOk result (λ v. view v ≡ lines.dequeued_object queues.now port deliveries.now) }
{
    let events = delivery_objects(alloc, queues, deliveries)?;
    json!(in alloc; {
        "answer": "dequeue",
        "events": events,
        "outcome": "ok",
        "port": port,
    })
}

fn behind_object(alloc: Global, port: usize, behind: Behind) -> Result<Value, AllocError>
    ensures { IfOk result (λ v. view v ≡ lines.behind_object port behind) }
{
    json!(in alloc; {
        "answer": "dequeue",
        "outcome": "Behind",
        "port": port,
        "released": behind.released,
    })
}

fn swept_object(alloc: Global, swept: Swept) -> Result<Value, AllocError>
    ensures { IfOk result (λ v. view v ≡ lines.swept_object swept) }
{
    json!(in alloc; {
        "answer": "sweep",
        "bounced": swept.bounced,
        "given": swept.given,
        "taken": swept.taken,
    })
}

fn answer_object(alloc: Global, queues: &[QueueDraft], answer: &Answer) -> Result<Value, AllocError>
    ensures { IfOk result (λ v. view v ≡ lines.answer_object queues.now answer.now) }
{
    match answer {
        Answer::Enqueued { port, op, outcome } => outcome_object(alloc, *port, *op, *outcome),
        Answer::Dequeued { port, outcome } => match outcome {
            Ok(deliveries) => dequeued_object(alloc, queues, *port, deliveries),
            Err(behind) => behind_object(alloc, *port, *behind),
        },
        Answer::Swept(swept) => swept_object(alloc, *swept),
        Answer::Shut => json!(in alloc; {"answer": "shut"}),
    }
}

/// The lines of all answers.
pub(crate) fn write_answers(
    alloc: Global,
    queues: &[QueueDraft],
    answers: &[Answer],
    out: &mut String,
) -> Result<(), AllocError>
    ensures { OnOk result (string_bytes out.new ≡ string_bytes out.old ++ flat_map (lines.answer_line queues.now) answers.now) }
{
    for answer in answers {
        let object = answer_object(alloc, queues, answer)?;
        write_line(alloc, &object, out)?;
    }
    Ok(())
}
