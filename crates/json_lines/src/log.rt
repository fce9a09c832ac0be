//! The objects of the log's steps.

ghost use Rattle.std.specs.Prelude.{◌≡◌, ◌++◌, [], IfOk, OnOk, All, length, string_bytes};
ghost use Rattle.serde_json.specs.View.{view};
ghost use Rattle.evt_types.specs.declared.step.Outcome.TheVariants.{Forwarded};
ghost use Rattle.play_text.specs.Text.{IsInRange};
ghost use Rattle.json_lines.specs.Lines as lines;

use crate::objects::{event_object, write_line};
use evt_types::{Event, Outcome, QueueDraft, Source, Step};
use play_text::Counts;
use serde_json::{Value, json};
use std::alloc::{AllocError, Global};

fn source_object(alloc: Global, source: Source) -> Result<Value, AllocError>
    ensures { IfOk result (λ v. view v ≡ lines.source_object source) }
{
    match source {
        Source::New { lane } => json!(in alloc; {"lane": lane}),
        Source::Of { queue, number } => json!(in alloc; {"number": number, "queue": queue}),
    }
}

fn accept_object(
    alloc: Global,
    queues: &[QueueDraft],
    queue: usize,
    number: u64,
    event: &Event,
    source: Source,
) -> Result<Value, AllocError>
    ensures { IfOk result (λ v. view v ≡ lines.accept_object queues.now queue number event.now source) }
{
    let event = event_object(alloc, queues, event)?;
    let source = source_object(alloc, source)?;
    json!(in alloc; {
        "event": event,
        "number": number,
        "queue": queue,
        "source": source,
        "step": "accept",
    })
}

fn give_object(alloc: Global, lane: usize, queue: usize, number: u64) -> Result<Value, AllocError>
    ensures { IfOk result (λ v. view v ≡ lines.give_object lane queue number) }
{
    json!(in alloc; {
        "lane": lane,
        "number": number,
        "queue": queue,
        "step": "give",
    })
}

fn forward_object(
    alloc: Global,
    queues: &[QueueDraft],
    lane: usize,
    event: &Event,
) -> Result<Value, AllocError>
    ensures { IfOk result (λ v. view v ≡ lines.done_object queues.now lane (Forwarded event.now)) }
{
    let event = event_object(alloc, queues, event)?;
    json!(in alloc; {
        "event": event,
        "lane": lane,
        "outcome": "forward",
        "step": "done",
    })
}

fn done_object(
    alloc: Global,
    queues: &[QueueDraft],
    lane: usize,
    outcome: &Outcome,
) -> Result<Value, AllocError>
    ensures { IfOk result (λ v. view v ≡ lines.done_object queues.now lane outcome.now) }
{
    match outcome {
        Outcome::Released => {
            json!(in alloc; {"lane": lane, "outcome": "release", "step": "done"})
        }
        Outcome::Forwarded(event) => forward_object(alloc, queues, lane, event),
    }
}

/// What befell an event of the lane.
fn event_step_object(
    alloc: Global,
    queues: &[QueueDraft],
    name: &str,
    lane: usize,
    event: &Event,
) -> Result<Value, AllocError>
    ensures { IfOk result (λ v. view v ≡ lines.event_step_object queues.now name.now lane event.now) }
{
    let event = event_object(alloc, queues, event)?;
    json!(in alloc; {
        "event": event,
        "lane": lane,
        "step": name,
    })
}

fn bounced_object(alloc: Global, lane: usize) -> Result<Value, AllocError>
    ensures { IfOk result (λ v. view v ≡ lines.bounced_object lane) }
{
    json!(in alloc; {"lane": lane, "step": "bounced"})
}

/// The object of a step; `number` is that of an accepted event.
fn step_object(
    alloc: Global,
    queues: &[QueueDraft],
    number: u64,
    step: &Step,
) -> Result<Value, AllocError>
    ensures { IfOk result (λ v. view v ≡ lines.step_object queues.now number step.now) }
{
    match step {
        Step::Accept {
            queue,
            event,
            source,
        } => accept_object(alloc, queues, *queue, number, event, *source),
        Step::Give {
            lane,
            queue,
            number,
        } => give_object(alloc, *lane, *queue, *number),
        Step::Done { lane, outcome } => done_object(alloc, queues, *lane, outcome),
        Step::More { lane, event } => event_step_object(alloc, queues, "more", *lane, event),
        Step::Turned { lane, event } => event_step_object(alloc, queues, "turned", *lane, event),
        Step::Bounced { lane } => bounced_object(alloc, *lane),
        Step::Shut => json!(in alloc; {"step": "shut"}),
    }
}

fn write_step(
    alloc: Global,
    queues: &[QueueDraft],
    number: u64,
    step: &Step,
    out: &mut String,
) -> Result<(), AllocError>
    ensures { OnOk result (string_bytes out.new ≡ string_bytes out.old ++ lines.step_line queues.now number step.now) }
{
    let object = step_object(alloc, queues, number, step)?;
    write_line(alloc, &object, out)
}

/// The lines of the log; each accepted event with its number.
pub(crate) fn write_log(
    alloc: Global,
    queues: &[QueueDraft],
    log: &[Step],
    out: &mut String,
) -> Result<(), AllocError>
    requires { All (IsInRange (length queues.now)) log.now }
    ensures { OnOk result (string_bytes out.new ≡ string_bytes out.old ++ lines.lines_after queues.now [] log.now) }
{
    let mut counts = Counts::none(alloc, queues.len())?;
    for step in log {
        let number = counts.count(step);
        write_step(alloc, queues, number, step, out)?;
    }
    Ok(())
}
