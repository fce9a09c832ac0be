//! The objects of the report.

ghost use Rattle.std.specs.Prelude.{◌≡◌, ◌++◌, IfOk, OnOk, flat_map, map, string_bytes};
ghost use Rattle.serde_json.specs.View.{view};
ghost use Rattle.json_lines.specs.Lines as lines;

use crate::objects::{event_object, write_line};
use event_answers::{Held, Report, Undelivered, Untaken};
use evt_types::{Delivery, KeptEvent, QueueDraft};
use serde_json::{Value, json};
use std::alloc::{AllocError, Global};

fn waiting_object(alloc: Global, waiting: &Delivery) -> Result<Value, AllocError>
    ensures { IfOk result (λ v. view v ≡ lines.waiting_object waiting.now) }
{
    json!(in alloc; {
        "left": "waiting",
        "number": waiting.number(),
        "queue": waiting.queue(),
    })
}

fn kept_object(alloc: Global, queues: &[QueueDraft], kept: &KeptEvent) -> Result<Value, AllocError>
    ensures { IfOk result (λ v. view v ≡ lines.kept_object queues.now kept.now) }
{
    let event = event_object(alloc, queues, &kept.event)?;
    json!(in alloc; {
        "event": event,
        "left": "kept",
        "number": kept.number,
        "queue": kept.queue,
    })
}

fn undelivered_object(alloc: Global, undelivered: &Undelivered) -> Result<Value, AllocError>
    ensures { IfOk result (λ v. view v ≡ lines.undelivered_object undelivered.now) }
{
    json!(in alloc; {
        "lane": undelivered.lane,
        "left": "undelivered",
        "number": undelivered.number,
        "queue": undelivered.queue,
    })
}

fn held_object(alloc: Global, held: &Held) -> Result<Value, AllocError>
    ensures { IfOk result (λ v. view v ≡ lines.held_object held.now) }
{
    json!(in alloc; {
        "left": "held",
        "number": held.number,
        "port": held.port,
        "queue": held.queue,
    })
}

fn untaken_object(
    alloc: Global,
    queues: &[QueueDraft],
    untaken: &Untaken,
) -> Result<Value, AllocError>
    ensures { IfOk result (λ v. view v ≡ lines.untaken_object queues.now untaken.now) }
{
    let event = event_object(alloc, queues, &untaken.event)?;
    json!(in alloc; {
        "event": event,
        "lane": untaken.lane,
        "left": "untaken",
    })
}

fn pocket_objects(alloc: Global, pockets: &[u64]) -> Result<Vec<Value>, AllocError>
    ensures { IfOk result (λ vs. map view vs.items ≡ map lines.count pockets.now) }
{
    let mut objects = Vec::new(alloc);
    for pocket in pockets {
        objects.push(Value::from(*pocket))?;
    }
    Ok(objects)
}

fn credits_object(alloc: Global, limit: u64, report: &Report) -> Result<Value, AllocError>
    ensures { IfOk result (λ v. view v ≡ lines.credits_object limit report.now) }
{
    let pockets = pocket_objects(alloc, &report.pockets)?;
    json!(in alloc; {
        "credits": {
            "free": report.free,
            "limit": limit,
            "own": report.own,
            "pockets": pockets,
        },
    })
}

fn write_waiting(alloc: Global, all: &[Delivery], out: &mut String) -> Result<(), AllocError>
    ensures { OnOk result (string_bytes out.new ≡ string_bytes out.old ++ flat_map (λ w. lines.line (lines.waiting_object w)) all.now) }
{
    for waiting in all {
        let object = waiting_object(alloc, waiting)?;
        write_line(alloc, &object, out)?;
    }
    Ok(())
}

fn write_kept(
    alloc: Global,
    queues: &[QueueDraft],
    all: &[KeptEvent],
    out: &mut String,
) -> Result<(), AllocError>
    ensures { OnOk result (string_bytes out.new ≡ string_bytes out.old ++ flat_map (λ k. lines.line (lines.kept_object queues.now k)) all.now) }
{
    for kept in all {
        let object = kept_object(alloc, queues, kept)?;
        write_line(alloc, &object, out)?;
    }
    Ok(())
}

fn write_undelivered(alloc: Global, all: &[Undelivered], out: &mut String) -> Result<(), AllocError>
    ensures { OnOk result (string_bytes out.new ≡ string_bytes out.old ++ flat_map (λ u. lines.line (lines.undelivered_object u)) all.now) }
{
    for undelivered in all {
        let object = undelivered_object(alloc, undelivered)?;
        write_line(alloc, &object, out)?;
    }
    Ok(())
}

fn write_held(alloc: Global, all: &[Held], out: &mut String) -> Result<(), AllocError>
    ensures { OnOk result (string_bytes out.new ≡ string_bytes out.old ++ flat_map (λ h. lines.line (lines.held_object h)) all.now) }
{
    for held in all {
        let object = held_object(alloc, held)?;
        write_line(alloc, &object, out)?;
    }
    Ok(())
}

fn write_untaken(
    alloc: Global,
    queues: &[QueueDraft],
    all: &[Untaken],
    out: &mut String,
) -> Result<(), AllocError>
    ensures { OnOk result (string_bytes out.new ≡ string_bytes out.old ++ flat_map (λ u. lines.line (lines.untaken_object queues.now u)) all.now) }
{
    for untaken in all {
        let object = untaken_object(alloc, queues, untaken)?;
        write_line(alloc, &object, out)?;
    }
    Ok(())
}

fn write_credits(
    alloc: Global,
    limit: u64,
    report: &Report,
    out: &mut String,
) -> Result<(), AllocError>
    ensures { OnOk result (string_bytes out.new ≡ string_bytes out.old ++ lines.line (lines.credits_object limit report.now)) }
{
    let object = credits_object(alloc, limit, report)?;
    write_line(alloc, &object, out)
}

/// The lines of the report of a device with this limit.
pub(crate) fn write_report(
    alloc: Global,
    queues: &[QueueDraft],
    limit: u64,
    report: &Report,
    out: &mut String,
) -> Result<(), AllocError>
    ensures { OnOk result (string_bytes out.new ≡ string_bytes out.old ++ lines.report_text queues.now limit report.now) }
{
    write_waiting(alloc, &report.waiting, out)?;
    write_kept(alloc, queues, &report.kept, out)?;
    write_undelivered(alloc, &report.undelivered, out)?;
    write_held(alloc, &report.held, out)?;
    write_untaken(alloc, queues, &report.untaken, out)?;
    write_credits(alloc, limit, report, out)
}
