//! What was counted of a run as JSON, one object a line.

ghost use Rattle.std.specs.Prelude.{◌≡◌, ◌++◌, false, IfOk, OnOk, string_bytes};
ghost use Rattle.serde_json.specs.View.{view};
ghost use Rattle.serde_json.specs.Written.{has_float};
ghost use Rattle.run_counts.specs.CountsJson as texts;

use crate::looks::PortWork;
use crate::text::{Counts, QueueWork};
use event_ports::PortCounts;
use serde_json::{Value, json};
use std::alloc::{AllocError, Global};

/// The line of an object.
fn write_line(alloc: Global, object: &Value, out: &mut String) -> Result<(), AllocError>
    requires { has_float (view object.now) ≡ false }
    ensures { OnOk result (string_bytes out.new ≡ string_bytes out.old ++ texts.line (view object.now)) }
{
    let text = object.to_string(alloc)?;
    out.push_str(&text)?;
    out.push_str("\n")
}

/// What was counted of a queue.
fn queue_object(alloc: Global, work: &QueueWork) -> Result<Value, AllocError>
    ensures { IfOk result (λ v. view v ≡ texts.queue_object work.now) }
{
    json!(in alloc; {
        "came": work.came,
        "given": work.given,
        "queue": work.queue,
        "stats": "queue",
        "waiting_most": work.most,
    })
}

/// What a port was refused, by cause.
fn refusals_object(alloc: Global, counts: &PortCounts) -> Result<Value, AllocError>
    ensures { IfOk result (λ v. view v ≡ texts.refusals_object counts.now) }
{
    json!(in alloc; {
        "Backpressure": counts.backpressure,
        "Full": counts.full,
        "Raced": counts.raced,
        "Stopped": counts.stopped,
    })
}

/// What the producer did.
fn producer_object(alloc: Global, work: &PortWork) -> Result<Value, AllocError>
    ensures { IfOk result (λ v. view v ≡ texts.producer_object work.now) }
{
    let refused = refusals_object(alloc, &work.counts)?;
    json!(in alloc; {
        "brought": work.counts.enqueued,
        "port": work.port,
        "refused": refused,
        "stats": "producer",
    })
}

/// What a worker did.
fn worker_object(alloc: Global, work: &PortWork) -> Result<Value, AllocError>
    ensures { IfOk result (λ v. view v ≡ texts.worker_object work.now) }
{
    let refused = refusals_object(alloc, &work.counts)?;
    json!(in alloc; {
        "handled": work.counts.dequeued,
        "in_vain": work.looks.vain,
        "looks": work.looks.all,
        "port": work.port,
        "refused": refused,
        "stats": "worker",
    })
}

/// What a port's thread did.
fn port_object(alloc: Global, work: &PortWork) -> Result<Value, AllocError>
    ensures { IfOk result (λ v. view v ≡ texts.work_object_of work.now.port work.now) }
{
    if work.port == 0 {
        return producer_object(alloc, work);
    }
    worker_object(alloc, work)
}

fn scheduler_object(alloc: Global, sweeps: u64) -> Result<Value, AllocError>
    ensures { IfOk result (λ v. view v ≡ texts.scheduler_object sweeps) }
{
    json!(in alloc; {"stats": "scheduler", "sweeps": sweeps})
}

/// The lines of the queues.
fn write_queues(alloc: Global, works: &[QueueWork], out: &mut String) -> Result<(), AllocError>
    ensures { OnOk result (string_bytes out.new ≡ string_bytes out.old ++ texts.queue_object_lines works.now) }
{
    for work in works {
        let object = queue_object(alloc, work)?;
        write_line(alloc, &object, out)?;
    }
    Ok(())
}

/// The line of a port.
fn write_port(alloc: Global, work: &PortWork, out: &mut String) -> Result<(), AllocError>
    ensures { OnOk result (string_bytes out.new ≡ string_bytes out.old ++ texts.line (texts.port_object work.now)) }
{
    let object = port_object(alloc, work)?;
    write_line(alloc, &object, out)
}

/// The lines of the ports.
fn write_ports(alloc: Global, works: &[PortWork], out: &mut String) -> Result<(), AllocError>
    ensures { OnOk result (string_bytes out.new ≡ string_bytes out.old ++ texts.port_object_lines works.now) }
{
    for work in works {
        write_port(alloc, work, out)?;
    }
    Ok(())
}

/// What was counted as JSON: a line of each queue, of each port, and of the sweeps.
pub fn write_counts_json(alloc: Global, counts: &Counts, out: &mut String) -> Result<(), AllocError>
    ensures { OnOk result (string_bytes out.new ≡ string_bytes out.old ++ texts.counts_json counts.now) }
{
    write_queues(alloc, &counts.queues, out)?;
    write_ports(alloc, &counts.threads.ports, out)?;
    let object = scheduler_object(alloc, counts.threads.sweeps)?;
    write_line(alloc, &object, out)?;
    Ok(())
}
