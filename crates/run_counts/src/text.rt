//! The text of what was counted of a run.

ghost use Rattle.std.specs.Prelude.{◌≡◌, ◌++◌, OnOk, string_bytes};
ghost use Rattle.run_counts.specs.CountsText as texts;

use crate::looks::{Looks, PortWork, ThreadWork};
use arrayvec::ArrayVec;
use event_ports::PortCounts;
use evt_types::MAX_QUEUES;
use std::alloc::AllocError;

/// What was counted of a queue.
#[derive(Clone, Copy, Debug, PartialEq, Eq, Default)]
pub struct QueueWork {
    pub queue: usize,
    /// How many events came: it accepted them.
    pub came: u64,
    /// How many of them were given.
    pub given: u64,
    /// How many waited at most, after any step.
    pub most: u64,
}

/// What was counted of a run.
#[derive(Drop)]
pub struct Counts {
    /// By queue.
    pub queues: ArrayVec<QueueWork, MAX_QUEUES>,
    /// By port, and of the scheduler.
    pub threads: ThreadWork,
}

/// The share of a part, in hundredths, rounded down.
fn percent(part: u64, whole: u64) -> u64
    ensures { result ≡ texts.percent part whole }
{
    part.saturating_mul(100).checked_div(whole).unwrap_or(0)
}

/// The line of a queue.
fn write_queue(work: &QueueWork, out: &mut String) -> Result<(), AllocError>
    ensures { OnOk result (string_bytes out.new ≡ string_bytes out.old ++ texts.queue_line work.now) }
{
    let QueueWork {
        queue,
        came,
        given,
        most,
    } = *work;
    write!(
        out,
        "queue {queue}: came {came}, given {given}, waiting at most {most}\n"
    )
}

/// The lines of the queues.
fn write_queues(works: &[QueueWork], out: &mut String) -> Result<(), AllocError>
    ensures { OnOk result (string_bytes out.new ≡ string_bytes out.old ++ texts.queue_lines works.now) }
{
    for work in works {
        write_queue(work, out)?;
    }
    Ok(())
}

/// What a port was refused, and the end of its line.
fn write_refusals(counts: &PortCounts, out: &mut String) -> Result<(), AllocError>
    ensures { OnOk result (string_bytes out.new ≡ string_bytes out.old ++ texts.refusals counts.now) }
{
    let PortCounts {
        backpressure,
        raced,
        full,
        stopped,
        ..
    } = *counts;
    write!(
        out,
        "refused: Backpressure {backpressure}, Raced {raced}, Full {full}, Stopped {stopped}\n"
    )?;
    Ok(())
}

/// What the producer did.
fn write_producer(work: &PortWork, out: &mut String) -> Result<(), AllocError>
    ensures { OnOk result (string_bytes out.new ≡ string_bytes out.old ++ texts.producer_work work.now) }
{
    let enqueued = work.counts.enqueued;
    write!(out, "producer: brought {enqueued}, ")
}

/// What a worker did.
fn write_worker(work: &PortWork, out: &mut String) -> Result<(), AllocError>
    ensures { OnOk result (string_bytes out.new ≡ string_bytes out.old ++ texts.worker_work work.now) }
{
    let dequeued = work.counts.dequeued;
    let PortWork { port, looks, .. } = *work;
    let Looks { all, vain } = looks;
    let share = percent(vain, all);
    write!(
        out,
        "worker {port}: handled {dequeued}, looks {all}, in vain {vain} ({share} %), "
    )?;
    Ok(())
}

/// What a port's thread did.
fn write_work(work: &PortWork, out: &mut String) -> Result<(), AllocError>
    ensures { OnOk result (string_bytes out.new ≡ string_bytes out.old ++ texts.work_of work.now.port work.now) }
{
    if work.port == 0 {
        return write_producer(work, out);
    }
    write_worker(work, out)
}

/// The line of a port.
fn write_port(work: &PortWork, out: &mut String) -> Result<(), AllocError>
    ensures { OnOk result (string_bytes out.new ≡ string_bytes out.old ++ texts.port_line work.now) }
{
    write_work(work, out)?;
    write_refusals(&work.counts, out)?;
    Ok(())
}

/// The lines of the ports.
fn write_ports(works: &[PortWork], out: &mut String) -> Result<(), AllocError>
    ensures { OnOk result (string_bytes out.new ≡ string_bytes out.old ++ texts.port_lines works.now) }
{
    for work in works {
        write_port(work, out)?;
    }
    Ok(())
}

/// The text of what was counted: a line of each queue, of each port, and of the sweeps.
pub fn write_counts(counts: &Counts, out: &mut String) -> Result<(), AllocError>
    ensures { OnOk result (string_bytes out.new ≡ string_bytes out.old ++ texts.counts_text counts.now) }
{
    write_queues(&counts.queues, out)?;
    write_ports(&counts.threads.ports, out)?;
    let sweeps = counts.threads.sweeps;
    write!(out, "scheduler: sweeps {sweeps}\n")?;
    Ok(())
}
