//! A pipeline is run on a device.

ghost use Rattle.std.specs.Prelude.{◌≡◌, ◌<◌, [], All, IfOk, length, map};
ghost use Rattle.event_device.specs.Start.{IsFresh};
ghost use Rattle.evt_types.specs.Plan.{port_of};
ghost use Rattle.evt_types.specs.declared.draft.Serving.TheVariants.{Ports};
ghost use Rattle.pipeline_laws.specs.Pipeline.{IsProper};
ghost use Rattle.pipeline_laws.specs.Worked.{AnswersAreDue, IsFinished, IsStaged, new_event, newcomers};
ghost use Rattle.pipeline_threads.specs.Run.{AreWorks};
ghost use Rattle.transcripts.specs.Lawful.{IsPrefix, Lawful};
ghost use Rattle.transcripts.specs.Laws.{AddsNone};

use crate::fault::RunFault;
use crate::gate::Gate;
use crate::threads::run_threads;
use event_device::{Device, Report, StepLog};
use evt_types::Shape;
use pipeline_laws::{Action, Entry};
use run_counts::ThreadWork;
use std::alloc::Global;
use std::sync::Wait;
use std::thread::Threads;

/// How many steps an event takes at a stage: it is accepted, given and answered.
const STAGE_STEPS: usize = 3;

/// A device of this configuration with this log, in which nothing has happened. The log has room for so many steps, and for those of a
/// sweep, so that it doesn't move as it grows: what isn't written of that room takes no memory.
fn make_device<L: StepLog>(
    alloc: Global,
    log: L,
    shape: Shape,
    steps: usize,
) -> Result<Device<L>, RunFault>
    requires { L.steps log ≡ [] }
    ensures { IfOk result (IsFresh shape) }
{
    let mut device = Device::with_log(alloc, log, shape)?;
    // Where so much can't be had at once the log begins with none.
    let _ = device.make_log_room(steps);
    Ok(device)
}

/// Runs the trace through the pipeline whose stages are the queues, on a device of this configuration, with this log, which has no step
/// yet: port 0 brings the events in, each other port carries out the stages' actions, each in a thread of its own, and the scheduler
/// runs in this one. The report is that of the stop; whatever the schedule was, its log is that of a finished run. Where the device
/// serves by ports, each answer in it is its stage's action of the event that it answers, and no event was added beside another.
///
/// A worker dequeues at most `most` events at once, of 1 to 64: it passes the gate before each one's action, in order, and answers them
/// all before it dequeues again. A number below counts as 1, and one above as 64.
pub fn run_pipeline<R: Threads + Wait + Sync, G: Gate, L: StepLog>(
    rt: &R,
    alloc: Global,
    log: L,
    shape: Shape,
    actions: &[Action],
    trace: &[Entry],
    most: usize,
    gate: &G,
) -> Result<Report<L>, RunFault>
    requires empty { L.steps log ≡ [] }
    requires staged { IsStaged shape actions.now }
    requires proper { All IsProper actions.now }
    requires workers { 1 < length shape.ports }
    requires producer { (port_of shape 0).links ≡ [] }
    ensures lawful { IfOk result (λ report. Lawful shape (L.steps report.log)) }
    ensures answers { shape.serving ≡ Ports → IfOk result (λ report. AddsNone (L.steps report.log) × AnswersAreDue actions.now (L.steps report.log)) }
    ensures newcomers { IfOk result (λ report. IsPrefix (newcomers (L.steps report.log)) (map new_event trace.now)) }
    ensures finished { IfOk result (λ report. IsFinished shape trace.now (L.steps report.log)) }
{
    let (report, _) = run_counted(rt, alloc, log, shape, actions, trace, most, gate)?;
    Ok(report)
}

/// The same, and what was counted of its threads.
pub fn run_counted<R: Threads + Wait + Sync, G: Gate, L: StepLog>(
    rt: &R,
    alloc: Global,
    log: L,
    shape: Shape,
    actions: &[Action],
    trace: &[Entry],
    most: usize,
    gate: &G,
) -> Result<(Report<L>, ThreadWork), RunFault>
    requires empty { L.steps log ≡ [] }
    requires staged { IsStaged shape actions.now }
    requires proper { All IsProper actions.now }
    requires workers { 1 < length shape.ports }
    requires producer { (port_of shape 0).links ≡ [] }
    ensures lawful { IfOk result (λ r. Lawful shape (L.steps r.0.log)) }
    ensures answers { shape.serving ≡ Ports → IfOk result (λ r. AddsNone (L.steps r.0.log) × AnswersAreDue actions.now (L.steps r.0.log)) }
    ensures newcomers { IfOk result (λ r. IsPrefix (newcomers (L.steps r.0.log)) (map new_event trace.now)) }
    ensures finished { IfOk result (λ r. IsFinished shape trace.now (L.steps r.0.log)) }
    ensures works { IfOk result (λ r. AreWorks shape (L.steps r.0.log) r.1.ports.items) }
{
    let _ = shape.limit();
    let steps = STAGE_STEPS
        .saturating_mul(actions.len())
        .saturating_mul(trace.len());
    let ports = shape.ports().len();
    let device = make_device(alloc, log, shape, steps)?;
    let (device, work) = run_threads(rt, gate, actions, trace, most, device, ports)?;
    match device.stop() {
        Ok(report) => Ok((report, work)),
        Err((_, device)) => {
            drop(device);
            Err(RunFault::Memory)
        }
    }
}
