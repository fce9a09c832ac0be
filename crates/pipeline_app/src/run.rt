//! A pipeline's document is run.

ghost use Rattle.std.specs.Prelude.{◌≡◌, ◌≤◌, IfOk, IfErr, OnOk, string_bytes, Some};
ghost use Rattle.evt_types.specs.declared.draft.Serving.TheVariants.{Flows, Ports};
ghost use Rattle.pipeline_laws.specs.RunText.{plain_text, run_text};
ghost use Rattle.pipeline_laws.specs.Worked.{logged};
ghost use Rattle.command_line.specs.Input.{HasRead};
ghost use Rattle.pipeline_app.specs.Runs.{AfterFault, HasText, IsEarlyFault, IsFaultOf, IsRunFault, IsRunnable, WritesText, run_fault};
ghost use Rattle.run_documents.specs.Pipelines.{planned_of};

use crate::checking::{explain_refusal, read_explained};
use command_line::{AppFault, write_text};
use event_device::StepLog;
use evt_types::{Serving, Step};
use pipeline_laws::{AcceptedLog, answers_are_due, write_accepted, write_run};
use pipeline_threads::{Gate, Phase, RunFault, run_pipeline};
use run_documents::{Pipeline, read_pipeline};
use std::alloc::{AllocError, Global};
use std::io::{Read, Write};
use std::sync::Wait;
use std::thread::Threads;

/// How many events a worker of a document's run dequeues at once. With more, one that waits at the gate for another worker could have
/// claimed what that one is to work on.
pub(crate) const ONE: usize = 1;

/// The text of a finished log of so many stages, which keeps every step.
pub(crate) fn log_text(alloc: Global, stages: usize, log: &[Step]) -> Result<String, AllocError>
    ensures { IfOk result (λ text. string_bytes text ≡ run_text stages (logged log.now)) }
{
    let mut text = String::new(alloc);
    write_run(alloc, stages, log, &mut text)?;
    Ok(text)
}

/// The text of a finished log of so many stages, which keeps what was accepted.
pub(crate) fn accepted_text(
    alloc: Global,
    stages: usize,
    log: &AcceptedLog,
) -> Result<String, AllocError>
    ensures { IfOk result (λ text. string_bytes text ≡ run_text stages (logged (⟦<AcceptedLog as StepLog>⟧.steps log.now))) }
{
    let mut text = String::new(alloc);
    write_accepted(alloc, stages, log, &mut text)?;
    Ok(text)
}

/// The fault of a run that came to no end.
pub(crate) fn run_fault(fault: RunFault) -> AppFault
    ensures { result ≡ run_fault fault }
{
    match fault {
        RunFault::Memory => AppFault::Memory,
        RunFault::NoSeat => AppFault::NoSeat,
    }
}

/// The text of a run where the ports serve. That each answer is its stage's action, and that no event was added beside another, the
/// workers' promises say, so the log needs to keep no more than what was accepted.
fn ports_text<R: Threads + Wait + Sync, G: Gate>(
    rt: &R,
    alloc: Global,
    pipeline: Pipeline,
    most: usize,
    gate: &G,
) -> Result<String, AppFault>
    requires runnable { IsRunnable (planned_of pipeline) }
    requires serving { pipeline.shape.serving ≡ Ports }
    ensures text { IfOk result (λ text. string_bytes text ≡ plain_text pipeline.actions.items pipeline.trace.items) }
    ensures fault { IfErr result (IsRunFault (planned_of pipeline)) }
{
    let Pipeline {
        shape,
        actions,
        trace,
    } = pipeline;
    let log = AcceptedLog::new(alloc);
    let events = trace.len();
    gate.begins(Phase::Running { events });
    let report = match run_pipeline(rt, alloc, log, shape, &actions, &trace, most, gate) {
        Ok(report) => report,
        Err(fault) => return Err(run_fault(fault)),
    };
    gate.begins(Phase::Checking);
    Ok(accepted_text(alloc, actions.len(), &report.log)?)
}

/// The text of a run where flow lanes serve. These change hands, so the log keeps every step, and is looked through before its text is
/// made.
fn flows_text<R: Threads + Wait + Sync, G: Gate>(
    rt: &R,
    alloc: Global,
    pipeline: Pipeline,
    most: usize,
    gate: &G,
) -> Result<String, AppFault>
    requires runnable { IsRunnable (planned_of pipeline) }
    requires serving { pipeline.shape.serving ≡ Flows }
    ensures text { IfOk result (λ text. string_bytes text ≡ plain_text pipeline.actions.items pipeline.trace.items) }
    ensures fault { IfErr result (IsRunFault (planned_of pipeline)) }
{
    let Pipeline {
        shape,
        actions,
        trace,
    } = pipeline;
    let queues = shape.queues().len();
    let lanes = shape.lanes();
    let log: Vec<Step> = Vec::new(alloc);
    let events = trace.len();
    gate.begins(Phase::Running { events });
    let report = match run_pipeline(rt, alloc, log, shape, &actions, &trace, most, gate) {
        Ok(report) => report,
        Err(fault) => return Err(run_fault(fault)),
    };
    gate.begins(Phase::Checking);
    let due = answers_are_due(alloc, queues, lanes, &actions, &report.log)?;
    if !due {
        return Err(AppFault::Strayed(report.log));
    }
    Ok(log_text(alloc, actions.len(), &report.log)?)
}

/// Runs the pipeline's trace through its stages, each port in a thread of its own, and gives the text of what each stage accepted, by
/// flow and level. Whatever the schedule, it is that of the plain pipeline. A worker dequeues at most `most` events at once, as
/// `run_pipeline` says.
pub fn pipeline_text<R: Threads + Wait + Sync, G: Gate>(
    rt: &R,
    alloc: Global,
    pipeline: Pipeline,
    most: usize,
    gate: &G,
) -> Result<String, AppFault>
    requires { IsRunnable (planned_of pipeline) }
    ensures text { IfOk result (λ text. string_bytes text ≡ plain_text pipeline.actions.items pipeline.trace.items) }
    ensures fault { IfErr result (IsRunFault (planned_of pipeline)) }
{
    match pipeline.shape.serving() {
        Serving::Ports => ports_text(rt, alloc, pipeline, most, gate),
        Serving::Flows => flows_text(rt, alloc, pipeline, most, gate),
    }
}

/// The text of the run of the document of these bytes.
fn document_text<R: Threads + Wait + Sync, G: Gate>(
    rt: &R,
    alloc: Global,
    bytes: &[u8],
    workers: u32,
    gate: &G,
) -> Result<String, AppFault>
    requires { 1 ≤ workers }
    ensures text { IfOk result (λ text. HasText workers (Some bytes.now) (string_bytes text)) }
    ensures fault { IfErr result (IsEarlyFault workers (Some bytes.now)) }
{
    let pipeline = read_pipeline(alloc, bytes, workers as usize)?;
    pipeline_text(rt, alloc, pipeline, ONE, gate)
}

/// The text of the run of the document that the reader gives. Where the document has a fault, `why` says where it is and why.
fn explained_text<R: Threads + Wait + Sync, I: Read, G: Gate>(
    rt: &R,
    alloc: Global,
    reader: &mut I,
    workers: u32,
    gate: &G,
    why: &mut String,
) -> Result<String, AppFault>
    requires { 1 ≤ workers }
    ensures text { IfOk result (λ text. HasText workers (I.remaining reader.old) (string_bytes text)) }
    ensures fault { IfErr result (IsEarlyFault workers (I.remaining reader.old)) }
    ensures reads { HasRead (I.remaining reader.old) (I.remaining reader.new) result }
{
    gate.begins(Phase::Reading);
    let bytes = read_explained(alloc, reader, why)?;
    let result = document_text(rt, alloc, &bytes, workers, gate);
    explain_refusal(alloc, &bytes, workers, &result, why);
    result
}

/// Reads a pipeline's document, runs its trace through the stages with so many workers, each in a thread of its own, and writes what
/// each stage accepted, by flow and level. Whatever the schedule, the text is that of the plain pipeline; it is built whole and then
/// written. Each worker dequeues one event at a time: it passes the gate before the event's action, and dequeues the next one once this
/// one is answered. `Strayed` has the log of the run, which flow lanes served: it has an answer that isn't its stage's action of the
/// event that it answers, or an event that was added beside another.
pub fn run_trace<R: Threads + Wait + Sync, I: Read, W: Write, G: Gate>(
    rt: &R,
    alloc: Global,
    reader: &mut I,
    workers: u32,
    gate: &G,
    writer: &mut W,
) -> Result<(), AppFault>
    requires { (1 ≤ workers) × (workers ≤ 8) }
    ensures ok { OnOk result (WritesText workers (I.remaining reader.old) (W.contents writer.old) (W.contents writer.new)) }
    ensures err { IfErr result (AfterFault workers (I.remaining reader.old) (W.contents writer.old) (W.contents writer.new)) }
    ensures fault { IfErr result (IsFaultOf workers (I.remaining reader.old)) }
    ensures reads { HasRead (I.remaining reader.old) (I.remaining reader.new) result }
{
    let mut why = String::new(alloc);
    run_explained(rt, alloc, reader, workers, gate, writer, &mut why)
}

/// Does what `run_trace` does. Where the document has a fault, `why` says where it is and why, in lines that end in a line feed.
pub fn run_explained<R: Threads + Wait + Sync, I: Read, W: Write, G: Gate>(
    rt: &R,
    alloc: Global,
    reader: &mut I,
    workers: u32,
    gate: &G,
    writer: &mut W,
    why: &mut String,
) -> Result<(), AppFault>
    requires { (1 ≤ workers) × (workers ≤ 8) }
    ensures ok { OnOk result (WritesText workers (I.remaining reader.old) (W.contents writer.old) (W.contents writer.new)) }
    ensures err { IfErr result (AfterFault workers (I.remaining reader.old) (W.contents writer.old) (W.contents writer.new)) }
    ensures fault { IfErr result (IsFaultOf workers (I.remaining reader.old)) }
    ensures reads { HasRead (I.remaining reader.old) (I.remaining reader.new) result }
{
    let text = explained_text(rt, alloc, reader, workers, gate, why)?;
    gate.begins(Phase::Writing);
    write_text(writer, text.as_bytes())
}
