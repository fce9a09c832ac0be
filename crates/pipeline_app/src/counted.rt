//! A pipeline's document is run, and what its queues and threads do is counted.

ghost use Rattle.std.specs.Prelude.{◌≡◌, ◌≤◌, IfOk, IfErr, string_bytes, Some};
ghost use Rattle.evt_types.specs.declared.draft.Serving.TheVariants.{Flows, Ports};
ghost use Rattle.pipeline_laws.specs.RunText.{plain_text};
ghost use Rattle.command_line.specs.Input.{HasRead};
ghost use Rattle.pipeline_app.specs.Runs.{AfterFault, AreRunCounts, HasCounts, HasText, IsEarlyFault, IsFaultOf, IsRunFault, IsRunnable, WritesText, stats_text};
ghost use Rattle.run_documents.specs.Pipelines.{planned_of};

use crate::checking::{explain_refusal, read_explained};
use crate::run::{ONE, accepted_text, log_text, run_fault};
use command_line::{AppFault, write_text};
use evt_types::{Serving, Step};
use pipeline_laws::{AcceptedLog, answers_are_due};
use pipeline_threads::{Gate, Phase, run_counted};
use run_counts::{Counts, Waits, counts_of, write_counts, write_counts_json};
use run_documents::{Pipeline, read_pipeline};
use std::alloc::{AllocError, Global};
use std::io::{Read, Write};
use std::sync::Wait;
use std::thread::Threads;

/// The text of a run where the ports serve, and what was counted of it.
fn ports_counted<R: Threads + Wait + Sync, G: Gate>(
    rt: &R,
    alloc: Global,
    pipeline: Pipeline,
    most: usize,
    gate: &G,
) -> Result<(String, Counts), AppFault>
    requires runnable { IsRunnable (planned_of pipeline) }
    requires serving { pipeline.shape.serving ≡ Ports }
    ensures text { IfOk result (λ r. string_bytes r.0 ≡ plain_text pipeline.actions.items pipeline.trace.items) }
    ensures counts { IfOk result (λ r. AreRunCounts (planned_of pipeline) r.1) }
    ensures fault { IfErr result (IsRunFault (planned_of pipeline)) }
{
    let Pipeline {
        shape,
        actions,
        trace,
    } = pipeline;
    let queues = shape.queues().len();
    let Ok(log) = Waits::new(alloc, AcceptedLog::new(alloc)) else {
        return Err(AppFault::Memory);
    };
    let events = trace.len();
    gate.begins(Phase::Running { events });
    let (report, threads) = match run_counted(rt, alloc, log, shape, &actions, &trace, most, gate) {
        Ok(ran) => ran,
        Err(fault) => return Err(run_fault(fault)),
    };
    gate.begins(Phase::Checking);
    let counts = counts_of(queues, &report.log, threads);
    let text = accepted_text(alloc, actions.len(), report.log.log())?;
    Ok((text, counts))
}

/// The text of a run where flow lanes serve, and what was counted of it.
fn flows_counted<R: Threads + Wait + Sync, G: Gate>(
    rt: &R,
    alloc: Global,
    pipeline: Pipeline,
    most: usize,
    gate: &G,
) -> Result<(String, Counts), AppFault>
    requires runnable { IsRunnable (planned_of pipeline) }
    requires serving { pipeline.shape.serving ≡ Flows }
    ensures text { IfOk result (λ r. string_bytes r.0 ≡ plain_text pipeline.actions.items pipeline.trace.items) }
    ensures counts { IfOk result (λ r. AreRunCounts (planned_of pipeline) r.1) }
    ensures fault { IfErr result (IsRunFault (planned_of pipeline)) }
{
    let Pipeline {
        shape,
        actions,
        trace,
    } = pipeline;
    let queues = shape.queues().len();
    let lanes = shape.lanes();
    let kept: Vec<Step> = Vec::new(alloc);
    let Ok(log) = Waits::new(alloc, kept) else {
        return Err(AppFault::Memory);
    };
    let events = trace.len();
    gate.begins(Phase::Running { events });
    let (report, threads) = match run_counted(rt, alloc, log, shape, &actions, &trace, most, gate) {
        Ok(ran) => ran,
        Err(fault) => return Err(run_fault(fault)),
    };
    gate.begins(Phase::Checking);
    let counts = counts_of(queues, &report.log, threads);
    let log = report.log.into_log();
    let due = answers_are_due(alloc, queues, lanes, &actions, &log)?;
    if !due {
        return Err(AppFault::Strayed(log));
    }
    let text = log_text(alloc, actions.len(), &log)?;
    Ok((text, counts))
}

/// The text of the run of the document of these bytes, and what was counted of it.
fn document_counted<R: Threads + Wait + Sync, G: Gate>(
    rt: &R,
    alloc: Global,
    bytes: &[u8],
    workers: u32,
    gate: &G,
) -> Result<(String, Counts), AppFault>
    requires { 1 ≤ workers }
    ensures text { IfOk result (λ r. HasText workers (Some bytes.now) (string_bytes r.0)) }
    ensures counts { IfOk result (λ r. HasCounts workers (Some bytes.now) r.1) }
    ensures fault { IfErr result (IsEarlyFault workers (Some bytes.now)) }
{
    let pipeline = read_pipeline(alloc, bytes, workers as usize)?;
    match pipeline.shape.serving() {
        Serving::Ports => ports_counted(rt, alloc, pipeline, ONE, gate),
        Serving::Flows => flows_counted(rt, alloc, pipeline, ONE, gate),
    }
}

/// The text of the run of the document that the reader gives, and what was counted of it. Where the document has a fault, `why` says
/// where it is and why.
fn counted_text<R: Threads + Wait + Sync, I: Read, G: Gate>(
    rt: &R,
    alloc: Global,
    reader: &mut I,
    workers: u32,
    gate: &G,
    why: &mut String,
) -> Result<(String, Counts), AppFault>
    requires { 1 ≤ workers }
    ensures text { IfOk result (λ r. HasText workers (I.remaining reader.old) (string_bytes r.0)) }
    ensures counts { IfOk result (λ r. HasCounts workers (I.remaining reader.old) r.1) }
    ensures fault { IfErr result (IsEarlyFault workers (I.remaining reader.old)) }
    ensures reads { HasRead (I.remaining reader.old) (I.remaining reader.new) result }
{
    gate.begins(Phase::Reading);
    let bytes = read_explained(alloc, reader, why)?;
    let result = document_counted(rt, alloc, &bytes, workers, gate);
    explain_refusal(alloc, &bytes, workers, &result, why);
    result
}

/// How what was counted of a run is said.
#[derive(Clone, Copy, Debug, PartialEq, Eq)]
pub enum StatsForm {
    /// In words, a line of each queue, of each port, and of the sweeps.
    Text,
    /// As JSON, in as many lines with an object each.
    Json,
}

/// What was counted of a run.
#[derive(Drop)]
pub struct RunStats {
    /// Of each queue how many events came, were given and waited at most, of each port what it enqueued, dequeued and was refused, and how
    /// often its worker looked for events, and how often the scheduler swept.
    pub counts: Counts,
    /// The same in the form that was asked for.
    pub text: String,
}

/// What was counted, and what is said of it in this form.
fn stats_of(alloc: Global, form: StatsForm, counts: Counts) -> Result<RunStats, AllocError>
    ensures counts { IfOk result (λ stats. stats.counts ≡ counts) }
    ensures text { IfOk result (λ stats. string_bytes stats.text ≡ stats_text form counts) }
{
    let mut text = String::new(alloc);
    match form {
        StatsForm::Text => write_counts(&counts, &mut text)?,
        StatsForm::Json => write_counts_json(alloc, &counts, &mut text)?,
    }
    Ok(RunStats { counts, text })
}

/// Does what `run_explained` does, and gives what was counted of the run, in this form.
pub fn run_with_counts<R: Threads + Wait + Sync, I: Read, W: Write, G: Gate>(
    rt: &R,
    alloc: Global,
    reader: &mut I,
    workers: u32,
    form: StatsForm,
    gate: &G,
    writer: &mut W,
    why: &mut String,
) -> Result<RunStats, AppFault>
    requires { (1 ≤ workers) × (workers ≤ 8) }
    ensures ok { IfOk result (λ _. WritesText workers (I.remaining reader.old) (W.contents writer.old) (W.contents writer.new)) }
    ensures counts { IfOk result (λ stats. HasCounts workers (I.remaining reader.old) stats.counts) }
    ensures stats { IfOk result (λ stats. string_bytes stats.text ≡ stats_text form stats.counts) }
    ensures err { IfErr result (AfterFault workers (I.remaining reader.old) (W.contents writer.old) (W.contents writer.new)) }
    ensures fault { IfErr result (IsFaultOf workers (I.remaining reader.old)) }
    ensures reads { HasRead (I.remaining reader.old) (I.remaining reader.new) result }
{
    let (text, counts) = counted_text(rt, alloc, reader, workers, gate, why)?;
    let stats = stats_of(alloc, form, counts)?;
    gate.begins(Phase::Writing);
    write_text(writer, text.as_bytes())?;
    Ok(stats)
}
