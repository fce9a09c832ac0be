//! The reading of a pipeline's document.

ghost use Rattle.std.specs.Prelude.{◌≡◌, ◌≤◌, ◌<◌, ◌+◌, ◌*◌, length, All, IfOk, IfErr, OnOk};
ghost use Rattle.evt_types.specs.Limits.{most_ports, most_queues};
ghost use Rattle.pipeline_laws.specs.Pipeline.{IsProper};
ghost use Rattle.pipeline_laws.specs.Worked.{IsStaged};
ghost use Rattle.play_documents.specs.Document.{Gives, IsNamed, checked};
ghost use Rattle.run_documents.specs.Drafts.{plan_asked};
ghost use Rattle.run_documents.specs.Pipelines.{HasWorkers, is_tight, judged, pipeline_of, planned_of, trace_in};
ghost use Rattle.run_documents.specs.Survey.{survey_seen};

use crate::drafts::{actions_of, draft_of};
use crate::judge::first_fault;
use crate::survey::{Survey, survey_of};
use crate::trace::read_trace;
use evt_types::{MAX_PORTS, MAX_QUEUES, Shape, ShapeFault};
use pipeline_laws::{Action, Entry};
use play_documents::field::text_or_none;
use play_documents::{DocFault, ReadFault, checked, shape_fault, table_of};
use std::alloc::Global;

/// What a pipeline's document says. Stage k has queue k; port 0 brings the trace in, and each other port is a worker's.
#[derive(Debug, Drop)]
pub struct Pipeline {
    /// The configuration.
    pub shape: Shape,
    /// The stages' actions, in order.
    pub actions: Vec<Action>,
    /// The events of the trace, in order.
    pub trace: Vec<Entry>,
}

/// The configuration that the rows ask for, checked.
fn shape_of(alloc: Global, survey: &Survey, workers: usize) -> Result<Shape, ReadFault>
    ensures value { Gives (λ s. s) result (checked (plan_asked workers (survey_seen survey.now))) }
    ensures few { OnOk result (workers < most_ports) }
{
    let stages = survey.stages.rows().len();
    // The device's first two refusals come before the draft, which is as long as the document and the caller ask for.
    if stages == 0 || stages > MAX_QUEUES {
        return Err(shape_fault(ShapeFault::QueueCount));
    }
    if workers >= MAX_PORTS {
        return Err(shape_fault(ShapeFault::PortCount));
    }
    let draft = draft_of(alloc, survey, workers)?;
    checked(alloc, &draft)
}

/// Whether the limit has no room for what may rest in the pockets of the ports, which are the workers' and port 0.
#[tactic(auto, unfolding(crate::specs::Pipelines::is_tight))]
fn is_tight(shape: &Shape, workers: usize) -> bool
    requires { workers < most_ports }
    ensures { result ≡ is_tight workers shape.now }
{
    let ports = workers as u64 + 1;
    u64::from(shape.limit()) < 2 * u64::from(shape.quantum()) * ports
}

/// The events of the trace.
#[tactic(auto, unfolding(crate::specs::Pipelines::trace_in))]
fn trace_in(alloc: Global, survey: &Survey) -> Result<Vec<Entry>, ReadFault>
    ensures { Gives (λ v. v.items) result (trace_in (survey_seen survey.now)) }
{
    read_trace(alloc, text_or_none(&survey.trace))
}

/// What the rows say, for so many workers.
#[tactic(auto, unfolding(crate::specs::Pipelines::judged, crate::specs::Pipelines::loose))]
fn judged(alloc: Global, survey: &Survey, workers: usize) -> Result<Pipeline, ReadFault>
    ensures { Gives planned_of result (judged workers (survey_seen survey.now)) }
{
    if let Some(fault) = first_fault(survey) {
        return Err(ReadFault::Document(fault));
    }
    let shape = shape_of(alloc, survey, workers)?;
    if is_tight(&shape, workers) {
        return Err(ReadFault::Document(DocFault::LimitTight));
    }
    let trace = trace_in(alloc, survey)?;
    let actions = actions_of(alloc, survey)?;
    Ok(Pipeline {
        shape,
        actions,
        trace,
    })
}

/// What the bytes say, for so many workers.
#[tactic(auto, unfolding(crate::specs::Pipelines::pipeline_of))]
fn planned(alloc: Global, bytes: &[u8], workers: usize) -> Result<Pipeline, ReadFault>
    ensures { Gives planned_of result (pipeline_of workers bytes.now) }
{
    let table = table_of(alloc, bytes)?;
    let survey = survey_of(alloc, &table)?;
    judged(alloc, &survey, workers)
}

/// Reads a pipeline's document, for so many workers: its configuration, its stages' actions and its trace, or its first fault.
pub fn read_pipeline(alloc: Global, bytes: &[u8], workers: usize) -> Result<Pipeline, ReadFault>
    ensures read { Gives planned_of result (pipeline_of workers bytes.now) }
    ensures named { IfErr result IsNamed }
    ensures staged { IfOk result (λ p. IsStaged p.shape p.actions.items) }
    ensures proper { IfOk result (λ p. All IsProper p.actions.items) }
    ensures some { IfOk result (λ p. (1 ≤ length p.actions.items) × (length p.actions.items ≤ most_queues)) }
    ensures workers { IfOk result (λ p. HasWorkers workers p.shape) }
    ensures room { IfOk result (λ p. 2 * p.shape.quantum * (workers + 1) ≤ p.shape.limit) }
{
    planned(alloc, bytes, workers)
}
