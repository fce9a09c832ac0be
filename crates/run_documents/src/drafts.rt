//! The configuration and the actions that a pipeline's rows ask for.

ghost use Rattle.std.specs.Prelude.{◌≡◌, ◌≤◌, length, map, IfOk};
ghost use Rattle.std.specs.List.{range_with_len};
ghost use Rattle.evt_types.specs.Limits.{most_queues};
ghost use Rattle.evt_types.specs.Plan.{port_plan};
ghost use Rattle.evt_types.specs.Plan as plans;
ghost use Rattle.play_documents.specs.Field.{rows};
ghost use Rattle.run_documents.specs.Drafts.{actions_asked, plan_asked, port_asked, ports_asked, producer_asked, stage_asked, worker_asked};
ghost use Rattle.run_documents.specs.Survey.{survey_seen};

use crate::judge::action_asked;
use crate::survey::{StageRow, Survey};
use evt_types::{Draft, PortDraft, QueueDraft};
use pipeline_laws::Action;
use play_documents::{device_draft, queue_draft};
use std::alloc::{AllocError, Global};

/// The stages' queues.
fn queue_drafts(alloc: Global, rows: &[StageRow]) -> Result<Vec<QueueDraft>, AllocError>
    ensures { IfOk result (λ v. v.items ≡ map stage_asked rows.now) }
{
    let mut drafts = Vec::new(alloc);
    for row in rows {
        drafts.push(queue_draft(&row.queue))?;
    }
    Ok(drafts)
}

/// A port with these links.
fn port_draft(survey: &Survey, links: Vec<u32>) -> PortDraft
    ensures { port_plan result ≡ port_asked (survey_seen survey.now) links.items }
{
    PortDraft {
        threshold: survey.device.limit.value_or(0),
        depth: survey.depth.value_or(0),
        replies: survey.replies.value_or(0),
        implicit: false,
        links,
    }
}

/// The numbers of so many queues.
fn all_queues(alloc: Global, count: usize) -> Result<Vec<u32>, AllocError>
    requires { count ≤ most_queues }
    ensures { IfOk result (λ v. v.items ≡ range_with_len 0 count) }
{
    (0..count as u32).collect(alloc)
}

/// A worker's port, which is linked to every stage's queue.
fn worker_draft(alloc: Global, survey: &Survey) -> Result<PortDraft, AllocError>
    requires { length (rows (survey_seen survey.now).stages) ≤ most_queues }
    ensures { IfOk result (λ p. port_plan p ≡ worker_asked (survey_seen survey.now)) }
{
    let links = all_queues(alloc, survey.stages.rows().len())?;
    Ok(port_draft(survey, links))
}

/// Port 0, which is linked to nothing, and the workers' ports.
fn port_drafts(alloc: Global, survey: &Survey, workers: usize) -> Result<Vec<PortDraft>, AllocError>
    requires { length (rows (survey_seen survey.now).stages) ≤ most_queues }
    ensures { IfOk result (λ v. map port_plan v.items ≡ ports_asked workers (survey_seen survey.now)) }
{
    let mut drafts = Vec::new(alloc);
    drafts.push(port_draft(survey, Vec::new(alloc)))?;
    for _ in 0..workers {
        drafts.push(worker_draft(alloc, survey)?)?;
    }
    Ok(drafts)
}

/// What a pipeline's rows ask for, with so many workers.
#[tactic(auto, unfolding(crate::specs::Drafts::plan_asked))]
pub fn draft_of(alloc: Global, survey: &Survey, workers: usize) -> Result<Draft, AllocError>
    requires { length (rows (survey_seen survey.now).stages) ≤ most_queues }
    ensures { IfOk result (λ d. plans.plan_of d ≡ plan_asked workers (survey_seen survey.now)) }
{
    let queues = queue_drafts(alloc, survey.stages.rows())?;
    let ports = port_drafts(alloc, survey, workers)?;
    Ok(device_draft(&survey.device, queues, ports))
}

/// The stages' actions.
pub fn actions_of(alloc: Global, survey: &Survey) -> Result<Vec<Action>, AllocError>
    ensures { IfOk result (λ v. v.items ≡ actions_asked (survey_seen survey.now)) }
{
    let mut actions = Vec::new(alloc);
    for row in survey.stages.rows() {
        actions.push(action_asked(row))?;
    }
    Ok(actions)
}
