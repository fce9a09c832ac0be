//! The faults that a pipeline's rows show.

ghost use Rattle.std.specs.Prelude.{◌≡◌};
ghost use Rattle.std.specs.List.{list_any};
ghost use Rattle.run_documents.specs.Judge.{action_asked, first_fault, has_bad, has_bad_stage, has_last_action, has_missing, has_parallel_inside, has_unknown, is_parallel, is_pass, is_unknown_stage, misses_stage, stages_fault};
ghost use Rattle.run_documents.specs.Survey.{survey_seen};

use crate::survey::{StageRow, Survey};
use evt_types::Kind;
use pipeline_laws::Action;
use play_documents::field::Field;
use play_documents::{
    DocFault, has_bad_device, has_bad_queue, misses_device, misses_queue, rows_fault,
};

fn misses_stage(stage: &StageRow) -> bool
    ensures { result ≡ misses_stage stage.now }
{
    misses_queue(&stage.queue)
}

fn has_bad_stage(stage: &StageRow) -> bool
    ensures { result ≡ has_bad_stage stage.now }
{
    has_bad_queue(&stage.queue) || stage.action.is_bad()
}

fn is_parallel(stage: &StageRow) -> bool
    ensures { result ≡ is_parallel stage.now }
{
    matches!(stage.queue.kind, Field::Good(Kind::Parallel))
}

fn any_unknown_stage(stages: &[StageRow]) -> bool
    ensures { result ≡ list_any is_unknown_stage stages.now }
{
    stages.iter().any(|stage| !stage.queue.known)
}

fn any_misses_stage(stages: &[StageRow]) -> bool
    ensures { result ≡ list_any misses_stage stages.now }
{
    stages.iter().any(misses_stage)
}

fn any_bad_stage(stages: &[StageRow]) -> bool
    ensures { result ≡ list_any has_bad_stage stages.now }
{
    stages.iter().any(has_bad_stage)
}

fn any_parallel(stages: &[StageRow]) -> bool
    ensures { result ≡ list_any is_parallel stages.now }
{
    stages.iter().any(is_parallel)
}

/// Whether some table has an unknown key.
#[tactic(auto, unfolding(crate::specs::Judge::has_unknown))]
fn has_unknown(survey: &Survey) -> bool
    ensures { result ≡ has_unknown (survey_seen survey.now) }
{
    !survey.known || any_unknown_stage(survey.stages.rows())
}

/// Whether some table lacks a key.
#[tactic(auto, unfolding(crate::specs::Judge::has_missing))]
fn has_missing(survey: &Survey) -> bool
    ensures { result ≡ has_missing (survey_seen survey.now) }
{
    misses_device(&survey.device)
        || survey.depth.is_absent()
        || survey.replies.is_absent()
        || survey.trace.is_absent()
        || survey.stages.is_absent()
        || any_misses_stage(survey.stages.rows())
}

/// Whether some value is refused.
#[tactic(auto, unfolding(crate::specs::Judge::has_bad))]
fn has_bad(survey: &Survey) -> bool
    ensures { result ≡ has_bad (survey_seen survey.now) }
{
    has_bad_device(&survey.device)
        || survey.depth.is_bad()
        || survey.replies.is_bad()
        || survey.trace.is_bad()
        || survey.stages.is_bad()
        || any_bad_stage(survey.stages.rows())
}

/// Whether a stage but the last is parallel.
#[tactic(auto, unfolding(crate::specs::Judge::has_parallel_inside))]
fn has_parallel_inside(stages: &[StageRow]) -> bool
    ensures { result ≡ has_parallel_inside stages.now }
{
    let inside = stages.len().saturating_sub(1);
    any_parallel(&stages[..inside])
}

/// A stage's action. Where none is named it passes.
pub fn action_asked(stage: &StageRow) -> Action
    ensures { result ≡ action_asked stage.now }
{
    stage.action.value_or(Action::Pass)
}

fn is_pass(action: Action) -> bool
    ensures { result ≡ is_pass action }
{
    matches!(action, Action::Pass)
}

/// Whether the last stage does more than to pass.
#[tactic(auto, unfolding(crate::specs::Judge::has_last_action))]
fn has_last_action(stages: &[StageRow]) -> bool
    ensures { result ≡ has_last_action stages.now }
{
    match stages.last() {
        Some(stage) => !is_pass(action_asked(stage)),
        None => false,
    }
}

/// The fault of the stages' order.
fn stages_fault(stages: &[StageRow]) -> Option<DocFault>
    ensures { result ≡ stages_fault stages.now }
{
    if has_parallel_inside(stages) {
        Some(DocFault::ParallelInside)
    } else if has_last_action(stages) {
        Some(DocFault::LastAction)
    } else {
        None
    }
}

/// The first fault. Each is looked for in the whole document before the next.
#[tactic(auto, unfolding(crate::specs::Judge::first_fault))]
pub fn first_fault(survey: &Survey) -> Option<DocFault>
    ensures { result ≡ first_fault (survey_seen survey.now) }
{
    match rows_fault(has_unknown(survey), has_missing(survey), has_bad(survey)) {
        Some(fault) => Some(fault),
        None => stages_fault(survey.stages.rows()),
    }
}
