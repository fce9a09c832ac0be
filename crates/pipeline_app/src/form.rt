//! What is made of a run: the text of all that happened, the same as JSON, or the picture of its log.

ghost use Rattle.std.specs.Prelude.{◌≡◌, ◌+◌, ◌<◌, ◌^◌, All, IfOk, length, string_bytes};
ghost use Rattle.evt_types.specs.Plan.{Plan, lanes_of};
ghost use Rattle.play_text.specs.Text.{IsInRange};
ghost use Rattle.timelines.specs.Links.{IsPlaced};
ghost use Rattle.pipeline_app.specs.Play.{form_of};

use event_answers::Report;
use evt_types::QueueDraft;
use json_lines::json_of;
use play_text::{Answer, text_of};
use std::alloc::{AllocError, Global};
use timelines::timeline;

/// What is made of a run.
#[derive(Clone, Copy, Debug, PartialEq, Eq)]
pub enum Form {
    /// The text of the answers, the log and the report.
    Text,
    /// The same as JSON, one object a line.
    Json,
    /// The picture of the log, in SVG.
    Picture,
}

/// What is made of the answers and the report of a run on a device with these queues, this limit and so many lanes.
pub(crate) fn made_of(
    alloc: Global,
    form: Form,
    queues: &[QueueDraft],
    limit: u64,
    lanes: usize,
    answers: &[Answer],
    report: &Report,
) -> Result<String, AllocError>
    requires few { length queues.now + lanes < 2 ^ 16 }
    requires in_range { All (IsInRange (length queues.now)) report.now.log.items }
    requires placed { All (IsPlaced (length queues.now) lanes) report.now.log.items }
    ensures { (p : Plan) → queues.now ≡ p.queues → limit ≡ p.limit → lanes ≡ lanes_of p → IfOk result (λ text. string_bytes text ≡ form_of form p answers.now report.now) }
{
    match form {
        Form::Text => text_of(alloc, queues, limit, answers, report),
        Form::Json => json_of(alloc, queues, limit, answers, report),
        Form::Picture => timeline(alloc, queues, lanes, &report.log),
    }
}
