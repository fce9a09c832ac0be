//! The whole of a played script: the lines of the answers, of the log and of the report.

ghost use Rattle.std.specs.Prelude.{◌≡◌, IfOk, string_bytes, length, All};
ghost use Rattle.play_text.specs.Text.{IsInRange};
ghost use Rattle.json_lines.specs.Lines.{json_text};

use crate::answers::write_answers;
use crate::log::write_log;
use crate::report::write_report;
use event_answers::Report;
use evt_types::QueueDraft;
use play_text::Answer;
use std::alloc::{AllocError, Global};

/// A script that was played on a device with these queues and this limit, as JSON: one object a line.
#[tactic(auto, unfolding(crate::specs::Lines::json_text))]
pub fn json_of(
    alloc: Global,
    queues: &[QueueDraft],
    limit: u64,
    answers: &[Answer],
    report: &Report,
) -> Result<String, AllocError>
    requires { All (IsInRange (length queues.now)) report.now.log.items }
    ensures { IfOk result (λ text. string_bytes text ≡ json_text queues.now limit answers.now report.now) }
{
    let mut out = String::new(alloc);
    write_answers(alloc, queues, answers, &mut out)?;
    write_log(alloc, queues, &report.log, &mut out)?;
    write_report(alloc, queues, limit, report, &mut out)?;
    Ok(out)
}
