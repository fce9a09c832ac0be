//! The text of a played script: the answers, the log and the report.

ghost use Rattle.std.specs.Prelude.{◌≡◌, IfOk, string_bytes, length, All};
ghost use Rattle.play_text.specs.Text as texts;

use crate::answer::Answer;
use crate::answer_lines::write_answers;
use crate::log_lines::write_log;
use crate::report_lines::write_report;
use event_answers::Report;
use evt_types::QueueDraft;
use std::alloc::{AllocError, Global};

/// The whole text of a script that was played on a device with these queues and this limit.
#[tactic(auto, unfolding(crate::specs::Text::text_of))]
pub fn text_of(
    alloc: Global,
    queues: &[QueueDraft],
    limit: u64,
    answers: &[Answer],
    report: &Report,
) -> Result<String, AllocError>
    requires { All (texts.IsInRange (length queues.now)) report.now.log.items }
    ensures { IfOk result (λ text. string_bytes text ≡ texts.text_of queues.now limit answers.now report.now) }
{
    let mut out = String::new(alloc);
    write_answers(queues, answers, &mut out)?;
    write_log(alloc, queues, &report.log, &mut out)?;
    write_report(queues, limit, report, &mut out)?;
    Ok(out)
}
