//! The judging of a text: of a log or of a history.

ghost use Rattle.std.specs.Prelude.{◌≡◌, IfOk, IfErr, All, length, string_bytes, true, false};
ghost use Rattle.play_text.specs.Text.{IsInRange};
ghost use Rattle.transcript_judge.specs.Verdicts.{IsVerdict};
ghost use Rattle.judge_app.specs.Faults.{IsJudgeFault, IsTextFault};
ghost use Rattle.judge_app.specs.Judged.{IsFound, IsJudged};
ghost use Rattle.judge_app.specs.Judged as specs;
ghost use Rattle.judge_app.specs.Verdicts.{verdict_text, finding_status};

use crate::breaches::found_text;
use crate::fault::JudgeFault;
use crate::words::write_broken;
use evt_types::{Shape, Step};
use history_judge::{Breach, judge_history};
use history_reading::read_history;
use log_reading::read_log;
use play_documents::{Document, read_document};
use std::alloc::{AllocError, Global};
use transcript_judge::{Verdict, judge};

/// What is found of a log or of a history.
#[derive(Debug, Drop)]
pub enum Finding {
    Log(Verdict),
    History(Option<Breach>),
}

/// What is told of a log or of a history.
#[derive(Debug, Drop)]
pub struct Judged {
    pub finding: Finding,
    /// What is printed: `lawful`, `running` or `no breach`; or in which line which clause or promise is broken, and below it the lines
    /// that show it.
    pub text: String,
}

/// The status that the program ends with.
pub fn status_of(finding: &Finding) -> u8
    ensures { result ≡ finding_status finding.now }
{
    match finding {
        Finding::Log(Verdict::Lawful | Verdict::Running) | Finding::History(None) => 0,
        Finding::Log(Verdict::Broken { .. }) | Finding::History(Some(_)) => 7,
    }
}

/// What is printed of the verdict on the steps of a log whose line `log` has this number.
fn text_of(
    alloc: Global,
    shape: &Shape,
    steps: &[Step],
    line: usize,
    verdict: &Verdict,
) -> Result<String, AllocError>
    requires there { All (IsInRange (length shape.now.queues)) steps.now }
    requires judged { IsVerdict shape.now steps.now verdict.now }
    ensures { IfOk result (λ text. string_bytes text ≡ verdict_text shape.now steps.now line verdict.now) }
{
    let mut out = String::new(alloc);
    match verdict {
        Verdict::Lawful => out.push_str("lawful\n")?,
        Verdict::Running => out.push_str("running\n")?,
        Verdict::Broken { at, clause, step } => {
            write_broken(alloc, shape, line, &steps[..*at], step, *clause, &mut out)?;
        }
    }
    Ok(out)
}

/// Whether the text is judged as a history.
fn is_history(text: &[u8]) -> bool
    ensures { result ≡ specs.is_history text.now }
{
    match text {
        [first, ..] => *first == b'{',
        [] => false,
    }
}

/// Judges the log that stands in what `play` printed.
fn log_found(alloc: Global, shape: &Shape, printed: &[u8]) -> Result<Judged, JudgeFault>
    requires { specs.is_history printed.now ≡ false }
    ensures ok { IfOk result (IsFound shape.now printed.now) }
    ensures err { IfErr result (IsTextFault shape.now printed.now) }
{
    let log = read_log(alloc, shape.queues(), printed)?;
    let verdict = judge(alloc, shape, &log.steps)?;
    let text = text_of(alloc, shape, &log.steps, log.line, &verdict)?;
    let finding = Finding::Log(verdict);
    Ok(Judged { finding, text })
}

/// Judges the history whose text this is.
fn history_found(alloc: Global, shape: &Shape, text: &[u8]) -> Result<Judged, JudgeFault>
    requires { specs.is_history text.now ≡ true }
    ensures ok { IfOk result (IsFound shape.now text.now) }
    ensures err { IfErr result (IsTextFault shape.now text.now) }
{
    let history = read_history(alloc, text)?;
    let found = judge_history(alloc, shape, &history)?;
    let text = found_text(alloc, shape, &history, found)?;
    let finding = Finding::History(found);
    Ok(Judged { finding, text })
}

/// Judges by the configuration of the document of these bytes, and says what is found: of a text that begins with a brace as of a
/// history, and of any other as of what `play` printed, for the log that stands in it.
pub fn judge_text(alloc: Global, document: &[u8], text: &[u8]) -> Result<Judged, JudgeFault>
    ensures ok { IfOk result (IsJudged document.now text.now) }
    ensures err { IfErr result (IsJudgeFault document.now text.now) }
{
    let Document { shape, .. } = read_document(alloc, document)?;
    if is_history(text) {
        history_found(alloc, &shape, text)
    } else {
        log_found(alloc, &shape, text)
    }
}
