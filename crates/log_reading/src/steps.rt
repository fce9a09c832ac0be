//! The steps of a log, line by line.

ghost use Rattle.std.specs.Bool.{OnTrue};
ghost use Rattle.std.specs.Prelude.{◌≡◌, ◌<◌, ◌+◌, ◌^◌, ℕ, List, ◌++◌, Some, Ok, Err, IfOk, IfErr, IfSome, All, length, codes, slice_index, true, false};
ghost use Rattle.evt_types.specs.declared.step.Step.{Step as StepValue};
ghost use Rattle.play_text.specs.Text.{IsInRange, count_of, counts_after, step_line};
ghost use Rattle.log_reading.specs.Logs.{IsStep, IsEnd, AreSteps, IsBadAt, ReadsSteps};

use crate::begin::first_line;
use crate::fault::LogFault;
use crate::line::said_step;
use evt_types::{QueueDraft, Step};
use play_text::{Counts, write_step};
use std::alloc::{AllocError, Global};

/// Whether the queue that the step accepts into is one of so many.
fn is_in_range(queues: usize, step: &Step) -> bool
    ensures yes { result ≡ true → IsInRange queues step.now }
    ensures no { result ≡ false → ¬ IsInRange queues step.now }
{
    match step {
        Step::Accept { queue, .. } => *queue < queues,
        Step::Give { .. }
        | Step::Done { .. }
        | Step::More { .. }
        | Step::Turned { .. }
        | Step::Bounced { .. }
        | Step::Shut => true,
    }
}

/// Whether the text is the line with its end.
fn is_with_end(text: &[u8], line: &[u8]) -> bool
    ensures yes { result ≡ true → line.now ++ codes "\n" ≡ text.now }
    ensures no { result ≡ false → ¬ (line.now ++ codes "\n" ≡ text.now) }
{
    match text.split_last() {
        Some((end, front)) => *end == b'\n' && front == line,
        None => false,
    }
}

/// The step whose line this is behind those that were counted, if it is one's. Counts it.
fn step_at(
    alloc: Global,
    queues: &[QueueDraft],
    counts: &mut Counts,
    line: &[u8],
) -> Result<Option<Step>, AllocError>
    requires there { length counts.old.accepted.items ≡ length queues.now }
    requires fits { (q : ℕ) → slice_index counts.old.accepted.items q + 1 < 2 ^ 64 }
    ensures there { IfOk result (λ said. IfSome said (IsInRange (length queues.now))) }
    ensures counted { IfOk result (λ said. IfSome said (λ s. counts.new.accepted.items ≡ counts_after counts.old.accepted.items s)) }
    ensures line { IfOk result (λ said. IfSome said (λ s. line.now ++ codes "\n" ≡ step_line queues.now (count_of counts.old.accepted.items s) s)) }
    ensures only { (s : StepValue) → IsStep s → IsInRange (length queues.now) s → line.now ++ codes "\n" ≡ step_line queues.now (count_of counts.old.accepted.items s) s → IfOk result (λ said. said ≡ Some s) }
{
    let Some(step) = said_step(alloc, line)? else {
        return Ok(None);
    };
    if !is_in_range(queues.len(), &step) {
        return Ok(None);
    }
    let number = counts.count(&step);
    let mut again = String::new(alloc);
    write_step(queues, number, &step, &mut again)?;
    if is_with_end(again.as_bytes(), line) {
        Ok(Some(step))
    } else {
        Ok(None)
    }
}

/// Whether a log ends before this.
fn is_end(text: &[u8]) -> bool
    ensures yes { result ≡ true → IsEnd text.now }
    ensures no { result ≡ false → ¬ IsEnd text.now }
{
    text.is_empty() || text.starts_with(b"report\n")
}

/// The steps with whose lines the text begins, up to the end of their log. The line before the text has the number `line`.
pub(crate) fn steps_of(
    alloc: Global,
    queues: &[QueueDraft],
    text: &[u8],
    line: usize,
) -> Result<Vec<Step>, LogFault>
    requires { line + length text.now < 2 ^ 64 }
    ensures ok { IfOk result (λ steps. AreSteps queues.now text.now steps.items) }
    ensures err { IfErr result (IsBadAt queues.now text.now line) }
    ensures only { (T : List StepValue) → All IsStep T → AreSteps queues.now text.now T → ReadsSteps result (λ steps. steps.items ≡ T) }
{
    let mut steps = Vec::new(alloc);
    let mut counts = Counts::none(alloc, queues.len())?;
    let mut rest = text;
    let mut line = line;
    while !is_end(rest) {
        line += 1;
        let Some((said, behind)) = first_line(rest) else {
            return Err(LogFault::Line { line });
        };
        let Some(step) = step_at(alloc, queues, &mut counts, said)? else {
            return Err(LogFault::Line { line });
        };
        steps.push(step)?;
        rest = behind;
    }
    Ok(steps)
}
