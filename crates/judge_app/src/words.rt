//! What is printed of a verdict.

ghost use Rattle.std.specs.Prelude.{◌≡◌, ◌++◌, OnOk, IfOk, All, length, string_bytes};
ghost use Rattle.play_text.specs.Text.{IsInRange, number_after};
ghost use Rattle.transcript_judge.specs.Fronts.{IsFront};
ghost use Rattle.judge_app.specs.Verdicts as texts;

use crate::reason::Reason;
use crate::reason_words::{line_of, place_in, write_why};
use crate::reasons::reason_of;
use evt_types::{QueueDraft, Shape, Step};
use play_text::{Counts, write_step};
use std::alloc::{AllocError, Global};
use transcript_judge::Clause;

/// The name of a clause, and what it says.
fn clause_text(clause: Clause) -> &'static str
    ensures { result.now ≡ texts.clause_text clause }
{
    match clause {
        Clause::Formed => "Formed: its queues and lanes are there, and its operation fits",
        Clause::Answers => "Answers: a lane answers no more events than it was given",
        Clause::Extras => "Extras: up to 4 are added beside an event, which is not answered yet",
        Clause::Once => "Once: an event is given after it was accepted, and once",
        Clause::Linked => "Linked: a lane is given events of the queues and flows that it serves",
        Clause::Depth => "Depth: a lane has no more unanswered events than its depth",
        Clause::Places => "Places: an ordered queue has no more events out than its order",
        Clause::Limit => "Limit: no more events are inside than there is room for",
        Clause::Flow => "Flow: a flow's events of one level are given in accepted order",
        Clause::Alone => "Alone: an atomic flow's unanswered events are on one lane",
        Clause::Order => "Order: forwards are accepted in the order of the events they answer",
        Clause::Origin => "Origin: what is accepted from an event is what it was forwarded as",
        Clause::Closed => "Closed: nothing new is accepted once shut, nothing turned away before",
        Clause::Prompt => "Prompt: a forward that waits for nothing is accepted before all else",
    }
}

/// The number of the event that the step accepts after these, if it accepts one.
fn number_of(alloc: Global, queues: usize, past: &[Step], step: &Step) -> Result<u64, AllocError>
    requires past { All (IsInRange queues) past.now }
    requires there { IsInRange queues step.now }
    ensures { IfOk result (λ n. n ≡ number_after past.now step.now) }
{
    let mut counts = Counts::none(alloc, queues)?;
    for earlier in past {
        counts.count(earlier);
    }
    Ok(counts.count(step))
}

/// Writes in which line the step is that first broke a clause, and which.
fn write_place(line: u128, clause: Clause, out: &mut String) -> Result<(), AllocError>
    ensures { OnOk result (string_bytes out.new ≡ string_bytes out.old ++ texts.place_text line clause) }
{
    write!(out, "broken at line {line}: ")?;
    out.push_str(clause_text(clause))?;
    out.push_str("\n")
}

/// Writes the line of the step, which stands behind those past.
fn write_line(
    alloc: Global,
    queues: &[QueueDraft],
    past: &[Step],
    step: &Step,
    out: &mut String,
) -> Result<(), AllocError>
    requires past { All (IsInRange (length queues.now)) past.now }
    requires there { IsInRange (length queues.now) step.now }
    ensures { OnOk result (string_bytes out.new ≡ string_bytes out.old ++ texts.line_after queues.now past.now step.now) }
{
    let number = number_of(alloc, queues.len(), past, step)?;
    write_step(queues, number, step, out)
}

/// Writes the line of the step at that place, if there is one.
fn write_line_at(
    alloc: Global,
    queues: &[QueueDraft],
    past: &[Step],
    at: usize,
    out: &mut String,
) -> Result<(), AllocError>
    requires { All (IsInRange (length queues.now)) past.now }
    ensures { OnOk result (string_bytes out.new ≡ string_bytes out.old ++ texts.line_at queues.now past.now at) }
{
    match past.get(at) {
        Some(step) => write_line(alloc, queues, &past[..at], step, out),
        None => Ok(()),
    }
}

/// Writes what shows that the step at this place, behind those past, breaks its clause, and the lines that show it.
fn write_shown(
    alloc: Global,
    queues: &[QueueDraft],
    log: usize,
    past: &[Step],
    step: &Step,
    reason: Reason,
    out: &mut String,
) -> Result<(), AllocError>
    requires past { All (IsInRange (length queues.now)) past.now }
    requires there { IsInRange (length queues.now) step.now }
    ensures { OnOk result (string_bytes out.new ≡ string_bytes out.old ++ texts.shown_text queues.now log past.now (length past.now) step.now reason) }
{
    write_why(log, past.len(), reason, out)?;
    write_line(alloc, queues, past, step, out)?;
    match place_in(reason) {
        Some(at) => write_line_at(alloc, queues, past, at, out),
        None => Ok(()),
    }
}

/// The same, or where nothing shows it the step's own line alone.
fn write_cause(
    alloc: Global,
    queues: &[QueueDraft],
    log: usize,
    past: &[Step],
    step: &Step,
    reason: Option<Reason>,
    out: &mut String,
) -> Result<(), AllocError>
    requires past { All (IsInRange (length queues.now)) past.now }
    requires there { IsInRange (length queues.now) step.now }
    ensures { OnOk result (string_bytes out.new ≡ string_bytes out.old ++ texts.shown_if queues.now log past.now (length past.now) step.now reason) }
{
    match reason {
        Some(reason) => write_shown(alloc, queues, log, past, step, reason, out),
        None => write_line(alloc, queues, past, step, out),
    }
}

/// Writes in which line of the log the step behind those past first broke a clause, and which, and what shows it.
pub(crate) fn write_broken(
    alloc: Global,
    shape: &Shape,
    log: usize,
    past: &[Step],
    step: &Step,
    clause: Clause,
    out: &mut String,
) -> Result<(), AllocError>
    requires past { All (IsInRange (length shape.now.queues)) past.now }
    requires there { IsInRange (length shape.now.queues) step.now }
    requires front { IsFront shape.now past.now }
    ensures { OnOk result (string_bytes out.new ≡ string_bytes out.old ++ texts.broken_text shape.now log past.now (length past.now) clause step.now) }
{
    write_place(line_of(log, past.len()), clause, out)?;
    let reason = reason_of(alloc, shape, past, clause, step)?;
    write_cause(alloc, shape.queues(), log, past, step, reason, out)
}
