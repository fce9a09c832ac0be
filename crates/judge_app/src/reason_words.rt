//! What shows that a step breaks its clause, in words.

ghost use Rattle.std.specs.Prelude.{◌≡◌, ◌++◌, OnOk, string_bytes};
ghost use Rattle.judge_app.specs.ReasonTexts as texts;

use crate::reason::{Class, Disorder, Reason};
use std::alloc::AllocError;

/// The number of the line of the step at this place, where the line `log` has this number.
pub(crate) fn line_of(log: usize, at: usize) -> u128
    ensures { result ≡ texts.line_of log at }
{
    log as u128 + at as u128 + 1
}

/// The place of the other step that is needed to see it, if one is.
pub(crate) fn place_in(reason: Reason) -> Option<usize>
    ensures { result ≡ texts.place_in reason }
{
    match reason {
        Reason::Passed { at, .. }
        | Reason::Given { at, .. }
        | Reason::Held { at, .. }
        | Reason::Order { at, .. }
        | Reason::Shut { at } => Some(at),
        Reason::Absent { .. }
        | Reason::Unserved { .. }
        | Reason::Full { .. }
        | Reason::Idle { .. }
        | Reason::Added { .. }
        | Reason::Foreign { .. }
        | Reason::Open => None,
    }
}

fn write_class(class: Class, out: &mut String) -> Result<(), AllocError>
    ensures { OnOk result (string_bytes out.new ≡ string_bytes out.old ++ texts.class_text class) }
{
    match class {
        Class::Flow(flow) => write!(out, "flow {flow}"),
        Class::Level(level) => write!(out, "level {level}"),
    }
}

/// Writes which number of a class of the queue was given before which other one.
fn write_passed(
    class: Class,
    queue: usize,
    number: u64,
    other: u64,
    out: &mut String,
) -> Result<(), AllocError>
    ensures { OnOk result (string_bytes out.new ≡ string_bytes out.old ++ texts.passed_text class queue number other) }
{
    write_class(class, out)?;
    write!(out, " of queue {queue} was given #{number}")?;
    write!(out, " before #{other}, which was accepted")
}

/// Writes which event a lane holds, beside that of this flow.
fn write_held(
    queue: usize,
    flow: u32,
    other: u64,
    other_flow: u32,
    lane: usize,
    out: &mut String,
) -> Result<(), AllocError>
    ensures { OnOk result (string_bytes out.new ≡ string_bytes out.old ++ texts.held_text queue flow other other_flow lane) }
{
    write!(out, "flow {flow}")?;
    write!(out, " of queue {queue}")?;
    write!(out, ": #{other}")?;
    write!(out, ", flow {other_flow}")?;
    write!(out, ", is unanswered on lane {lane}")?;
    out.push_str(", given")
}

fn write_event(queue: usize, number: u64, out: &mut String) -> Result<(), AllocError>
    ensures { OnOk result (string_bytes out.new ≡ string_bytes out.old ++ texts.event_name queue number) }
{
    write!(out, "#{number} of queue {queue}")
}

/// Writes that the other number was given, and before this one if it isn't the same.
fn write_given(queue: usize, number: u64, other: u64, out: &mut String) -> Result<(), AllocError>
    ensures { OnOk result (string_bytes out.new ≡ string_bytes out.old ++ texts.given_text queue number other) }
{
    write_event(queue, other, out)?;
    if other == number {
        out.push_str(" was given")
    } else {
        write!(out, " was given before #{number},")
    }
}

/// Writes that a forward of the other number was accepted, and how that number stands to this one.
fn write_forward(
    queue: usize,
    number: u64,
    other: u64,
    how: &str,
    out: &mut String,
) -> Result<(), AllocError>
    ensures { OnOk result (string_bytes out.new ≡ string_bytes out.old ++ texts.forward_text how.now queue number other) }
{
    write!(out, "a forward of #{other}")?;
    write!(out, " of queue {queue}")?;
    out.push_str(how)?;
    write!(out, "{number}")?;
    out.push_str(", was accepted")
}

fn write_order(
    disorder: Disorder,
    queue: usize,
    number: u64,
    other: u64,
    out: &mut String,
) -> Result<(), AllocError>
    ensures { OnOk result (string_bytes out.new ≡ string_bytes out.old ++ texts.order_text disorder queue number other) }
{
    match disorder {
        Disorder::Unanswered | Disorder::Kept => write_given(queue, number, other, out),
        Disorder::Later => write_forward(queue, number, other, ", which was given after #", out),
        Disorder::Behind => write_forward(queue, number, other, ", which is behind #", out),
    }
}

/// What is said behind the line of the other step.
fn rest_of(reason: Reason) -> &'static str
    ensures { result.now ≡ texts.rest_text reason }
{
    match reason {
        Reason::Order { disorder, .. } => match disorder {
            Disorder::Unanswered => ", and is not answered",
            Disorder::Kept => ", and a forward of it is not accepted",
            Disorder::Later | Disorder::Behind => "",
        },
        Reason::Passed { .. }
        | Reason::Absent { .. }
        | Reason::Given { .. }
        | Reason::Unserved { .. }
        | Reason::Full { .. }
        | Reason::Held { .. }
        | Reason::Idle { .. }
        | Reason::Added { .. }
        | Reason::Foreign { .. }
        | Reason::Shut { .. }
        | Reason::Open => "",
    }
}

/// Writes what is said of an event.
fn write_of_event(queue: usize, number: u64, what: &str, out: &mut String) -> Result<(), AllocError>
    ensures { OnOk result (string_bytes out.new ≡ string_bytes out.old ++ texts.event_text queue number what.now) }
{
    write!(out, "#{number}")?;
    write!(out, " of queue {queue}")?;
    out.push_str(what)
}

fn write_unserved(lane: usize, queue: usize, flow: u32, out: &mut String) -> Result<(), AllocError>
    ensures { OnOk result (string_bytes out.new ≡ string_bytes out.old ++ texts.unserved_text lane queue flow) }
{
    write!(out, "lane {lane}")?;
    write!(out, " does not serve queue {queue}")?;
    write!(out, ", flow {flow}")
}

fn write_full(lane: usize, count: usize, out: &mut String) -> Result<(), AllocError>
    ensures { OnOk result (string_bytes out.new ≡ string_bytes out.old ++ texts.full_text lane count) }
{
    write!(out, "lane {lane}")?;
    write!(out, " has {count}")?;
    out.push_str(" unanswered events already")
}

fn write_added(lane: usize, count: usize, out: &mut String) -> Result<(), AllocError>
    ensures { OnOk result (string_bytes out.new ≡ string_bytes out.old ++ texts.added_text lane count) }
{
    write!(out, "lane {lane}")?;
    write!(out, " has added {count}")?;
    out.push_str(" events already")
}

/// Writes what shows that a step breaks its clause.
fn write_said(reason: Reason, out: &mut String) -> Result<(), AllocError>
    ensures { OnOk result (string_bytes out.new ≡ string_bytes out.old ++ texts.said reason) }
{
    match reason {
        Reason::Passed {
            class,
            queue,
            number,
            other,
            ..
        } => write_passed(class, queue, number, other, out),
        Reason::Absent { queue, number } => {
            write_of_event(queue, number, " was not accepted", out)
        }
        Reason::Given { queue, number, .. } => {
            write_of_event(queue, number, " was given already,", out)
        }
        Reason::Unserved { lane, queue, flow } => write_unserved(lane, queue, flow, out),
        Reason::Full { lane, count } => write_full(lane, count, out),
        Reason::Held {
            queue,
            flow,
            other,
            other_flow,
            lane,
            ..
        } => write_held(queue, flow, other, other_flow, lane, out),
        Reason::Order {
            disorder,
            queue,
            number,
            other,
            ..
        } => write_order(disorder, queue, number, other, out),
        Reason::Idle { lane } => write!(out, "lane {lane} has nothing to answer"),
        Reason::Added { lane, count } => write_added(lane, count, out),
        Reason::Foreign { queue, number } => {
            write_of_event(queue, number, " was not forwarded as this", out)
        }
        Reason::Shut { .. } => out.push_str("the device was shut"),
        Reason::Open => out.push_str("the device is not shut"),
    }
}

/// Writes in which line the other step is, if one is needed.
fn write_place(log: usize, place: Option<usize>, out: &mut String) -> Result<(), AllocError>
    ensures { OnOk result (string_bytes out.new ≡ string_bytes out.old ++ texts.in_line log place) }
{
    match place {
        Some(at) => write!(out, " in line {}", line_of(log, at)),
        None => Ok(()),
    }
}

/// Writes what shows that the step at this place breaks its clause, in a line of its own.
pub(crate) fn write_why(
    log: usize,
    at: usize,
    reason: Reason,
    out: &mut String,
) -> Result<(), AllocError>
    ensures { OnOk result (string_bytes out.new ≡ string_bytes out.old ++ texts.why_text log at reason) }
{
    write!(out, "line {}: ", line_of(log, at))?;
    write_said(reason, out)?;
    write_place(log, place_in(reason), out)?;
    out.push_str(rest_of(reason))?;
    out.push_str("\n")
}
