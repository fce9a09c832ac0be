//! What the title of a step says.

ghost use Rattle.std.specs.Prelude.{◌≡◌, ◌++◌, OnOk, string_bytes};
ghost use Rattle.timelines.specs.Marks as marks;

use evt_types::{Outcome, Source};
use std::alloc::AllocError;

#[tactic(auto, unfolding(crate::specs::Marks::event_words))]
fn write_event(queue: usize, number: u64, out: &mut String) -> Result<(), AllocError>
    ensures { OnOk result (string_bytes out.new ≡ string_bytes out.old ++ marks.event_words queue number) }
{
    write!(out, "queue {queue} #{number}")
}

/// When an event is given; where none of so many steps gives it, that it isn't.
#[tactic(auto, unfolding(crate::specs::Marks::given_words))]
fn write_given(steps: usize, end: usize, out: &mut String) -> Result<(), AllocError>
    ensures { OnOk result (string_bytes out.new ≡ string_bytes out.old ++ marks.given_words steps end) }
{
    if end < steps {
        write!(out, "; given at step {end}")
    } else {
        out.push_str("; not given")
    }
}

/// When an event is answered; where none of so many steps answers it, that it isn't.
#[tactic(auto, unfolding(crate::specs::Marks::answered_words))]
fn write_answered(steps: usize, end: usize, out: &mut String) -> Result<(), AllocError>
    ensures { OnOk result (string_bytes out.new ≡ string_bytes out.old ++ marks.answered_words steps end) }
{
    if end < steps {
        write!(out, "; answered at step {end}")
    } else {
        out.push_str("; not answered")
    }
}

#[tactic(auto, unfolding(crate::specs::Marks::source_words))]
fn write_source(source: Source, out: &mut String) -> Result<(), AllocError>
    ensures { OnOk result (string_bytes out.new ≡ string_bytes out.old ++ marks.source_words source) }
{
    match source {
        Source::New { lane } => write!(out, ", new from lane {lane}"),
        Source::Of { queue, number } => {
            out.push_str(", passed on from ")?;
            write_event(queue, number, out)
        }
    }
}

#[tactic(auto, unfolding(crate::specs::Marks::pin_words))]
fn write_pin(pinned: bool, out: &mut String) -> Result<(), AllocError>
    ensures { OnOk result (string_bytes out.new ≡ string_bytes out.old ++ marks.pin_words pinned) }
{
    if pinned {
        out.push_str(", which pins the flow")?;
    }
    Ok(())
}

#[tactic(auto, unfolding(crate::specs::Marks::kept_words))]
fn write_kept(kept: bool, out: &mut String) -> Result<(), AllocError>
    ensures { OnOk result (string_bytes out.new ≡ string_bytes out.old ++ marks.kept_words kept) }
{
    if kept {
        out.push_str(", kept until those before it are answered")?;
    }
    Ok(())
}

#[tactic(auto, unfolding(crate::specs::Marks::accept_title))]
pub(crate) fn write_accept_title(
    queue: usize,
    number: usize,
    flow: u32,
    source: Source,
    steps: usize,
    end: usize,
    out: &mut String,
) -> Result<(), AllocError>
    ensures { OnOk result (string_bytes out.new ≡ string_bytes out.old ++ marks.accept_title queue number flow source steps end) }
{
    write!(out, "queue {queue} accepts #{number} of flow {flow}")?;
    write_source(source, out)?;
    write_given(steps, end, out)
}

#[tactic(auto, unfolding(crate::specs::Marks::give_title))]
pub(crate) fn write_give_title(
    lane: usize,
    event: (usize, u64),
    flow: u32,
    pinned: bool,
    steps: usize,
    end: usize,
    out: &mut String,
) -> Result<(), AllocError>
    ensures { OnOk result (string_bytes out.new ≡ string_bytes out.old ++ marks.give_title lane event.0 event.1 flow pinned steps end) }
{
    write!(out, "lane {lane} is given ")?;
    write_event(event.0, event.1, out)?;
    write!(out, " of flow {flow}")?;
    write_pin(pinned, out)?;
    write_answered(steps, end, out)
}

/// The title of an answer to this event, which is kept or not where it is forwarded.
#[tactic(auto, unfolding(crate::specs::Marks::done_title))]
pub(crate) fn write_done_title(
    lane: usize,
    event: (usize, u64),
    outcome: &Outcome,
    kept: bool,
    out: &mut String,
) -> Result<(), AllocError>
    ensures { OnOk result (string_bytes out.new ≡ string_bytes out.old ++ marks.done_title lane event outcome.now kept) }
{
    write!(out, "lane {lane}")?;
    match outcome {
        Outcome::Released => {
            out.push_str(" releases ")?;
            write_event(event.0, event.1, out)
        }
        Outcome::Forwarded(forward) => {
            let to = forward.queue;
            out.push_str(" forwards ")?;
            write_event(event.0, event.1, out)?;
            write!(out, " to queue {to}")?;
            write_kept(kept, out)
        }
    }
}

#[tactic(auto, unfolding(crate::specs::Marks::more_title))]
pub(crate) fn write_more_title(
    lane: usize,
    to: u8,
    event: (usize, u64),
    out: &mut String,
) -> Result<(), AllocError>
    ensures { OnOk result (string_bytes out.new ≡ string_bytes out.old ++ marks.more_title lane to event) }
{
    write!(out, "lane {lane}")?;
    write!(out, " adds an event for queue {to}")?;
    out.push_str(" beside ")?;
    write_event(event.0, event.1, out)
}

#[tactic(auto, unfolding(crate::specs::Marks::turned_title))]
pub(crate) fn write_turned_title(lane: usize, to: u8, out: &mut String) -> Result<(), AllocError>
    ensures { OnOk result (string_bytes out.new ≡ string_bytes out.old ++ marks.turned_title lane to) }
{
    out.push_str("a new event of lane ")?;
    write!(out, "{lane}")?;
    write!(out, " for queue {to}")?;
    out.push_str(" is turned away")
}

#[tactic(auto, unfolding(crate::specs::Marks::bounced_title))]
pub(crate) fn write_bounced_title(lane: usize, out: &mut String) -> Result<(), AllocError>
    ensures { OnOk result (string_bytes out.new ≡ string_bytes out.old ++ marks.bounced_title lane) }
{
    write!(out, "lane {lane} has no room, and a delivery bounces")
}
