//! What is printed of a history.

ghost use Rattle.std.specs.Prelude.{◌≡◌, ◌++◌, OnOk, IfOk, length, string_bytes};
ghost use Rattle.judge_app.specs.Breaches as texts;

use crate::entries::write_entry;
use evt_types::{Event, Shape};
use history_judge::{Breach, Deed, Seen, count_undecided};
use std::alloc::{AllocError, Global};

/// The name of a breach.
fn name_of(breach: Breach) -> &'static str
    ensures { result.now ≡ texts.name_text breach }
{
    match breach {
        Breach::Unlinked { .. } => "Unlinked",
        Breach::Unsent { .. } => "Unsent",
        Breach::Early { .. } => "Early",
        Breach::Overtaken { .. } => "Overtaken",
        Breach::Reordered { .. } => "Reordered",
        Breach::Overfull { .. } => "Overfull",
        Breach::Crowded { .. } => "Crowded",
        Breach::Together { .. } => "Together",
    }
}

/// The place of the entry with which it shows.
fn place_of(breach: Breach) -> usize
    ensures { result ≡ texts.place_of breach }
{
    match breach {
        Breach::Unlinked { at }
        | Breach::Unsent { at }
        | Breach::Early { at }
        | Breach::Overtaken { at, .. }
        | Breach::Reordered { at, .. }
        | Breach::Overfull { at }
        | Breach::Crowded { at }
        | Breach::Together { at, .. } => at,
    }
}

/// The event of an entry.
fn event_in(deed: &Deed) -> Event
    ensures { result ≡ texts.event_in deed.now }
{
    match deed {
        Deed::Sent(reply) => reply.event.unpack(),
        Deed::Got(event) => *event,
    }
}

/// How many ports there are.
fn port_count(shape: &Shape) -> usize
    ensures { result ≡ length shape.now.ports }
{
    shape.ports().len()
}

/// The depth of a port; one that isn't there holds nothing.
fn depth_at(shape: &Shape, port: usize) -> usize
    ensures { result ≡ texts.depth_at shape.now port }
{
    if port < port_count(shape) {
        shape.depth_of(port)
    } else {
        0
    }
}

/// Writes in which line it shows, and what it is.
fn write_place(line: u128, breach: Breach, out: &mut String) -> Result<(), AllocError>
    ensures { OnOk result (string_bytes out.new ≡ string_bytes out.old ++ texts.place_text line breach) }
{
    write!(out, "broken at line {line}")?;
    out.push_str(": ")?;
    out.push_str(name_of(breach))?;
    out.push_str(": ")
}

/// Writes which event the port dequeued.
fn write_got(port: usize, event: &Event, out: &mut String) -> Result<(), AllocError>
    ensures { OnOk result (string_bytes out.new ≡ string_bytes out.old ++ texts.got_text port event.now) }
{
    write!(out, "port {port}")?;
    write!(out, " got an event of queue {}", event.queue)?;
    write!(out, ", flow {}", event.flow)?;
    write!(out, ", payload {}", event.payload)?;
    out.push_str(": ")
}

/// Writes which port got the other event, in which line, and why it should have been got later.
fn write_overtaker(other: &Seen, at: usize, why: &str, out: &mut String) -> Result<(), AllocError>
    ensures { OnOk result (string_bytes out.new ≡ string_bytes out.old ++ texts.overtaker_text why.now at other.now) }
{
    let line = at as u128 + 1;
    write!(out, "port {}", other.port)?;
    write!(out, " had got that of line {line}")?;
    out.push_str(why)
}

/// The same of the entry at that place, if there is one.
fn write_overtaker_at(
    history: &[Seen],
    at: usize,
    why: &str,
    out: &mut String,
) -> Result<(), AllocError>
    ensures { OnOk result (string_bytes out.new ≡ string_bytes out.old ++ texts.overtaker_at why.now history.now at) }
{
    match history.get(at) {
        Some(other) => write_overtaker(other, at, why, out),
        None => Ok(()),
    }
}

/// Writes which port held the other event, and in which line that one was dequeued.
fn write_holder(other: &Seen, at: usize, out: &mut String) -> Result<(), AllocError>
    ensures { OnOk result (string_bytes out.new ≡ string_bytes out.old ++ texts.holder_text at other.now) }
{
    let line = at as u128 + 1;
    write!(out, "port {}", other.port)?;
    write!(out, " held that of line {line}")
}

/// The same of the entry at that place, if there is one.
fn write_other(history: &[Seen], at: usize, out: &mut String) -> Result<(), AllocError>
    ensures { OnOk result (string_bytes out.new ≡ string_bytes out.old ++ texts.other_text history.now at) }
{
    match history.get(at) {
        Some(other) => write_holder(other, at, out),
        None => Ok(()),
    }
}

fn write_depth(depth: usize, out: &mut String) -> Result<(), AllocError>
    ensures { OnOk result (string_bytes out.new ≡ string_bytes out.old ++ texts.depth_text depth) }
{
    write!(out, "it held more than its depth of {depth}")
}

fn write_bound(bound: usize, out: &mut String) -> Result<(), AllocError>
    ensures { OnOk result (string_bytes out.new ≡ string_bytes out.old ++ texts.bound_text bound) }
{
    write!(out, "all ports together held more than the {bound}")?;
    out.push_str(" events that may be inside")
}

/// Writes why no device can have done it.
fn write_why(
    shape: &Shape,
    history: &[Seen],
    breach: Breach,
    seen: &Seen,
    out: &mut String,
) -> Result<(), AllocError>
    ensures { OnOk result (string_bytes out.new ≡ string_bytes out.old ++ texts.why_text shape.now history.now breach seen.now) }
{
    match breach {
        Breach::Unlinked { .. } => out.push_str("it is not linked to that queue"),
        Breach::Unsent { .. } => out.push_str(
            "more such events were dequeued up to here than were enqueued in all",
        ),
        Breach::Early { .. } => out.push_str("no call that enqueued such an event had begun"),
        Breach::Overtaken { other, .. } => {
            write_overtaker_at(history, other, ", which was enqueued later", out)
        }
        Breach::Reordered { other, .. } => {
            write_overtaker_at(
                history,
                other,
                ", which was forwarded from a later one",
                out,
            )
        }
        Breach::Overfull { .. } => write_depth(depth_at(shape, seen.port), out),
        Breach::Crowded { .. } => write_bound(shape.bound(), out),
        Breach::Together { other, .. } => write_other(history, other, out),
    }
}

/// Writes the line that says what is broken.
fn write_words(
    shape: &Shape,
    history: &[Seen],
    breach: Breach,
    seen: &Seen,
    out: &mut String,
) -> Result<(), AllocError>
    ensures { OnOk result (string_bytes out.new ≡ string_bytes out.old ++ texts.words_text shape.now history.now breach seen.now) }
{
    write_place(place_of(breach) as u128 + 1, breach, out)?;
    write_got(seen.port, &event_in(&seen.deed), out)?;
    write_why(shape, history, breach, seen, out)?;
    out.push_str("\n")
}

/// The same by the entry at that place, if there is one.
fn write_words_at(
    shape: &Shape,
    history: &[Seen],
    breach: Breach,
    at: usize,
    out: &mut String,
) -> Result<(), AllocError>
    ensures { OnOk result (string_bytes out.new ≡ string_bytes out.old ++ texts.words_at shape.now history.now breach at) }
{
    match history.get(at) {
        Some(seen) => write_words(shape, history, breach, seen, out),
        None => Ok(()),
    }
}

/// Writes the line of the entry at that place, if there is one.
fn write_line(history: &[Seen], at: usize, out: &mut String) -> Result<(), AllocError>
    ensures { OnOk result (string_bytes out.new ≡ string_bytes out.old ++ texts.entry_line history.now at) }
{
    match history.get(at) {
        Some(seen) => write_entry(seen, out),
        None => Ok(()),
    }
}

/// Writes the line of the other entry that a breach needs, if it needs one.
fn write_other_line(history: &[Seen], breach: Breach, out: &mut String) -> Result<(), AllocError>
    ensures { OnOk result (string_bytes out.new ≡ string_bytes out.old ++ texts.other_line history.now breach) }
{
    match breach {
        Breach::Overtaken { other, .. }
        | Breach::Reordered { other, .. }
        | Breach::Together { other, .. } => write_line(history, other, out),
        Breach::Unlinked { .. }
        | Breach::Unsent { .. }
        | Breach::Early { .. }
        | Breach::Overfull { .. }
        | Breach::Crowded { .. } => Ok(()),
    }
}

/// Writes what is broken, and below it the lines of the history that show it.
fn write_breach(
    shape: &Shape,
    history: &[Seen],
    breach: Breach,
    out: &mut String,
) -> Result<(), AllocError>
    ensures { OnOk result (string_bytes out.new ≡ string_bytes out.old ++ texts.breach_text shape.now history.now breach) }
{
    let at = place_of(breach);
    write_words_at(shape, history, breach, at, out)?;
    write_line(history, at, out)?;
    write_other_line(history, breach, out)
}

/// Writes how many events weren't dequeued, and how many had the value of another.
fn write_counts(undelivered: usize, alike: usize, out: &mut String) -> Result<(), AllocError>
    ensures { OnOk result (string_bytes out.new ≡ string_bytes out.old ++ texts.counts_text undelivered alike) }
{
    write!(out, "undecided: not dequeued {undelivered}")?;
    write!(out, ", with the value of another {alike}")?;
    out.push_str("\n")
}

/// Whether there are any.
fn are_some(undelivered: usize, alike: usize) -> bool
    ensures { result ≡ texts.are_some undelivered alike }
{
    undelivered > 0 || alike > 0
}

/// The same, if there are any.
fn write_open(undelivered: usize, alike: usize, out: &mut String) -> Result<(), AllocError>
    ensures { OnOk result (string_bytes out.new ≡ string_bytes out.old ++ texts.open_text undelivered alike) }
{
    if are_some(undelivered, alike) {
        write_counts(undelivered, alike, out)
    } else {
        Ok(())
    }
}

/// Writes that nothing is broken, and what is left open.
fn write_no_breach(alloc: Global, history: &[Seen], out: &mut String) -> Result<(), AllocError>
    ensures { OnOk result (string_bytes out.new ≡ string_bytes out.old ++ texts.no_breach_text history.now) }
{
    let counts = count_undecided(alloc, history)?;
    out.push_str("no breach\n")?;
    write_open(counts.undelivered, counts.alike, out)
}

/// What is printed of what was found in a history.
pub(crate) fn found_text(
    alloc: Global,
    shape: &Shape,
    history: &[Seen],
    found: Option<Breach>,
) -> Result<String, AllocError>
    ensures { IfOk result (λ text. string_bytes text ≡ texts.found_text shape.now history.now found) }
{
    let mut out = String::new(alloc);
    match found {
        Some(breach) => write_breach(shape, history, breach, &mut out)?,
        None => write_no_breach(alloc, history, &mut out)?,
    }
    Ok(out)
}
