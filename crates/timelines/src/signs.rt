//! What is drawn for a step, element by element.

ghost use Rattle.std.specs.Prelude.{◌≡◌, ◌+◌, ◌++◌, ◌<◌, ◌^◌, OnOk, string_bytes};
ghost use Rattle.timelines.specs.Marks as marks;

use evt_types::Outcome;
use std::alloc::AllocError;

/// How a bar looks: its event waits in its queue, or is with a lane, where it may pin its flow.
#[derive(Clone, Copy, Debug, PartialEq, Eq)]
pub(crate) enum Look {
    Waits,
    Held,
    Pinned,
}

fn write_look(look: Look, out: &mut String) -> Result<(), AllocError>
    ensures { OnOk result (string_bytes out.new ≡ string_bytes out.old ++ marks.look_text look) }
{
    match look {
        Look::Waits => out.push_str("<rect class='w f"),
        Look::Held => out.push_str("<rect class='h f"),
        Look::Pinned => out.push_str("<rect class='h p f"),
    }
}

#[tactic(auto, unfolding(crate::specs::Marks::bar_text))]
pub(crate) fn write_bar(
    look: Look,
    flow: usize,
    x: u128,
    y: u64,
    width: u128,
    out: &mut String,
) -> Result<(), AllocError>
    ensures { OnOk result (string_bytes out.new ≡ string_bytes out.old ++ marks.bar_text look flow x y width) }
{
    write_look(look, out)?;
    write!(out, "{flow}")?;
    write!(out, "' x='{x}")?;
    write!(out, "' y='{y}")?;
    write!(out, "' width='{width}")?;
    out.push_str("' height='12' rx='2'/>")
}

/// Where a label begins in the bar at this place.
fn write_label_start(x: u128, y: u64, out: &mut String) -> Result<(), AllocError>
    requires left { x < 2 ^ 100 }
    requires top { y < 2 ^ 40 }
    ensures { OnOk result (string_bytes out.new ≡ string_bytes out.old ++ marks.label_start x y) }
{
    let (left, base) = (x + 5, y + 9);
    write!(out, "<text class='n' x='{left}' y='{base}'>")
}

/// The number of an event, in its bar.
#[tactic(auto, unfolding(crate::specs::Marks::number_label))]
pub(crate) fn write_number_label(
    x: u128,
    y: u64,
    number: usize,
    out: &mut String,
) -> Result<(), AllocError>
    requires left { x < 2 ^ 100 }
    requires top { y < 2 ^ 40 }
    ensures { OnOk result (string_bytes out.new ≡ string_bytes out.old ++ marks.number_label x y number) }
{
    write_label_start(x, y, out)?;
    write!(out, "#{number}</text>")
}

/// The queue and the number of an event, in its bar.
#[tactic(auto, unfolding(crate::specs::Marks::pair_label))]
pub(crate) fn write_pair_label(
    x: u128,
    y: u64,
    queue: usize,
    number: u64,
    out: &mut String,
) -> Result<(), AllocError>
    requires left { x < 2 ^ 100 }
    requires top { y < 2 ^ 40 }
    ensures { OnOk result (string_bytes out.new ≡ string_bytes out.old ++ marks.pair_label x y queue number) }
{
    write_label_start(x, y, out)?;
    write!(out, "q{queue} #{number}</text>")
}

fn write_line_start(kept: bool, out: &mut String) -> Result<(), AllocError>
    ensures { OnOk result (string_bytes out.new ≡ string_bytes out.old ++ marks.line_start kept) }
{
    if kept {
        out.push_str("<path class='d' d='M")
    } else {
        out.push_str("<path class='o' d='M")
    }
}

/// A line to where an event was accepted, from where it was passed on.
#[tactic(auto, unfolding(crate::specs::Marks::line_text))]
pub(crate) fn write_line(
    kept: bool,
    x: u128,
    y: u64,
    to_x: u128,
    to_y: u64,
    out: &mut String,
) -> Result<(), AllocError>
    ensures { OnOk result (string_bytes out.new ≡ string_bytes out.old ++ marks.line_text kept x y to_x to_y) }
{
    write_line_start(kept, out)?;
    write!(out, "{x} {y}L")?;
    write!(out, "{to_x} {to_y}'/>")
}

#[tactic(auto, unfolding(crate::specs::Marks::release_sign))]
fn write_release_sign(x: u128, y: u64, out: &mut String) -> Result<(), AllocError>
    requires { x < 2 ^ 100 }
    ensures { OnOk result (string_bytes out.new ≡ string_bytes out.old ++ marks.release_sign x y) }
{
    let left = x + 2;
    write!(out, "<path class='t' d='M{left} {y}v12'/>")
}

#[tactic(auto, unfolding(crate::specs::Marks::forward_sign))]
fn write_forward_sign(x: u128, y: u64, out: &mut String) -> Result<(), AllocError>
    ensures { OnOk result (string_bytes out.new ≡ string_bytes out.old ++ marks.forward_sign x y) }
{
    write!(out, "<path class='s' d='M{x} {y}l7 6l-7 6z'/>")
}

#[tactic(auto, unfolding(crate::specs::Marks::kept_sign))]
fn write_kept_sign(x: u128, y: u64, out: &mut String) -> Result<(), AllocError>
    requires { x < 2 ^ 100 }
    ensures { OnOk result (string_bytes out.new ≡ string_bytes out.old ++ marks.kept_sign x y) }
{
    let left = x + 4;
    write!(out, "<path class='k' d='M{left} {y}l4 6l-4 6l-4 -6z'/>")
}

#[tactic(auto, unfolding(crate::specs::Marks::more_sign))]
pub(crate) fn write_more_sign(x: u128, y: u64, out: &mut String) -> Result<(), AllocError>
    requires { x < 2 ^ 100 }
    ensures { OnOk result (string_bytes out.new ≡ string_bytes out.old ++ marks.more_sign x y) }
{
    let left = x + 4;
    write!(out, "<path class='t' d='M{left} {y}v8m-4 -4h8'/>")
}

#[tactic(auto, unfolding(crate::specs::Marks::turned_sign))]
pub(crate) fn write_turned_sign(x: u128, y: u64, out: &mut String) -> Result<(), AllocError>
    ensures { OnOk result (string_bytes out.new ≡ string_bytes out.old ++ marks.turned_sign x y) }
{
    write!(out, "<path class='t' d='M{x} {y}l8 8m0 -8l-8 8'/>")
}

#[tactic(auto, unfolding(crate::specs::Marks::bounced_sign))]
pub(crate) fn write_bounced_sign(x: u128, y: u64, out: &mut String) -> Result<(), AllocError>
    ensures { OnOk result (string_bytes out.new ≡ string_bytes out.old ++ marks.bounced_sign x y) }
{
    write!(out, "<path class='t' d='M{x} {y}l4 6l4 -6'/>")
}

#[tactic(auto, unfolding(crate::specs::Marks::shut_sign))]
pub(crate) fn write_shut_sign(x: u128, bottom: u32, out: &mut String) -> Result<(), AllocError>
    ensures { OnOk result (string_bytes out.new ≡ string_bytes out.old ++ marks.shut_sign x bottom) }
{
    write!(out, "<path class='e' d='M{x} 130V{bottom}'/>")
}

/// The sign of an answer, which is kept or not where it is a forward.
#[tactic(auto, unfolding(crate::specs::Marks::done_sign))]
pub(crate) fn write_done_sign(
    outcome: &Outcome,
    kept: bool,
    x: u128,
    y: u64,
    out: &mut String,
) -> Result<(), AllocError>
    requires { x < 2 ^ 100 }
    ensures { OnOk result (string_bytes out.new ≡ string_bytes out.old ++ marks.done_sign outcome.now kept x y) }
{
    match outcome {
        Outcome::Released => write_release_sign(x, y, out),
        Outcome::Forwarded(_) => {
            if kept {
                write_kept_sign(x, y, out)
            } else {
                write_forward_sign(x, y, out)
            }
        }
    }
}
