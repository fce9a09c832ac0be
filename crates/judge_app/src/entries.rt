//! The line of an entry of a history.

ghost use Rattle.std.specs.Prelude.{◌≡◌, ◌++◌, [], OnOk, string_bytes};
ghost use Rattle.history_reading.specs.Texts.{deed_text, event_text, line_text, op_text};

use evt_types::{Event, Op};
use history_judge::{Deed, Seen};
use std::alloc::AllocError;

fn write_op(op: Op, out: &mut String) -> Result<(), AllocError>
    ensures { OnOk result (string_bytes out.new ≡ string_bytes out.old ++ op_text op) }
{
    match op {
        Op::New => out.push_str("new"),
        Op::Forward => out.push_str("forward"),
        Op::Release => out.push_str("release"),
        Op::ForwardMore => out.push_str("forward-more"),
    }
}

/// Writes the fields of an event behind its operation, and the line's end.
fn write_fields(event: &Event, out: &mut String) -> Result<(), AllocError>
    ensures { OnOk result (string_bytes out.new ≡ string_bytes out.old ++ event_text event.now []) }
{
    write!(out, "\",\"queue\":{}", event.queue)?;
    write!(out, ",\"flow\":{}", event.flow)?;
    write!(out, ",\"sub_type\":{}", event.sub_type)?;
    write!(out, ",\"event_type\":{}", event.event_type)?;
    write!(out, ",\"priority\":{}", event.priority)?;
    write!(out, ",\"payload\":{}", event.payload)?;
    out.push_str("}\n")
}

/// Writes an event, from its operation to the line's end.
fn write_event(event: &Event, out: &mut String) -> Result<(), AllocError>
    ensures { OnOk result (string_bytes out.new ≡ string_bytes out.old ++ (op_text event.now.op ++ event_text event.now [])) }
{
    write_op(event.op, out)?;
    write_fields(event, out)
}

/// Writes what a call did with an event, to the line's end.
fn write_deed(deed: &Deed, out: &mut String) -> Result<(), AllocError>
    ensures { OnOk result (string_bytes out.new ≡ string_bytes out.old ++ deed_text deed.now []) }
{
    match deed {
        Deed::Sent(reply) => {
            out.push_str(",\"sent\":\"")?;
            write_event(&reply.event.unpack(), out)
        }
        Deed::Got(event) => {
            out.push_str(",\"got\":\"")?;
            write_event(event, out)
        }
    }
}

/// Writes the line of an entry, as a history has it.
pub(crate) fn write_entry(seen: &Seen, out: &mut String) -> Result<(), AllocError>
    ensures { OnOk result (string_bytes out.new ≡ string_bytes out.old ++ line_text seen.now []) }
{
    out.push_str("{\"port\":")?;
    write!(out, "{}", seen.port)?;
    write!(out, ",\"began\":{}", seen.began)?;
    write!(out, ",\"ended\":{}", seen.ended)?;
    write_deed(&seen.deed, out)
}
