//! An event's part of a line.

ghost use Rattle.std.specs.Prelude.{◌≡◌, ◌<◌, ◌^◌, ℕ, List, ◌++◌, IfOk};
ghost use Rattle.evt_types.specs.declared.event.Event.{Event as EventValue};
ghost use Rattle.evt_types.specs.declared.event.Op.{Op as OpValue};
ghost use Rattle.history_reading.specs.Causes.{Reads};
ghost use Rattle.history_reading.specs.Texts.{IsEvent, event_text, op_text};

use crate::fault::{Cause, Key};
use crate::field::{behind, field};
use evt_types::{Event, Op};

const MAX_FLOW: u64 = 1_048_575;

/// The operation whose name the text begins with, and what stands behind it.
pub(crate) fn op_at(text: &[u8]) -> Result<(Op, &[u8]), Cause>
    ensures ok { IfOk result (λ r. text.now ≡ op_text r.0 ++ r.1.now) }
    ensures only { (o : OpValue) (e : EventValue) (more : List ℕ) → text.now ≡ op_text o ++ event_text e more → Reads result o (event_text e more) }
{
    if let Some(rest) = behind(text, b"new") {
        return Ok((Op::New, rest));
    }
    if let Some(rest) = behind(text, b"forward-more") {
        return Ok((Op::ForwardMore, rest));
    }
    if let Some(rest) = behind(text, b"forward") {
        return Ok((Op::Forward, rest));
    }
    if let Some(rest) = behind(text, b"release") {
        return Ok((Op::Release, rest));
    }
    Err(Cause::Operation)
}

/// The event of this operation whose other fields, up to the line's end, the text begins with, and what stands behind that.
pub(crate) fn event_at(text: &[u8], op: Op) -> Result<(Event, &[u8]), Cause>
    ensures ok { IfOk result (λ r. text.now ≡ event_text r.0 r.1.now) }
    ensures op { IfOk result (λ r. r.0.op ≡ op) }
    ensures there { IfOk result (λ r. IsEvent r.0) }
    ensures only { (e : EventValue) (more : List ℕ) → IsEvent e → e.op ≡ op → text.now ≡ event_text e more → Reads result e more }
{
    let (queue, rest) = field(text, b"\",\"queue\":", Key::Queue, 255)?;
    let (flow, rest) = field(rest, b",\"flow\":", Key::Flow, MAX_FLOW)?;
    let (sub_type, rest) = field(rest, b",\"sub_type\":", Key::SubType, 255)?;
    let (event_type, rest) = field(rest, b",\"event_type\":", Key::EventType, 15)?;
    let (priority, rest) = field(rest, b",\"priority\":", Key::Priority, 255)?;
    let (payload, rest) = field(rest, b",\"payload\":", Key::Payload, u64::MAX)?;
    let Some(rest) = behind(rest, b"}\n") else {
        return Err(Cause::Missing { key: Key::End });
    };
    let event = Event {
        flow: flow as u32,
        sub_type: sub_type as u8,
        event_type: event_type as u8,
        op,
        queue: queue as u8,
        priority: priority as u8,
        impl_opaque: 0,
        payload,
    };
    Ok((event, rest))
}
