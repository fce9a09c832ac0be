//! Objects and their lines.

ghost use Rattle.std.specs.Prelude.{◌≡◌, ◌++◌, false, IfOk, OnOk, string_bytes};
ghost use Rattle.serde_json.specs.View.{view};
ghost use Rattle.serde_json.specs.Written.{has_float};
ghost use Rattle.evt_types.specs.Plan.{queue_in};
ghost use Rattle.json_lines.specs.Lines as lines;

use evt_types::{Event, Kind, Op, QueueDraft};
use serde_json::{Value, json};
use std::alloc::{AllocError, Global};

/// The line of an object.
pub(crate) fn write_line(alloc: Global, object: &Value, out: &mut String) -> Result<(), AllocError>
    requires { has_float (view object.now) ≡ false }
    ensures { OnOk result (string_bytes out.new ≡ string_bytes out.old ++ lines.line (view object.now)) }
{
    let text = object.to_string(alloc)?;
    out.push_str(&text)?;
    out.push_str("\n")
}

/// The scheduling type of the queue; of one that isn't there, `Parallel`.
fn kind_of(queues: &[QueueDraft], queue: u8) -> Kind
    ensures { result ≡ (queue_in queues.now queue).kind }
{
    match queues.get(usize::from(queue)) {
        Some(draft) => draft.kind,
        None => Kind::Parallel,
    }
}

fn kind_name(kind: Kind) -> &'static str
    ensures { result.now ≡ lines.kind_name kind }
{
    match kind {
        Kind::Ordered => "ordered",
        Kind::Atomic => "atomic",
        Kind::Parallel => "parallel",
    }
}

pub(crate) fn op_name(op: Op) -> &'static str
    ensures { result.now ≡ lines.op_name op }
{
    match op {
        Op::New => "new",
        Op::Forward => "forward",
        Op::Release => "release",
        Op::ForwardMore => "forward-more",
    }
}

pub(crate) fn event_object(
    alloc: Global,
    queues: &[QueueDraft],
    event: &Event,
) -> Result<Value, AllocError>
    ensures { IfOk result (λ v. view v ≡ lines.event_object queues.now event.now) }
{
    let kind = kind_of(queues, event.queue);
    json!(in alloc; {
        "event_type": event.event_type,
        "flow": event.flow,
        "impl_opaque": event.impl_opaque,
        "op": op_name(event.op),
        "payload": event.payload,
        "priority": event.priority,
        "queue": event.queue,
        "sched_type": kind_name(kind),
        "sub_type": event.sub_type,
    })
}
