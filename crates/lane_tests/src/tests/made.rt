//! Deliveries and replies, which are known by their numbers.

ghost use Rattle.std.specs.Prelude.{◌≡◌};

use evt_types::{Delivery, Event, Op, PackedEvent, Reply};

fn event(op: Op, queue: u8, payload: u64) -> PackedEvent
    ensures { result.op ≡ op }
{
    PackedEvent::of(&Event {
        flow: 7,
        sub_type: 0,
        event_type: 0,
        op,
        queue,
        priority: 128,
        impl_opaque: 0,
        payload,
    })
}

/// The delivery of this number, of queue 3.
pub(crate) fn delivery(number: u64) -> Delivery {
    Delivery::new(event(Op::New, 3, number), number)
}

/// Its queue and its number.
pub(crate) fn pair(number: u64) -> (usize, u64) {
    (3, number)
}

/// The reply of this number.
pub(crate) fn reply(op: Op, number: u64) -> Reply
    ensures { result.event.op ≡ op }
{
    Reply {
        event: event(op, 0, number),
    }
}
