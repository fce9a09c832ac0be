//! Events as C has them.

ghost use Rattle.std.specs.Prelude.{◌≡◌, ◌++◌, ◌≤◌, length, map, drop, take};
ghost use Rattle.std.specs.List.{AllZip};
ghost use Rattle.evt_types.specs.declared.event.Reply.{Reply as ReplyValue};
ghost use Rattle.event_handles.specs.Events.{IsRead, c_event, kind_in, written, written_in};

use evt_types::{Delivery, Event, Kind, MAX_QUEUES, PackedEvent, Reply};

/// An event of C, with the layout of `struct rte_event`.
#[repr(C)]
#[derive(Clone, Copy, Default)]
pub struct CEvent {
    /// The event word, from the lowest bit up: flow (20 bits), sub type (8), event type (4), operation (2), reserved (4), scheduling
    /// type (2), queue (8), priority (8), impl_opaque (8).
    pub word: u64,
    /// A number or a pointer of the program's own.
    pub payload: u64,
}

/// An event that a stop found in the device.
#[repr(C)]
#[derive(Clone, Copy, Default)]
pub struct CLeft {
    pub event: CEvent,
    /// The number that it was accepted under; 0 in the parts 3 and 4.
    pub number: u64,
    /// 0: it waits in a queue. 1: a queue keeps it. 2: it wasn't received from a lane. 3: it wasn't taken from a lane. 4: it was turned
    /// away.
    pub part: u64,
    /// That queue or lane.
    pub lane: u64,
}

/// The event that is enqueued. The reserved bits and the scheduling type aren't judged: programs leave them unset.
#[inline(always)]
pub(crate) fn read(given: &CEvent) -> PackedEvent
    ensures { IsRead given.now result }
{
    PackedEvent::of_words(given.word, given.payload)
}

/// An event with a scheduling type, as C has it.
pub(crate) fn c_event(event: &Event, kind: Kind) -> CEvent
    ensures { result ≡ c_event event.now kind }
{
    CEvent {
        word: event.word(kind),
        payload: event.payload,
    }
}

/// A delivery to a program. It is a FORWARD, so that an event which comes back untouched is passed on and isn't a NEW.
#[inline(always)]
pub(crate) fn write(delivery: &Delivery, kind: Kind) -> CEvent
    ensures { result ≡ written delivery.now kind }
{
    let event = delivery.packed().to_forward();
    CEvent {
        word: event.word(kind),
        payload: event.payload(),
    }
}

/// The scheduling type of the queue, where it is one of these.
pub(crate) fn kind_at(kinds: &[Kind; MAX_QUEUES], queue: usize) -> Kind
    ensures { result ≡ kind_in kinds.now queue }
{
    if queue < MAX_QUEUES {
        kinds[queue]
    } else {
        Kind::Parallel
    }
}

/// Reads the events into the front of the array, each in the reply that carries it.
pub(crate) fn read_all(given: &[CEvent], replies: &mut [Reply])
    requires { length given.now ≤ length replies.old }
    ensures { AllZip IsRead given.now (map (λ (r : ReplyValue). r.event) (take (length given.now) replies.new)) }
{
    for (index, event) in given.iter().enumerate() {
        replies[index] = Reply { event: read(event) };
    }
}

/// Writes the deliveries to the front of the array, each with the scheduling type of its queue.
pub(crate) fn write_all(deliveries: &[Delivery], kinds: &[Kind; MAX_QUEUES], out: &mut [CEvent])
    requires { length deliveries.now ≤ length out.old }
    ensures { out.new ≡ map (written_in kinds.now) deliveries.now ++ drop (length deliveries.now) out.old }
{
    for (index, delivery) in deliveries.iter().enumerate() {
        out[index] = write(delivery, kind_at(kinds, delivery.queue()));
    }
}
