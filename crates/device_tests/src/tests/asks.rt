//! What is asked of a port, with what it must answer.

ghost use Rattle.std.specs.Prelude.{◌≡◌};
ghost use Rattle.event_device.specs.Device.{site_of};

use super::calls::Sent;
use event_device::{Behind, Deliveries, Port, PortCounts, Refused};
use evt_types::{Delivery, Op, PackedEvent, Reply};

/// Deliveries of queue 0, by their numbers; or why none came.
pub(crate) type Came = Result<&'static [(u64, Sent)], Behind>;

/// How many events of a burst are taken, and why the next isn't.
pub(crate) type Taken = (usize, Option<Refused>);

/// A call of a port, with what it must answer.
#[derive(Clone, Copy)]
pub(crate) enum Ask {
    Enqueue(Sent, Result<(), Refused>),
    EnqueueBurst([Sent; 3], Taken),
    EnqueuePacked([Sent; 3], Taken),
    Dequeue(usize, Came),
    DequeueBurst(usize, Came),
    Held(usize),
    Number(usize),
    ShutSeen(bool),
    Counts(PortCounts),
}

pub(crate) const RELEASE: Sent = Sent(Op::Release, 0, 0, 0);

pub(crate) const FORWARD: Sent = Sent(Op::Forward, 0, 7, 9);

/// Events for a queue that there isn't.
pub(crate) const NEW_TO_NONE: Sent = Sent(Op::New, 9, 7, 9);

pub(crate) const FORWARD_TO_NONE: Sent = Sent(Op::Forward, 9, 7, 9);

/// A RELEASE says nothing of a queue, so that this one goes to none either.
pub(crate) const RELEASE_TO_NONE: Sent = Sent(Op::Release, 200, 0, 0);

pub(crate) const NONE_FREE: Refused = Refused::Backpressure { free: 0 };

/// A port that counted nothing.
pub(crate) const NO_COUNTS: PortCounts = PortCounts {
    enqueued: 0,
    dequeued: 0,
    released: 0,
    stopped: 0,
    bad_queue: 0,
    nothing_held: 0,
    backpressure: 0,
    raced: 0,
    full: 0,
    too_many: 0,
    behind: 0,
};

/// Whether the deliveries are these of queue 0.
fn are(came: &[Delivery], wanted: &[(u64, Sent)]) -> bool {
    for (delivery, (number, sent)) in came.iter().zip(wanted.iter()) {
        let is_there = (delivery.queue(), delivery.number()) == (0, *number);
        if !is_there || delivery.event() != sent.event() {
            return false;
        }
    }
    came.len() == wanted.len()
}

fn enqueues_burst(port: &mut Port, sent: &[Sent; 3], wanted: &Taken) -> bool
    ensures { site_of port.new ≡ site_of port.old }
{
    let [first, second, third] = *sent;
    port.enqueue_burst(&[first.event(), second.event(), third.event()]) == *wanted
}

fn enqueues_packed(port: &mut Port, sent: &[Sent; 3], wanted: &Taken) -> bool
    ensures { site_of port.new ≡ site_of port.old }
{
    let [first, second, third] = *sent;
    let events = [
        Reply {
            event: PackedEvent::of(&first.event()),
        },
        Reply {
            event: PackedEvent::of(&second.event()),
        },
        Reply {
            event: PackedEvent::of(&third.event()),
        },
    ];
    port.enqueue_packed(&events) == *wanted
}

fn dequeues(port: &mut Port, most: usize, wanted: &Came) -> bool
    ensures { site_of port.new ≡ site_of port.old }
{
    match (port.dequeue(most), wanted) {
        (Ok(came), Ok(wanted)) => are(&came, wanted),
        (Err(behind), Err(wanted)) => behind == *wanted,
        _ => false,
    }
}

fn dequeues_burst(port: &mut Port, most: usize, wanted: &Came) -> bool
    ensures { site_of port.new ≡ site_of port.old }
{
    let mut came = Deliveries::new();
    match (port.dequeue_burst(most, &mut came), wanted) {
        (Ok(count), Ok(wanted)) => count == wanted.len() && are(came.as_slice(), wanted),
        (Err(behind), Err(wanted)) => behind == *wanted && came.len() == 0,
        _ => false,
    }
}

/// Whether the port answers as it must.
pub(crate) fn answers(port: &mut Port, ask: &Ask) -> bool
    ensures { site_of port.new ≡ site_of port.old }
{
    match ask {
        Ask::Enqueue(sent, wanted) => port.enqueue(sent.event()) == *wanted,
        Ask::EnqueueBurst(sent, wanted) => enqueues_burst(port, sent, wanted),
        Ask::EnqueuePacked(sent, wanted) => enqueues_packed(port, sent, wanted),
        Ask::Dequeue(most, wanted) => dequeues(port, *most, wanted),
        Ask::DequeueBurst(most, wanted) => dequeues_burst(port, *most, wanted),
        Ask::Held(wanted) => port.held() == *wanted,
        Ask::Number(wanted) => port.number() == *wanted,
        Ask::ShutSeen(wanted) => port.shut_seen() == *wanted,
        Ask::Counts(wanted) => port.counts() == *wanted,
    }
}
