//! The calls that one thread makes on a device.

ghost use Rattle.std.specs.Prelude.{◌≡◌};
ghost use Rattle.event_device.specs.Device.{site_of};

use super::fault::RigFault;
use event_device::{Deliveries, Device, Memory, Port, PortCounts, Refused, Report, StepLog, Swept};
use evt_types::{Delivery, Event, Op, Step};

/// An event of a middle priority that a port enqueues: operation, queue, flow and payload.
#[derive(Clone, Copy)]
pub(crate) struct Sent(pub(crate) Op, pub(crate) u8, pub(crate) u8, pub(crate) u64);

impl Sent {
    pub(crate) fn event(self) -> Event {
        let Sent(op, queue, flow, payload) = self;
        Event {
            flow: u32::from(flow),
            sub_type: 0,
            event_type: 0,
            op,
            queue,
            priority: 128,
            impl_opaque: 0,
            payload,
        }
    }
}

/// A call, with what must come of it. A port is named by its number.
#[derive(Clone, Copy)]
pub(crate) enum Call {
    /// The port enqueues the event, and it is taken.
    Enqueue(usize, Sent),
    /// The port enqueues the event and is refused so: what it holds stays, and of what it counts the refusals alone go up by one.
    Refuse(usize, Sent, Refused),
    /// The port dequeues at most so many events; those that come are queue 0's, by their numbers.
    Dequeue(usize, usize, &'static [(u64, Sent)]),
    /// One sweep takes so many replies, gives so many events, and finds no ring full.
    Sweep(usize, usize),
    /// The control shuts the device.
    Shut,
}

/// Makes the calls.
pub(crate) fn play(device: &mut Device<Vec<Step>>, calls: &[Call]) -> Result<(), RigFault> {
    for (place, call) in calls.iter().enumerate() {
        if !make(device, *call)? {
            return Err(RigFault::Unexpected { place });
        }
    }
    Ok(())
}

/// Makes the call: whether that came of it which must.
fn make(device: &mut Device<Vec<Step>>, call: Call) -> Result<bool, Memory> {
    match call {
        Call::Enqueue(port, sent) => Ok(enqueue(device, port, sent.event()) == Some(Ok(()))),
        Call::Refuse(port, sent, refused) => Ok(is_refused(device, port, sent.event(), refused)),
        Call::Dequeue(port, most, wanted) => Ok(is_dequeued(device, port, most, wanted)),
        Call::Sweep(taken, given) => {
            let wanted = Swept {
                taken,
                given,
                bounced: 0,
            };
            Ok(device.sweep()? == wanted)
        }
        Call::Shut => Ok(device.shut()),
    }
}

/// The port of this number enqueues the event; `None` where it isn't at home.
fn enqueue(
    device: &mut Device<Vec<Step>>,
    number: usize,
    event: Event,
) -> Option<Result<(), Refused>> {
    let mut port = device.take_port(number)?;
    let answer = port.enqueue(event);
    device.put_back(port).ok()?;
    Some(answer)
}

/// The counts after one refusal more, of a NEW that came late or of an event for a queue that isn't there.
fn counted(counts: PortCounts, refused: Refused) -> PortCounts {
    match refused {
        Refused::Stopped => PortCounts {
            stopped: counts.stopped.saturating_add(1),
            ..counts
        },
        Refused::BadQueue => PortCounts {
            bad_queue: counts.bad_queue.saturating_add(1),
            ..counts
        },
        _ => counts,
    }
}

/// Whether the port refuses the event so, and changes nothing beside.
fn refuses(port: &mut Port, event: Event, refused: Refused) -> bool
    ensures { site_of port.new ≡ site_of port.old }
{
    let (held, counts) = (port.held(), port.counts());
    let answer = port.enqueue(event);
    answer == Err(refused) && port.held() == held && port.counts() == counted(counts, refused)
}

/// Whether the port of this number refuses the event so.
fn is_refused(
    device: &mut Device<Vec<Step>>,
    number: usize,
    event: Event,
    refused: Refused,
) -> bool {
    let Some(mut port) = device.take_port(number) else {
        return false;
    };
    let is_so = refuses(&mut port, event, refused);
    let is_back = device.put_back(port).is_ok();
    is_back && is_so
}

/// Whether the port of this number dequeues these events of queue 0.
fn is_dequeued(
    device: &mut Device<Vec<Step>>,
    number: usize,
    most: usize,
    wanted: &[(u64, Sent)],
) -> bool {
    let Some(mut port) = device.take_port(number) else {
        return false;
    };
    let mut came = Deliveries::new();
    let answer = port.dequeue_burst(most, &mut came);
    let is_back = device.put_back(port).is_ok();
    is_back && answer.is_ok() && are_queue_zeros(came.as_slice(), wanted)
}

/// Whether the deliveries are these of queue 0.
fn are_queue_zeros(deliveries: &[Delivery], wanted: &[(u64, Sent)]) -> bool {
    for (delivery, (number, sent)) in deliveries.iter().zip(wanted.iter()) {
        let is_there = (delivery.queue(), delivery.number()) == (0, *number);
        if !is_there || delivery.event() != sent.event() {
            return false;
        }
    }
    deliveries.len() == wanted.len()
}

/// Stops the device.
pub(crate) fn stop<L: StepLog>(device: Device<L>) -> Result<Report<L>, RigFault> {
    match device.stop() {
        Ok(report) => Ok(report),
        Err((why, device)) => {
            drop(device);
            Err(RigFault::Stop(why))
        }
    }
}
