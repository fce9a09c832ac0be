//! A producer, workers and the scheduler, each in a thread of its own, pass many events from queue to queue.

ghost use Rattle.std.specs.Prelude.{◌≡◌};
ghost use Rattle.std.specs.Thread.{IsSync};
ghost use Rattle.event_device.specs.Device.{site_of};
ghost use Rattle.event_device.specs.Parts.{device_of};

use event_device::{Deliveries, Device, Port, Refused};
use evt_types::{Delivery, Event, MAX_PORTS, Op};
use std::thread::{Threads, join, yield_now};

/// How often in a row a thread tries in vain, or sweeps with nothing to do, before it gives up.
const PATIENCE: u32 = 20_000_000;

/// How many events a worker takes at once.
const BATCH: usize = 4;

/// When the device is shut.
#[derive(Clone, Copy)]
pub(crate) enum End {
    /// Once so many events were accepted, while the ports work on; no sweep sees it.
    Accepted(u64),
    /// Once all have come and gone.
    Through,
}

/// What the threads do.
#[derive(Clone, Copy)]
pub(crate) struct Task {
    /// How many events the producer brings in.
    pub events: u32,
    /// The queue after which an event ends.
    pub last: u8,
    pub end: End,
}

/// The event that the producer brings in with this payload.
fn event(payload: u32) -> Event {
    Event {
        flow: payload % 32,
        sub_type: 0,
        event_type: 0,
        op: Op::New,
        queue: 0,
        // All levels come up in each flow.
        priority: (payload % 251) as u8,
        impl_opaque: 0,
        payload: u64::from(payload),
    }
}

/// Enqueues the event, where others may have to make room or to bring credits first, until the device is shut; whether it was taken.
fn enqueue(port: &mut Port, event: Event) -> bool
    ensures { site_of port.new ≡ site_of port.old }
{
    for _ in 0..PATIENCE {
        match port.enqueue(event) {
            Ok(()) => return true,
            Err(Refused::Backpressure { .. } | Refused::Raced { .. } | Refused::Full) => {
                if port.shut_seen() {
                    return false;
                }
                yield_now();
            }
            Err(Refused::Stopped | Refused::BadQueue | Refused::NothingHeld | Refused::TooMany) =>
                return false,
        }
    }
    false
}

/// Brings all events in.
fn produce(port: Port, events: u32) -> Port
    ensures { site_of result ≡ site_of port }
{
    let mut port = port;
    for payload in 0..events {
        if !enqueue(&mut port, event(payload)) {
            break;
        }
    }
    port
}

/// What a worker answers: the event passed on to the next queue, and ended after the last.
fn answer_to(delivery: &Delivery, last: u8) -> Event {
    let next = delivery.queue().saturating_add(1);
    if next <= usize::from(last) {
        let event = delivery.event();
        event.forwarded(next as u8, event.payload)
    } else {
        Event::release()
    }
}

/// Answers the deliveries, oldest first.
fn answer(port: &mut Port, deliveries: &[Delivery], last: u8)
    ensures { site_of port.new ≡ site_of port.old }
{
    for delivery in deliveries {
        if !enqueue(port, answer_to(delivery, last)) {
            return;
        }
    }
}

/// Answers what the port dequeues until the device is shut, and lets others run where nothing came.
fn work(port: Port, last: u8) -> Port
    ensures { site_of result ≡ site_of port }
{
    let mut port = port;
    let mut deliveries = Deliveries::new();
    for _ in 0..u64::MAX {
        if port.shut_seen() {
            break;
        }
        match port.dequeue_burst(BATCH, &mut deliveries) {
            Ok(count) if count > 0 => answer(&mut port, deliveries.as_slice(), last),
            _ => yield_now(),
        }
    }
    port
}

/// Port 0 brings the events in, the others answer them until the device is shut.
fn use_port(port: Port, task: Task) -> Port
    ensures { site_of result ≡ site_of port }
{
    if port.number() == 0 {
        produce(port, task.events)
    } else {
        work(port, task.last)
    }
}

/// Whether the device is to be shut.
fn is_reached(device: &Device, task: Task) -> bool {
    let accepted = device.accepted_new();
    match task.end {
        End::Accepted(count) => accepted >= count,
        End::Through => accepted == u64::from(task.events) && device.inside() == 0,
    }
}

/// Sweeps until the end is reached, and shuts the device.
fn schedule(device: &mut Device, task: Task)
    ensures { device_of device.new ≡ device_of device.old }
{
    let mut idle = 0;
    for _ in 0..u64::MAX {
        if is_reached(device, task) {
            break;
        }
        match device.sweep() {
            Ok(swept) if swept.taken > 0 || swept.given > 0 => idle = 0,
            Ok(_) if idle < PATIENCE => {
                idle += 1;
                yield_now();
            }
            _ => break,
        }
    }
    device.shut();
}

/// Runs each port below this number in a thread of its own, and the scheduler in this one.
fn run_below<R: Threads + Sync>(rt: &R, number: usize, device: Device, task: Task) -> Device
    ensures { device_of result ≡ device_of device }
{
    let mut device = device;
    if number == 0 {
        schedule(&mut device, task);
        return device;
    }
    let below = number - 1;
    let Some(port) = device.take_port(below) else {
        return run_below(rt, below, device, task);
    };
    let (port, mut device) = join(
        rt,
        || use_port(port, task),
        move || -> Device
            requires { IsSync R.row }
            ensures { device_of result ≡ device_of device }
        { run_below(rt, below, device, task) },
    );
    // Where it doesn't come back the stop names it as lent.
    let _ = device.put_back(port);
    device
}

/// Runs the ports, and the scheduler in this thread, until the device is shut.
pub(crate) fn run<R: Threads + Sync>(rt: &R, device: Device, task: Task) -> Device {
    run_below(rt, MAX_PORTS, device, task)
}
