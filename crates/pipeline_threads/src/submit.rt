//! Events are enqueued, as often as it takes.

ghost use Rattle.std.specs.Prelude.{◌≡◌, IsTrue};
ghost use Rattle.event_ports.specs.Lanes.{SubmitsAll};
ghost use Rattle.event_ports.specs.Ports.{counts_of, hand};
ghost use Rattle.event_device.specs.Device.{site_of};
ghost use Rattle.pipeline_threads.specs.Ports.{SubmitsFront};

use crate::patience::Patience;
use event_device::{Port, Refused};
use evt_types::Event;
use std::sync::Wait;

/// Enqueues the events in their order, from the first that is refused again where credits or room are lacking, until all are taken or
/// the device is seen shut: whether all were taken. After any other refusal no more is tried.
pub(crate) fn submit_all<R: Wait>(rt: &R, port: &mut Port, events: &[Event]) -> bool
    ensures site { site_of port.new ≡ site_of port.old }
    ensures all { IsTrue result → SubmitsAll events.now (hand port.old) (hand port.new) }
    ensures front { SubmitsFront events.now (hand port.old) (hand port.new) }
    ensures dequeued { (counts_of port.new).dequeued ≡ (counts_of port.old).dequeued }
{
    let mut patience = Patience::new();
    let mut sent = 0;
    for _ in rt.forever() {
        let (taken, end) = port.enqueue_burst(&events[sent..]);
        sent += taken;
        match end {
            None => return true,
            Some(Refused::Backpressure { .. } | Refused::Raced { .. } | Refused::Full) => {
                if port.shut_seen() {
                    return false;
                }
            }
            Some(Refused::Stopped | Refused::BadQueue | Refused::NothingHeld | Refused::TooMany) =>
                return false,
        }
        patience.wait();
    }
    unreachable!()
}
