//! The worker thread.

ghost use Rattle.std.specs.Prelude.{◌≡◌};
ghost use Rattle.event_device.specs.Device.{site_of};

use event_device::{Deliveries, Port};
use evt_types::Delivery;
use std::thread::yield_now;

/// How many events the worker dequeues at once.
const BURST: usize = 4;

/// The sum, with the payloads of these events.
fn with_payloads(sum: u64, deliveries: &[Delivery]) -> u64 {
    let mut sum = sum;
    for delivery in deliveries {
        sum = sum.wrapping_add(delivery.event().payload);
    }
    sum
}

/// Handles events until the device is shut, and gives the port back with the sum of their payloads. What it doesn't answer the next
/// dequeue releases.
pub fn work(port: Port) -> (Port, u64)
    ensures { site_of result.0 ≡ site_of port }
{
    let (mut port, mut sum) = (port, 0);
    let mut deliveries = Deliveries::new();
    for _ in 0..u64::MAX {
        if port.shut_seen() {
            break;
        }
        match port.dequeue_burst(BURST, &mut deliveries) {
            Ok(count) if count > 0 => sum = with_payloads(sum, deliveries.as_slice()),
            _ => yield_now(),
        }
    }
    (port, sum)
}
