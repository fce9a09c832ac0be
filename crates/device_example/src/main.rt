//! A first event device: the main thread brings ten events in and sweeps, and a worker thread handles them.
#![tactic(auto)]

ghost use Rattle.std.specs.Prelude.{◌≡◌};
ghost use Rattle.event_device.specs.Device.{site_of};
ghost use Rattle.event_device.specs.Parts.{device_of};

mod config;
mod report;
mod worker;

use anyhow::{Result, anyhow, bail};
use config::{new_events, shape};
use event_device::{Device, Port};
use report::print_report;
use std::thread::{Threads, join};
use worker::work;

/// The main thread's part: it brings ten events in, sweeps until they are handled, and shuts the device, which ends the loop of the
/// worker. Port and device come back, with whether the events were handled.
fn bring_through(source: Port, device: Device) -> (Port, Device, bool)
    ensures source { site_of result.0 ≡ site_of source }
    ensures device { device_of result.1 ≡ device_of device }
{
    let (mut source, mut device) = (source, device);
    let (taken, _) = source.enqueue_burst(&new_events());
    let through = device.sweep_all(u64::MAX) == Ok(0);
    device.shut();
    (source, device, through && taken == 10)
}

/// Lends both ports, until the events are handled: the sum of their payloads. The device comes back.
fn run<R: Threads>(rt: &R, device: Device) -> (Device, Result<u64>) {
    let mut device = device;
    let (Some(source), Some(worker)) = (device.take_port(0), device.take_port(1)) else {
        return (device, Err(anyhow!("a port is lent")));
    };

    // A port is for one thread: the worker's moves into a thread of its own, and comes back at the join.
    let ((worker, sum), (source, mut device, through)) = join(
        rt,
        || work(worker),
        || bring_through(source, device),
    );

    // Both are proved to be the device's ports, and so the report accounts for each event and each credit.
    let source_back = device.put_back(source).is_ok();
    let worker_back = device.put_back(worker).is_ok();
    if through && source_back && worker_back {
        (device, Ok(sum))
    } else {
        (device, Err(anyhow!("the events aren't handled")))
    }
}

fn main(rt: HostRuntime) -> Result<()> {
    let alloc = rt.alloc();
    let Ok(device) = Device::new(alloc, shape(alloc)?) else {
        bail!("the device isn't made");
    };
    let (device, sum) = run(&rt, device);
    let Ok(report) = device.stop() else {
        bail!("the device isn't stopped");
    };
    print_report(&rt, sum?, &report)
}
