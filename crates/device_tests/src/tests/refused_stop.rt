//! A stop that is refused, since a port is away, changes nothing: once all are back every call answers as it would have without, and
//! the report is the same.

use super::calls::{play, stop};
use super::fault::RigFault;
use super::plans::Plan;
use super::rows::{ROWS, Row, other_of};
use event_device::{Device, NotStopped};
use evt_types::{Serving, Step};
use std::alloc::Global;
use std::test::Fail;

/// The device, whose stop was refused while its port of this number was away, which the refusal named; `None` where it wasn't so.
fn refused_without(mut device: Device<Vec<Step>>, number: usize) -> Option<Device<Vec<Step>>> {
    let port = device.take_port(number)?;
    let Err((why, mut device)) = device.stop() else {
        return None;
    };
    let is_back = device.put_back(port).is_ok();
    let is_named = why == NotStopped::PortLent { port: number };
    if is_back && is_named {
        Some(device)
    } else {
        None
    }
}

/// What the report says otherwise after a stop that was refused for each of the ports, and the row's calls.
fn other_in(alloc: Global, row: &Row, plan: &Plan) -> Result<Option<&'static str>, RigFault> {
    let mut device = Device::with_log(alloc, Vec::new(alloc), plan.shape(alloc)?)?;
    for number in 0..plan.ports.len() {
        let Some(same) = refused_without(device, number) else {
            return Ok(Some("refusal"));
        };
        device = same;
    }
    let played = play(&mut device, row.calls);
    let report = stop(device)?;
    played?;
    Ok(other_of(&report, row))
}

#[test]
fn a_refused_stop_changes_nothing(rt: HostRuntime) -> Result<(), Fail> {
    assert_each_row!(rt, other_in);
    Ok(())
}
