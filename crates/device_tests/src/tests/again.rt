//! Want of memory: what is refused is made again, and serves as if nothing had been refused.
//!
//! Each test tries a second time whatever it asks memory for, so that it passes whichever one of its allocations is refused.

use super::calls::{Call, play, stop};
use super::fault::RigFault;
use super::plans::Plan;
use super::rows::{ROWS, Row, other_of};
use event_device::{Device, DeviceFault, Report};
use evt_types::{Serving, Shape, ShapeFault, Step};
use std::alloc::Global;
use std::test::Fail;

fn shape_again(alloc: Global, plan: &Plan) -> Result<Shape, RigFault> {
    match plan.shape(alloc) {
        Err(RigFault::Memory(_) | RigFault::Shape(ShapeFault::Memory)) => plan.shape(alloc),
        made => made,
    }
}

/// A device, made of the configuration that came back where the first try was refused.
fn device_again(alloc: Global, plan: &Plan) -> Result<Device<Vec<Step>>, RigFault> {
    match Device::with_log(alloc, Vec::new(alloc), shape_again(alloc, plan)?) {
        Err(DeviceFault::Memory(shape)) => { Ok(Device::with_log(alloc, Vec::new(alloc), shape)?) }
        made => Ok(made?),
    }
}

/// Makes the calls, and one that was refused for want of memory a second time.
fn play_again(device: &mut Device<Vec<Step>>, calls: &[Call]) -> Result<(), RigFault> {
    for call in calls {
        match play(device, &[*call]) {
            Err(RigFault::Memory(_)) => play(device, &[*call])?,
            made => made?,
        }
    }
    Ok(())
}

fn stop_again(device: Device<Vec<Step>>) -> Result<Report, RigFault> {
    match device.stop() {
        Ok(report) => Ok(report),
        Err((_, device)) => stop(device),
    }
}

/// What the report says otherwise after the row's calls on a device of the plan.
fn other_in(alloc: Global, row: &Row, plan: &Plan) -> Result<Option<&'static str>, RigFault> {
    let mut device = device_again(alloc, plan)?;
    let played = play_again(&mut device, row.calls);
    let report = stop_again(device)?;
    let other = other_of(&report, row);
    drop(report);
    played?;
    Ok(other)
}

#[test]
fn what_is_refused_is_made_again(rt: HostRuntime) -> Result<(), Fail> {
    assert_each_row!(rt, other_in);
    Ok(())
}
