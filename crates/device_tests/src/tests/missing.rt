//! A stop without a port names it, and all parts come back: given all ports then, the report is that of a device in which nothing
//! happened.

use super::left::{Left, NOTHING};
use super::rigs::{PLAIN, new_device};
use super::steps::is_log;
use std::test::Fail;

/// All credits are free.
const EMPTY: Left = Left {
    free: 4,
    pockets: &[0, 0],
    ..NOTHING
};

#[test]
fn a_stop_without_a_port_changes_nothing(rt: HostRuntime) -> Result<(), Fail> {
    let report = new_device(rt.alloc(), &PLAIN, true)?.stop(rt.alloc())?;
    assert!(rt; is_log(&report.log, &[]));
    assert_eq!(rt; EMPTY.other_in(&report), None);
    Ok(())
}
