//! The lines and statuses of the faults that no short document shows.

use arrayvec::ArrayString;
use command_line::{AppFault, fault_line};
use play_documents::DocFault;
use std::process::Abort;

/// Faults without a log, with their lines and statuses.
const FAULTS: [(AppFault, &str, u8); 6] = [
    (AppFault::Read, "evsched: read failed", 3),
    (AppFault::Write, "evsched: write failed", 3),
    (AppFault::Memory, "evsched: out of memory or seats", 5),
    (AppFault::NoSeat, "evsched: out of memory or seats", 5),
    (
        AppFault::Document(DocFault::TooLong),
        "evsched: document: TooLong",
        4,
    ),
    (
        AppFault::Document(DocFault::BadCommand(4294967295)),
        "evsched: document: BadCommand 4294967295",
        4,
    ),
];

/// The fault has this line and status.
fn prints(rt: &impl Abort, fault: &AppFault, line: &str, status: u8) {
    let mut out = ArrayString::new();
    out.push_str("old");
    assert_eq!(rt; fault_line(fault, &mut out), status);
    assert_eq!(rt; out.as_str(), line);
}

#[test]
fn prints_each_fault(rt: HostRuntime) {
    for (fault, line, status) in &FAULTS {
        prints(&rt, fault, line, *status);
    }
}

#[test]
fn prints_a_stray(rt: HostRuntime) {
    let log = Vec::new(rt.alloc());
    prints(&rt, &AppFault::Strayed(log), "evsched: a worker strayed", 6);
}
