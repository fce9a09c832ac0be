//! What is printed of a device that was stopped.

use anyhow::Result;
use event_device::{Counted, LaneCounts, QueueCounts, Report, Tally};

/// Prints what was counted of the queue, and of the worker's lane.
fn print_counts(rt: &impl Print, log: &Tally<Counted>) -> Result<()> {
    let QueueCounts { rx_new, tx, .. } = log.queue(0);
    let LaneCounts { released, .. } = log.lane(1);
    println!(rt; "accepted {rx_new}, given {tx}, released {released}")?;
    Ok(())
}

/// Prints the sum of the payloads, what was counted, where the credits are, and what is left: a list of each place in which an event
/// could be.
pub fn print_report(rt: &impl Print, sum: u64, report: &Report<Tally<Counted>>) -> Result<()> {
    let Report {
        log,
        free,
        pockets,
        waiting,
        undelivered,
        held,
        untaken,
        ..
    } = report;
    println!(rt; "payloads {sum}")?;
    print_counts(rt, log)?;
    println!(rt; "free {free}, pockets {pockets:?}")?;
    println!(rt; "waiting {waiting:?}, undelivered {undelivered:?}")?;
    println!(rt; "held {held:?}, untaken {untaken:?}")?;
    Ok(())
}
