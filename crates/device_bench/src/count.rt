//! How many events of a case go by.

ghost use Rattle.std.specs.Prelude.{◌≡◌, ◌*◌, [], IfOk};
ghost use Rattle.device_bench.specs.Rounds.{gifts_of, through};

use crate::bench::{Bench, Counts};
use crate::case::{Case, LogKind};
use crate::fault::BenchFault;
use event_device::{Counted, StepLog, Tally};
use std::alloc::Global;

/// So many bursts go through the device while its events are counted.
const ROUNDS: u64 = 20;

/// How many events went by, and how many were inside at the end.
#[derive(Clone, Copy)]
pub struct Passed {
    /// So many new events were enqueued.
    pub entered: u64,
    /// So many were given to the worker.
    pub given: u64,
    /// So many were released.
    pub released: u64,
    /// So many were inside at the end.
    pub inside: usize,
}

/// Lets some bursts of events go through the device, which is new.
fn count_in<L: StepLog>(bench: &mut Bench<L>) -> Result<Passed, BenchFault>
    requires { (bench.old.counts.entered ≡ 0) × (bench.old.counts.given ≡ 0) × (bench.old.counts.released ≡ 0) }
    ensures entered { IfOk result (λ p. p.entered ≡ ROUNDS * bench.old.burst.length) }
    ensures given { IfOk result (λ p. p.given ≡ ROUNDS * through bench.old) }
    ensures released { IfOk result (λ p. p.released ≡ ROUNDS * bench.old.burst.length) }
{
    bench.rounds(ROUNDS)?;
    let inside = bench.last_sweep()?;
    let Counts {
        entered,
        given,
        released,
    } = bench.counts;
    Ok(Passed {
        entered,
        given,
        released,
        inside,
    })
}

/// Lets some bursts of events of the case go through a device with this log.
fn count_with<L: StepLog>(
    alloc: Global,
    log: L,
    case: Case,
    burst: usize,
) -> Result<Passed, BenchFault>
    requires { L.steps log ≡ [] }
    ensures entered { IfOk result (λ p. p.entered ≡ ROUNDS * burst) }
    ensures given { IfOk result (λ p. p.given ≡ ROUNDS * (gifts_of case * burst)) }
    ensures released { IfOk result (λ p. p.released ≡ ROUNDS * burst) }
{
    let mut bench = Bench::new(alloc, log, case, burst)?;
    let passed = count_in(&mut bench);
    drop(bench);
    passed
}

/// Lets some bursts of events of the case go through a device.
pub fn count(alloc: Global, case: Case, burst: usize) -> Result<Passed, BenchFault>
    ensures entered { IfOk result (λ p. p.entered ≡ ROUNDS * burst) }
    ensures given { IfOk result (λ p. p.given ≡ ROUNDS * (gifts_of case * burst)) }
    ensures released { IfOk result (λ p. p.released ≡ ROUNDS * burst) }
{
    match case.log {
        LogKind::Counted => count_with(alloc, Counted::new(), case, burst),
        LogKind::Tally => {
            let log = Tally::new(alloc, Counted::new())?;
            count_with(alloc, log, case, burst)
        }
    }
}
