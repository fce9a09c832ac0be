//! How long the events of a case take.

ghost use Rattle.std.specs.Prelude.{◌≡◌, []};

use crate::bench::Bench;
use crate::case::{Case, LogKind};
use crate::fault::BenchFault;
use event_device::{Counted, StepLog, Tally};
use std::alloc::Global;
use std::fmt;
use std::time::{CpuClock, Duration};

/// So many events go through the device while it is measured.
const ALL_EVENTS: u64 = 1_000_000;
/// So many of them are the first, and so many the last, whose times are compared.
const END_EVENTS: u64 = 100_000;

/// A time for each event.
#[derive(Clone, Copy)]
pub struct PerEvent {
    tenths_of_ns: u128,
}

impl PerEvent {
    /// Where so many events took this time.
    fn of(time: Duration, events: u64) -> PerEvent {
        let events = u128::from(events);
        PerEvent {
            tenths_of_ns: time
                .as_nanos()
                .saturating_mul(10)
                .checked_div(events)
                .unwrap_or(0),
        }
    }
}

impl fmt::Display for PerEvent {
    fn fmt<W: fmt::Write>(&self, f: &mut fmt::Formatter<W>) -> fmt::Result {
        let whole = self.tenths_of_ns / 10;
        let tenths = self.tenths_of_ns % 10;
        write!(f, "{whole}.{tenths}")
    }
}

/// What an event took of all, of the first and of the last events.
#[derive(Clone, Copy)]
pub struct Times {
    pub all: PerEvent,
    pub first: PerEvent,
    pub last: PerEvent,
}

/// The processor time in which so many events go through.
fn timed<L: StepLog>(
    clock: &impl CpuClock,
    bench: &mut Bench<L>,
    rounds: u64,
) -> Result<Duration, BenchFault> {
    let Ok(start) = clock.thread_cpu_time() else {
        return Err(BenchFault::Clock);
    };
    bench.rounds(rounds)?;
    let Ok(end) = clock.thread_cpu_time() else {
        return Err(BenchFault::Clock);
    };
    Ok(end.saturating_sub(start))
}

/// How long an event takes that goes through this device in bursts of this length.
fn measure_in<L: StepLog>(
    clock: &impl CpuClock,
    bench: &mut Bench<L>,
    burst: usize,
) -> Result<Times, BenchFault> {
    let rounds = |events: u64| events.checked_div(burst as u64).unwrap_or(0);
    let first = timed(clock, bench, rounds(END_EVENTS))?;
    let middle = timed(clock, bench, rounds(ALL_EVENTS - 2 * END_EVENTS))?;
    let last = timed(clock, bench, rounds(END_EVENTS))?;
    let all = first.saturating_add(middle).saturating_add(last);
    Ok(Times {
        all: PerEvent::of(all, ALL_EVENTS),
        first: PerEvent::of(first, END_EVENTS),
        last: PerEvent::of(last, END_EVENTS),
    })
}

/// How long an event of the case takes where the device has this log.
fn measure_with<L: StepLog>(
    clock: &impl CpuClock,
    alloc: Global,
    log: L,
    case: Case,
    burst: usize,
) -> Result<Times, BenchFault>
    requires { L.steps log ≡ [] }
{
    let mut bench = Bench::new(alloc, log, case, burst)?;
    let times = measure_in(clock, &mut bench, burst);
    drop(bench);
    times
}

/// How long an event of the case takes.
pub fn measure(
    clock: &impl CpuClock,
    alloc: Global,
    case: Case,
    burst: usize,
) -> Result<Times, BenchFault> {
    match case.log {
        LogKind::Counted => measure_with(clock, alloc, Counted::new(), case, burst),
        LogKind::Tally => {
            let log = Tally::new(alloc, Counted::new())?;
            measure_with(clock, alloc, log, case, burst)
        }
    }
}
