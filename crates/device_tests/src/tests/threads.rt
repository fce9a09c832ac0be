//! A producer, workers and the scheduler pass many events from queue to queue: to the end, and up to a stop in the middle of work.

use super::calls::stop;
use super::fault::RigFault;
use super::plans::{Plan, PortPlan};
use super::runs::{End, Task, run};
use super::steps::{ATOMIC, ORDERED, PARALLEL};
use event_device::{Counted, Device, QueueCounts, Report, Tally};
use evt_types::{MAX_QUEUES, Serving};
use std::alloc::Global;
use std::test::Fail;
use std::thread::Threads;

/// How many events the producer brings in.
const EVENTS: u32 = 100_000;

/// How many of them may be inside the device. Credits are short, so that the threads wait for them at times.
const LIMIT: u32 = 64;

/// A worker with rings of one place.
const SHORT: PortPlan = (LIMIT, 1, 1, &[0, 1, 2]);

/// A worker of four atomic queues.
const MIDDLE: PortPlan = (LIMIT, 4, 4, &[0, 1, 2, 3]);

/// A producer and three workers of an atomic, an ordered and a parallel queue.
const SHORT_RINGS: Plan = Plan {
    limit: LIMIT,
    quantum: 4,
    sweep: 16,
    serving: Serving::Ports,
    queues: &[ATOMIC, ORDERED, PARALLEL],
    ports: &[(LIMIT, 1, 1, &[]), SHORT, SHORT, SHORT],
};

/// A producer and seven workers of four atomic queues, of which each slot has a lane.
const FLOW_LANES: Plan = Plan {
    serving: Serving::Flows,
    queues: &[ATOMIC; 4],
    ports: &[
        (LIMIT, 4, 4, &[]),
        MIDDLE,
        MIDDLE,
        MIDDLE,
        MIDDLE,
        MIDDLE,
        MIDDLE,
        MIDDLE,
    ],
    ..SHORT_RINGS
};

/// Plans, each with the number of its last queue.
static PLANS: [(&str, Plan, u8); 2] = [("ports", SHORT_RINGS, 2), ("flow lanes", FLOW_LANES, 3)];

/// Whether no event is left.
fn is_empty(report: &Report<Tally<Counted>>) -> bool {
    report.waiting.is_empty()
        && report.kept.is_empty()
        && report.undelivered.is_empty()
        && report.held.is_empty()
        && report.untaken.is_empty()
}

/// Whether each of so many queues accepted and gave all events.
fn all_went_through(log: &Tally<Counted>, queues: usize) -> bool {
    for queue in 0..queues.min(MAX_QUEUES) {
        let QueueCounts {
            rx_new,
            rx_forwarded,
            tx,
        } = log.queue(queue);
        let accepted = rx_new.saturating_add(rx_forwarded);
        if accepted != u64::from(EVENTS) || tx != u64::from(EVENTS) {
            return false;
        }
    }
    true
}

/// Whether all events came and went; or where the device was shut and stopped in the middle of work, whether half of them or more were
/// accepted, but not all.
fn is_as_wanted(report: &Report<Tally<Counted>>, queues: usize, end: End) -> bool {
    match end {
        End::Through => is_empty(report) && all_went_through(&report.log, queues),
        End::Accepted(half) => {
            let accepted = report.log.queue(0).rx_new;
            half <= accepted && accepted < u64::from(EVENTS)
        }
    }
}

/// Runs a device of the plan until this end, where events end after the queue of this number; whether its report is as it must be.
fn ends_as_wanted<R: Threads + Sync>(
    rt: &R,
    alloc: Global,
    plan: &Plan,
    last: u8,
    end: End,
) -> Result<bool, RigFault> {
    let task = Task {
        events: EVENTS,
        last,
        end,
    };
    let device = Device::new(alloc, plan.shape(alloc)?)?;
    let report = stop(run(rt, device, task))?;
    let is_so = is_as_wanted(&report, plan.queues.len(), end);
    drop(report);
    Ok(is_so)
}

static ENDS: [(&str, End); 2] = [
    ("through", End::Through),
    ("halfway", End::Accepted(EVENTS as u64 / 2)),
];

#[test]
fn events_pass_through_and_halfway(rt: HostRuntime) -> Result<(), Fail> {
    for (served, plan, last) in &PLANS {
        for (way, end) in &ENDS {
            let is_so = ends_as_wanted(&rt, rt.alloc(), plan, *last, *end)?;
            assert!(rt; is_so, "by {served}, {way}");
        }
    }
    Ok(())
}
