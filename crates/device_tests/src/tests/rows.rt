//! Devices, calls that are made on them, and the reports that must come of them.

use super::calls::{Call, Sent};
use super::left::{Left, NOTHING};
use super::plans::{Plan, PortPlan};
use super::steps::{FIFTH, FIRST, FOURTH, Logged, ORDERED, OTHER, PARALLEL, THIRD, is_log};
use event_device::{Held, Report};
use evt_types::{Op, Serving};

/// A device, the calls that are made on it, and what its report says.
#[derive(Clone, Copy)]
pub(crate) struct Row {
    pub(crate) name: &'static str,
    pub(crate) plan: Plan,
    pub(crate) calls: &'static [Call],
    pub(crate) log: &'static [Logged],
    pub(crate) left: Left,
}

/// A port that brings events in, one for the first queue, and one for both.
const PORTS: &[PortPlan] = &[(4, 4, 4, &[]), (4, 4, 4, &[0]), (4, 4, 4, &[0, 1])];

/// Ports that may use all of eight credits, and of which the workers hold one event each.
const SINGLE: &[PortPlan] = &[(8, 4, 4, &[]), (8, 1, 4, &[0]), (8, 1, 4, &[0, 1])];

/// An ordered queue before a parallel one.
const TWO_QUEUES: Plan = Plan {
    limit: 4,
    quantum: 2,
    sweep: 8,
    serving: Serving::Ports,
    queues: &[ORDERED, PARALLEL],
    ports: PORTS,
};

/// What flow 7's event is forwarded as to queue 1, and what flow 8's is.
const EARLY: Sent = Sent(Op::Forward, 1, 7, 10);

const LATE: Sent = Sent(Op::Forward, 1, 8, 20);

/// Of two events the second is forwarded first.
const SECOND_FORWARDED_FIRST: Row = Row {
    name: "the second is forwarded first",
    plan: TWO_QUEUES,
    calls: &[
        Call::Enqueue(0, FIRST),
        Call::Enqueue(0, OTHER),
        Call::Sweep(2, 2),
        Call::Dequeue(1, 1, &[(0, FIRST)]),
        Call::Dequeue(2, 1, &[(1, OTHER)]),
        Call::Enqueue(2, LATE),
        Call::Sweep(1, 0),
        Call::Enqueue(1, EARLY),
        Call::Sweep(1, 2),
    ],
    log: &[
        Logged::Entered(FIRST),
        Logged::Entered(OTHER),
        Logged::Given(1, 0, 0),
        Logged::Given(2, 0, 1),
        Logged::Forwarded(2, LATE),
        Logged::Forwarded(1, EARLY),
        Logged::PassedOn(0, 0, EARLY),
        Logged::PassedOn(0, 1, LATE),
        Logged::Given(2, 1, 0),
        Logged::Given(2, 1, 1),
    ],
    left: Left {
        undelivered: &[(2, 1, 0, EARLY), (2, 1, 1, LATE)],
        free: 2,
        pockets: &[0, 0, 0],
        ..NOTHING
    },
};

/// An event is in each place that a report lists.
const EVENT_IN_EACH_PLACE: Row = Row {
    name: "an event is in each place",
    plan: Plan {
        limit: 8,
        quantum: 1,
        ports: SINGLE,
        ..TWO_QUEUES
    },
    calls: &[
        Call::Enqueue(0, FIRST),
        Call::Enqueue(0, OTHER),
        Call::Enqueue(0, THIRD),
        Call::Sweep(3, 2),
        Call::Dequeue(1, 1, &[(0, FIRST)]),
        Call::Dequeue(2, 1, &[(1, OTHER)]),
        Call::Enqueue(2, LATE),
        Call::Sweep(1, 1),
        Call::Enqueue(0, FOURTH),
        Call::Sweep(1, 0),
        Call::Enqueue(0, FIFTH),
    ],
    log: &[
        Logged::Entered(FIRST),
        Logged::Entered(OTHER),
        Logged::Entered(THIRD),
        Logged::Given(1, 0, 0),
        Logged::Given(2, 0, 1),
        Logged::Forwarded(2, LATE),
        Logged::Given(2, 0, 2),
        Logged::Entered(FOURTH),
    ],
    left: Left {
        waiting: &[(0, 3, FOURTH)],
        kept: &[(0, 1, LATE)],
        undelivered: &[(2, 0, 2, THIRD)],
        held: &[Held {
            port: 1,
            queue: 0,
            number: 0,
        }],
        untaken: &[(0, FIFTH)],
        free: 3,
        pockets: &[0, 0, 0],
        ..NOTHING
    },
};

/// A device that is shut turns away what it has not taken.
const SHUT: Row = Row {
    name: "the device is shut",
    plan: TWO_QUEUES,
    calls: &[
        Call::Enqueue(0, FIRST),
        Call::Enqueue(0, OTHER),
        Call::Shut,
        Call::Sweep(2, 0),
    ],
    log: &[Logged::Shut, Logged::Turned(FIRST), Logged::Turned(OTHER)],
    left: Left {
        turned: &[(0, FIRST), (0, OTHER)],
        free: 4,
        pockets: &[0, 0, 0],
        ..NOTHING
    },
};

pub(crate) static ROWS: [Row; 3] = [SECOND_FORWARDED_FIRST, EVENT_IN_EACH_PLACE, SHUT];

/// What the report says otherwise than the row.
pub(crate) fn other_of(report: &Report, row: &Row) -> Option<&'static str> {
    if is_log(&report.log, row.log) {
        row.left.other_in(report)
    } else {
        Some("log")
    }
}
