//! An event for a queue that the device doesn't have is refused before anything is made of it, whatever the port has.

use super::calls::{Call, Sent, play, stop};
use super::fault::RigFault;
use super::left::{Left, NOTHING};
use super::plans::Plan;
use super::rows::{Row, other_of};
use super::steps::{FIRST, Logged, OTHER, PARALLEL};
use event_device::{Device, Refused};
use evt_types::{Op, Serving};
use std::alloc::Global;
use std::test::Fail;

/// A port that brings events in and works on them, and draws two credits at once.
const ONE_PORT: Plan = Plan {
    limit: 4,
    quantum: 2,
    sweep: 8,
    serving: Serving::Ports,
    queues: &[PARALLEL],
    ports: &[(4, 4, 4, &[0])],
};

const NEW: Sent = Sent(Op::New, 200, 7, 10);

const FORWARD: Sent = Sent(Op::Forward, 200, 7, 10);

const MORE: Sent = Sent(Op::ForwardMore, 200, 7, 10);

/// A RELEASE goes to no queue, so that its number says nothing.
const RELEASE: Sent = Sent(Op::Release, 200, 7, 10);

const NO_NEW: Call = Call::Refuse(0, NEW, Refused::BadQueue);

const NO_FORWARD: Call = Call::Refuse(0, FORWARD, Refused::BadQueue);

const NO_MORE: Call = Call::Refuse(0, MORE, Refused::BadQueue);

/// Nothing of what was refused is in a ring.
const NOTHING_COMES: Call = Call::Sweep(0, 0);

const NO_CREDIT_AND_NOTHING_HELD: Row = Row {
    name: "no credit, nothing held",
    plan: ONE_PORT,
    calls: &[NO_NEW, NO_FORWARD, NO_MORE, NOTHING_COMES],
    log: &[],
    left: Left {
        free: 4,
        pockets: &[0],
        ..NOTHING
    },
};

const CREDIT_AND_NOTHING_HELD: Row = Row {
    name: "a credit, nothing held",
    plan: ONE_PORT,
    calls: &[
        Call::Enqueue(0, FIRST),
        Call::Sweep(1, 1),
        NO_NEW,
        NO_FORWARD,
        NO_MORE,
        NOTHING_COMES,
    ],
    log: &[Logged::Entered(FIRST), Logged::Given(0, 0, 0)],
    left: Left {
        undelivered: &[(0, 0, 0, FIRST)],
        free: 2,
        pockets: &[1],
        ..NOTHING
    },
};

const NO_CREDIT_AND_ONE_HELD: Row = Row {
    name: "no credit, one held",
    plan: ONE_PORT,
    calls: &[
        Call::Enqueue(0, FIRST),
        Call::Enqueue(0, OTHER),
        Call::Sweep(2, 2),
        Call::Dequeue(0, 1, &[(0, FIRST)]),
        NO_NEW,
        NO_FORWARD,
        NO_MORE,
        NOTHING_COMES,
        Call::Enqueue(0, RELEASE),
        Call::Sweep(1, 0),
    ],
    log: &[
        Logged::Entered(FIRST),
        Logged::Entered(OTHER),
        Logged::Given(0, 0, 0),
        Logged::Given(0, 0, 1),
        Logged::Released(0),
    ],
    left: Left {
        undelivered: &[(0, 0, 1, OTHER)],
        free: 2,
        pockets: &[1],
        ..NOTHING
    },
};

const CREDIT_AND_ONE_HELD: Row = Row {
    name: "a credit, one held",
    plan: ONE_PORT,
    calls: &[
        Call::Enqueue(0, FIRST),
        Call::Sweep(1, 1),
        Call::Dequeue(0, 1, &[(0, FIRST)]),
        NO_NEW,
        NO_FORWARD,
        NO_MORE,
        NOTHING_COMES,
        Call::Enqueue(0, RELEASE),
        Call::Sweep(1, 0),
    ],
    log: &[
        Logged::Entered(FIRST),
        Logged::Given(0, 0, 0),
        Logged::Released(0),
    ],
    left: Left {
        free: 2,
        pockets: &[2],
        ..NOTHING
    },
};

/// Of a NEW the look whether the device is shut comes before its queue.
const SHUT: Row = Row {
    name: "the device is shut",
    plan: ONE_PORT,
    calls: &[
        Call::Shut,
        Call::Refuse(0, NEW, Refused::Stopped),
        NO_FORWARD,
        NO_MORE,
        NOTHING_COMES,
    ],
    log: &[Logged::Shut],
    left: Left {
        free: 4,
        pockets: &[0],
        ..NOTHING
    },
};

static ROWS: [Row; 5] = [
    NO_CREDIT_AND_NOTHING_HELD,
    CREDIT_AND_NOTHING_HELD,
    NO_CREDIT_AND_ONE_HELD,
    CREDIT_AND_ONE_HELD,
    SHUT,
];

/// What the report says otherwise after the row's calls on a device of the plan.
fn other_in(alloc: Global, row: &Row, plan: &Plan) -> Result<Option<&'static str>, RigFault> {
    let mut device = Device::with_log(alloc, Vec::new(alloc), plan.shape(alloc)?)?;
    let played = play(&mut device, row.calls);
    let report = stop(device)?;
    played?;
    Ok(other_of(&report, row))
}

#[test]
fn no_event_goes_to_a_queue_that_is_not_there(rt: HostRuntime) -> Result<(), Fail> {
    assert_each_row!(rt, other_in);
    Ok(())
}
