//! Known runs with atomic and parallel queues, and with flow lanes.

use crate::device::Device;
use crate::moves::Packet;
use crate::rows::{
    ACCEPTED, ATOMIC, FORWARD, NEW, OF_BOTH, ONE_WORKER, PARALLEL, RELEASE, RELEASED, TURNED,
    TWO_WORKERS,
};
use crate::turns::{KnownRun, Logged, Turn};
use evt_types::{Kind, Serving};

/// A new event of flow 7 for the first queue, but for these fields.
macro_rules! new_event {
    ($($field:ident: $value:literal),*) => {
        Packet { $($field: $value,)* ..NEW }
    };
}

/// New events, by their payload.
const FIRST: Packet = new_event!(payload: 1);

const SECOND: Packet = new_event!(payload: 2);

const FOURTH: Packet = new_event!(payload: 4);

/// New events of other flows. Flow 3 falls into the slot of flow 7, flow 5 into another.
const OF_FLOW_3: Packet = new_event!(flow: 3, payload: 1);

const OF_FLOW_5: Packet = new_event!(flow: 5, payload: 3);

/// A new event for the second queue.
const FOR_THE_SECOND: Packet = new_event!(queue: 1, payload: 2);

/// New events of the levels 1 and 0.
const OF_LEVEL_1: Packet = new_event!(priority: 64, payload: 1);

const OF_LEVEL_0: Packet = new_event!(priority: 63, payload: 2);

/// An event that is forwarded to the first queue.
const BACK: Packet = Packet {
    queue: 0,
    ..FORWARD
};

/// A port that brings events, two ports that are linked to an atomic queue, and a flow lane for each of its four slots: the
/// lanes 3 to 6.
const FLOW_LANES: Device = Device {
    serving: Serving::Flows,
    ..TWO_WORKERS
};

/// Two events of a flow come.
const TWO_COME: &[Turn] = &[
    Turn::Reply(0, FIRST, ACCEPTED),
    Turn::Reply(0, SECOND, ACCEPTED),
];

/// An event comes, and is given to a worker.
const FIRST_GIVEN: &[Turn] = &[Turn::Reply(0, FIRST, ACCEPTED), Turn::Give(1, 0, FIRST)];

pub(crate) static RUNS: [KnownRun; 11] = [
    KnownRun {
        name: "two flows of one slot",
        device: TWO_WORKERS,
        opening: &[],
        turns: &[
            Turn::Reply(0, OF_FLOW_3, ACCEPTED),
            Turn::Reply(0, SECOND, ACCEPTED),
            Turn::Give(1, 0, OF_FLOW_3),
            Turn::Give(1, 1, SECOND),
            Turn::Reply(1, RELEASE, RELEASED),
            Turn::Reply(1, RELEASE, RELEASED),
            Turn::Inside(0),
            Turn::Reply(0, OF_FLOW_5, ACCEPTED),
            Turn::Reply(0, FOURTH, ACCEPTED),
            Turn::Give(1, 2, OF_FLOW_5),
            Turn::Give(2, 3, FOURTH),
            Turn::GiveNone,
            Turn::LogLen(10),
        ],
    },
    // Of three events two are given, to lanes that hold one event each.
    KnownRun {
        name: "a blocked flow",
        device: Device {
            ports: &[(4, &[]), (1, &[0]), (1, &[0])],
            ..TWO_WORKERS
        },
        opening: TWO_COME,
        turns: &[
            Turn::Reply(0, OF_FLOW_5, ACCEPTED),
            Turn::Give(1, 0, FIRST),
            Turn::Give(2, 2, OF_FLOW_5),
            Turn::GiveNone,
            Turn::Inside(3),
            Turn::Waiting(0, &[(1, SECOND)]),
        ],
    },
    KnownRun {
        name: "a sweep passes over a lane without room",
        device: TWO_WORKERS,
        opening: &[],
        turns: &[
            Turn::LogRoom(60),
            Turn::Reply(0, OF_FLOW_3, ACCEPTED),
            Turn::Bounce(1, 0, OF_FLOW_3),
            Turn::Give(2, 0, OF_FLOW_3),
            Turn::LogLen(3),
        ],
    },
    KnownRun {
        name: "a forward to a parallel queue",
        device: Device {
            queues: &[ATOMIC, PARALLEL],
            ports: OF_BOTH,
            ..TWO_WORKERS
        },
        opening: FIRST_GIVEN,
        turns: &[
            Turn::Reply(1, FORWARD, ACCEPTED),
            Turn::Inside(1),
            Turn::Give(1, 0, FORWARD),
            Turn::Logged(
                0,
                &[
                    Logged::Entered(FIRST),
                    Logged::Given(1, 0, 0),
                    Logged::Forwarded(1, FORWARD),
                    Logged::PassedOn(0, FORWARD),
                    Logged::Given(1, 1, 0),
                ],
            ),
        ],
    },
    KnownRun {
        name: "a parallel queue and two lanes",
        device: Device {
            queues: &[PARALLEL],
            ..TWO_WORKERS
        },
        opening: TWO_COME,
        turns: &[Turn::Give(1, 0, FIRST), Turn::Give(2, 1, SECOND)],
    },
    KnownRun {
        name: "a shut core",
        device: TWO_WORKERS,
        opening: FIRST_GIVEN,
        turns: &[
            Turn::Shut,
            Turn::Shut,
            Turn::Reply(0, SECOND, TURNED),
            Turn::Reply(1, BACK, ACCEPTED),
            Turn::Inside(1),
            Turn::Logged(
                2,
                &[
                    Logged::Shut,
                    Logged::Turned(SECOND),
                    Logged::Forwarded(1, BACK),
                    Logged::PassedOn(0, BACK),
                ],
            ),
        ],
    },
    KnownRun {
        name: "the queue of the lowest priority is served first",
        device: Device {
            queues: &[(Kind::Atomic, 200, 4), (Kind::Atomic, 10, 4)],
            ports: &[(4, &[]), (4, &[0, 1])],
            ..TWO_WORKERS
        },
        opening: &[],
        turns: &[
            Turn::Reply(0, FIRST, ACCEPTED),
            Turn::Reply(0, FOR_THE_SECOND, ACCEPTED),
            Turn::Give(1, 0, FOR_THE_SECOND),
            Turn::Give(1, 0, FIRST),
            Turn::Logged(2, &[Logged::Given(1, 1, 0), Logged::Given(1, 0, 0)]),
        ],
    },
    KnownRun {
        name: "a later event of a lower level is given first",
        device: ONE_WORKER,
        opening: &[],
        turns: &[
            Turn::Reply(0, OF_LEVEL_1, ACCEPTED),
            Turn::Reply(0, OF_LEVEL_0, ACCEPTED),
            Turn::Give(1, 1, OF_LEVEL_0),
            Turn::Give(1, 0, OF_LEVEL_1),
            Turn::GiveNone,
        ],
    },
    KnownRun {
        name: "a sweep gives no more of a queue than its quantum",
        device: Device {
            sweep: 1,
            ..ONE_WORKER
        },
        opening: TWO_COME,
        turns: &[
            Turn::Give(1, 0, FIRST),
            Turn::GiveNone,
            Turn::NextSweep,
            Turn::Give(1, 1, SECOND),
        ],
    },
    KnownRun {
        name: "flow lanes are given the events of their slots",
        device: FLOW_LANES,
        opening: TWO_COME,
        turns: &[
            Turn::Reply(0, OF_FLOW_5, ACCEPTED),
            Turn::Give(6, 0, FIRST),
            Turn::Give(6, 1, SECOND),
            Turn::Give(4, 2, OF_FLOW_5),
            Turn::GiveNone,
            Turn::Reply(4, RELEASE, RELEASED),
            Turn::Inside(2),
            Turn::Logged(
                3,
                &[
                    Logged::Given(6, 0, 0),
                    Logged::Given(6, 0, 1),
                    Logged::Given(4, 0, 2),
                    Logged::Released(4),
                ],
            ),
        ],
    },
    KnownRun {
        name: "a flow lane brings no new event",
        device: FLOW_LANES,
        opening: &[],
        turns: &[Turn::Reply(3, FIRST, None), Turn::Reply(2, FIRST, ACCEPTED)],
    },
];
