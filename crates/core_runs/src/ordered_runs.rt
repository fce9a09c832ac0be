//! Known runs with an ordered queue, which a parallel one follows: what its events are forwarded as is accepted in the order of
//! their hand-out.

use crate::device::Device;
use crate::moves::Packet;
use crate::rows::{
    ACCEPTED, FORWARD, KEPT, NEW, OF_BOTH, PARALLEL, RELEASE, RELEASED, TWO_WORKERS,
};
use crate::turns::{KnownRun, Logged, Turn};
use evt_types::Kind;

/// New events, with their number for their payload.
const NUMBER_0: Packet = NEW;

const NUMBER_1: Packet = Packet { payload: 1, ..NEW };

const NUMBER_2: Packet = Packet { payload: 2, ..NEW };
/// What the numbers 0 and 1 are forwarded as.
const PASSED_0: Packet = FORWARD;

const PASSED_1: Packet = Packet {
    payload: 11,
    ..FORWARD
};

/// The ordered queue has so many open events at most.
const ORDER_OF_8: Device = Device {
    queues: &[(Kind::Ordered, 128, 8), PARALLEL],
    ports: OF_BOTH,
    ..TWO_WORKERS
};

const ORDER_OF_2: Device = Device {
    queues: &[(Kind::Ordered, 128, 2), PARALLEL],
    ..ORDER_OF_8
};

const ORDER_OF_1: Device = Device {
    queues: &[(Kind::Ordered, 128, 1), PARALLEL],
    ..ORDER_OF_8
};

/// Two events come, and each is given to a worker.
const BOTH_GIVEN: &[Turn] = &[
    Turn::Reply(0, NUMBER_0, ACCEPTED),
    Turn::Reply(0, NUMBER_1, ACCEPTED),
    Turn::Give(1, 0, NUMBER_0),
    Turn::Give(2, 1, NUMBER_1),
];

/// Two events come, of which one can be given.
const ONE_GIVEN: &[Turn] = &[
    Turn::Reply(0, NUMBER_0, ACCEPTED),
    Turn::Reply(0, NUMBER_1, ACCEPTED),
    Turn::Give(1, 0, NUMBER_0),
    Turn::GiveNone,
];

pub(crate) static RUNS: [KnownRun; 6] = [
    KnownRun {
        name: "forwards are accepted in hand-out order",
        device: ORDER_OF_8,
        opening: BOTH_GIVEN,
        turns: &[
            Turn::Reply(2, PASSED_1, KEPT),
            Turn::GiveNone,
            Turn::Logged(4, &[Logged::Forwarded(2, PASSED_1)]),
            Turn::Inside(2),
            Turn::Reply(1, PASSED_0, ACCEPTED),
            Turn::Inside(2),
            Turn::Logged(
                4,
                &[
                    Logged::Forwarded(2, PASSED_1),
                    Logged::Forwarded(1, PASSED_0),
                    Logged::PassedOn(0, PASSED_0),
                    Logged::PassedOn(1, PASSED_1),
                ],
            ),
        ],
    },
    KnownRun {
        name: "a forward passes a released event",
        device: ORDER_OF_8,
        opening: BOTH_GIVEN,
        turns: &[
            Turn::Reply(1, RELEASE, RELEASED),
            Turn::Reply(2, PASSED_1, ACCEPTED),
            Turn::Inside(1),
            Turn::Logged(
                4,
                &[
                    Logged::Released(1),
                    Logged::Forwarded(2, PASSED_1),
                    Logged::PassedOn(1, PASSED_1),
                ],
            ),
        ],
    },
    KnownRun {
        name: "a release sets a kept forward free",
        device: ORDER_OF_8,
        opening: BOTH_GIVEN,
        turns: &[
            Turn::Reply(2, PASSED_1, KEPT),
            Turn::Inside(2),
            Turn::Reply(1, RELEASE, RELEASED),
            Turn::Inside(1),
            Turn::Logged(
                4,
                &[
                    Logged::Forwarded(2, PASSED_1),
                    Logged::Released(1),
                    Logged::PassedOn(1, PASSED_1),
                ],
            ),
        ],
    },
    KnownRun {
        name: "a kept forward is listed",
        device: ORDER_OF_8,
        opening: BOTH_GIVEN,
        turns: &[
            Turn::Reply(2, PASSED_1, KEPT),
            Turn::Kept(2, &[(1, PASSED_1)]),
        ],
    },
    KnownRun {
        name: "an order of one hands out one event at a time",
        device: ORDER_OF_1,
        opening: ONE_GIVEN,
        turns: &[
            Turn::Reply(1, RELEASE, RELEASED),
            Turn::Give(1, 1, NUMBER_1),
        ],
    },
    KnownRun {
        name: "a kept event is open still",
        device: ORDER_OF_2,
        opening: BOTH_GIVEN,
        turns: &[
            Turn::Reply(0, NUMBER_2, ACCEPTED),
            Turn::GiveNone,
            Turn::Reply(2, PASSED_1, KEPT),
            Turn::GiveNone,
            Turn::Reply(1, RELEASE, RELEASED),
            Turn::Give(1, 2, NUMBER_2),
        ],
    },
];
