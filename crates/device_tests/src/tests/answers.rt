//! Each call of a port answers as it must: on the way of a first event, after each refusal that the worked examples meet, and all of
//! this again after a stop that was refused for want of a port.

use super::asks::{
    Ask, FORWARD, FORWARD_TO_NONE, NEW_TO_NONE, NO_COUNTS, NONE_FREE, RELEASE, RELEASE_TO_NONE,
};
use super::rigs::{Made, PLAIN, Rig, other_call};
use super::steps::{FIFTH, FIRST, FOURTH, THIRD};
use event_device::{Behind, PortCounts, Refused};
use std::test::Fail;

/// A device, and lists of calls that are made on it, with what must come of each.
struct Row {
    name: &'static str,
    rig: Rig,
    calls: &'static [&'static [Made]],
}

const TWO_FREE: Refused = Refused::Backpressure { free: 2 };

const BEHIND: Behind = Behind { released: 0 };

/// Calls of port 0, which nothing comes to, while the device isn't shut.
const SOURCE: &[Made] = &[
    Made::Port(0, Ask::Dequeue(4, Ok(&[]))),
    Made::Port(0, Ask::DequeueBurst(4, Ok(&[]))),
    Made::Port(0, Ask::Held(0)),
    Made::Port(0, Ask::Number(0)),
    Made::Port(0, Ask::ShutSeen(false)),
];

/// The same of port 1, where nothing was given to it and it holds nothing.
const WORKER: &[Made] = &[
    Made::Port(1, Ask::Dequeue(4, Ok(&[]))),
    Made::Port(1, Ask::DequeueBurst(4, Ok(&[]))),
    Made::Port(1, Ask::Held(0)),
    Made::Port(1, Ask::Number(1)),
    Made::Port(1, Ask::ShutSeen(false)),
];

/// Calls of both ports of a device in which nothing is, before a NEW and an answer is refused once more by each call, and the first
/// events come through.
const AS_IF_NEW: &[Made] = &[
    Made::Port(1, Ask::Enqueue(FORWARD, Err(Refused::NothingHeld))),
    Made::Port(
        1,
        Ask::EnqueueBurst([RELEASE; 3], (0, Some(Refused::NothingHeld))),
    ),
    Made::Port(
        1,
        Ask::EnqueuePacked([FORWARD_TO_NONE; 3], (0, Some(Refused::BadQueue))),
    ),
    Made::Port(0, Ask::Enqueue(NEW_TO_NONE, Err(Refused::BadQueue))),
    Made::Port(
        0,
        Ask::EnqueueBurst([FIRST, THIRD, NEW_TO_NONE], (2, Some(Refused::BadQueue))),
    ),
    Made::Port(
        0,
        Ask::EnqueuePacked([FOURTH, FIFTH, FIRST], (2, Some(NONE_FREE))),
    ),
    Made::Sweep(4, 4),
    Made::Port(1, Ask::Dequeue(2, Ok(&[(0, FIRST), (1, THIRD)]))),
    Made::Port(1, Ask::DequeueBurst(4, Ok(&[(2, FOURTH), (3, FIFTH)]))),
    Made::Port(1, Ask::Held(4)),
    Made::Port(
        0,
        Ask::Counts(PortCounts {
            enqueued: 4,
            bad_queue: 2,
            backpressure: 1,
            ..NO_COUNTS
        }),
    ),
    Made::Inside(4, 4),
];

/// One event goes through.
const FIRST_EVENT: Row = Row {
    name: "first-event",
    rig: PLAIN,
    calls: &[
        &[
            Made::Port(0, Ask::Enqueue(FIRST, Ok(()))),
            Made::Sweep(1, 1),
            Made::Inside(1, 1),
            Made::Port(1, Ask::Dequeue(4, Ok(&[(0, FIRST)]))),
            Made::Port(1, Ask::Held(1)),
            Made::Port(1, Ask::Enqueue(RELEASE, Ok(()))),
            Made::Sweep(1, 0),
            Made::Inside(1, 0),
        ],
        SOURCE,
        WORKER,
        &[
            Made::Port(
                0,
                Ask::Counts(PortCounts {
                    enqueued: 1,
                    ..NO_COUNTS
                }),
            ),
            Made::Port(
                1,
                Ask::Counts(PortCounts {
                    enqueued: 1,
                    dequeued: 1,
                    ..NO_COUNTS
                }),
            ),
        ],
    ],
};

/// A RELEASE is taken whatever queue it names.
const RELEASED_TO_NONE: Row = Row {
    name: "a release that names no queue",
    rig: PLAIN,
    calls: &[
        &[
            Made::Port(0, Ask::EnqueueBurst([FIRST, THIRD, FOURTH], (3, None))),
            Made::Sweep(3, 3),
            Made::Port(
                1,
                Ask::Dequeue(4, Ok(&[(0, FIRST), (1, THIRD), (2, FOURTH)])),
            ),
            Made::Port(1, Ask::Enqueue(RELEASE_TO_NONE, Ok(()))),
            Made::Port(1, Ask::Held(2)),
            Made::Port(
                1,
                Ask::EnqueuePacked([RELEASE_TO_NONE; 3], (2, Some(Refused::NothingHeld))),
            ),
            Made::Sweep(3, 0),
            Made::Inside(3, 0),
        ],
        WORKER,
    ],
};

/// Port 0 may draw two of four credits.
const BACKPRESSURE: Row = Row {
    name: "backpressure",
    rig: Rig {
        threshold: 2,
        ..PLAIN
    },
    calls: &[
        &[
            Made::Port(
                0,
                Ask::EnqueueBurst([FIRST, THIRD, FOURTH], (2, Some(TWO_FREE))),
            ),
            Made::Port(0, Ask::Enqueue(FOURTH, Err(TWO_FREE))),
            Made::Port(0, Ask::EnqueueBurst([FOURTH; 3], (0, Some(TWO_FREE)))),
            Made::Port(0, Ask::EnqueuePacked([FOURTH; 3], (0, Some(TWO_FREE)))),
        ],
        SOURCE,
        WORKER,
        &[
            Made::Port(1, Ask::Enqueue(FOURTH, Ok(()))),
            Made::Port(1, Ask::EnqueueBurst([FIFTH; 3], (1, Some(NONE_FREE)))),
            Made::Port(0, Ask::Enqueue(FOURTH, Err(NONE_FREE))),
            Made::Sweep(4, 4),
            Made::Port(
                1,
                Ask::Dequeue(4, Ok(&[(0, FIRST), (1, THIRD), (2, FOURTH), (3, FIFTH)])),
            ),
            Made::Port(
                0,
                Ask::Counts(PortCounts {
                    enqueued: 2,
                    backpressure: 5,
                    ..NO_COUNTS
                }),
            ),
            Made::Port(
                1,
                Ask::Counts(PortCounts {
                    enqueued: 2,
                    dequeued: 4,
                    backpressure: 1,
                    ..NO_COUNTS
                }),
            ),
        ],
    ],
};

/// The NEW is refused until the RELEASEs that pay for it have been enqueued, and is then taken before them.
const NEW_BEFORE_ITS_RELEASES: Row = Row {
    name: "new-before-its-releases",
    rig: Rig {
        limit: 2,
        quantum: 1,
        threshold: 2,
        ..PLAIN
    },
    calls: &[
        &[
            Made::Port(0, Ask::Enqueue(FIRST, Ok(()))),
            Made::Port(0, Ask::Enqueue(THIRD, Ok(()))),
            Made::Port(0, Ask::Enqueue(FOURTH, Err(NONE_FREE))),
            Made::Port(0, Ask::EnqueueBurst([FOURTH; 3], (0, Some(NONE_FREE)))),
            Made::Port(0, Ask::EnqueuePacked([FOURTH; 3], (0, Some(NONE_FREE)))),
        ],
        SOURCE,
        WORKER,
        &[
            Made::Sweep(2, 2),
            Made::Port(1, Ask::DequeueBurst(2, Ok(&[(0, FIRST), (1, THIRD)]))),
            Made::Port(
                1,
                Ask::EnqueueBurst([RELEASE; 3], (2, Some(Refused::NothingHeld))),
            ),
            Made::Port(1, Ask::Held(0)),
            Made::Port(0, Ask::Enqueue(FOURTH, Ok(()))),
            Made::Sweep(3, 1),
            Made::Sweep(0, 0),
            Made::Port(1, Ask::Dequeue(4, Ok(&[(2, FOURTH)]))),
            Made::Port(
                0,
                Ask::Counts(PortCounts {
                    enqueued: 3,
                    backpressure: 3,
                    ..NO_COUNTS
                }),
            ),
            Made::Port(
                1,
                Ask::Counts(PortCounts {
                    enqueued: 2,
                    dequeued: 3,
                    nothing_held: 1,
                    ..NO_COUNTS
                }),
            ),
        ],
    ],
};

const FORWARDED_IN_VAIN: Row = Row {
    name: "misuse: a forward of nothing",
    rig: PLAIN,
    calls: &[
        &[Made::Port(1, Ask::Enqueue(FORWARD, Err(Refused::NothingHeld)))],
        SOURCE,
        WORKER,
        AS_IF_NEW,
        &[Made::Port(
            1,
            Ask::Counts(PortCounts {
                dequeued: 4,
                nothing_held: 3,
                bad_queue: 1,
                ..NO_COUNTS
            }),
        )],
    ],
};

const FORWARDED_TO_NONE: Row = Row {
    name: "misuse: a forward to no queue",
    rig: PLAIN,
    calls: &[
        &[Made::Port(1, Ask::Enqueue(FORWARD_TO_NONE, Err(Refused::BadQueue)))],
        SOURCE,
        WORKER,
        AS_IF_NEW,
        &[Made::Port(
            1,
            Ask::Counts(PortCounts {
                dequeued: 4,
                nothing_held: 2,
                bad_queue: 2,
                ..NO_COUNTS
            }),
        )],
    ],
};

/// Port 0's counts tell the refusal at their end.
const SENT_TO_NONE: Row = Row {
    name: "misuse: a new event to no queue",
    rig: PLAIN,
    calls: &[
        &[
            Made::Port(0, Ask::Enqueue(NEW_TO_NONE, Err(Refused::BadQueue))),
            Made::Port(
                0,
                Ask::Counts(PortCounts {
                    bad_queue: 1,
                    ..NO_COUNTS
                }),
            ),
        ],
        SOURCE,
        WORKER,
        &[
            Made::Port(
                0,
                Ask::EnqueueBurst([FIRST, NEW_TO_NONE, THIRD], (1, Some(Refused::BadQueue))),
            ),
            Made::Port(
                0,
                Ask::EnqueuePacked([NEW_TO_NONE; 3], (0, Some(Refused::BadQueue))),
            ),
            Made::Port(0, Ask::Enqueue(THIRD, Ok(()))),
            Made::Sweep(2, 2),
            Made::Port(1, Ask::Dequeue(4, Ok(&[(0, FIRST), (1, THIRD)]))),
            Made::Port(
                0,
                Ask::Counts(PortCounts {
                    enqueued: 2,
                    bad_queue: 3,
                    ..NO_COUNTS
                }),
            ),
        ],
    ],
};

const RELEASED_IN_VAIN: Row = Row {
    name: "misuse: a release of nothing",
    rig: PLAIN,
    calls: &[
        &[Made::Port(1, Ask::Enqueue(RELEASE, Err(Refused::NothingHeld)))],
        SOURCE,
        WORKER,
        AS_IF_NEW,
        &[Made::Port(
            1,
            Ask::Counts(PortCounts {
                dequeued: 4,
                nothing_held: 3,
                bad_queue: 1,
                ..NO_COUNTS
            }),
        )],
    ],
};

/// Port 1's ring has room for one reply, and its dequeues release what it holds.
const FULL_RINGS: Row = Row {
    name: "full-rings",
    rig: Rig {
        depth: 2,
        replies: 1,
        implicit: true,
        ..PLAIN
    },
    calls: &[
        &[
            Made::Port(0, Ask::EnqueueBurst([FIRST, THIRD, FOURTH], (3, None))),
            Made::Sweep(3, 2),
            Made::Port(1, Ask::Dequeue(2, Ok(&[(0, FIRST), (1, THIRD)]))),
            Made::Port(1, Ask::Enqueue(RELEASE, Ok(()))),
            Made::Port(1, Ask::Enqueue(RELEASE, Err(Refused::Full))),
        ],
        FULL,
        &[
            Made::Port(1, Ask::Dequeue(1, Err(BEHIND))),
            Made::Port(1, Ask::DequeueBurst(1, Err(BEHIND))),
        ],
        FULL,
        SOURCE,
        &[
            Made::Port(
                1,
                Ask::Counts(PortCounts {
                    enqueued: 1,
                    dequeued: 2,
                    full: 9,
                    behind: 2,
                    ..NO_COUNTS
                }),
            ),
            Made::Sweep(1, 1),
            Made::Port(1, Ask::Dequeue(2, Ok(&[(2, FOURTH)]))),
            Made::Port(1, Ask::Held(1)),
            Made::Port(
                1,
                Ask::Counts(PortCounts {
                    enqueued: 1,
                    dequeued: 3,
                    released: 1,
                    full: 9,
                    behind: 2,
                    ..NO_COUNTS
                }),
            ),
        ],
    ],
};

/// Calls of port 1 whose ring is full while it holds an event.
const FULL: &[Made] = &[
    Made::Port(1, Ask::Enqueue(RELEASE, Err(Refused::Full))),
    Made::Port(1, Ask::Enqueue(FORWARD, Err(Refused::Full))),
    Made::Port(1, Ask::EnqueueBurst([RELEASE; 3], (0, Some(Refused::Full)))),
    Made::Port(1, Ask::EnqueuePacked([FIFTH; 3], (0, Some(Refused::Full)))),
    Made::Port(1, Ask::Held(1)),
    Made::Port(1, Ask::Number(1)),
    Made::Port(1, Ask::ShutSeen(false)),
];

const SHUT: Row = Row {
    name: "shut",
    rig: PLAIN,
    calls: &[&[
        Made::Port(0, Ask::Enqueue(FIRST, Ok(()))),
        Made::Port(0, Ask::Enqueue(THIRD, Ok(()))),
        Made::Shut,
        Made::Sweep(2, 0),
        Made::Inside(0, 0),
        Made::Port(0, Ask::Enqueue(FOURTH, Err(Refused::Stopped))),
        Made::Port(0, Ask::Enqueue(FOURTH, Err(Refused::Stopped))),
        Made::Port(
            0,
            Ask::EnqueueBurst([FOURTH; 3], (0, Some(Refused::Stopped))),
        ),
        Made::Port(
            0,
            Ask::EnqueuePacked([FOURTH; 3], (0, Some(Refused::Stopped))),
        ),
        Made::Port(0, Ask::Dequeue(4, Ok(&[]))),
        Made::Port(0, Ask::DequeueBurst(4, Ok(&[]))),
        Made::Port(0, Ask::Held(0)),
        Made::Port(0, Ask::Number(0)),
        Made::Port(0, Ask::ShutSeen(true)),
        Made::Port(
            0,
            Ask::Counts(PortCounts {
                enqueued: 2,
                stopped: 4,
                ..NO_COUNTS
            }),
        ),
        Made::Port(
            1,
            Ask::EnqueuePacked([FIRST; 3], (0, Some(Refused::Stopped))),
        ),
        Made::Port(1, Ask::Enqueue(RELEASE, Err(Refused::NothingHeld))),
        Made::Port(1, Ask::DequeueBurst(4, Ok(&[]))),
        Made::Port(1, Ask::ShutSeen(true)),
    ]],
};

static ROWS: [Row; 10] = [
    FIRST_EVENT,
    RELEASED_TO_NONE,
    BACKPRESSURE,
    NEW_BEFORE_ITS_RELEASES,
    FORWARDED_IN_VAIN,
    FORWARDED_TO_NONE,
    SENT_TO_NONE,
    RELEASED_IN_VAIN,
    FULL_RINGS,
    SHUT,
];

#[test]
fn ports_answer_as_they_must(rt: HostRuntime) -> Result<(), Fail> {
    for row in &ROWS {
        let name = row.name;
        for refused in [false, true] {
            assert_eq!(rt;
                other_call(rt.alloc(), &row.rig, refused, row.calls)?,
                None,
                "{name}"
            );
        }
    }
    Ok(())
}
