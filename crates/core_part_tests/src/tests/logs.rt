//! A log that counts by queue and by lane, over one that keeps the last steps.

use evt_types::{Event, Op, Outcome, Source, Step};
use std::alloc::Global;
use std::test::Fail;
use step_log::{Memory, StepLog};
use step_tally::{LaneCounts, QueueCounts, Tail, Tally};

const EVENT: Event = event_of!(New, 7, 128, 5);

const FORWARD: Event = event_of!(Forward, 7, 128, 5);

/// The worker is given the event.
const GIVEN: Step = Step::Give {
    lane: 1,
    queue: 0,
    number: 0,
};

/// A NEW is accepted, given, and forwarded to the same queue; then the device is shut, and a NEW is turned away.
const STEPS: [Step; 6] = [
    Step::Accept {
        queue: 0,
        event: EVENT,
        source: Source::New { lane: 0 },
    },
    GIVEN,
    Step::Done {
        lane: 1,
        outcome: Outcome::Forwarded(FORWARD),
    },
    Step::Accept {
        queue: 0,
        event: FORWARD,
        source: Source::Of {
            queue: 0,
            number: 0,
        },
    },
    Step::Shut,
    Step::Turned {
        lane: 0,
        event: EVENT,
    },
];

/// A log without steps, made again where memory was refused.
fn log_again(alloc: Global) -> Result<Tally<Tail<2>>, Memory> {
    let tail = match Tail::new(alloc) {
        Ok(tail) => tail,
        Err(_) => Tail::new(alloc)?,
    };
    match Tally::new(alloc, tail) {
        Ok(tally) => Ok(tally),
        Err(refused) => {
            let tally = Tally::new(alloc, refused.value)?;
            Ok(tally)
        }
    }
}

fn push(log: &mut Tally<Tail<2>>, steps: &[Step]) {
    for step in steps {
        if log.make_room(1).is_ok() {
            log.push_step(*step);
        }
    }
}

/// What is counted of the queue, of the port that brings events in, and of the worker, and how many of the queue's events each of
/// these two was given.
fn counts_in(log: &Tally<Tail<2>>) -> (QueueCounts, LaneCounts, LaneCounts, [u64; 2]) {
    (
        log.queue(0),
        log.lane(0),
        log.lane(1),
        [log.given(0, 0), log.given(0, 1)],
    )
}

const COUNTS: (QueueCounts, LaneCounts, LaneCounts, [u64; 2]) = (
    QueueCounts {
        rx_new: 1,
        rx_forwarded: 1,
        tx: 1,
    },
    LaneCounts {
        rx_new: 1,
        tx: 0,
        released: 0,
        forwarded: 0,
        added: 0,
        turned: 1,
        bounced: 0,
    },
    LaneCounts {
        rx_new: 0,
        tx: 1,
        released: 0,
        forwarded: 1,
        added: 0,
        turned: 0,
        bounced: 0,
    },
    [0, 1],
);

/// How many steps there were, and the last two.
fn last_in(tail: &Tail<2>) -> (u64, Option<Step>, Option<Step>) {
    (tail.count(), tail.get(0).copied(), tail.get(1).copied())
}

#[test]
fn a_tally_counts_and_a_tail_keeps_the_last(rt: HostRuntime) -> Result<(), Fail> {
    let mut log = log_again(rt.alloc())?;
    push(&mut log, &STEPS);
    let counts = counts_in(&log);
    let last = last_in(log.log());
    drop(log);
    assert_eq!(rt; counts, COUNTS);
    assert_eq!(rt; last, (6, Some(STEPS[4]), Some(STEPS[5])));
    Ok(())
}
