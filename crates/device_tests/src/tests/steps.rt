//! Queues, events and steps for the tests, as plain data.

use super::calls::Sent;
use evt_types::{Kind, Op, Outcome, QueueDraft, Source, Step};

pub(crate) const ATOMIC: QueueDraft = QueueDraft {
    kind: Kind::Atomic,
    priority: 128,
    slots: 4,
    order: 4,
    single: false,
};

pub(crate) const ORDERED: QueueDraft = QueueDraft {
    kind: Kind::Ordered,
    priority: 128,
    slots: 8,
    order: 8,
    single: false,
};

pub(crate) const PARALLEL: QueueDraft = QueueDraft {
    kind: Kind::Parallel,
    priority: 128,
    slots: 0,
    order: 0,
    single: false,
};

/// New events of flow 7 for queue 0, by their payload.
pub(crate) const FIRST: Sent = Sent(Op::New, 0, 7, 1);

pub(crate) const THIRD: Sent = Sent(Op::New, 0, 7, 3);

pub(crate) const FOURTH: Sent = Sent(Op::New, 0, 7, 4);

pub(crate) const FIFTH: Sent = Sent(Op::New, 0, 7, 5);

/// Flow 8's new event.
pub(crate) const OTHER: Sent = Sent(Op::New, 0, 8, 2);

/// A step of a log.
#[derive(Clone, Copy)]
pub(crate) enum Logged {
    /// The event's queue accepts it as a new event of lane 0.
    Entered(Sent),
    /// The event's queue accepts it as what the event of this queue and number was passed on as.
    PassedOn(usize, u64, Sent),
    /// The lane is given the event of this queue and number.
    Given(usize, usize, u64),
    /// The lane's oldest event is forwarded as this one.
    Forwarded(usize, Sent),
    /// The lane's oldest event is released.
    Released(usize),
    /// A new event of lane 0 is turned away.
    Turned(Sent),
    Shut,
}

fn accepted(sent: Sent, source: Source) -> Step {
    let event = sent.event();
    Step::Accept {
        queue: usize::from(event.queue),
        event,
        source,
    }
}

impl Logged {
    fn step(self) -> Step {
        match self {
            Logged::Entered(sent) => accepted(sent, Source::New { lane: 0 }),
            Logged::PassedOn(queue, number, sent) => accepted(sent, Source::Of { queue, number }),
            Logged::Given(lane, queue, number) => Step::Give {
                lane,
                queue,
                number,
            },
            Logged::Forwarded(lane, sent) => Step::Done {
                lane,
                outcome: Outcome::Forwarded(sent.event()),
            },
            Logged::Released(lane) => Step::Done {
                lane,
                outcome: Outcome::Released,
            },
            Logged::Turned(sent) => Step::Turned {
                lane: 0,
                event: sent.event(),
            },
            Logged::Shut => Step::Shut,
        }
    }
}

/// Whether these are the log's steps.
pub(crate) fn is_log(log: &[Step], wanted: &[Logged]) -> bool {
    for (step, logged) in log.iter().zip(wanted.iter()) {
        if *step != logged.step() {
            return false;
        }
    }
    log.len() == wanted.len()
}
