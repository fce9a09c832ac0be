//! Logs of a device with an ordered queue before a parallel one.

use evt_types::{
    Draft, Event, Kind, Op, Outcome, PortDraft, QueueDraft, Serving, Shape, ShapeFault, Source,
    Step,
};
use std::alloc::{AllocError, Global};
use std::test::Fail;
use transcript_judge::{Clause, Verdict, judge};

/// An event by its operation, queue, flow and payload.
macro_rules! event_of {
    ($op:ident, $queue:expr, $flow:expr, $payload:expr) => {
        Event {
            op: Op::$op,
            queue: $queue,
            flow: $flow,
            payload: $payload,
            priority: 128,
            sub_type: 0,
            event_type: 0,
            impl_opaque: 0,
        }
    };
}

const ORDERED: QueueDraft = QueueDraft {
    kind: Kind::Ordered,
    priority: 128,
    slots: 0,
    order: 8,
    single: false,
};

const PARALLEL: QueueDraft = QueueDraft {
    kind: Kind::Parallel,
    order: 0,
    ..ORDERED
};

const FIRST: Event = event_of!(New, 0, 7, 1);

const SECOND: Event = event_of!(New, 0, 8, 2);

const FIRST_ON: Event = event_of!(Forward, 1, 7, 10);

const SECOND_ON: Event = event_of!(Forward, 1, 8, 20);

/// Two events are handed out, and the second is forwarded first.
fn begun() -> [Step; 6] {
    [
        Step::Accept {
            queue: 0,
            event: FIRST,
            source: Source::New { lane: 0 },
        },
        Step::Accept {
            queue: 0,
            event: SECOND,
            source: Source::New { lane: 0 },
        },
        Step::Give {
            lane: 1,
            queue: 0,
            number: 0,
        },
        Step::Give {
            lane: 2,
            queue: 0,
            number: 1,
        },
        Step::Done {
            lane: 2,
            outcome: Outcome::Forwarded(SECOND_ON),
        },
        Step::Done {
            lane: 1,
            outcome: Outcome::Forwarded(FIRST_ON),
        },
    ]
}

const ACCEPT_FIRST: Step = Step::Accept {
    queue: 1,
    event: FIRST_ON,
    source: Source::Of {
        queue: 0,
        number: 0,
    },
};

const ACCEPT_SECOND: Step = Step::Accept {
    queue: 1,
    event: SECOND_ON,
    source: Source::Of {
        queue: 0,
        number: 1,
    },
};

/// A port that is linked to these queues.
fn port_of(alloc: Global, links: &[u32]) -> Result<PortDraft, AllocError> {
    Ok(PortDraft {
        threshold: 4,
        depth: 4,
        replies: 4,
        implicit: false,
        links: Vec::from_slice(alloc, links)?,
    })
}

/// Port 0 brings events in, ports 1 and 2 serve the ordered queue, and port 2 the parallel one too.
fn draft_of(alloc: Global) -> Result<Draft, AllocError> {
    let mut ports = Vec::with_capacity(alloc, 3)?;
    ports.push(port_of(alloc, &[])?)?;
    ports.push(port_of(alloc, &[0])?)?;
    ports.push(port_of(alloc, &[0, 1])?)?;
    Ok(Draft {
        limit: 4,
        quantum: 2,
        sweep: 8,
        serving: Serving::Ports,
        queues: Vec::from_slice(alloc, &[ORDERED, PARALLEL])?,
        ports,
    })
}

fn shape_of(alloc: Global) -> Result<Shape, ShapeFault> {
    match draft_of(alloc) {
        Ok(draft) => Shape::build(alloc, &draft),
        Err(_) => Err(ShapeFault::Memory),
    }
}

/// The begun log with these steps behind it.
fn log_of(alloc: Global, more: &[Step]) -> Result<Vec<Step>, AllocError> {
    let begun = begun();
    let mut log = Vec::from_slice(alloc, &begun)?;
    log.extend_from_slice(more)?;
    Ok(log)
}

#[test]
fn a_lawful_log(rt: HostRuntime) -> Result<(), Fail> {
    let shape = shape_of(rt.alloc())?;
    let log = log_of(rt.alloc(), &[ACCEPT_FIRST, ACCEPT_SECOND])?;
    assert_eq!(rt; judge(rt.alloc(), &shape, &log)?, Verdict::Lawful);
    assert_eq!(rt; judge(rt.alloc(), &shape, &[])?, Verdict::Lawful);
    Ok(())
}

#[test]
fn a_log_that_can_be_gone_on_with(rt: HostRuntime) -> Result<(), Fail> {
    let shape = shape_of(rt.alloc())?;
    let log = log_of(rt.alloc(), &[ACCEPT_FIRST])?;
    assert_eq!(rt; judge(rt.alloc(), &shape, &log)?, Verdict::Running);
    Ok(())
}

#[test]
fn a_log_that_steps_back(rt: HostRuntime) -> Result<(), Fail> {
    let shape = shape_of(rt.alloc())?;
    let log = log_of(rt.alloc(), &[ACCEPT_SECOND, ACCEPT_FIRST])?;
    let broken = Verdict::Broken {
        at: 6,
        clause: Clause::Order,
        step: ACCEPT_SECOND,
    };
    assert_eq!(rt; judge(rt.alloc(), &shape, &log)?, broken);
    Ok(())
}
