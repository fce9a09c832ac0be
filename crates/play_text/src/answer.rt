//! What the lines of a script answer.

use event_answers::{Behind, Refused, Swept};
use evt_types::{Delivery, Op};

/// The answer to one line of a script.
#[derive(Debug, Drop)]
pub enum Answer {
    Enqueued {
        port: usize,
        op: Op,
        outcome: Result<(), Refused>,
    },
    Dequeued {
        port: usize,
        outcome: Result<Vec<Delivery>, Behind>,
    },
    Swept(Swept),
    Shut,
}
