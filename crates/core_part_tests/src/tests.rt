//! The tests, a file for each subject, and what they have in common.

/// An event by its operation, flow, priority and payload, for the first queue where none is named.
macro_rules! event_of {
    ($op:ident, $flow:expr, $priority:expr, $payload:expr) => {
        event_of!($op, $flow, $priority, $payload, queue: 0)
    };
    ($op:ident, $flow:expr, $priority:expr, $payload:expr, queue: $queue:expr) => {
        Event {
            op: Op::$op,
            queue: $queue,
            flow: $flow,
            priority: $priority,
            payload: $payload,
            sub_type: 0,
            event_type: 0,
            impl_opaque: 0,
        }
    };
}

mod core_again;
mod events;
mod levels;
mod logs;
mod orders;
mod queues;
mod shapes;
