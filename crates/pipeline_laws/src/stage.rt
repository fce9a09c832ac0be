//! What a stage does with an event's payload, and the events that a pipeline is given.

ghost use Rattle.std.specs.Prelude.{◌<◌, ◌^◌};

use evt_types::{Event, Op};

/// What a stage does with a payload.
#[derive(Clone, Copy, Debug, PartialEq, Eq)]
pub enum Action {
    /// Passes it on.
    Pass,
    /// Adds this much, modulo 2^64.
    Add(u64),
    /// Drops the event where the payload is a multiple of this.
    DropMultiples(u64),
}

/// An event of a trace. `flow` is below 2^20; `priority` is 0 for the highest and 255 for the lowest.
#[derive(Clone, Copy, Debug, PartialEq, Eq)]
pub struct Entry {
    pub flow: u32,
    pub priority: u8,
    pub payload: u64,
    pub ghost flow_fits: { flow < 2 ^ 20 },
}

impl Action {
    ghost use Rattle.std.specs.Prelude.{◌≡◌};
    ghost use Rattle.pipeline_laws.specs.Pipeline.{IsProper, acted};

    /// What it makes of a payload; nothing where it drops the event.
    pub fn apply(self, payload: u64) -> Option<u64>
        requires { IsProper self }
        ensures { result ≡ acted self payload }
    {
        match self {
            Action::Pass => Some(payload),
            Action::Add(more) => Some(payload.wrapping_add(more)),
            Action::DropMultiples(number) => {
                if payload % number == 0 {
                    None
                } else {
                    Some(payload)
                }
            }
        }
    }
}

impl Entry {
    ghost use Rattle.std.specs.Prelude.{◌≡◌};
    ghost use Rattle.pipeline_laws.specs.Worked.{new_event};

    /// The NEW by which it is brought to the first queue.
    pub fn event(&self) -> Event
        ensures { result ≡ new_event self.now }
    {
        Event {
            flow: self.flow,
            sub_type: 0,
            event_type: 0,
            op: Op::New,
            queue: 0,
            priority: self.priority,
            impl_opaque: 0,
            payload: self.payload,
        }
    }
}
