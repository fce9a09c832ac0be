//! Why a run stops before its end.

use std::alloc::AllocError;

/// Why a run stops before its end.
#[derive(Clone, Copy)]
pub enum BenchFault {
    /// The command line has not nine words.
    WordCount,
    /// The first word is no number of 1 to 64.
    Held,
    /// The second word is no number of 1 to 63.
    Flows,
    /// The third word is no number of events.
    Waiting,
    /// The fourth word is no number of events.
    Blocked,
    /// The fifth word is no number of 1 to 32.
    Queues,
    /// The sixth word is no number of 1 to the fifth.
    Busy,
    /// The seventh word is no number of 1 to 30.
    Ports,
    /// The eighth word is no number of 1 to 32.
    Burst,
    /// The ninth word is no number of rounds.
    Rounds,
    /// The first word is less than the eighth: a burst couldn't be released.
    FewHeld,
    /// The line couldn't be written.
    Write,
    /// An allocation was refused.
    Memory,
    /// The device was refused.
    Device,
    /// The core didn't take a reply, or had nothing to give, or didn't give an event to the busy port.
    Stuck,
}

impl BenchFault {
    /// What is said of it.
    pub fn text(self) -> &'static str {
        match self {
            BenchFault::WordCount => {
                "nine words are wanted: the unanswered events, the flows, the waiting events, the blocked events, the queues, those that are busy, the worker ports, the burst and the rounds"
            },
            BenchFault::Held => "the unanswered events must be a number of 1 to 64",
            BenchFault::Flows => "the flows must be a number of 1 to 63",
            BenchFault::Waiting => "the waiting events must be a number",
            BenchFault::Blocked => "the blocked events must be a number",
            BenchFault::Queues => "the queues must be a number of 1 to 32",
            BenchFault::Busy => "the busy queues must be a number of 1 to that of the queues",
            BenchFault::Ports => "the worker ports must be a number of 1 to 30",
            BenchFault::Burst => "the burst must be a number of 1 to 32",
            BenchFault::Rounds => "the rounds must be a number",
            BenchFault::FewHeld => "the unanswered events must be as many as a burst at least",
            BenchFault::Write => "the line can't be written",
            BenchFault::Memory => "memory is lacking",
            BenchFault::Device => "the device is refused",
            BenchFault::Stuck => "the core came to a stop",
        }
    }

    /// The status to end with: 2 where the words are at fault.
    pub fn status(self) -> u8 {
        match self {
            BenchFault::WordCount
            | BenchFault::Held
            | BenchFault::Flows
            | BenchFault::Waiting
            | BenchFault::Blocked
            | BenchFault::Queues
            | BenchFault::Busy
            | BenchFault::Ports
            | BenchFault::Burst
            | BenchFault::Rounds
            | BenchFault::FewHeld => 2,
            BenchFault::Write | BenchFault::Memory | BenchFault::Device | BenchFault::Stuck => 1,
        }
    }
}

impl From<AllocError> for BenchFault {
    fn from(_error: AllocError) -> BenchFault {
        BenchFault::Memory
    }
}
