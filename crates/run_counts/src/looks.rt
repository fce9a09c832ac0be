//! How often a worker looks for events, and what is counted of a port.

ghost use Rattle.std.specs.Prelude.{◌≡◌};
ghost use Rattle.run_counts.specs.Looking.{looked};

use arrayvec::ArrayVec;
use event_ports::PortCounts;
use evt_types::MAX_PORTS;

/// How often a worker looked for events. A count that reaches 2^64 - 1 stays there.
#[derive(Clone, Copy, Debug, PartialEq, Eq, Default)]
pub struct Looks {
    /// How many times it looked.
    pub all: u64,
    /// How many times it found nothing.
    pub vain: u64,
}

/// What was counted of a port and of its thread.
#[derive(Clone, Copy, Debug, PartialEq, Eq, Default)]
pub struct PortWork {
    /// The port's number: 0 brings the trace in, each other one is a worker's.
    pub port: usize,
    /// What the port counted.
    pub counts: PortCounts,
    /// How often its worker looked; the producer doesn't.
    pub looks: Looks,
}

/// What was counted of the threads of a run.
#[derive(Drop)]
pub struct ThreadWork {
    /// By port, in the order of their numbers.
    pub ports: ArrayVec<PortWork, MAX_PORTS>,
    /// How often the scheduler swept. A count that reaches 2^64 - 1 stays there.
    pub sweeps: u64,
}

impl Looks {
    ghost use Rattle.std.specs.Prelude.{◌≡◌};
    ghost use Rattle.run_counts.specs.Looking.{looked, no_looks};

    /// None yet.
    pub fn none() -> Looks
        ensures { result ≡ no_looks }
    {
        Looks { all: 0, vain: 0 }
    }

    /// Counts a look that found so many events.
    pub fn count(&mut self, came: usize)
        ensures { self.new ≡ looked came self.old }
    {
        self.all = self.all.saturating_add(1);
        if came == 0 {
            self.vain = self.vain.saturating_add(1);
        }
    }
}
