//! Why the program stops before its end.

ghost use Rattle.std.specs.Prelude.{◌≡◌, if◌then◌else◌};
ghost use Rattle.device_bench.specs.Fault.{is_of_words};

use pipeline_app::AppFault;
use play_documents::ReadFault;
use std::alloc::{AllocError, AllocFailed};
use std::io;

/// Why the program stops before its end.
#[derive(Clone, Copy)]
pub enum BenchFault {
    /// The command line has words, and they are neither `measure` nor `run` and more.
    Words,
    /// There aren't four words after `run`.
    WordCount,
    /// The first of them is neither `ports` nor `flows`.
    Serving,
    /// The second is no number of 1 to 8.
    Workers,
    /// The third is no number of up to 1,000,000.
    Events,
    /// The fourth is no number of 1 to 64.
    Burst,
    /// A line couldn't be written.
    Write,
    /// Memory ran out, or a thread couldn't be started.
    Memory,
    /// The device was refused.
    Device,
    /// The clock couldn't be read.
    Clock,
    /// A call took, gave or handed out another number of events than a burst.
    Stuck,
    /// The document was refused.
    Document,
    /// A seat couldn't be had.
    NoSeat,
    /// An answer of the run wasn't its stage's action.
    Strayed,
}

impl BenchFault {
    /// What is said of it.
    pub fn text(self) -> &'static str {
        match self {
            BenchFault::Words => "the words that are known are `measure`, and `run` with four more",
            BenchFault::WordCount => {
                "four words are wanted: `ports` or `flows`, the workers, the events and the burst"
            },
            BenchFault::Serving => "the serving must be `ports` or `flows`",
            BenchFault::Workers => "the workers must be a number of 1 to 8",
            BenchFault::Events => "the events must be a number of up to 1,000,000",
            BenchFault::Burst => "the burst must be a number of 1 to 64",
            BenchFault::Write => "a line can't be written",
            BenchFault::Memory => "memory is lacking",
            BenchFault::Device => "the device is refused",
            BenchFault::Clock => "the clock can't be read",
            BenchFault::Stuck => "a burst did not go through",
            BenchFault::Document => "the document is refused",
            BenchFault::NoSeat => "a seat is lacking",
            BenchFault::Strayed => "an answer strayed",
        }
    }

    /// The status to end with: 2 where the words are at fault.
    pub fn status(self) -> u8
        ensures { result ≡ (if is_of_words self then 2 else 1) }
    {
        match self {
            BenchFault::Words
            | BenchFault::WordCount
            | BenchFault::Serving
            | BenchFault::Workers
            | BenchFault::Events
            | BenchFault::Burst => 2,
            BenchFault::Write
            | BenchFault::Memory
            | BenchFault::Device
            | BenchFault::Clock
            | BenchFault::Stuck
            | BenchFault::Document
            | BenchFault::NoSeat
            | BenchFault::Strayed => 1,
        }
    }
}

/// Of a line that is printed; the words of the command line have a fault of their own.
impl From<io::Error> for BenchFault {
    fn from(_error: io::Error) -> BenchFault {
        BenchFault::Write
    }
}

impl From<AllocError> for BenchFault {
    fn from(_error: AllocError) -> BenchFault {
        BenchFault::Memory
    }
}

impl<T: Drop> From<AllocFailed<T>> for BenchFault {
    fn from(_error: AllocFailed<T>) -> BenchFault {
        BenchFault::Memory
    }
}

impl From<ReadFault> for BenchFault {
    fn from(fault: ReadFault) -> BenchFault {
        match fault {
            ReadFault::Document(_) => BenchFault::Document,
            ReadFault::Memory => BenchFault::Memory,
        }
    }
}

impl From<AppFault> for BenchFault {
    fn from(fault: AppFault) -> BenchFault {
        match fault {
            AppFault::Read | AppFault::Document(_) => BenchFault::Document,
            AppFault::Write => BenchFault::Write,
            AppFault::Memory => BenchFault::Memory,
            AppFault::NoSeat => BenchFault::NoSeat,
            AppFault::Strayed(_) => BenchFault::Strayed,
        }
    }
}
