//! Why the plain core gives up.

use std::alloc::{AllocError, AllocFailed};
use thiserror::Error;

/// Why the plain core gives up. Without want of memory neither of the others comes.
#[derive(Clone, Copy, Debug, Error)]
pub enum PlainFault {
    #[error("memory is lacking")]
    Memory(#[from] AllocError),
    #[error("a queue isn't there")]
    Queue,
    #[error("a level has no room")]
    Room,
}

impl<T: Drop> From<AllocFailed<T>> for PlainFault {
    fn from(failed: AllocFailed<T>) -> PlainFault {
        PlainFault::Memory(AllocError::from(failed))
    }
}
