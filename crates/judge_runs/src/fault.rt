//! Why the runs stop before their end.

use core_oracle::PlainFault;
use evt_types::ShapeFault;
use std::alloc::AllocError;
use thiserror::Error;
use transcript_judge::Clause;

/// Why the runs stop before their end.
#[derive(Debug, Drop, Error)]
pub(crate) enum RunFault {
    /// The judge and the plain one differ; the text says where.
    #[error("{0}")]
    Differs(String),
    /// No transcript broke the clause.
    #[error("no transcript broke the clause {0:?}")]
    Untried(Clause),
    /// The device's configuration is refused.
    #[error("the configuration is refused: {0}")]
    Shape(#[from] ShapeFault),
    /// The plain core gave up.
    #[error("the plain core gave up: {0}")]
    Plain(#[from] PlainFault),
    /// A line couldn't be written.
    #[error("a line can't be written")]
    Write,
    /// Memory ran out.
    #[error("memory is lacking")]
    Memory(#[from] AllocError),
}
