//! Why a run stops before its end.

use core_oracle::PlainFault;
use evt_types::ShapeFault;
use std::alloc::AllocError;
use thiserror::Error;

/// Why a run stops before its end.
#[derive(Debug, Drop, Error)]
pub(crate) enum RunFault {
    /// Something came otherwise than it must; the text says what.
    #[error("{0}")]
    Otherwise(String),
    /// The device's configuration is refused.
    #[error("the configuration is refused: {0}")]
    Shape(#[from] ShapeFault),
    /// The plain core gave up.
    #[error("the plain core gave up: {0}")]
    Plain(#[from] PlainFault),
    /// A line couldn't be written.
    #[error("a line can't be written")]
    Write,
    /// Memory ran out.
    #[error("memory is lacking")]
    Memory(#[from] AllocError),
}
