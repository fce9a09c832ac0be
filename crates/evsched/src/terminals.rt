//! Terminals among the standard streams.

/// Which of the streams that a task reads and writes are a terminal.
#[derive(Clone, Copy)]
pub struct Terminals {
    /// Its document comes from one.
    pub input: bool,
    /// Standard output is one.
    pub output: bool,
    /// Standard error is one.
    pub error: bool,
}
