//! A writer that notes that nobody reads what it writes.

use std::io::{ErrorKind, Result, Write};
use std::sync::atomic::{AtomicBool, Ordering};

/// Writes to another writer, and notes where that is a pipe from which nobody reads any more.
#[derive(Drop)]
pub struct Piped<'a, W> {
    to: W,
    closed: &'a AtomicBool,
}

impl<'a, W> Piped<'a, W> {
    /// Writes to this one, and notes there that it is closed.
    pub fn new(to: W, closed: &'a AtomicBool) -> Piped<'a, W> {
        Piped { to, closed }
    }
}

impl<W: Write> Write for Piped<'_, W> {
    fn write(&mut self, buf: &[u8]) -> Result<usize> {
        let written = self.to.write(buf);
        if let Err(error) = &written {
            if error.kind() == ErrorKind::BrokenPipe {
                self.closed.store(true, Ordering::SeqCst);
            }
        }
        written
    }

    fn flush(&mut self) -> Result<()> {
        self.to.flush()
    }
}
