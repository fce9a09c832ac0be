//! A reader that notes why it failed.

use std::io::{Error, Read, Result};

/// Gives what another reader gives, and notes the cause of a read that fails.
#[derive(Drop)]
pub struct Noted<R> {
    from: R,
    cause: Option<Error>,
}

impl<R> Noted<R> {
    /// Gives what this one gives.
    pub fn new(from: R) -> Noted<R> {
        Noted { from, cause: None }
    }

    /// Why the last read failed, where one did.
    pub fn cause(&self) -> Option<&Error> {
        self.cause.as_ref()
    }
}

impl<R: Read> Read for Noted<R> {
    fn read(&mut self, buf: &mut [u8]) -> Result<usize> {
        match self.from.read(buf) {
            Ok(count) => Ok(count),
            Err(cause) => {
                let kind = cause.kind();
                self.cause = Some(cause);
                Err(Error::from(kind))
            }
        }
    }
}
