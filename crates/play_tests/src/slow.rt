//! Readers and writers that give and take little, and fail.

use std::alloc::Global;
use std::io::{Error, ErrorKind, Read, Result as IoResult, Write};

/// Gives one byte a read, and fails after some reads.
#[derive(Drop)]
pub struct SlowReader<'a> {
    rest: &'a [u8],
    reads: usize,
}

impl<'a> SlowReader<'a> {
    /// Gives these bytes, and fails after so many reads.
    pub fn new(rest: &'a [u8], reads: usize) -> SlowReader<'a> {
        SlowReader { rest, reads }
    }
}

impl Read for SlowReader<'_> {
    fn read(&mut self, buf: &mut [u8]) -> IoResult<usize> {
        if self.reads == 0 {
            return Err(Error::from(ErrorKind::Interrupted));
        }
        self.reads -= 1;
        match self.rest.split_first() {
            Some((first, rest)) if !buf.is_empty() => {
                buf[0] = *first;
                self.rest = rest;
                Ok(1)
            }
            _ => Ok(0),
        }
    }
}

/// Takes so many bytes a write, and fails after some writes.
#[derive(Drop)]
pub struct SlowWriter {
    /// What it took.
    pub taken: Vec<u8>,
    step: usize,
    writes: usize,
}

impl SlowWriter {
    /// Takes so many bytes a write, and fails after so many writes.
    pub fn new(alloc: Global, step: usize, writes: usize) -> SlowWriter {
        SlowWriter {
            taken: Vec::new(alloc),
            step,
            writes,
        }
    }
}

impl Write for SlowWriter {
    fn write(&mut self, buf: &[u8]) -> IoResult<usize> {
        if self.writes == 0 {
            return Err(Error::from(ErrorKind::Interrupted));
        }
        self.writes -= 1;
        let count = self.step.min(buf.len());
        self.taken.extend_from_slice(&buf[..count])?;
        Ok(count)
    }

    fn flush(&mut self) -> IoResult<()> {
        Ok(())
    }
}
