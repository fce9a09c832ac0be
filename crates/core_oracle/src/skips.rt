//! What a sweep passes over.

use std::alloc::{AllocError, Global};

/// The lanes whose ring refused a delivery in this sweep, and the queue of each event that was given in it.
#[derive(Drop)]
pub struct PlainSkips {
    bounced: Vec<usize>,
    given: Vec<usize>,
}

impl PlainSkips {
    /// Nothing is passed over.
    pub fn none(alloc: Global) -> PlainSkips {
        PlainSkips {
            bounced: Vec::new(alloc),
            given: Vec::new(alloc),
        }
    }

    /// The lane's ring refused a delivery.
    pub fn bounced(&mut self, lane: usize) -> Result<(), AllocError> {
        self.bounced.push(lane)?;
        Ok(())
    }

    /// An event of the queue was given.
    pub fn given(&mut self, queue: usize) -> Result<(), AllocError> {
        self.given.push(queue)?;
        Ok(())
    }

    /// Whether the lane's ring refused a delivery.
    pub fn has_bounced(&self, lane: usize) -> bool {
        self.bounced.contains(&lane)
    }

    /// How many events of the queue were given.
    pub fn given_len(&self, queue: usize) -> usize {
        self.given.iter().filter(|given| **given == queue).count()
    }
}
