//! What the plain core proposes to give.

use evt_types::Event;

/// A waiting event, and the lane that it may be given to.
#[derive(Clone, Copy, Debug, PartialEq, Eq)]
pub struct PlainOffer {
    pub lane: usize,
    pub queue: usize,
    pub number: u64,
    pub event: Event,
}
