//! What a port holds, and from where.

/// A lane of a port.
#[derive(Clone, Copy)]
pub enum Lane {
    /// The port's own lane.
    Own,
    /// The flow lane of this number, from 0.
    Flow(usize),
}

/// A delivery that a port received and has not answered: the lane from which it came, its queue and its number there.
#[derive(Clone, Copy)]
pub struct Holding {
    pub lane: Lane,
    pub queue: usize,
    pub number: u64,
}
