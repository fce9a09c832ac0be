//! What shows that a step breaks a clause.

/// Which event was given, and to which lane.
#[derive(Clone, Copy, Debug, PartialEq, Eq)]
pub(crate) struct Gift {
    pub(crate) lane: usize,
    pub(crate) queue: usize,
    pub(crate) number: u64,
}

/// An event that a lane hasn't answered, of a queue that is known.
#[derive(Clone, Copy, Debug, PartialEq, Eq)]
pub(crate) struct Holding {
    pub(crate) lane: usize,
    pub(crate) number: u64,
}

/// Whose events of a queue keep their order: those of a flow and level, or those of a level.
#[derive(Clone, Copy, Debug, PartialEq, Eq)]
pub(crate) enum Class {
    Flow(u32),
    Level(usize),
}

/// What another event of the queue has to do with an Accept from an event.
#[derive(Clone, Copy, Debug, PartialEq, Eq)]
pub(crate) enum Disorder {
    /// It was given as early, and isn't answered.
    Unanswered,
    /// It was given before, and one of its forwards isn't accepted.
    Kept,
    /// It wasn't given as early, and one of its forwards was accepted.
    Later,
    /// It is of the same flow and level and has a higher number, and one of its forwards was accepted.
    Behind,
}

/// What shows that a step breaks a clause. Another step is named by its place in the log.
#[derive(Clone, Copy, Debug, PartialEq, Eq)]
pub(crate) enum Reason {
    /// The number was given before another one that keeps its order with it, and was accepted there.
    Passed {
        class: Class,
        queue: usize,
        number: u64,
        other: u64,
        at: usize,
    },
    /// The number that was given wasn't accepted.
    Absent {
        queue: usize,
        number: u64,
    },
    /// It was given there before.
    Given {
        queue: usize,
        number: u64,
        at: usize,
    },
    /// The lane doesn't serve the flow of the queue.
    Unserved {
        lane: usize,
        queue: usize,
        flow: u32,
    },
    /// The lane has so many unanswered events.
    Full {
        lane: usize,
        count: usize,
    },
    /// Another number, of this flow, is unanswered on a lane, which was given it there.
    Held {
        queue: usize,
        flow: u32,
        other: u64,
        other_flow: u32,
        lane: usize,
        at: usize,
    },
    /// The Accept from the number is out of order with another one, which was given there, or of which a forward was accepted there.
    Order {
        disorder: Disorder,
        queue: usize,
        number: u64,
        other: u64,
        at: usize,
    },
    /// The lane has nothing to answer.
    Idle {
        lane: usize,
    },
    /// The lane has added so many events beside the one that it answers next.
    Added {
        lane: usize,
        count: usize,
    },
    /// The number wasn't passed on as this.
    Foreign {
        queue: usize,
        number: u64,
    },
    /// The device was shut there.
    Shut {
        at: usize,
    },
    /// The device isn't shut.
    Open,
}
