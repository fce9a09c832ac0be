//! What the calls that may be refused answer.

/// What a draw answers. Credits are drawn at `Drawn` alone.
#[derive(Clone, Copy, Debug, PartialEq, Eq)]
pub enum Draw {
    /// All credits that were asked for were drawn.
    Drawn,
    /// The pool is shut.
    Shut,
    /// So many credits were free, and with the draw more than the ceiling would be in use.
    Short { free: u64 },
    /// Another seat changed the word between the two reads, which found these words.
    Raced { first: u64, second: u64 },
}

/// What giving back answers. Credits are returned at `Given` alone.
#[derive(Clone, Copy, Debug, PartialEq, Eq)]
pub enum Give {
    /// All credits were given back.
    Given,
    /// So many credits were free, and with the return they would be more than the limit.
    Over { free: u64 },
    /// Another seat changed the word between the two reads, which found these words.
    Raced { first: u64, second: u64 },
}
