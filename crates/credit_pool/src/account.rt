//! What a seat knows.

/// The account of a seat, its parts, and what it read. It stands in contracts alone: no value of it is made.
pub struct Account {
    /// The credits of the whole pool, at most 2^32.
    pub limit: u64,
    /// The first seat has 64 parts, and each split gives one away.
    pub parts: u64,
    /// The credits that were drawn through the seat, of which there is no bound.
    pub drawn: u64,
    /// The credits that were given back through the seat.
    pub returned: u64,
    /// The word that the seat read last.
    pub last: u64,
    /// The word that it read before that one.
    pub before: u64,
    /// How many words it read: one by a load, one by an exchange.
    pub reads: u64,
    /// The seat read the shut bit, or set it, or came from one that had.
    pub saw_shut: bool,
    /// The seat set the shut bit, or a seat that was joined into it had.
    pub set_shut: bool,
}
