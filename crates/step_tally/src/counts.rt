//! What is counted of a queue, and of a lane.

/// What was counted of a queue.
#[derive(Clone, Copy, Debug, PartialEq, Eq, Default)]
pub struct QueueCounts {
    /// How many events it accepted as NEW.
    pub rx_new: u64,
    /// How many events it accepted as what others were passed on as, by FORWARD or FORWARD_MORE.
    pub rx_forwarded: u64,
    /// How many of its events were given: `qid_N_tx` of event_sw, whose `qid_N_rx` is the sum of the two above.
    pub tx: u64,
}

/// What was counted of a lane.
#[derive(Clone, Copy, Debug, PartialEq, Eq, Default)]
pub struct LaneCounts {
    /// How many of its NEWs were accepted.
    pub rx_new: u64,
    /// How many events it was given: of a port its `port_N_tx`.
    pub tx: u64,
    /// How many of them it released.
    pub released: u64,
    /// How many of them it forwarded.
    pub forwarded: u64,
    /// How many events it added beside them.
    pub added: u64,
    /// How many of its NEWs were turned away.
    pub turned: u64,
    /// How many times its ring had no room for a delivery.
    pub bounced: u64,
}
