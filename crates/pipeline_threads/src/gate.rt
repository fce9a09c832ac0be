//! The gate: what a worker passes before its actions, the scheduling thread after its sweeps, and the run where it begins a phase.

/// What a run is at.
#[derive(Clone, Copy, Debug, PartialEq, Eq)]
pub enum Phase {
    /// The document is read.
    Reading,
    /// A trace of so many events passes the stages.
    Running { events: usize },
    /// The log is looked through, and its text is made.
    Checking,
    /// The text is written.
    Writing,
}

/// What a worker passes before each event's action, and the scheduling thread after each sweep.
pub trait Gate: Sync {
    /// Called by the worker of this number, from 1, before the action on an event with this payload.
    fn enter(&self, worker: usize, payload: u64);

    /// Called by the scheduling thread after each sweep, with the number of events accepted as new and that of events inside.
    fn swept(&self, _accepted: u64, _inside: usize) {}

    /// Called by the thread that a run is called in, where it begins a phase.
    fn begins(&self, _phase: Phase) {}
}

/// A gate that holds nobody up.
#[derive(Clone, Copy, Debug, Drop)]
pub struct OpenGate;

impl Gate for OpenGate {
    fn enter(&self, _worker: usize, _payload: u64) {}
}
