//! What a thread promises of the port that it returns.

use event_device::Port;
use pipeline_laws::{Action, Entry};
use run_counts::Looks;
use std::snapshot::Snapshot;
use std::thread::Promise;

/// A port that its thread is done with, and how often that looked for events.
#[derive(Drop)]
pub(crate) struct Worked {
    pub(crate) port: Port,
    pub(crate) looks: Looks,
}

/// A thread's promise: of the port that it is given, the stages' actions and the trace.
#[derive(Drop)]
pub(crate) struct Returned<'a> {
    pub(crate) start: Snapshot<Port>,
    pub(crate) actions: &'a [Action],
    pub(crate) trace: &'a [Entry],
}

impl<'a> Promise<Worked> for Returned<'a> {
    ghost use Rattle.pipeline_threads.specs.Ports.{Returns};

    ghost kept_by = { λ p r. Returns p.actions.now p.trace.now p.start.value r };
}
