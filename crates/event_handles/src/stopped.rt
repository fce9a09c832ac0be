//! A device that was stopped.

use event_device::{Counted, Report, Tally};
use evt_types::{Kind, MAX_QUEUES};

/// The account of a device that was stopped, with the scheduling types of its queues, and how much of what is left was handed out: all
/// of the lists before `part`, and of that one the first `handed`.
#[derive(Drop)]
pub(crate) struct Stopped {
    pub(crate) report: Report<Tally<Counted>>,
    pub(crate) kinds: [Kind; MAX_QUEUES],
    pub(crate) part: usize,
    pub(crate) handed: usize,
}
