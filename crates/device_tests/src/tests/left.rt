//! What a report must say beside its log.

use super::calls::Sent;
use event_device::{Held, Report, Turned, Undelivered, Untaken};
use evt_types::{Delivery, KeptEvent};

/// All of a report but its log: of what waits or is kept queue, number and event, of what is undelivered the lane too, of what is untaken
/// or was turned away lane and event.
#[derive(Clone, Copy)]
pub(crate) struct Left {
    pub(crate) waiting: &'static [(usize, u64, Sent)],
    pub(crate) kept: &'static [(usize, u64, Sent)],
    pub(crate) undelivered: &'static [(usize, usize, u64, Sent)],
    pub(crate) held: &'static [Held],
    pub(crate) untaken: &'static [(usize, Sent)],
    pub(crate) turned: &'static [(usize, Sent)],
    pub(crate) free: u64,
    pub(crate) pockets: &'static [u64],
    pub(crate) own: u64,
}

/// No event is left, and no credit.
pub(crate) const NOTHING: Left = Left {
    waiting: &[],
    kept: &[],
    undelivered: &[],
    held: &[],
    untaken: &[],
    turned: &[],
    free: 0,
    pockets: &[],
    own: 0,
};

fn are_waiting(waiting: &[Delivery], wanted: &[(usize, u64, Sent)]) -> bool {
    for (event, (queue, number, sent)) in waiting.iter().zip(wanted.iter()) {
        let is_there = (event.queue(), event.number()) == (*queue, *number);
        if !is_there || event.event() != sent.event() {
            return false;
        }
    }
    waiting.len() == wanted.len()
}

fn are_kept(kept: &[KeptEvent], wanted: &[(usize, u64, Sent)]) -> bool {
    for (event, (queue, number, sent)) in kept.iter().zip(wanted.iter()) {
        if event.queue != *queue || event.number != *number || event.event != sent.event() {
            return false;
        }
    }
    kept.len() == wanted.len()
}

fn are_undelivered(left: &[Undelivered], wanted: &[(usize, usize, u64, Sent)]) -> bool {
    for (event, (lane, queue, number, sent)) in left.iter().zip(wanted.iter()) {
        let is_there = (event.lane, event.queue, event.number) == (*lane, *queue, *number);
        if !is_there || event.event != sent.event() {
            return false;
        }
    }
    left.len() == wanted.len()
}

fn are_untaken(untaken: &[Untaken], wanted: &[(usize, Sent)]) -> bool {
    for (event, (lane, sent)) in untaken.iter().zip(wanted.iter()) {
        if event.lane != *lane || event.event != sent.event() {
            return false;
        }
    }
    untaken.len() == wanted.len()
}

fn are_turned(turned: &[Turned], wanted: &[(usize, Sent)]) -> bool {
    for (event, (lane, sent)) in turned.iter().zip(wanted.iter()) {
        if event.lane != *lane || event.event != sent.event() {
            return false;
        }
    }
    turned.len() == wanted.len()
}

impl Left {
    /// The part of the report that is otherwise.
    pub(crate) fn other_in(&self, report: &Report) -> Option<&'static str> {
        if !are_waiting(&report.waiting, self.waiting) {
            Some("waiting")
        } else if !are_kept(&report.kept, self.kept) {
            Some("kept")
        } else if !are_undelivered(&report.undelivered, self.undelivered) {
            Some("undelivered")
        } else if report.held.as_slice() != self.held {
            Some("held")
        } else if !are_untaken(&report.untaken, self.untaken) {
            Some("untaken")
        } else if !are_turned(&report.turned, self.turned) {
            Some("turned")
        } else {
            self.other_credits_in(report)
        }
    }

    fn other_credits_in(&self, report: &Report) -> Option<&'static str> {
        if report.free != self.free || report.own != self.own {
            Some("credits")
        } else if report.pockets.as_slice() != self.pockets {
            Some("pockets")
        } else {
            None
        }
    }
}
