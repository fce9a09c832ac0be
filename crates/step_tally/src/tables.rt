//! One step more in a table of counts.

ghost use Rattle.std.specs.Prelude.{◌≡◌, [], ◌∷◌, ◌++◌, length};
ghost use Rattle.step_tally.specs.Counts.{lane_counts};
ghost use Rattle.step_tally.specs.Tables.{AreCounts, HasFewOfLane, HasFewOfQueue, lane_after, lane_in, queue_in, queue_row, row_after};

use crate::counts::{LaneCounts, QueueCounts};
use evt_types::{MAX_PORTS, Outcome, Source, Step};
use step_log::StepLog;

/// What a table has of a queue: what is counted of it, and how many of its events each port's lane was given.
#[derive(Clone, Copy)]
pub(crate) struct QueueRow {
    pub(crate) counts: QueueCounts,
    pub(crate) given: [u64; MAX_PORTS],
}

/// The queue of which the step is counted.
#[inline(always)]
fn queue_in(step: &Step) -> Option<usize>
    ensures { result ≡ queue_in step.now }
{
    match *step {
        Step::Accept { queue, .. } | Step::Give { queue, .. } => Some(queue),
        Step::Done { .. }
        | Step::More { .. }
        | Step::Turned { .. }
        | Step::Bounced { .. }
        | Step::Shut => None,
    }
}

/// Counts the step of this queue.
#[inline(always)]
fn count_of_queue(row: &mut QueueRow, step: &Step)
    requires { HasFewOfQueue row.old }
    ensures { row.new ≡ row_after row.old step.now }
{
    match *step {
        Step::Accept { source, .. } => match source {
            Source::New { .. } => row.counts.rx_new += 1,
            Source::Of { .. } => row.counts.rx_forwarded += 1,
        },
        Step::Give { lane, .. } => {
            row.counts.tx += 1;
            if lane < MAX_PORTS {
                row.given[lane] += 1;
            }
        }
        Step::Done { .. }
        | Step::More { .. }
        | Step::Turned { .. }
        | Step::Bounced { .. }
        | Step::Shut => {}
    }
}

/// Counts the step, which comes after those of the log, at its queue, where the table has it.
#[inline(always)]
pub(crate) fn count_at_queue<L: StepLog>(table: &mut [QueueRow], _log: &L, step: &Step)
    requires { AreCounts (queue_row (L.steps _log.now)) table.old }
    ensures counts { AreCounts (queue_row (L.steps _log.now ++ step.now ∷ [])) table.new }
    ensures length { length table.new ≡ length table.old }
{
    if let Some(queue) = queue_in(step) {
        if queue < table.len() {
            count_of_queue(&mut table[queue], step);
        }
    }
}

/// The lane of which the step is counted.
#[inline(always)]
fn lane_in(step: &Step) -> Option<usize>
    ensures { result ≡ lane_in step.now }
{
    match *step {
        Step::Accept {
            source: Source::New { lane },
            ..
        }
        | Step::Give { lane, .. }
        | Step::Done { lane, .. }
        | Step::More { lane, .. }
        | Step::Turned { lane, .. }
        | Step::Bounced { lane } => Some(lane),
        Step::Accept {
            source: Source::Of { .. },
            ..
        }
        | Step::Shut => None,
    }
}

/// Counts the step of this lane.
#[inline(always)]
fn count_of_lane(counts: &mut LaneCounts, step: &Step)
    requires { HasFewOfLane counts.old }
    ensures { counts.new ≡ lane_after counts.old step.now }
{
    match *step {
        Step::Accept { source, .. } => match source {
            Source::New { .. } => counts.rx_new += 1,
            Source::Of { .. } => {}
        },
        Step::Give { .. } => counts.tx += 1,
        Step::Done { outcome, .. } => match outcome {
            Outcome::Released => counts.released += 1,
            Outcome::Forwarded(_) => counts.forwarded += 1,
        },
        Step::More { .. } => counts.added += 1,
        Step::Turned { .. } => counts.turned += 1,
        Step::Bounced { .. } => counts.bounced += 1,
        Step::Shut => {}
    }
}

/// Counts the step, which comes after those of the log, at its lane, where the table has it.
#[inline(always)]
pub(crate) fn count_at_lane<L: StepLog>(table: &mut [LaneCounts], _log: &L, step: &Step)
    requires { AreCounts (lane_counts (L.steps _log.now)) table.old }
    ensures counts { AreCounts (lane_counts (L.steps _log.now ++ step.now ∷ [])) table.new }
    ensures length { length table.new ≡ length table.old }
{
    if let Some(lane) = lane_in(step) {
        if lane < table.len() {
            count_of_lane(&mut table[lane], step);
        }
    }
}
