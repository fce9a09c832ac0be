//! Steps of one kind more in a table of counts, all at once.

ghost use Rattle.std.specs.Prelude.{◌≡◌, List, ◌++◌, length};
ghost use Rattle.evt_types.specs.declared.step.Step.{Step as StepValue};
ghost use Rattle.step_log.specs.Rows.{AreTo, forward_steps, news_steps, release_steps};
ghost use Rattle.step_tally.specs.Counts.{lane_counts};
ghost use Rattle.step_tally.specs.Tables.{AreCounts, queue_row};

use crate::counts::LaneCounts;
use crate::tables::QueueRow;
use evt_types::Reply;
use step_log::StepLog;

/// Counts the lane's NEWs that the queue accepted last at the queue, where the table has it.
#[inline(always)]
pub(crate) fn count_news_at_queue<L: StepLog>(
    table: &mut [QueueRow],
    _log: &L,
    _lane: usize,
    queue: usize,
    replies: &[Reply],
)
    requires { (T : List StepValue) × (L.steps _log.now ≡ T ++ news_steps _lane queue replies.now) × AreCounts (queue_row T) table.old }
    ensures counts { AreCounts (queue_row (L.steps _log.now)) table.new }
    ensures length { length table.new ≡ length table.old }
{
    if queue < table.len() {
        table[queue].counts.rx_new += replies.len() as u64;
    }
}

/// Counts the lane's NEWs that the queue accepted last at the lane, where the table has it.
#[inline(always)]
pub(crate) fn count_news_at_lane<L: StepLog>(
    table: &mut [LaneCounts],
    _log: &L,
    lane: usize,
    _queue: usize,
    replies: &[Reply],
)
    requires { (T : List StepValue) × (L.steps _log.now ≡ T ++ news_steps lane _queue replies.now) × AreCounts (lane_counts T) table.old }
    ensures counts { AreCounts (lane_counts (L.steps _log.now)) table.new }
    ensures length { length table.new ≡ length table.old }
{
    if lane < table.len() {
        table[lane].rx_new += replies.len() as u64;
    }
}

/// Counts the events that the lane released last, so many, at the lane, where the table has it.
#[inline(always)]
pub(crate) fn count_releases<L: StepLog>(
    table: &mut [LaneCounts],
    _log: &L,
    lane: usize,
    count: usize,
)
    requires { (T : List StepValue) × (L.steps _log.now ≡ T ++ release_steps lane count) × AreCounts (lane_counts T) table.old }
    ensures counts { AreCounts (lane_counts (L.steps _log.now)) table.new }
    ensures length { length table.new ≡ length table.old }
{
    if lane < table.len() {
        table[lane].released += count as u64;
    }
}

/// Counts the events that were passed on last at the queue that accepted them, where the table has it.
#[inline(always)]
pub(crate) fn count_forwards_at_queue<L: StepLog>(
    table: &mut [QueueRow],
    _log: &L,
    _lane: usize,
    _source: usize,
    target: usize,
    _numbers: &[u64],
    replies: &[Reply],
)
    requires { (T : List StepValue) × (L.steps _log.now ≡ T ++ forward_steps _lane _source _numbers.now replies.now) × (length _numbers.now ≡ length replies.now) × AreTo target replies.now × AreCounts (queue_row T) table.old }
    ensures counts { AreCounts (queue_row (L.steps _log.now)) table.new }
    ensures length { length table.new ≡ length table.old }
{
    if target < table.len() {
        table[target].counts.rx_forwarded += replies.len() as u64;
    }
}

/// Counts the events that the lane passed on last at the lane, where the table has it.
#[inline(always)]
pub(crate) fn count_forwards_at_lane<L: StepLog>(
    table: &mut [LaneCounts],
    _log: &L,
    lane: usize,
    _source: usize,
    _numbers: &[u64],
    replies: &[Reply],
)
    requires { (T : List StepValue) × (L.steps _log.now ≡ T ++ forward_steps lane _source _numbers.now replies.now) × (length _numbers.now ≡ length replies.now) × AreCounts (lane_counts T) table.old }
    ensures counts { AreCounts (lane_counts (L.steps _log.now)) table.new }
    ensures length { length table.new ≡ length table.old }
{
    if lane < table.len() {
        table[lane].forwarded += replies.len() as u64;
    }
}
