//! Rows of gifts of one queue in a table of counts: a row to one lane is counted once, whatever its length, and a deal lane by lane.

ghost use Rattle.std.specs.Prelude.{◌≡◌, ◌+◌, ◌<◌, ◌^◌, ◌++◌, length};
ghost use Rattle.step_log.specs.Gives.{deals_of, gives_of};
ghost use Rattle.step_tally.specs.Counts.{lane_counts};
ghost use Rattle.step_tally.specs.Tables.{AreCounts, HasFewOfQueue, queue_row, row_given};

use crate::counts::LaneCounts;
use crate::tables::QueueRow;
use evt_types::{Delivery, MAX_PORTS};
use step_log::StepLog;

/// Counts so many gifts of this queue to the lane.
#[inline(always)]
fn count_given(row: &mut QueueRow, lane: usize, count: u64)
    requires few { HasFewOfQueue row.old }
    requires count { count < 2 ^ 63 }
    ensures { row.new ≡ row_given row.old lane count }
{
    row.counts.tx += count;
    if lane < MAX_PORTS {
        row.given[lane] += count;
    }
}

/// Counts the gifts, which come after the steps of the log, at their queue, where the table has it.
#[inline(always)]
pub(crate) fn count_gives_at_queue<L: StepLog>(
    table: &mut [QueueRow],
    _log: &L,
    lane: usize,
    queue: usize,
    row: &[Delivery],
)
    requires { AreCounts (queue_row (L.steps _log.now)) table.old }
    ensures counts { AreCounts (queue_row (L.steps _log.now ++ gives_of lane queue row.now)) table.new }
    ensures length { length table.new ≡ length table.old }
{
    if queue < table.len() {
        count_given(&mut table[queue], lane, row.len() as u64);
    }
}

/// Counts the gifts, which come after the steps of the log, at their lane, where the table has it.
#[inline(always)]
pub(crate) fn count_gives_at_lane<L: StepLog>(
    table: &mut [LaneCounts],
    _log: &L,
    lane: usize,
    _queue: usize,
    row: &[Delivery],
)
    requires { AreCounts (lane_counts (L.steps _log.now)) table.old }
    ensures counts { AreCounts (lane_counts (L.steps _log.now ++ gives_of lane _queue row.now)) table.new }
    ensures length { length table.new ≡ length table.old }
{
    if lane < table.len() {
        table[lane].tx += row.len() as u64;
    }
}

/// Counts the gifts of a deal, which come after the steps of the log, in the row of their queue.
#[inline(always)]
fn count_dealt<L: StepLog>(
    counted: &mut QueueRow,
    _log: &L,
    _queue: usize,
    _row: &[Delivery],
    lanes: &[usize],
)
    requires lanes { length lanes.now ≡ length _row.now }
    requires counts { counted.old ≡ queue_row (L.steps _log.now) _queue }
    ensures { counted.new ≡ queue_row (L.steps _log.now ++ deals_of _queue _row.now lanes.now) _queue }
{
    counted.counts.tx += lanes.len() as u64;
    for lane in lanes {
        if *lane < MAX_PORTS {
            counted.given[*lane] += 1;
        }
    }
}

/// Counts the gifts of a deal, which come after the steps of the log, at their queue, where the table has it.
#[inline(always)]
pub(crate) fn count_deals_at_queue<L: StepLog>(
    table: &mut [QueueRow],
    log: &L,
    queue: usize,
    row: &[Delivery],
    lanes: &[usize],
)
    requires lanes { length lanes.now ≡ length row.now }
    requires counts { AreCounts (queue_row (L.steps log.now)) table.old }
    ensures counts { AreCounts (queue_row (L.steps log.now ++ deals_of queue row.now lanes.now)) table.new }
    ensures length { length table.new ≡ length table.old }
{
    if queue < table.len() {
        count_dealt(&mut table[queue], log, queue, row, lanes);
    }
}

/// Counts the gifts of a deal, which come after the steps of the log, at their lanes, where the table has them.
#[inline(always)]
pub(crate) fn count_deals_at_lanes<L: StepLog>(
    table: &mut [LaneCounts],
    _log: &L,
    _queue: usize,
    _row: &[Delivery],
    lanes: &[usize],
)
    requires lanes { length lanes.now ≡ length _row.now }
    requires counts { AreCounts (lane_counts (L.steps _log.now)) table.old }
    ensures counts { AreCounts (lane_counts (L.steps _log.now ++ deals_of _queue _row.now lanes.now)) table.new }
    ensures length { length table.new ≡ length table.old }
{
    for lane in lanes {
        if *lane < table.len() {
            table[*lane].tx += 1;
        }
    }
}
