//! A log that counts the steps by queue and by lane.

ghost use Rattle.std.specs.Prelude.{[], IfOk};
ghost use Rattle.step_tally.specs.Tables.{AreTables};

use crate::counts::{LaneCounts, QueueCounts};
use crate::gives::{
    count_deals_at_lanes, count_deals_at_queue, count_gives_at_lane, count_gives_at_queue,
};
use crate::rows::{
    count_forwards_at_lane, count_forwards_at_queue, count_news_at_lane, count_news_at_queue,
    count_releases,
};
use crate::tables::{QueueRow, count_at_lane, count_at_queue};
use evt_types::{Delivery, MAX_LANES, MAX_PORTS, MAX_QUEUES, Reply, Step};
use std::alloc::{AllocFailed, Global};
use std::marker::Model;
use step_log::{Memory, StepLog};

/// A log over any other that counts its steps by queue and by lane, exactly, in two tables that are made once: they have a place for
/// each queue, and in it for each port, and for each lane that a device may have. Which steps it keeps the other log says.
#[derive(Drop)]
pub struct Tally<L: StepLog> {
    queues: Vec<QueueRow>,
    lanes: Vec<LaneCounts>,
    log: L,
}

/// A contract sees a tally as its log: what it counts is what the steps of the log say.
impl<L: StepLog> Model for Tally<L> {
    ghost use Rattle.step_tally.specs.Tables.{AreTables};

    ghost Value = { L };

    ghost coded = { L.code };

    ghost view = { λ t. t.log };

    ghost invariant = { λ t. AreTables (L.steps t.log) t.queues.items t.lanes.items };
}

/// The tables of no step.
fn empty_tables(alloc: Global) -> Result<(Vec<QueueRow>, Vec<LaneCounts>), Memory>
    ensures { IfOk result (λ r. AreTables [] r.0.items r.1.items) }
{
    let row = QueueRow {
        counts: QueueCounts::default(),
        given: [0; MAX_PORTS],
    };
    let queues = vec![in alloc; row; MAX_QUEUES]?;
    let lanes = vec![in alloc; LaneCounts::default(); MAX_LANES]?;
    Ok((queues, lanes))
}

impl<L: StepLog> Tally<L> {
    ghost use Rattle.std.specs.Prelude.{◌≡◌, ◌<◌, [], IfOk, IfErr};
    ghost use Rattle.evt_types.specs.declared.shape.TheConstants.{MAX_LANES, MAX_PORTS, MAX_QUEUES};
    ghost use Rattle.step_tally.specs.Counts.{given_to, queue_counts, lane_counts};

    /// Begins to count with this log, which has no step yet. Where memory runs out the log comes back.
    pub fn new(alloc: Global, log: L) -> Result<Tally<L>, AllocFailed<L>>
        requires { L.steps log ≡ [] }
        ensures made { IfOk result (λ t. t ≡ log) }
        ensures back { IfErr result (λ e. e.value ≡ log) }
    {
        match empty_tables(alloc) {
            Ok((queues, lanes)) => Ok(Tally { queues, lanes, log }),
            Err(_) => Err(AllocFailed { value: log }),
        }
    }

    /// What the steps say of the queue.
    pub fn queue(&self, queue: usize) -> QueueCounts
        requires { queue < MAX_QUEUES }
        ensures { result ≡ queue_counts (L.steps self.now) queue }
    {
        self.queues[queue].counts
    }

    /// How many of the queue's events the steps give to the port's lane: `qid_N_port_M_packets` of event_sw.
    pub fn given(&self, queue: usize, port: usize) -> u64
        requires queue { queue < MAX_QUEUES }
        requires port { port < MAX_PORTS }
        ensures { result ≡ given_to (L.steps self.now) queue port }
    {
        self.queues[queue].given[port]
    }

    /// What the steps say of the lane.
    pub fn lane(&self, lane: usize) -> LaneCounts
        requires { lane < MAX_LANES }
        ensures { result ≡ lane_counts (L.steps self.now) lane }
    {
        self.lanes[lane]
    }

    /// The log, which has the steps that are counted.
    pub fn log(&self) -> &L
        ensures { result.now ≡ self.now }
    {
        &self.log
    }

    /// The log alone.
    pub fn into_log(self) -> L
        ensures { result ≡ self }
    {
        self.log
    }
}

/// Its steps are those of the other log, and so is its room.
impl<L: StepLog> StepLog for Tally<L> {
    ghost steps = { λ log. L.steps log };

    ghost room = { λ log. L.room log };

    ghost short = { λ log. L.short log };

    #[inline(always)]
    fn push_step(&mut self, step: Step) {
        count_at_queue(&mut self.queues, &self.log, &step);
        count_at_lane(&mut self.lanes, &self.log, &step);
        self.log.push_step(step);
    }

    #[inline(always)]
    fn push_news(&mut self, lane: usize, queue: usize, replies: &[Reply]) {
        self.log.push_news(lane, queue, replies);
        count_news_at_queue(&mut self.queues, &self.log, lane, queue, replies);
        count_news_at_lane(&mut self.lanes, &self.log, lane, queue, replies);
    }

    #[inline(always)]
    fn push_releases(&mut self, lane: usize, count: usize) {
        self.log.push_releases(lane, count);
        count_releases(&mut self.lanes, &self.log, lane, count);
    }

    #[inline(always)]
    fn push_forwards(
        &mut self,
        lane: usize,
        source: usize,
        target: usize,
        numbers: &[u64],
        replies: &[Reply],
    ) {
        self.log
            .push_forwards(lane, source, target, numbers, replies);
        count_forwards_at_queue(
            &mut self.queues,
            &self.log,
            lane,
            source,
            target,
            numbers,
            replies,
        );
        count_forwards_at_lane(&mut self.lanes, &self.log, lane, source, numbers, replies);
    }

    #[inline(always)]
    fn push_gives(&mut self, lane: usize, queue: usize, row: &[Delivery]) {
        count_gives_at_queue(&mut self.queues, &self.log, lane, queue, row);
        count_gives_at_lane(&mut self.lanes, &self.log, lane, queue, row);
        self.log.push_gives(lane, queue, row);
    }

    #[inline(always)]
    fn push_deals(&mut self, queue: usize, row: &[Delivery], lanes: &[usize]) {
        count_deals_at_queue(&mut self.queues, &self.log, queue, row, lanes);
        count_deals_at_lanes(&mut self.lanes, &self.log, queue, row, lanes);
        self.log.push_deals(queue, row, lanes);
    }

    fn make_room(&mut self, count: usize) -> Result<(), Memory> {
        self.log.make_room(count)
    }
}
