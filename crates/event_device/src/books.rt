//! What a recorder writes down: the log, and beside it the NEWs that were turned away.

ghost use Rattle.std.specs.Prelude.{◌≡◌, ◌-◌, [], min, vec_capacity, vec_len};
ghost use Rattle.std.proofs.Common.{rules};
ghost use Rattle.event_device.specs.Listed.{turned_all};

use event_answers::Turned;
use evt_types::{Delivery, Reply, Step};
use std::alloc::Global;
use step_log::{Memory, StepLog};

/// The log of a recorder, and the NEWs that were turned away, which the log need not keep: their payloads are the program's to free.
#[derive(Drop)]
pub(crate) struct Books<L: StepLog> {
    pub(crate) log: L,
    pub(crate) turned: Vec<Turned>,
    pub ghost turned_are: { turned.items ≡ turned_all (L.steps log) },
}

impl<L: StepLog> Books<L> {
    ghost use Rattle.std.specs.Prelude.{◌≡◌, []};

    /// Begins with this log, which has no step yet.
    pub(crate) fn new(alloc: Global, log: L) -> Books<L>
        requires { L.steps log ≡ [] }
        ensures { result.log ≡ log }
    {
        Books {
            log,
            turned: Vec::new(alloc),
        }
    }

    /// Makes room in the log for so many more steps. The list beside it, which is mostly empty, grows as it needs to.
    pub(crate) fn make_log_room(&mut self, count: usize) -> Result<(), Memory>
        ensures { L.steps self.new.log ≡ L.steps self.old.log }
    {
        self.log.make_room(count)
    }
}

/// Its steps are the log's. Each step may be one that turns an event away, so that there is room for as many of these.
impl<L: StepLog> StepLog for Books<L> {
    ghost steps = { λ books. L.steps books.log };

    ghost room = { λ books. min (L.room books.log) (vec_capacity books.turned - vec_len books.turned) };

    ghost short = { λ books. L.short books.log };

    #[inline(always)]
    fn push_step(&mut self, step: Step) {
        if let Step::Turned { lane, event } = step {
            self.turned.push_reserved(Turned { lane, event });
        }
        self.log.push_step(step);
    }

    #[inline(always)]
    fn push_news(&mut self, lane: usize, queue: usize, replies: &[Reply]) {
        self.log.push_news(lane, queue, replies);
    }

    #[inline(always)]
    fn push_releases(&mut self, lane: usize, count: usize) {
        self.log.push_releases(lane, count);
    }

    #[inline(always)]
    fn push_forwards(
        &mut self,
        lane: usize,
        source: usize,
        target: usize,
        numbers: &[u64],
        replies: &[Reply],
    ) {
        self.log
            .push_forwards(lane, source, target, numbers, replies);
    }

    #[inline(always)]
    fn push_gives(&mut self, lane: usize, queue: usize, row: &[Delivery]) {
        self.log.push_gives(lane, queue, row);
    }

    #[inline(always)]
    fn push_deals(&mut self, queue: usize, row: &[Delivery], lanes: &[usize]) {
        self.log.push_deals(queue, row, lanes);
    }

    fn make_room(&mut self, count: usize) -> Result<(), Memory> {
        self.turned.reserve(count)?;
        self.log.make_room(count)
    }
}
