//! A log that counts how many events of each queue came, were given and waited at most.

ghost use Rattle.std.specs.Prelude.{◌≡◌, ◌-◌, ◌^◌, ◌<◌, ◌++◌, [], ◌∷◌, IfOk, length, replicate};
ghost use Rattle.evt_types.specs.declared.shape.TheConstants.{MAX_QUEUES};
ghost use Rattle.run_counts.specs.Waiting.{AreMost, accepts, waits_with_one_more};
ghost use Rattle.transcripts.specs.Transcript.{accepted};

use crate::text::QueueWork;
use evt_types::{MAX_QUEUES, Step};
use std::alloc::{AllocFailed, Global};
use std::marker::Model;
use step_log::{Memory, StepLog};
use step_tally::Tally;

/// A log over any other that counts by queue how many events came, were given and waited at most. Which steps it keeps the other log
/// says.
#[derive(Drop)]
pub struct Waits<L: StepLog> {
    most: Vec<u64>,
    tally: Tally<L>,
}

/// A contract sees it as its log: what it counts is what the steps of the log say.
impl<L: StepLog> Model for Waits<L> {
    ghost use Rattle.run_counts.specs.Waiting.{HaveMost};

    ghost Value = { L };

    ghost coded = { L.code };

    ghost view = { λ w. w.tally };

    ghost invariant = { λ w. HaveMost (L.steps w.tally) w.most.items };
}

/// How many events the queue accepted.
fn came_to<L: StepLog>(log: &Tally<L>, queue: usize) -> u64
    requires { queue < MAX_QUEUES }
    ensures value { result ≡ length (accepted (L.steps log.now) queue) }
    ensures few { result < 2 ^ 64 - 1 }
{
    let counts = log.queue(queue);
    counts.rx_new + counts.rx_forwarded
}

/// How many of the queue's events wait after the steps of the log and one that accepts an event more.
fn waiting_with_one_more<L: StepLog>(log: &Tally<L>, queue: usize) -> u64
    requires { queue < MAX_QUEUES }
    ensures { result ≡ waits_with_one_more (L.steps log.now) queue }
{
    let given = log.queue(queue).tx;
    (came_to(log, queue) + 1).saturating_sub(given)
}

/// The queue that accepts an event by the step.
fn accepting(step: &Step) -> Option<usize>
    ensures { result ≡ accepts step.now }
{
    match *step {
        Step::Accept { queue, .. } => Some(queue),
        Step::Give { .. }
        | Step::Done { .. }
        | Step::More { .. }
        | Step::Turned { .. }
        | Step::Bounced { .. }
        | Step::Shut => None,
    }
}

/// Counts what waits after the step, which comes after those of the log, where it accepts an event.
fn count_wait<L: StepLog>(table: &mut [u64], log: &Tally<L>, step: &Step)
    requires count { length table.old ≡ MAX_QUEUES }
    requires most { AreMost (L.steps log.now) table.old }
    ensures length { length table.new ≡ length table.old }
    ensures most { AreMost (L.steps log.now ++ step.now ∷ []) table.new }
{
    let Some(queue) = accepting(step) else {
        return;
    };
    if queue >= table.len() {
        return;
    }
    let waiting = waiting_with_one_more(log, queue);
    if table[queue] < waiting {
        table[queue] = waiting;
    }
}

/// A table of no step.
fn empty_table(alloc: Global) -> Result<Vec<u64>, Memory>
    ensures { IfOk result (λ table. table.items ≡ replicate MAX_QUEUES 0) }
{
    vec![in alloc; 0; MAX_QUEUES]
}

impl<L: StepLog> Waits<L> {
    ghost use Rattle.std.specs.Prelude.{◌≡◌, ◌<◌, [], IfOk, IfErr};
    ghost use Rattle.evt_types.specs.declared.shape.TheConstants.{MAX_QUEUES};
    ghost use Rattle.run_counts.specs.Waiting.{IsWorkOf};

    /// Begins to count with this log, which has no step yet. Where memory runs out the log comes back.
    pub fn new(alloc: Global, log: L) -> Result<Waits<L>, AllocFailed<L>>
        requires { L.steps log ≡ [] }
        ensures made { IfOk result (λ w. w ≡ log) }
        ensures back { IfErr result (λ e. e.value ≡ log) }
    {
        let Ok(most) = empty_table(alloc) else {
            return Err(AllocFailed { value: log });
        };
        let tally = Tally::new(alloc, log)?;
        Ok(Waits { most, tally })
    }

    /// What the steps say of the queue: how many events it accepted, how many of them were given, and how many waited at most.
    pub fn queue(&self, queue: usize) -> QueueWork
        requires { queue < MAX_QUEUES }
        ensures { IsWorkOf (L.steps self.now) queue result }
    {
        QueueWork {
            queue,
            came: came_to(&self.tally, queue),
            given: self.tally.queue(queue).tx,
            most: self.most[queue],
        }
    }

    /// The log alone.
    pub fn into_log(self) -> L
        ensures { result ≡ self }
    {
        self.tally.into_log()
    }

    /// The log, which has the steps that are counted.
    pub fn log(&self) -> &L
        ensures { result.now ≡ self.now }
    {
        self.tally.log()
    }
}

/// Its steps are those of the other log, and so is its room.
impl<L: StepLog> StepLog for Waits<L> {
    ghost steps = { λ log. L.steps log };

    ghost room = { λ log. L.room log };

    ghost short = { λ log. L.short log };

    #[inline(always)]
    fn push_step(&mut self, step: Step) {
        count_wait(&mut self.most, &self.tally, &step);
        self.tally.push_step(step);
    }

    fn make_room(&mut self, count: usize) -> Result<(), Memory> {
        self.tally.make_room(count)
    }
}
