//! A recorder: a scheduler with the log of all its sweeps.

use crate::books::Books;
use event_answers::{Swept, Turned};
use event_scheduler::Scheduler;
use evt_types::Step;
use std::alloc::Global;
use std::marker::Model;
use step_log::{Memory, StepLog};

/// A scheduler with the log of all its sweeps. It alone can stop the device.
#[derive(Drop)]
pub struct Recorder<L: StepLog = Vec<Step>> {
    pub(crate) scheduler: Scheduler,
    pub(crate) books: Books<L>,
}

impl<L: StepLog> Model for Recorder<L> {
    ghost use Rattle.event_device.specs.Recorder.{Recorded};
    ghost use Rattle.event_scheduler.specs.Scheduler.{Serves, sight_of};

    ghost Value = { Recorded };

    ghost view = { λ a. record { sight = sight_of a.scheduler; log = L.steps a.books.log } };

    ghost invariant = { λ a. Serves (L.steps a.books.log) (sight_of a.scheduler) };
}

impl Recorder<Vec<Step>> {
    ghost use Rattle.std.specs.Prelude.{◌≡◌, []};
    ghost use Rattle.event_scheduler.specs.Scheduler.{Serves, sight_of};

    /// Begins an empty log that keeps every step, for a scheduler that hasn't swept yet.
    pub fn begin(alloc: Global, scheduler: Scheduler) -> Recorder<Vec<Step>>
        requires { Serves [] (sight_of scheduler) }
        ensures log { result.log ≡ [] }
        ensures sight { result.sight ≡ sight_of scheduler }
    {
        Recorder::begin_with(alloc, Vec::new(alloc), scheduler)
    }
}

impl<L: StepLog> Recorder<L> {
    ghost use Rattle.std.specs.Prelude.{◌≡◌, [], IfOk, IsErr};
    ghost use Rattle.event_scheduler.specs.Scheduler.{Serves, sight_of};
    ghost use Rattle.event_scheduler.specs.Swept.{Sweeps};
    ghost use Rattle.event_device.specs.Device.{scheduler_of};
    ghost use Rattle.event_device.specs.Listed.{turned_all};
    ghost use Rattle.transcripts.specs.Replies.{new_count};
    ghost use Rattle.transcripts.specs.Transcript as transcripts;

    /// Begins with this log, which has no step yet, for a scheduler that hasn't swept yet.
    pub fn begin_with(alloc: Global, log: L, scheduler: Scheduler) -> Recorder<L>
        requires log { L.steps log ≡ [] }
        requires serves { Serves [] (sight_of scheduler) }
        ensures log { result.log ≡ [] }
        ensures sight { result.sight ≡ sight_of scheduler }
    {
        let books = Books::new(alloc, log);
        Recorder { scheduler, books }
    }

    /// Makes room in the log for so many steps more, and for those of a sweep.
    pub(crate) fn make_log_room(&mut self, steps: usize) -> Result<(), Memory>
        ensures { self.new ≡ self.old }
    {
        let sweep = self.scheduler.core().log_room();
        self.books.make_log_room(steps.saturating_add(sweep))
    }

    /// One sweep of the scheduler. After want of memory nothing has changed.
    pub fn sweep(&mut self) -> Result<Swept, Memory>
        ensures sweeps { IfOk result (λ n. Sweeps n self.old.sight self.old.log self.new.sight self.new.log) }
        ensures memory { IsErr result → self.new ≡ self.old }
        ensures device { scheduler_of self.new.sight ≡ scheduler_of self.old.sight }
    {
        self.scheduler.sweep(&mut self.books)
    }

    /// The log, to be read.
    pub fn log(&self) -> &L
        ensures { L.steps result.now ≡ self.now.log }
    {
        &self.books.log
    }

    /// The NEWs that were turned away so far, in the order in which they were taken.
    pub fn turned(&self) -> &[Turned]
        ensures { result.now ≡ turned_all self.now.log }
    {
        &self.books.turned
    }

    /// How many events wait, are kept or are unanswered.
    pub fn inside(&self) -> usize
        ensures { result ≡ transcripts.inside self.now.sight.core.shape self.now.log }
    {
        self.scheduler.inside()
    }

    /// How many events were accepted as new.
    pub fn accepted_new(&self) -> u64
        ensures { result ≡ new_count self.now.log }
    {
        self.scheduler.accepted_new()
    }
}
