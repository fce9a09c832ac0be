//! What an ordered queue kept leaves it.

ghost use Rattle.std.specs.Prelude.{◌≡◌, ◌+◌, ◌<◌, ◌≤◌, ◌^◌, ◌++◌, length, None, Some, All, IfNone, IfSome, IsTrue, if◌then◌else◌, option_map};
ghost use Rattle.std.specs.List.{list_any};
ghost use Rattle.evt_types.specs.Plan.{bound_of};
ghost use Rattle.transcripts.specs.Standing.{inside_of, entries_of, places_at};
ghost use Rattle.evt_types.specs.declared.event.Event.{Event as EventValue};
ghost use Rattle.order_parts.specs.Reorder.{left, left_plain, oldest_answered};
ghost use Rattle.sched_core.specs.Answered.{after_leave};
ghost use Rattle.sched_core.specs.Settling.{IsPassedOn, IsTurn, flush_steps, flushed};
ghost use Rattle.sched_core.specs.Taken.{is_accept_of};

use crate::state::Core;
use arrayvec::ArrayVec;
use evt_types::{MAX_FORWARDS, PackedEvent, Source, Step};
use step_log::StepLog;

/// How many events a place keeps that keeps one or none.
#[inline(always)]
fn count_of(keeps_one: bool) -> usize
    ensures value { result ≡ if keeps_one then 1 else 0 }
{
    if keeps_one { 1 } else { 0 }
}

impl Core {
    /// The oldest place of the queue leaves, where it is answered: its event's number, and what it was passed on as.
    fn leave(&mut self, queue: usize) -> Option<(u64, ArrayVec<PackedEvent, MAX_FORWARDS>)>
        requires queue { queue < length self.old.shape.queues }
        ensures value { option_map left result ≡ oldest_answered (places_at self.old queue) }
        ensures view { self.new ≡ after_leave self.old queue }
        ensures named { IfSome result (λ x. All (λ (e : EventValue). e.queue < length self.old.shape.queues) x.1.items) }
        ensures inside { IfSome result (λ x. inside_of self.new + length x.1.items ≤ bound_of self.old.shape) }
        ensures entries { IfSome result (λ x. entries_of self.new + length x.1.items ≤ 2 ^ 63) }
    {
        let left = self.orders.leave(queue)?;
        let count = left.1.len();
        self.inside -= count;
        self.entries -= count as u64;
        Some(left)
    }

    /// The oldest place of the queue leaves, where it is answered and keeps one event at most: its event's number, and whether it
    /// keeps one, which is copied to `event`. Where it gives nothing it may be that there are more.
    #[inline(always)]
    fn leave_plain(&mut self, queue: usize, event: &mut PackedEvent) -> Option<(u64, bool)>
        requires queue { queue < length self.old.shape.queues }
        ensures value { IfSome result (λ x. oldest_answered (places_at self.old queue) ≡ Some (left_plain x.0 x.1 event.new)) }
        ensures view { IfSome result (λ x. self.new ≡ after_leave self.old queue) }
        ensures same { IfNone result (self.new ≡ self.old) }
        ensures named { IfSome result (λ x. IsTrue x.1 → event.new.queue < length self.old.shape.queues) }
        ensures inside { IfSome result (λ x. IsTrue x.1 → inside_of self.new < bound_of self.old.shape) }
        ensures entries { IfSome result (λ x. IsTrue x.1 → entries_of self.new < 2 ^ 63) }
    {
        let left = self.orders.leave_plain(queue, event)?;
        let count = count_of(left.1);
        self.inside -= count;
        self.entries -= count as u64;
        Some(left)
    }

    /// The oldest place leaves, where it is answered and keeps one event at most, and that is accepted: whether it is something, and of
    /// the number.
    #[inline(always)]
    fn pass_plain<L: StepLog>(&mut self, queue: usize, answered: u64, log: &mut L) -> Option<bool>
        requires queue { queue < length self.old.shape.queues }
        requires room { length (flush_steps self.old queue) ≤ L.room log.old }
        ensures passed { IfSome result (IsPassedOn queue answered self.old (L.steps log.old) self.new (L.steps log.new)) }
        ensures same { IfNone result (self.new ≡ self.old) }
        ensures logged { IfNone result (log.new ≡ log.old) }
        ensures room { L.room log.old + length (L.steps log.old) ≤ L.room log.new + length (L.steps log.new) }
    {
        self.facts();
        let mut event = PackedEvent::default();
        let (number, keeps_one) = self.leave_plain(queue, &mut event)?;
        if !keeps_one {
            return Some(false);
        }
        self.accept(&event, Source::Of { queue, number }, log);
        Some(number == answered)
    }

    /// The oldest place leaves, where it is answered, and all that it was passed on as is accepted: whether that is something, and of
    /// the number.
    #[cold]
    fn pass_all<L: StepLog>(&mut self, queue: usize, answered: u64, log: &mut L) -> Option<bool>
        requires queue { queue < length self.old.shape.queues }
        requires room { length (flush_steps self.old queue) ≤ L.room log.old }
        ensures turn { IsTurn queue answered self.old (L.steps log.old) self.new (L.steps log.new) result }
        ensures room { L.room log.old + length (L.steps log.old) ≤ L.room log.new + length (L.steps log.new) }
    {
        self.facts();
        let (number, events) = self.leave(queue)?;
        self.accept_all(queue, number, events.as_slice(), log);
        Some(number == answered && !events.is_empty())
    }

    /// The oldest place leaves, where it is answered, and what it was passed on as is accepted: whether that is something, and of the
    /// number. Mostly it is one event at most.
    #[inline(always)]
    fn pass_on<L: StepLog>(&mut self, queue: usize, answered: u64, log: &mut L) -> Option<bool>
        requires queue { queue < length self.old.shape.queues }
        requires room { length (flush_steps self.old queue) ≤ L.room log.old }
        ensures turn { IsTurn queue answered self.old (L.steps log.old) self.new (L.steps log.new) result }
        ensures room { L.room log.old + length (L.steps log.old) ≤ L.room log.new + length (L.steps log.new) }
    {
        if !self.orders.leaves(queue) {
            return None;
        }
        match self.pass_plain(queue, answered, log) {
            Some(passed) => Some(passed),
            None => self.pass_all(queue, answered, log),
        }
    }

    /// The answered places leave from the oldest on, and what they were passed on as is accepted: whether something of the number is
    /// among it.
    pub(crate) fn settle<L: StepLog>(&mut self, queue: usize, answered: u64, log: &mut L) -> bool
        requires queue { queue < length self.old.shape.queues }
        requires room { length (flush_steps self.old queue) ≤ L.room log.old }
        ensures view { self.new ≡ flushed self.old queue }
        ensures logged { L.steps log.new ≡ L.steps log.old ++ flush_steps self.old queue }
        ensures passed { result ≡ list_any (is_accept_of queue answered) (flush_steps self.old queue) }
        ensures room { L.room log.old ≤ L.room log.new + length (flush_steps self.old queue) }
    {
        self.facts();
        let mut passed = false;
        while let Some(mine) = self.pass_on(queue, answered, log) {
            passed |= mine;
        }
        passed
    }
}
