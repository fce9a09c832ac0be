//! Replies of a lane that are taken in a row: counts are kept and the log is told once for all of them.

ghost use Rattle.std.specs.Prelude.{◌≡◌, ◌+◌, ◌*◌, ◌<◌, ◌≤◌, ◌^◌, false, List, ◌++◌, length, take, All, Some, IsTrue};
ghost use Rattle.evt_types.specs.Plan.{lanes_of, level_of};
ghost use Rattle.evt_types.specs.declared.event.Reply.{Reply as ReplyValue};
ghost use Rattle.evt_types.specs.declared.step.Step.{Step as StepValue};
ghost use Rattle.sched_core.specs.Rows.{AreLetGo, HasRoomFor, IsLike, IsNewRow, LeaveInTurn, after_waiting, row_of};
ghost use Rattle.step_log.specs.Rows.{news_steps, release_steps};
ghost use Rattle.transcripts.specs.Replies.{new_count, turned_count};
ghost use Rattle.transcripts.specs.Standing.{Stands, after, entries_of, inside_of, kept_in, oldest_at, unanswered_at};
ghost use Rattle.transcripts.specs.Sweep.{MayBeTaken, replies_steps};
ghost use Rattle.transcripts.specs.Transcript.{Held};

use crate::open_slots::open_slot;
use crate::state::Core;
use crate::take::MAX_ENTRIES;
use evt_types::{Kind, Op, PackedEvent, Reply};
use parked_queue::Level;
use step_log::StepLog;

/// Whether the events have the same operation, queue and priority. These stand side by side in the event word.
#[inline(always)]
fn is_like(first: &PackedEvent, event: &PackedEvent) -> bool
    ensures { IsTrue result → IsLike first.now event.now }
{
    let asked = first.word(Kind::Ordered);
    let word = event.word(Kind::Ordered);
    (word >> 32) % (1 << 24) == (asked >> 32) % (1 << 24)
}

/// How many of the replies, from the oldest on, have the operation, queue and priority of this event.
#[inline(always)]
fn like(first: &PackedEvent, replies: &[Reply]) -> usize
    ensures few { result ≤ length replies.now }
    ensures each { All (λ (r : ReplyValue). IsLike first.now r.event) (take result replies.now) }
{
    for (index, reply) in replies.iter().enumerate() {
        if !is_like(first, &reply.event) {
            return index;
        }
    }
    replies.len()
}

/// So many, or one fewer.
#[inline(always)]
fn fewer(count: usize, by_one: bool) -> usize
    ensures few { result ≤ count }
    ensures same { 0 < result → result ≡ count → by_one ≡ false }
{
    if by_one {
        count.saturating_sub(1)
    } else {
        count
    }
}

impl Core {
    /// Whether so many new events of the lane may be taken for the queue, as far as there is room for them inside.
    #[inline(always)]
    fn may_bring_row(&self, lane: usize, queue: usize, count: usize) -> bool
        ensures port { IsTrue result → lane < length self.now.shape.ports }
        ensures queue { IsTrue result → queue < length self.now.shape.queues }
        ensures unshut { IsTrue result → self.now.shut ≡ false }
        ensures entries { IsTrue result → entries_of self.now + count ≤ 2 ^ 63 }
    {
        !self.shut
            && lane < self.shape.ports().len()
            && queue < self.queues.len()
            && count as u64 <= MAX_ENTRIES - self.entries
    }

    /// How many of the lane's replies, from the oldest on, are NEWs like this one that may be taken.
    #[inline(always)]
    fn news(&self, lane: usize, first: &PackedEvent, replies: &[Reply]) -> usize
        ensures few { result ≤ length replies.now }
        ensures row { 0 < result → IsNewRow self.now lane first.now.queue (level_of first.now) (take result replies.now) }
    {
        let queue = usize::from(first.queue());
        if !first.is_new() || !self.may_bring_row(lane, queue, replies.len()) {
            return 0;
        }
        let most = replies.len().min(self.bound - self.inside);
        like(first, &replies[..most])
    }

    /// The events of the replies wait in the queue, one after the other.
    #[inline(always)]
    fn wait_row(&mut self, queue: usize, level: Level, replies: &[Reply])
        requires some { 0 < length replies.now }
        requires room { HasRoomFor self.old queue level.number replies.now }
        ensures { self.new ≡ after_waiting self.old queue replies.now }
    {
        let count = replies.len();
        self.queues.accept_row(queue, level, replies);
        self.inside += count;
        self.entries += count as u64;
    }

    /// These NEWs wait in their queue, one after the other.
    #[inline(always)]
    fn accept_row<L: StepLog>(
        &mut self,
        lane: usize,
        queue: usize,
        level: Level,
        replies: &[Reply],
        log: &mut L,
    )
        requires lane { lane < lanes_of self.old.shape }
        requires some { 0 < length replies.now }
        requires row { IsNewRow self.old lane queue level.number replies.now }
        requires room { length replies.now ≤ L.room log.old }
        ensures may { MayBeTaken self.old (row_of lane replies.now) }
        ensures view { self.new ≡ after self.old (replies_steps self.old (row_of lane replies.now)) }
        ensures steps { replies_steps self.old (row_of lane replies.now) ≡ news_steps lane queue replies.now }
        ensures logged { L.steps log.new ≡ L.steps log.old ++ replies_steps self.old (row_of lane replies.now) }
        ensures room { L.room log.old ≤ L.room log.new + length replies.now }
    {
        // The use of a field makes known what holds of each core.
        let _ = &self.shape;
        self.wait_row(queue, level, replies);
        log.push_news(lane, queue, replies);
    }

    /// Takes the oldest of the lane's replies in a row, as long as they are NEWs for one queue and of one priority that may be taken and
    /// are accepted: how many. It may take none where `take` would take some.
    #[inline(always)]
    pub fn take_news<L: StepLog>(&mut self, lane: usize, replies: &[Reply], log: &mut L) -> usize
        requires lane { lane < lanes_of self.old.shape }
        requires room { length replies.now ≤ L.room log.old }
        ensures few { result ≤ length replies.now }
        ensures may { MayBeTaken self.old (row_of lane (take result replies.now)) }
        ensures view { self.new ≡ after self.old (replies_steps self.old (row_of lane (take result replies.now))) }
        ensures logged { L.steps log.new ≡ L.steps log.old ++ replies_steps self.old (row_of lane (take result replies.now)) }
        ensures stands { (T : List StepValue) → Stands T self.old → Stands (T ++ replies_steps self.old (row_of lane (take result replies.now))) self.new }
        ensures accepted { new_count (replies_steps self.old (row_of lane (take result replies.now))) ≡ result }
        ensures turned { turned_count (replies_steps self.old (row_of lane (take result replies.now))) ≡ 0 }
        ensures shape { self.new.shape ≡ self.old.shape }
        ensures kept { kept_in self.new ≡ kept_in self.old }
        ensures room { L.room log.old ≤ L.room log.new + result }
    {
        let Some(first) = replies.first() else {
            return 0;
        };
        let count = self.news(lane, &first.event, replies);
        if count == 0 {
            return 0;
        }
        let queue = usize::from(first.event.queue());
        let row = &replies[..count];
        self.accept_row(lane, queue, Level::of(&first.event), row, log);
        count
    }

    /// The lane's oldest unanswered events, of the queue, are answered by replies like this one, as far as each leaves the queue's order at
    /// once and nothing with it: how many. What they are passed on as is still to wait and to be logged.
    #[inline(always)]
    fn answer_row(
        &mut self,
        lane: usize,
        queue: usize,
        first: &PackedEvent,
        replies: &[Reply],
    ) -> usize
        requires lane { lane < lanes_of self.old.shape }
        requires oldest { (held : Held) × (oldest_at self.old lane ≡ Some held) × (held.queue ≡ queue) }
        requires most { length replies.now ≤ length (unanswered_at self.old lane) }
        ensures few { result ≤ length replies.now }
        ensures like { All (λ (r : ReplyValue). IsLike first.now r.event) (take result replies.now) }
        ensures leave { LeaveInTurn self.old lane queue (take result (unanswered_at self.old lane)) }
        ensures view { self.new ≡ after self.old (release_steps lane result) }
        ensures inside { inside_of self.new + result ≡ inside_of self.old }
        ensures entries { entries_of self.new ≡ entries_of self.old }
        ensures kept { kept_in self.new ≡ kept_in self.old }
    {
        if self.extras[lane] > 0 {
            return 0;
        }
        let turn = self.orders.in_turn(queue, &self.lanes, lane, replies.len());
        // A single event is answered for less by itself.
        if turn < 2 {
            return 0;
        }
        let alike = like(first, &replies[..turn]);
        // The place behind the last one may be answered, and would leave with it.
        let most = fewer(alike, self.orders.is_answered(queue, alike));
        if most < 2 {
            return 0;
        }
        open_slot(&mut self.open_slots, &self.shape, lane);
        let count = self.pins.unpin_oldest(queue, &self.lanes, lane, most);
        self.orders.drop_oldest(queue, count);
        self.lanes.drop_oldest(lane, count);
        self.inside -= count;
        count
    }

    /// The lane's oldest unanswered events, of the queue, are answered by RELEASEs that are alike, whichever places they have: how many. It
    /// is none where the queue restores no order, or keeps something.
    #[inline(always)]
    fn release_row(
        &mut self,
        lane: usize,
        queue: usize,
        first: &PackedEvent,
        replies: &[Reply],
    ) -> usize
        requires lane { lane < lanes_of self.old.shape }
        requires oldest { (held : Held) × (oldest_at self.old lane ≡ Some held) × (held.queue ≡ queue) }
        requires most { length replies.now ≤ length (unanswered_at self.old lane) }
        ensures few { result ≤ length replies.now }
        ensures like { All (λ (r : ReplyValue). IsLike first.now r.event) (take result replies.now) }
        ensures let_go { AreLetGo self.old lane (take result (unanswered_at self.old lane)) }
        ensures view { self.new ≡ after self.old (release_steps lane result) }
        ensures kept { kept_in self.new ≡ kept_in self.old }
    {
        if self.extras[lane] > 0 {
            return 0;
        }
        let most = like(first, replies);
        // A single event is answered for less by itself.
        if most < 2 || !self.orders.is_bare(queue) {
            return 0;
        }
        open_slot(&mut self.open_slots, &self.shape, lane);
        // An ordered queue's slots have no pins.
        let count = self.orders.release_oldest(queue, &self.lanes, lane, most);
        self.lanes.drop_oldest(lane, count);
        self.inside -= count;
        count
    }

    /// The lane's oldest unanswered events, of the queue, are answered by RELEASEs that are alike, and nothing that was kept leaves with
    /// them: how many.
    #[inline(always)]
    fn answer_releases(
        &mut self,
        lane: usize,
        queue: usize,
        first: &PackedEvent,
        replies: &[Reply],
    ) -> usize
        requires lane { lane < lanes_of self.old.shape }
        requires oldest { (held : Held) × (oldest_at self.old lane ≡ Some held) × (held.queue ≡ queue) }
        requires most { length replies.now ≤ length (unanswered_at self.old lane) }
        ensures few { result ≤ length replies.now }
        ensures like { All (λ (r : ReplyValue). IsLike first.now r.event) (take result replies.now) }
        ensures let_go { AreLetGo self.old lane (take result (unanswered_at self.old lane)) }
        ensures view { self.new ≡ after self.old (release_steps lane result) }
        ensures kept { kept_in self.new ≡ kept_in self.old }
    {
        let count = self.answer_row(lane, queue, first, replies);
        if count > 0 {
            return count;
        }
        self.release_row(lane, queue, first, replies)
    }

    /// Takes the oldest of the lane's replies in a row, as long as they are RELEASEs that are alike and answer events of one queue, and
    /// nothing that was kept leaves with them: how many. It may take none where `take` would take some.
    #[inline(always)]
    pub fn take_releases<L: StepLog>(
        &mut self,
        lane: usize,
        replies: &[Reply],
        log: &mut L,
    ) -> usize
        requires lane { lane < lanes_of self.old.shape }
        requires room { length replies.now ≤ L.room log.old }
        ensures few { result ≤ length replies.now }
        ensures may { MayBeTaken self.old (row_of lane (take result replies.now)) }
        ensures view { self.new ≡ after self.old (replies_steps self.old (row_of lane (take result replies.now))) }
        ensures logged { L.steps log.new ≡ L.steps log.old ++ replies_steps self.old (row_of lane (take result replies.now)) }
        ensures stands { (T : List StepValue) → Stands T self.old → Stands (T ++ replies_steps self.old (row_of lane (take result replies.now))) self.new }
        ensures accepted { new_count (replies_steps self.old (row_of lane (take result replies.now))) ≡ 0 }
        ensures turned { turned_count (replies_steps self.old (row_of lane (take result replies.now))) ≡ 0 }
        ensures shape { self.new.shape ≡ self.old.shape }
        ensures kept { kept_in self.new ≡ kept_in self.old }
        ensures room { L.room log.old ≤ L.room log.new + result }
    {
        let Some(first) = replies.first() else {
            return 0;
        };
        let most = self.lanes.len(lane).min(replies.len());
        // A single event is answered for less by itself.
        if most < 2 || first.event.op() != Op::Release {
            return 0;
        }
        let queue = self.lanes.oldest(lane).queue;
        let count = self.answer_releases(lane, queue, &first.event, &replies[..most]);
        if count == 0 {
            return 0;
        }
        log.push_releases(lane, count);
        count
    }

    /// Whether the queue is there, and so many events may be accepted, as far as their number goes.
    #[inline(always)]
    fn may_pass_row(&self, queue: usize, count: usize) -> bool
        ensures queue { IsTrue result → queue < length self.now.shape.queues }
        ensures entries { IsTrue result → entries_of self.now + count ≤ 2 ^ 63 }
    {
        queue < self.queues.len() && count as u64 <= MAX_ENTRIES - self.entries
    }

    /// Takes the oldest of the lane's replies in a row, as long as they are FORWARDs that are alike and answer events of one queue, and
    /// nothing that was kept leaves with them: how many. It may take none where `take` would take some.
    #[inline(always)]
    pub fn take_forwards<L: StepLog>(
        &mut self,
        lane: usize,
        replies: &[Reply],
        log: &mut L,
    ) -> usize
        requires lane { lane < lanes_of self.old.shape }
        requires room { 2 * length replies.now ≤ L.room log.old }
        ensures few { result ≤ length replies.now }
        ensures may { MayBeTaken self.old (row_of lane (take result replies.now)) }
        ensures view { self.new ≡ after self.old (replies_steps self.old (row_of lane (take result replies.now))) }
        ensures logged { L.steps log.new ≡ L.steps log.old ++ replies_steps self.old (row_of lane (take result replies.now)) }
        ensures stands { (T : List StepValue) → Stands T self.old → Stands (T ++ replies_steps self.old (row_of lane (take result replies.now))) self.new }
        ensures accepted { new_count (replies_steps self.old (row_of lane (take result replies.now))) ≡ 0 }
        ensures turned { turned_count (replies_steps self.old (row_of lane (take result replies.now))) ≡ 0 }
        ensures shape { self.new.shape ≡ self.old.shape }
        ensures kept { kept_in self.new ≡ kept_in self.old }
        ensures room { L.room log.old ≤ L.room log.new + 2 * result }
    {
        let Some(first) = replies.first() else {
            return 0;
        };
        let most = self.lanes.len(lane).min(replies.len()).min(32);
        let target = usize::from(first.event.queue());
        if first.event.op() != Op::Forward || most == 0 || !self.may_pass_row(target, most) {
            return 0;
        }
        let queue = self.lanes.oldest(lane).queue;
        let numbers = self.lanes.numbers(lane, most);
        let count = self.answer_row(lane, queue, &first.event, &replies[..most]);
        if count == 0 {
            return 0;
        }
        let row = &replies[..count];
        self.wait_row(target, Level::of(&first.event), row);
        log.push_forwards(lane, queue, target, &numbers.as_slice()[..count], row);
        count
    }
}
