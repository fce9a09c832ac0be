//! Replies of the lanes are taken.

ghost use Rattle.std.specs.Prelude.{◌≡◌, ◌≢◌, ℕ, ◌+◌, ◌*◌, ◌%◌, ◌^◌, ◌≤◌, ◌<◌, false, true, List, [], ◌++◌, IsFalse, IsTrue, Some, length, slice_get, take};
ghost use Rattle.event_scheduler.specs.Scheduler.{Sight, seen_at, sight_of};
ghost use Rattle.event_scheduler.specs.Seeking.{fetched_in};
ghost use Rattle.event_scheduler.specs.Taking.{MayEnd, Takes, TakesAll, entered_by, only, turned_by, with_core, with_taken};
ghost use Rattle.evt_types.specs.declared.event.Reply.{Reply as ReplyValue};
ghost use Rattle.evt_types.specs.Plan.{lanes_of};
ghost use Rattle.evt_types.specs.declared.step.Step.{Step as StepValue};
ghost use Rattle.sched_core.specs.Rows.{row_of};
ghost use Rattle.sched_core.specs.Taken.{took_of};
ghost use Rattle.transcripts.specs.Replies.{new_count, turned_count};
ghost use Rattle.transcripts.specs.Standing.{Stands, after, kept_in, may_take, steps_of};
ghost use Rattle.transcripts.specs.Sweep.{MayBeTaken, replies_steps};

use crate::scheduler::Scheduler;
use evt_types::{Op, Reply};
use sched_core::{Core, Took};
use step_log::StepLog;

/// Fewer replies than these cost less one by one than in rows.
const FEWEST: usize = 4;

/// Takes the lane's reply, and counts what became of a NEW: it was accepted, or turned away, which leaves its credit to the scheduler.
#[inline(always)]
fn take_one<L: StepLog>(
    core: &mut Core,
    pocket: &mut u64,
    accepted_new: &mut u64,
    lane: usize,
    reply: &Reply,
    log: &mut L,
)
    requires lane { lane < lanes_of core.old.shape }
    requires takes { may_take core.old lane reply.now.event ≡ true }
    requires room { length (steps_of core.old lane reply.now.event) ≤ L.room log.old }
    ensures view { core.new ≡ after core.old (steps_of core.old lane reply.now.event) }
    ensures logged { L.steps log.new ≡ L.steps log.old ++ steps_of core.old lane reply.now.event }
    ensures stands { (T : List StepValue) → Stands T core.old → Stands (T ++ steps_of core.old lane reply.now.event) core.new }
    ensures pocket { pocket.new ≡ (pocket.old + turned_by (took_of core.old lane reply.now.event)) % 2 ^ 64 }
    ensures accepted { accepted_new.new ≡ (accepted_new.old + entered_by reply.now.event.op (took_of core.old lane reply.now.event)) % 2 ^ 64 }
    ensures shape { core.new.shape ≡ core.old.shape }
    ensures room { L.room log.old ≤ L.room log.new + length (steps_of core.old lane reply.now.event) }
{
    let (credits, count) = (*pocket, *accepted_new);
    if !reply.event.is_new() {
        core.take_answer(lane, reply, log);
        return;
    }
    match core.take_new(lane, reply, log) {
        Took::Turned => *pocket = credits.wrapping_add(1),
        Took::Accepted => *accepted_new = count.wrapping_add(1),
        Took::Kept | Took::Released => {}
    }
}

/// Takes these replies of the lane one by one, oldest first, up to the first that may not be taken: how many.
#[inline(always)]
fn take_each<L: StepLog>(
    core: &mut Core,
    pocket: &mut u64,
    accepted_new: &mut u64,
    lane: usize,
    replies: &[Reply],
    log: &mut L,
) -> usize
    requires lane { lane < lanes_of core.old.shape }
    requires room { kept_in core.old + 2 * length replies.now ≤ L.room log.old }
    ensures takes { (s : Sight) → lane < length s.taken → Takes (only lane result) result (with_core s core.old pocket.old accepted_new.old) (L.steps log.old) (with_core (with_taken s lane (take result replies.now)) core.new pocket.new accepted_new.new) (L.steps log.new) }
    ensures few { result ≤ length replies.now }
    ensures refused { result < length replies.now → (reply : ReplyValue) × (slice_get replies.now result ≡ Some reply) × (may_take core.new lane reply.event ≡ false) }
    ensures shape { core.new.shape ≡ core.old.shape }
    ensures room { L.room log.old + kept_in core.new ≤ L.room log.new + kept_in core.old + 2 * result }
{
    for (taken, reply) in replies.iter().enumerate() {
        // To read the counts makes known that they are within their range.
        let (_pocket, _accepted_new) = (*pocket, *accepted_new);
        if !core.takes(lane, reply) {
            return taken;
        }
        take_one(core, pocket, accepted_new, lane, reply, log);
    }
    replies.len()
}

/// Takes the oldest of these replies of the lane in a row, and counts the NEWs, which are accepted: how many. It may take none where some
/// may be taken.
#[inline(always)]
fn take_row<L: StepLog>(
    core: &mut Core,
    accepted_new: &mut u64,
    lane: usize,
    replies: &[Reply],
    log: &mut L,
) -> usize
    requires lane { lane < lanes_of core.old.shape }
    requires room { 2 * length replies.now ≤ L.room log.old }
    ensures few { result ≤ length replies.now }
    ensures may { MayBeTaken core.old (row_of lane (take result replies.now)) }
    ensures view { core.new ≡ after core.old (replies_steps core.old (row_of lane (take result replies.now))) }
    ensures logged { L.steps log.new ≡ L.steps log.old ++ replies_steps core.old (row_of lane (take result replies.now)) }
    ensures accepted { accepted_new.new ≡ (accepted_new.old + new_count (replies_steps core.old (row_of lane (take result replies.now)))) % 2 ^ 64 }
    ensures turned { turned_count (replies_steps core.old (row_of lane (take result replies.now))) ≡ 0 }
    ensures shape { core.new.shape ≡ core.old.shape }
    ensures kept { kept_in core.new ≡ kept_in core.old }
    ensures room { L.room log.old ≤ L.room log.new + 2 * result }
{
    // To read the count makes known that it is within its range.
    let count = *accepted_new;
    let Some(first) = replies.first() else {
        return 0;
    };
    match first.event.op() {
        Op::New => {
            let row = core.take_news(lane, replies, log);
            *accepted_new = count.wrapping_add(row as u64);
            row
        }
        Op::Forward => core.take_forwards(lane, replies, log),
        Op::Release => core.take_releases(lane, replies, log),
        Op::ForwardMore => 0,
    }
}

/// Takes the oldest of these replies of the lane row by row, as long as rows are taken and more than one is left: how many. None is turned
/// away. It isn't inlined, so that the code by which a single reply is taken stays small.
#[inline(never)]
fn take_rows<L: StepLog>(
    core: &mut Core,
    accepted_new: &mut u64,
    lane: usize,
    replies: &[Reply],
    log: &mut L,
) -> usize
    requires lane { lane < lanes_of core.old.shape }
    requires room { 2 * length replies.now ≤ L.room log.old }
    ensures takes { (s : Sight) (pocket : ℕ) → pocket < 2 ^ 64 → lane < length s.taken → Takes (only lane result) result (with_core s core.old pocket accepted_new.old) (L.steps log.old) (with_core (with_taken s lane (take result replies.now)) core.new pocket accepted_new.new) (L.steps log.new) }
    ensures few { result ≤ length replies.now }
    ensures shape { core.new.shape ≡ core.old.shape }
    ensures kept { kept_in core.new ≡ kept_in core.old }
    ensures room { L.room log.old ≤ L.room log.new + 2 * result }
{
    let mut taken = 0;
    while replies.len() - taken > 1 {
        // To read the count makes known that it is within its range.
        let _accepted_new = *accepted_new;
        let row = take_row(core, accepted_new, lane, &replies[taken..], log);
        if row == 0 {
            return taken;
        }
        taken += row;
    }
    taken
}

/// Takes these replies of the lane, oldest first, up to the first that may not be taken: how many. Where there are enough the first ones
/// go in rows, as long as rows are taken, and then one by one.
#[inline(always)]
fn take_run<L: StepLog>(
    core: &mut Core,
    pocket: &mut u64,
    accepted_new: &mut u64,
    lane: usize,
    replies: &[Reply],
    log: &mut L,
) -> usize
    requires lane { lane < lanes_of core.old.shape }
    requires room { kept_in core.old + 2 * length replies.now ≤ L.room log.old }
    ensures takes { (s : Sight) → lane < length s.taken → Takes (only lane result) result (with_core s core.old pocket.old accepted_new.old) (L.steps log.old) (with_core (with_taken s lane (take result replies.now)) core.new pocket.new accepted_new.new) (L.steps log.new) }
    ensures few { result ≤ length replies.now }
    ensures refused { result < length replies.now → (reply : ReplyValue) × (slice_get replies.now result ≡ Some reply) × (may_take core.new lane reply.event ≡ false) }
    ensures shape { core.new.shape ≡ core.old.shape }
    ensures room { L.room log.old + kept_in core.new ≤ L.room log.new + kept_in core.old + 2 * result }
{
    // To read the count makes known that it is within its range.
    let _pocket = *pocket;
    let rows = if replies.len() >= FEWEST {
        take_rows(core, accepted_new, lane, replies, log)
    } else {
        0
    };
    rows + take_each(core, pocket, accepted_new, lane, &replies[rows..], log)
}

impl Scheduler {
    /// Takes the oldest of the lane's fetched replies, no more than `most`, up to the first that may not be taken: how many, and whether
    /// the lane's taking may end there, since that one may not be taken or none is seen.
    #[inline(always)]
    fn take_fetched<L: StepLog>(&mut self, lane: usize, most: usize, log: &mut L) -> (usize, bool)
        requires lane { lane < lanes_of self.old.core.shape }
        requires room { kept_in self.old.core + 2 * most ≤ L.room log.old }
        ensures takes { Takes (only lane result.0) result.0 (sight_of self.old) (L.steps log.old) (sight_of self.new) (L.steps log.new) }
        ensures most { result.0 ≤ most }
        ensures some { 0 < most → fetched_in self.old.lanes.items lane ≢ [] → IsFalse result.1 → 0 < result.0 }
        ensures ends { (n q : ℕ) → IsTrue result.1 → MayEnd q self.new.core lane n (seen_at (sight_of self.new) lane) }
        ensures others { (l : ℕ) → l ≢ lane → seen_at (sight_of self.new) l ≡ seen_at (sight_of self.old) l }
        ensures room { L.room log.old + kept_in self.new.core ≤ L.room log.new + kept_in self.old.core + 2 * result.0 }
    {
        let near = &mut self.lanes[lane];
        let replies = near.fetched();
        let count = replies.len().min(most);
        let taken = take_run(
            &mut self.core,
            &mut self.pocket,
            &mut self.accepted_new,
            lane,
            &replies[..count],
            log,
        );
        near.pass(taken);
        (taken, (taken < count) | !near.sees())
    }

    /// Takes replies of the lane, no more than the sweep quantum, until none is seen or one may not be taken.
    #[inline(always)]
    fn take_lane<L: StepLog>(&mut self, lane: usize, log: &mut L) -> usize
        requires lane { lane < lanes_of self.old.core.shape }
        requires room { kept_in self.old.core + 2 * self.old.core.shape.sweep ≤ L.room log.old }
        ensures takes { Takes (only lane self.old.core.shape.sweep) result (sight_of self.old) (L.steps log.old) (sight_of self.new) (L.steps log.new) }
        ensures room { L.room log.old + kept_in self.new.core ≤ L.room log.new + kept_in self.old.core + 2 * self.old.core.shape.sweep }
        ensures most { result ≤ self.old.core.shape.sweep }
        ensures ends { MayEnd self.old.core.shape.sweep self.new.core lane result (seen_at (sight_of self.new) lane) }
        ensures others { (l : ℕ) → l ≢ lane → seen_at (sight_of self.new) l ≡ seen_at (sight_of self.old) l }
    {
        let most = self.core.shape().sweep() as usize;
        let mut taken = 0;
        while taken < most {
            let (more, ends) = self.take_fetched(lane, most - taken, log);
            taken += more;
            // Mostly all that is seen was fetched as the lane was sought, and the taking ends here.
            if ends {
                return taken;
            }
            let near = &mut self.lanes[lane];
            if !near.fetch(most - taken) {
                return taken;
            }
        }
        taken
    }

    /// Takes replies of each lane, by rising lane.
    pub(crate) fn take_all<L: StepLog>(&mut self, log: &mut L) -> usize
        requires room { kept_in self.old.core + 2 * self.old.core.shape.sweep * lanes_of self.old.core.shape ≤ L.room log.old }
        ensures takes { TakesAll self.old.core.shape.sweep result (sight_of self.old) (L.steps log.old) (sight_of self.new) (L.steps log.new) }
        ensures room { L.room log.old + kept_in self.new.core ≤ L.room log.new + kept_in self.old.core + 2 * self.old.core.shape.sweep * lanes_of self.old.core.shape }
    {
        let count = self.core.shape().lanes();
        let _ = self.core.shape().sweep();
        let mut taken = 0;
        let mut from = 0;
        while from < count {
            let lane = self.seek(from);
            if lane >= count {
                return taken;
            }
            taken += self.take_lane(lane, log);
            from = lane + 1;
        }
        taken
    }
}
