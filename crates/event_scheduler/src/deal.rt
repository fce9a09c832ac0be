//! What waits is dealt to several lanes, as a row.

ghost use Rattle.std.specs.Prelude.{◌≡◌, ℕ, ◌+◌, ◌<◌, ◌≤◌, [], ◌∷◌, ◌++◌, List, All, length};
ghost use Rattle.credit_pool.specs.declared.account.Account.{Account};
ghost use Rattle.credit_pool.specs.declared.pool.Credits.{Credits};
ghost use Rattle.event_scheduler.specs.Dealing.{AreGathered, HasRoomFor, room_at};
ghost use Rattle.event_scheduler.specs.Giving.{Gives, left};
ghost use Rattle.event_scheduler.specs.Hidden.{NoneHidden, hidden_at};
ghost use Rattle.event_scheduler.specs.Scheduler.{Sight, sight};
ghost use Rattle.evt_types.specs.Plan.{lanes_of};
ghost use Rattle.evt_types.specs.declared.shape.TheConstants.{MAX_LANES, MAX_QUEUES};
ghost use Rattle.evt_types.specs.declared.step.Step.{Step as StepValue};
ghost use Rattle.sched_core.specs.Offered.{numbered_in};
ghost use Rattle.sched_core.specs.Runs.{IsChoiceAmong, times};
ghost use Rattle.small_set.specs.SmallSets.{Has};
ghost use Rattle.transcripts.specs.Choice.{IsChoice};
ghost use Rattle.transcripts.specs.Standing.{View};

use arrayvec::ArrayVec;
use evt_types::Delivery;
use lane_rings::Near;
use sched_core::{Core, MAX_RUN, Offer, Skips};
use small_set::SmallSet;
use step_log::StepLog;

/// Of so many deliveries, how many may be dealt to these lanes: each one's ring has room for as many of them as the lane may hold.
#[inline(always)]
fn room_among(core: &Core, lanes: &mut Vec<Near>, among: SmallSet, count: usize) -> usize
    requires lanes { length lanes.old.items ≡ lanes_of core.now.shape }
    requires there { (l : ℕ) → Has among l → l < length lanes.old.items }
    requires shown { NoneHidden lanes.old.items }
    ensures same { (pool : Credits) (seen : View) (v : Account) (p n : ℕ) → sight pool seen lanes.old.items v p n ≡ sight pool seen lanes.new.items v p n }
    ensures lanes { length lanes.new.items ≡ length lanes.old.items }
    ensures shown { NoneHidden lanes.new.items }
    ensures room { (l : ℕ) → Has among l → HasRoomFor core.now lanes.new.items result l }
{
    let mut left = among;
    let mut least = count;
    let mut rooms = 0usize;
    while let Some(lane) = left.pop() {
        let asked = core.lane_room(lane).min(count);
        let room = lanes[lane].room_for(asked);
        if room < asked {
            least = least.min(room);
        }
        rooms = rooms.saturating_add(asked);
    }
    least.min(rooms)
}

/// Gathers each delivery at the lane that stands at its place.
#[inline(always)]
fn gather_all(lanes: &mut Vec<Near>, among: SmallSet, row: &[Delivery], to: &[usize])
    requires there { (l : ℕ) → Has among l → l < length lanes.old.items }
    requires lanes { All (Has among) to.now }
    requires counts { length to.now ≡ length row.now }
    requires room { (l : ℕ) → Has among l → times l to.now ≤ room_at lanes.old.items l }
    requires shown { NoneHidden lanes.old.items }
    ensures gathered { AreGathered lanes.old.items row.now to.now lanes.new.items }
    ensures lanes { length lanes.new.items ≡ length lanes.old.items }
    ensures others { (l : ℕ) → (¬ Has among l) → hidden_at lanes.new.items l ≡ [] }
{
    for position in 0..row.len() {
        lanes[to[position]].gather(&row[position]);
    }
}

/// Puts what was gathered for these lanes into their rings.
#[inline(always)]
fn flush_all(lanes: &mut Vec<Near>, gathered: SmallSet)
    requires there { (l : ℕ) → Has gathered l → l < length lanes.old.items }
    requires others { (l : ℕ) → (¬ Has gathered l) → hidden_at lanes.old.items l ≡ [] }
    ensures same { (pool : Credits) (core : View) (v : Account) (p n : ℕ) → sight pool core lanes.old.items v p n ≡ sight pool core lanes.new.items v p n }
    ensures lanes { length lanes.new.items ≡ length lanes.old.items }
    ensures shown { NoneHidden lanes.new.items }
{
    let mut left = gathered;
    while let Some(lane) = left.pop() {
        lanes[lane].flush();
    }
}

/// Gives what is chosen, from what was proposed on, where just these lanes are open to its queue, as long as it is quick to see and each
/// of their rings has room: each is gathered at its lane, and at the end all that was gathered goes into the rings. How many were given.
#[inline(never)]
fn deal_among<L: StepLog>(
    core: &mut Core,
    lanes: &mut Vec<Near>,
    offer: &Offer,
    among: SmallSet,
    skips: &mut Skips,
    run: &mut ArrayVec<Delivery, 32>,
    log: &mut L,
) -> usize
    requires choice { IsChoiceAmong core.old skips.old among offer.now }
    requires lanes { length lanes.old.items ≡ lanes_of core.old.shape }
    requires shown { NoneHidden lanes.old.items }
    requires long { (length skips.old.given ≡ MAX_QUEUES) × (length skips.old.bounced ≡ MAX_LANES) }
    requires room { left core.old.shape skips.old ≤ L.room log.old }
    ensures gives { (pool : Credits) (v : Account) (p n given bounced : ℕ) (s : Sight) (before : List StepValue) → Gives skips.old given bounced s before (sight pool core.old lanes.old.items v p n) (L.steps log.old) → Gives skips.new (given + result) bounced s before (sight pool core.new lanes.new.items v p n) (L.steps log.new) }
    ensures none { result ≡ 0 → (core.new ≡ core.old) × (skips.new ≡ skips.old) }
    ensures fewer { left core.old.shape skips.new + result ≡ left core.old.shape skips.old }
    ensures room { L.room log.old ≤ L.room log.new + result }
    ensures lanes { length lanes.new.items ≡ length lanes.old.items }
    ensures shown { NoneHidden lanes.new.items }
    ensures long { (length skips.new.given ≡ MAX_QUEUES) × (length skips.new.bounced ≡ MAX_LANES) }
    ensures shape { core.new.shape ≡ core.old.shape }
{
    // To read a limit makes known that the limits hold.
    let _ = core.shape().limit();
    let waiting = core.waiting_len(offer.delivery.queue());
    let most = room_among(core, lanes, among, waiting.min(MAX_RUN));
    let mut to = ArrayVec::new();
    core.deal_row(offer, among, most, skips, run, &mut to, log);
    gather_all(lanes, among, run.as_slice(), to.as_slice());
    flush_all(lanes, among);
    run.len()
}

/// The same, where several lanes are open to the queue that was proposed, and its events are worth dealing. How many were given: none where
/// they aren't.
#[inline(always)]
pub(crate) fn deal_all<L: StepLog, const FLOWS: bool>(
    core: &mut Core,
    lanes: &mut Vec<Near>,
    offer: &Offer,
    skips: &mut Skips,
    run: &mut ArrayVec<Delivery, 32>,
    log: &mut L,
) -> usize
    requires choice { IsChoice core.old skips.old offer.now.lane offer.now.delivery.queue (numbered_in offer.now.delivery) }
    requires lanes { length lanes.old.items ≡ lanes_of core.old.shape }
    requires shown { NoneHidden lanes.old.items }
    requires long { (length skips.old.given ≡ MAX_QUEUES) × (length skips.old.bounced ≡ MAX_LANES) }
    requires room { left core.old.shape skips.old ≤ L.room log.old }
    ensures gives { (pool : Credits) (v : Account) (p n given bounced : ℕ) (s : Sight) (before : List StepValue) → Gives skips.old given bounced s before (sight pool core.old lanes.old.items v p n) (L.steps log.old) → Gives skips.new (given + result) bounced s before (sight pool core.new lanes.new.items v p n) (L.steps log.new) }
    ensures none { result ≡ 0 → (core.new ≡ core.old) × (skips.new ≡ skips.old) }
    ensures fewer { left core.old.shape skips.new + result ≡ left core.old.shape skips.old }
    ensures room { L.room log.old ≤ L.room log.new + result }
    ensures lanes { length lanes.new.items ≡ length lanes.old.items }
    ensures shown { NoneHidden lanes.new.items }
    ensures long { (length skips.new.given ≡ MAX_QUEUES) × (length skips.new.bounced ≡ MAX_LANES) }
    ensures shape { core.new.shape ≡ core.old.shape }
{
    if FLOWS {
        return 0;
    }
    match core.deals(offer, skips) {
        Some(among) => deal_among(core, lanes, offer, among, skips, run, log),
        None => 0,
    }
}
