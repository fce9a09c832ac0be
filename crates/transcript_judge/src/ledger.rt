//! What the judge holds of the steps that it has read.

ghost use Rattle.std.specs.Prelude.{◌≡◌, ◌<◌, ◌^◌, [], ◌++◌, IfOk, OnOk, All, flat_map, length, map, replicate, slice_index};
ghost use Rattle.evt_types.specs.Limits.{most_extras};
ghost use Rattle.evt_types.specs.Plan.{Plan, lanes_of};
ghost use Rattle.transcripts.specs.Standing.{accepts_from, accepts_of, added_of, add_to_place, after_accept, after_done, after_give, after_more, answer_place, event_in, events_of, leaving, oldest_at, slot_in, staying, view_of};
ghost use Rattle.transcripts.specs.Transcript.{Held};
ghost use Rattle.transcript_judge.specs.Ledger.{IsOldest, IsSized, accept_of, added_to, due_added, due_by, opened, row, rows, settled, view_in};
ghost use Rattle.transcript_judge.specs.Waiting.{events_in, kinds_in, kinds_of, nexts_in};

use crate::nested::{drop_first, empty_lists, push_to};
use crate::spot::{HeldEvent, Spot};
use crate::waiting::{Waiting, accept_in, none_waiting, take_from};
use evt_types::{Event, KeptEvent, Memory, Outcome, Shape};
use std::alloc::Global;

/// For each queue what waits, and of an ordered one the open places; for each lane what it hasn't
/// answered, and how many events were added beside the oldest of it; and whether Shut was read.
#[derive(Drop)]
pub(crate) struct Ledger {
    pub(crate) waiting: Vec<Waiting>,
    pub(crate) places: Vec<Vec<Spot>>,
    pub(crate) unanswered: Vec<Vec<HeldEvent>>,
    pub(crate) extras: Vec<usize>,
    pub(crate) shut: bool,
}

/// The number is answered so.
fn answer_spots(spots: &mut Vec<Spot>, number: u64, outcome: &Outcome) -> Result<(), Memory>
    ensures { OnOk result (spots.new.items ≡ map (answer_place number outcome.now) spots.old.items) }
{
    for spot in spots.iter_mut() {
        spot.answer(number, outcome)?;
    }
    Ok(())
}

/// The event is added beside the number.
fn add_to_spots(spots: &mut Vec<Spot>, number: u64, event: &Event) -> Result<(), Memory>
    ensures { OnOk result (spots.new.items ≡ map (add_to_place number event.now) spots.old.items) }
{
    for spot in spots.iter_mut() {
        spot.add(number, event)?;
    }
    Ok(())
}

/// What the number was passed on as is due.
fn push_due(
    due: &mut Vec<KeptEvent>,
    queue: usize,
    number: u64,
    events: &[Event],
) -> Result<(), Memory>
    ensures { OnOk result (map accept_of due.new.items ≡ map accept_of due.old.items ++ accepts_from queue number events.now) }
{
    for event in events {
        due.push(KeptEvent {
            queue,
            number,
            event: *event,
        })?;
    }
    Ok(())
}

/// The answered places at the front leave, and what they keep is due.
fn let_go(spots: &mut Vec<Spot>, queue: usize, due: &mut Vec<KeptEvent>) -> Result<(), Memory>
    ensures stay { OnOk result (spots.new.items ≡ staying spots.old.items) }
    ensures due { OnOk result (map accept_of due.new.items ≡ map accept_of due.old.items ++ flat_map (λ x. accepts_from queue x.number x.forwards) (leaving spots.old.items)) }
{
    'front: while !spots.is_empty() && spots[0].is_answered() {
        let spot = spots.remove(0);
        push_due(due, queue, spot.number(), spot.forwards())?;
    }
    Ok(())
}

/// A place more of an ordered queue; another queue has none.
fn open_place(
    alloc: Global,
    places: &mut Vec<Vec<Spot>>,
    is_ordered: bool,
    queue: usize,
    number: u64,
) -> Result<(), Memory>
    requires { queue < length places.old.items }
    ensures { OnOk result (rows places.new.items ≡ opened (rows places.old.items) is_ordered queue number) }
{
    if is_ordered {
        push_to(places, queue, Spot::open(alloc, number))?;
    }
    Ok(())
}

/// The number of an ordered queue is answered so, and what waits for nothing more is due.
fn settle_spots(
    spots: &mut Vec<Spot>,
    queue: usize,
    number: u64,
    outcome: &Outcome,
    due: &mut Vec<KeptEvent>,
) -> Result<(), Memory>
    requires { due.old.items ≡ [] }
    ensures stay { OnOk result (spots.new.items ≡ staying (map (answer_place number outcome.now) spots.old.items)) }
    ensures due { OnOk result (map accept_of due.new.items ≡ flat_map (λ x. accepts_from queue x.number x.forwards) (leaving (map (answer_place number outcome.now) spots.old.items))) }
{
    answer_spots(spots, number, outcome)?;
    let_go(spots, queue, due)
}

/// What the number of a queue that restores no order is forwarded as is due.
fn pass_on(
    due: &mut Vec<KeptEvent>,
    queue: usize,
    number: u64,
    outcome: &Outcome,
) -> Result<(), Memory>
    requires { due.old.items ≡ [] }
    ensures { OnOk result (map accept_of due.new.items ≡ accepts_from queue number (events_of outcome.now)) }
{
    if let Outcome::Forwarded(event) = outcome {
        due.push(KeptEvent {
            queue,
            number,
            event: *event,
        })?;
    }
    Ok(())
}

/// The number is answered so: of an ordered queue, in its places.
fn settle(
    places: &mut Vec<Vec<Spot>>,
    is_ordered: bool,
    queue: usize,
    number: u64,
    outcome: &Outcome,
    due: &mut Vec<KeptEvent>,
) -> Result<(), Memory>
    requires place { queue < length places.old.items }
    requires none { due.old.items ≡ [] }
    ensures places { OnOk result (rows places.new.items ≡ settled (rows places.old.items) is_ordered queue number outcome.now) }
    ensures due { OnOk result (map accept_of due.new.items ≡ due_by (rows places.old.items) is_ordered queue number outcome.now) }
{
    if is_ordered {
        settle_spots(&mut places[queue], queue, number, outcome, due)?;
        Ok(())
    } else {
        pass_on(due, queue, number, outcome)
    }
}

/// The event is added beside the number: of an ordered queue, to its place; of another queue it is due.
fn add_beside(
    places: &mut Vec<Vec<Spot>>,
    is_ordered: bool,
    queue: usize,
    number: u64,
    event: &Event,
    due: &mut Vec<KeptEvent>,
) -> Result<(), Memory>
    requires place { queue < length places.old.items }
    requires none { due.old.items ≡ [] }
    ensures places { OnOk result (rows places.new.items ≡ added_to (rows places.old.items) is_ordered queue number event.now) }
    ensures due { OnOk result (map accept_of due.new.items ≡ due_added is_ordered queue number event.now) }
{
    if is_ordered {
        add_to_spots(&mut places[queue], number, event)?;
        Ok(())
    } else {
        due.push(KeptEvent {
            queue,
            number,
            event: *event,
        })?;
        Ok(())
    }
}

/// So many counts, each 0.
fn no_counts(alloc: Global, count: usize) -> Result<Vec<usize>, Memory>
    ensures { IfOk result (λ counts. counts.items ≡ replicate count 0) }
{
    vec![in alloc; 0; count]
}

impl Ledger {
    /// Nothing is read yet.
    pub(crate) fn new(alloc: Global, shape: &Shape) -> Result<Ledger, Memory>
        ensures view { IfOk result (λ l. view_in shape.now l ≡ view_of shape.now []) }
        ensures kinds { IfOk result (λ l. kinds_in l.waiting.items ≡ kinds_of shape.now) }
    {
        let (queues, lanes) = (shape.queues().len(), shape.lanes());
        Ok(Ledger {
            waiting: none_waiting(alloc, shape.queues())?,
            places: empty_lists(alloc, queues)?,
            unanswered: empty_lists(alloc, lanes)?,
            extras: no_counts(alloc, lanes)?,
            shut: false,
        })
    }

    /// The queue accepts the event.
    pub(crate) fn enter(&mut self, queue: usize, event: &Event) -> Result<(), Memory>
        requires queue { queue < length self.old.waiting.items }
        requires few { slice_index (nexts_in self.old.waiting.items) queue < 2 ^ 63 }
        ensures view { OnOk result ((p : Plan) → view_in p self.new ≡ after_accept (view_in p self.old) queue event.now) }
        ensures kinds { OnOk result (kinds_in self.new.waiting.items ≡ kinds_in self.old.waiting.items) }
    {
        accept_in(&mut self.waiting, queue, event)
    }

    /// The lane is given the event of this number, which waits and falls into this slot.
    pub(crate) fn give(
        &mut self,
        alloc: Global,
        shape: &Shape,
        lane: usize,
        queue: usize,
        number: u64,
        slot: usize,
    ) -> Result<(), Memory>
        requires sized { IsSized shape.now self.old }
        requires lane { lane < lanes_of shape.now }
        requires queue { queue < length shape.now.queues }
        requires slot { slot ≡ slot_in (view_in shape.now self.old) queue (event_in (row (events_in self.old.waiting.items) queue) number) }
        ensures view { OnOk result (view_in shape.now self.new ≡ after_give (view_in shape.now self.old) lane queue number) }
        ensures kinds { OnOk result (kinds_in self.new.waiting.items ≡ kinds_in self.old.waiting.items) }
    {
        take_from(&mut self.waiting, queue, number);
        let is_ordered = shape.queues()[queue].kind.is_ordered();
        open_place(alloc, &mut self.places, is_ordered, queue, number)?;
        push_to(
            &mut self.unanswered,
            lane,
            HeldEvent::new(queue, number, slot),
        )
    }

    /// The queue and the number of the lane's oldest unanswered event.
    fn oldest(&self, lane: usize) -> (usize, u64)
        requires lane { lane < length self.now.unanswered.items }
        requires some { 0 < length (row (rows self.now.unanswered.items) lane) }
        ensures { IsOldest (row (rows self.now.unanswered.items) lane) result.0 result.1 }
    {
        let held = &self.unanswered[lane][0];
        (held.queue(), held.number())
    }

    /// The lane's oldest unanswered event is answered so; what waits for nothing more is due.
    pub(crate) fn answer(
        &mut self,
        shape: &Shape,
        lane: usize,
        outcome: &Outcome,
        due: &mut Vec<KeptEvent>,
    ) -> Result<(), Memory>
        requires sized { IsSized shape.now self.old }
        requires lane { lane < lanes_of shape.now }
        requires some { 0 < length (row (rows self.old.unanswered.items) lane) }
        requires queues { All (λ (h : Held). h.queue < length shape.now.queues) (row (rows self.old.unanswered.items) lane) }
        requires none { due.old.items ≡ [] }
        ensures view { OnOk result (view_in shape.now self.new ≡ after_done (view_in shape.now self.old) lane outcome.now) }
        ensures kinds { OnOk result (kinds_in self.new.waiting.items ≡ kinds_in self.old.waiting.items) }
        ensures due { OnOk result (map accept_of due.new.items ≡ accepts_of (view_in shape.now self.old) (oldest_at (view_in shape.now self.old) lane) outcome.now) }
    {
        let (queue, number) = self.oldest(lane);
        let is_ordered = shape.queues()[queue].kind.is_ordered();
        settle(&mut self.places, is_ordered, queue, number, outcome, due)?;
        drop_first(&mut self.unanswered, lane);
        self.extras[lane] = 0;
        Ok(())
    }

    /// The event is added beside the lane's oldest unanswered one.
    pub(crate) fn add(
        &mut self,
        shape: &Shape,
        lane: usize,
        event: &Event,
        due: &mut Vec<KeptEvent>,
    ) -> Result<(), Memory>
        requires sized { IsSized shape.now self.old }
        requires lane { lane < lanes_of shape.now }
        requires some { 0 < length (row (rows self.old.unanswered.items) lane) }
        requires queues { All (λ (h : Held). h.queue < length shape.now.queues) (row (rows self.old.unanswered.items) lane) }
        requires few { slice_index self.old.extras.items lane < most_extras }
        requires none { due.old.items ≡ [] }
        ensures view { OnOk result (view_in shape.now self.new ≡ after_more (view_in shape.now self.old) lane event.now) }
        ensures kinds { OnOk result (kinds_in self.new.waiting.items ≡ kinds_in self.old.waiting.items) }
        ensures due { OnOk result (map accept_of due.new.items ≡ added_of (view_in shape.now self.old) (oldest_at (view_in shape.now self.old) lane) event.now) }
    {
        let (queue, number) = self.oldest(lane);
        let is_ordered = shape.queues()[queue].kind.is_ordered();
        add_beside(&mut self.places, is_ordered, queue, number, event, due)?;
        self.extras[lane] += 1;
        Ok(())
    }
}
