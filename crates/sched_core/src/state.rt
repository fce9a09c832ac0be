//! What the core holds, and what can be read of it.

ghost use Rattle.std.specs.Prelude.{ℕ, ◌≡◌, ◌+◌, ◌*◌, ◌^◌, ◌<◌, ◌≤◌, ◌++◌, List, length, map, slice_index_or, sum_by, vec_len, vec_capacity};
ghost use Rattle.transcripts.specs.Standing.{Stands, after, entries_of, inside_of, kept_at, kept_event, kept_in, kept_in_place, places_at, steps_of, unanswered_at, waiting_at};
ghost use Rattle.transcripts.specs.Sweep.{IsSweep, Sweeping, sweep_room, sweep_steps};
ghost use Rattle.transcripts.specs.Transcript as transcripts;
ghost use Rattle.transcripts.specs.Transcript.{kept_events};
ghost use Rattle.evt_types.specs.Fault.{IsWithinLimits};
ghost use Rattle.evt_types.specs.Plan as plans;
ghost use Rattle.evt_types.specs.Plan.{depth_of, lanes_of};
ghost use Rattle.evt_types.specs.declared.event.Event.{Event as EventValue};
ghost use Rattle.order_parts.specs.Reorder.{open_place};
ghost use Rattle.parked_queue.specs.Lists.{delivery_of};
ghost use Rattle.sched_core.specs.Sized.{IsSized};
ghost use Rattle.evt_types.specs.declared.step.Step.{Step as StepValue};

use evt_types::{Delivery, KeptEvent, MAX_FORWARDS, Shape};
use order_parts::{AllOrders, AllPins, Histories};
use parked_queue::ParkedQueues;
use small_set::SmallSet;
use std::marker::Model;

/// The scheduling core of a device.
#[derive(Drop)]
pub struct Core {
    pub(crate) shape: Shape,
    pub(crate) queues: ParkedQueues,
    pub(crate) orders: AllOrders,
    pub(crate) lanes: Histories,
    /// For each lane how many events were added beside its oldest unanswered event.
    pub(crate) extras: Vec<usize>,
    pub(crate) pins: AllPins,
    /// For each queue the ports' lanes that serve it.
    pub(crate) links: Vec<SmallSet>,
    /// For each queue the queues of a priority that is served before its own.
    pub(crate) ahead: Vec<SmallSet>,
    /// The flow lane of each slot, by queue and slot.
    pub(crate) slot_lanes: Vec<Option<usize>>,
    /// For each queue the slots whose flow lanes may have room: one that isn't there has a flow lane that is full.
    pub(crate) open_slots: Vec<SmallSet>,
    /// How many events may be inside for a NEW to be taken.
    pub(crate) bound: usize,
    /// How many steps a sweep may log.
    pub(crate) log_room: usize,
    /// How many events wait, are kept or are unanswered.
    pub(crate) inside: usize,
    /// How many events were accepted or are kept.
    pub(crate) entries: u64,
    /// Whether new events are turned away.
    pub(crate) shut: bool,
}

impl Model for Core {
    ghost use Rattle.transcripts.specs.Standing.{View};

    ghost Value = { View };

    ghost use Rattle.sched_core.specs.View.{view_in, IsCore};

    ghost view = { view_in };

    ghost invariant = { IsCore };
}

impl Core {
    /// What holds of each core, for a call that reads none of its fields.
    #[inline(always)]
    pub(crate) fn facts(&self)
        ensures limits { IsWithinLimits self.now.shape }
        ensures sized { IsSized self.now }
        ensures places { length self.now.places ≡ length self.now.shape.queues }
        ensures few { entries_of self.now ≤ 2 ^ 63 }
        ensures replies { (l : ℕ) (e : EventValue) → l < lanes_of self.now.shape → length (steps_of self.now l e) + kept_in (after self.now (steps_of self.now l e)) ≤ kept_in self.now + 2 }
    {
        // The use of a field makes known what holds of each core.
        let _ = &self.shape;
    }

    /// The configuration.
    pub fn shape(&self) -> &Shape
        ensures { result.now ≡ self.now.shape }
    {
        &self.shape
    }

    /// How many events wait, are kept or are unanswered.
    pub fn inside(&self) -> usize
        ensures value { result ≡ inside_of self.now }
        ensures model { (T : List StepValue) → Stands T self.now → result ≡ transcripts.inside self.now.shape T }
    {
        self.inside
    }

    /// Room in a log that is enough for one sweep: the shut step, for each reply taken an answer or an added event and one event
    /// accepted, the events that were kept, each event given, and each lane whose ring was full.
    pub fn log_room(&self) -> usize
        ensures value { result ≡ sweep_room self.now.shape }
        ensures kept { kept_in self.now ≤ MAX_FORWARDS * sum_by plans.kept_room self.now.shape.queues }
        ensures fits { (T : List StepValue) (s : Sweeping) → Stands T self.now → IsSweep self.now s → length (sweep_steps self.now s) ≤ result }
    {
        self.log_room
    }

    /// How many events of the queue wait.
    pub fn waiting_len(&self, queue: usize) -> usize
        requires { queue < length self.now.shape.queues }
        ensures { result ≡ length (waiting_at self.now queue) }
    {
        self.queues.count(queue)
    }

    /// How many events more the lane may hold.
    pub fn lane_room(&self, lane: usize) -> usize
        requires { lane < lanes_of self.now.shape }
        ensures { result + length (unanswered_at self.now lane) ≡ depth_of self.now.shape lane }
    {
        self.lanes.room(lane)
    }

    /// Appends the queue's waiting events, by rising number, each as it would be delivered.
    pub fn list_waiting(&self, queue: usize, into: &mut Vec<Delivery>)
        requires queue { queue < length self.now.shape.queues }
        requires room { vec_len into.old + length (waiting_at self.now queue) ≤ vec_capacity into.old }
        ensures listed { into.new.items ≡ into.old.items ++ map (delivery_of queue) (waiting_at self.now queue) }
        ensures model { (T : List StepValue) → Stands T self.now → into.new.items ≡ into.old.items ++ map (delivery_of queue) (transcripts.waiting T queue) }
        ensures room { vec_capacity into.new ≡ vec_capacity into.old }
    {
        self.queues.list_waiting(queue, into);
    }

    /// How many places of an ordered queue's hand-out haven't left; of another queue there are none.
    pub fn places_len(&self, queue: usize) -> usize
        requires { queue < length self.now.shape.queues }
        ensures { result ≡ length (places_at self.now queue) }
    {
        self.orders.len(queue)
    }

    /// Appends the queue's kept events in hand-out order, each under the queue and the number of the event that it was passed on from.
    pub fn list_kept(&self, queue: usize, into: &mut Vec<KeptEvent>)
        requires queue { queue < length self.now.shape.queues }
        requires room { vec_len into.old + MAX_FORWARDS * length (places_at self.now queue) ≤ vec_capacity into.old }
        ensures kept { into.new.items ≡ into.old.items ++ map (kept_event queue) (kept_at self.now queue) }
        ensures few { vec_len into.new ≤ vec_len into.old + MAX_FORWARDS * length (places_at self.now queue) }
        ensures model { (T : List StepValue) → Stands T self.now → into.new.items ≡ into.old.items ++ kept_events T queue }
        ensures room { vec_capacity into.new ≡ vec_capacity into.old }
    {
        for index in 0..self.orders.len(queue) {
            self.list_place(queue, index, into);
        }
    }

    /// Appends what the queue's place at this index, counted from the oldest, keeps.
    fn list_place(&self, queue: usize, index: usize, into: &mut Vec<KeptEvent>)
        requires queue { queue < length self.now.shape.queues }
        requires room { vec_len into.old + MAX_FORWARDS ≤ vec_capacity into.old }
        ensures kept { into.new.items ≡ into.old.items ++ map (kept_event queue) (kept_in_place (slice_index_or (places_at self.now queue) index (open_place 0))) }
        ensures few { vec_len into.new ≤ vec_len into.old + MAX_FORWARDS }
        ensures room { vec_capacity into.new ≡ vec_capacity into.old }
    {
        for nth in 0..self.orders.kept_count(queue, index) {
            if let Some(kept) = self.orders.kept_at(queue, index, nth) {
                into.push_reserved(KeptEvent {
                    queue,
                    number: kept.number,
                    event: kept.event.unpack(),
                });
            }
        }
    }
}
