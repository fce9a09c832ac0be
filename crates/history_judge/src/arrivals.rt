//! What came of a NEW, and which entry got it.

ghost use Rattle.std.specs.Prelude.{◌≡◌, ◌<◌, IfNone, IfOk, IfSome, OnOk, Some, false, ℕ, length};
ghost use Rattle.evt_types.specs.Operation.{is_new_reply};
ghost use Rattle.evt_types.specs.Plan.{is_flows, queue_of};
ghost use Rattle.history_judge.specs.Breaches.{is_forward_reply};
ghost use Rattle.history_judge.specs.Entries.{IsUnknown, IsUnsorted};
ghost use Rattle.history_judge.specs.Streams as specs;
ghost use Rattle.history_judge.specs.Streams.{AreGetters, AreReady, Comes, HasGetter, IsForwardedTo, IsGetter, IsSentTo};
ghost use Rattle.history_judge.specs.Values.{IsExcess};
ghost use Rattle.history_judge.specs.declared.arrivals.Arrival.{Arrival as ArrivalValue};

use crate::answers::all_answers;
use crate::holds::port_count;
use crate::seen::{Deed, Seen};
use crate::values::{Left, Value, all_sent, count_left, value_of};
use evt_types::{Event, Kind, Memory, Op, Shape};
use std::alloc::Global;
use std::collections::BTreeMap;

/// Which of a port's events are looked at: its NEWs, or what they were forwarded as.
#[derive(Clone, Copy, PartialEq, Eq)]
pub(crate) enum Course {
    Itself,
    Forwarded,
}

/// Which events of a queue are kept in order: of an atomic one those of a flow and level, of an ordered one those of a level.
#[derive(Clone, Copy, PartialEq, Eq, PartialOrd, Ord)]
pub(crate) struct KeptOrder {
    pub(crate) queue: u8,
    pub(crate) level: usize,
    pub(crate) flow: Option<u32>,
}

/// Events that a queue keeps in order: those that a port enqueued, or those that its NEWs were forwarded as that another queue kept in
/// order; with a receiver those of them that this port dequeued.
#[derive(Clone, Copy, PartialEq, Eq, PartialOrd, Ord)]
pub(crate) struct Stream {
    pub(crate) sender: usize,
    pub(crate) origin: Option<KeptOrder>,
    pub(crate) kept: KeptOrder,
    pub(crate) receiver: Option<usize>,
}

/// The stream of what came of a NEW, and the entry that got it.
#[derive(Clone, Copy, PartialEq, Eq)]
pub(crate) struct Arrival {
    pub(crate) stream: Stream,
    pub(crate) getter: usize,
}

/// For each value an entry that got it.
type Getters = BTreeMap<Value, usize>;

/// What is looked up of a history.
#[derive(Drop)]
pub(crate) struct Tables {
    /// How many events of each value were sent.
    sent: Left,
    getters: Getters,
    /// For each entry the entry that answers what it got, if there is one.
    answers: Vec<Option<usize>>,
}

/// The entry that got an event of this one's value.
fn getter_of(getters: &Getters, event: &Event) -> Option<usize>
    ensures { result ≡ specs.getter_of getters.now event.now }
{
    getters.get(&value_of(event)).copied()
}

/// The entry got an event of this one's value.
fn set_getter(getters: &mut Getters, event: &Event, at: usize) -> Result<(), Memory>
    ensures { OnOk result (IsGetter getters.old getters.new event.now at) }
{
    getters.insert(value_of(event), at)?;
    Ok(())
}

/// Notes which event the entry got, if it got one.
fn note_getter(getters: &mut Getters, seen: &Seen, at: usize) -> Result<(), Memory>
    ensures { OnOk result (HasGetter getters.old getters.new seen.now at) }
{
    match &seen.deed {
        Deed::Got(event) => set_getter(getters, event, at),
        Deed::Sent(_) => Ok(()),
    }
}

/// For each value an entry that got it.
fn all_getters(alloc: Global, history: &[Seen]) -> Result<Getters, Memory>
    ensures { IfOk result (λ getters. AreGetters history.now (length history.now) getters) }
{
    let mut getters = BTreeMap::new(alloc);
    for (at, seen) in history.iter().enumerate() {
        note_getter(&mut getters, seen, at)?;
    }
    Ok(getters)
}

/// The event of a NEW, if no other of its value was sent.
fn only_new(seen: &Seen, sent: &Left) -> Option<Event>
    ensures { result ≡ specs.only_event is_new_reply sent.now seen.now }
{
    let Deed::Sent(reply) = &seen.deed else {
        return None;
    };
    let event = reply.event.unpack();
    if event.op == Op::New && count_left(sent, &event) == 1 {
        Some(event)
    } else {
        None
    }
}

/// The event of a FORWARD, if no other of its value was sent.
fn only_forward(seen: &Seen, sent: &Left) -> Option<Event>
    ensures { result ≡ specs.only_event is_forward_reply sent.now seen.now }
{
    let Deed::Sent(reply) = &seen.deed else {
        return None;
    };
    let event = reply.event.unpack();
    if event.op == Op::Forward && count_left(sent, &event) == 1 {
        Some(event)
    } else {
        None
    }
}

/// The queue's kind; one that isn't there keeps no order.
fn kind_of(shape: &Shape, queue: usize) -> Kind
    ensures { result ≡ (queue_of shape.now queue).kind }
{
    if queue < shape.queues().len() {
        shape.queues()[queue].kind
    } else {
        Kind::Parallel
    }
}

/// With which others the event's queue keeps it in order.
fn order_of(shape: &Shape, event: &Event) -> Option<KeptOrder>
    ensures { result ≡ specs.order_of shape.now event.now }
{
    let flow = match kind_of(shape, usize::from(event.queue)) {
        Kind::Atomic => Some(event.flow),
        Kind::Ordered => None,
        Kind::Parallel => return None,
    };
    Some(KeptOrder {
        queue: event.queue,
        level: event.level(),
        flow,
    })
}

fn stream_of(sender: usize, origin: Option<KeptOrder>, kept: KeptOrder) -> Stream
    ensures { result ≡ specs.stream_of sender origin kept }
{
    Stream {
        sender,
        origin,
        kept,
        receiver: None,
    }
}

impl Stream {
    /// Of its events those that the port got.
    pub(crate) fn of_port(self, port: usize) -> Stream
        ensures { result ≡ specs.of_port self port }
    {
        Stream {
            receiver: Some(port),
            ..self
        }
    }
}

impl Tables {
    /// Of a history that is judged, in which no value was got more often than it was sent.
    pub(crate) fn new(alloc: Global, shape: &Shape, history: &[Seen]) -> Result<Tables, Memory>
        requires ports { is_flows shape.now.serving ≡ false }
        requires known { (i : ℕ) → ¬ IsUnknown (length shape.now.ports) history.now i }
        requires sorted { (i : ℕ) → ¬ IsUnsorted history.now i }
        requires sent { (i : ℕ) → ¬ IsExcess history.now i }
        ensures { IfOk result (λ tables. AreReady shape.now history.now tables) }
    {
        let sent = all_sent(alloc, history)?;
        let getters = all_getters(alloc, history)?;
        let answers = all_answers(alloc, port_count(shape), history)?;
        Ok(Tables {
            sent,
            getters,
            answers,
        })
    }

    /// Who got the event, where its queue keeps an order.
    fn arrival(
        &self,
        shape: &Shape,
        sender: usize,
        origin: Option<KeptOrder>,
        event: &Event,
    ) -> Option<Arrival>
        ensures { result ≡ specs.arrival_of shape.now self.now.getters sender origin event.now }
    {
        let kept = order_of(shape, event)?;
        let getter = getter_of(&self.getters, event)?;
        Some(Arrival {
            stream: stream_of(sender, origin, kept),
            getter,
        })
    }

    /// The NEW itself, where its queue keeps an order and it came.
    fn itself(&self, shape: &Shape, history: &[Seen], at: usize) -> Option<Arrival>
        requires place { at < length history.now }
        requires ready { AreReady shape.now history.now self.now }
        ensures some { IfSome result (λ x. IsSentTo shape.now history.now at x) }
        ensures none { IfNone result ((x : ArrivalValue) → ¬ IsSentTo shape.now history.now at x) }
    {
        let _count = history.len();
        let seen = &history[at];
        let event = only_new(seen, &self.sent)?;
        self.arrival(shape, seen.port, None, &event)
    }

    /// What the NEW was forwarded as, where both queues keep an order and it came.
    fn forwarded(&self, shape: &Shape, history: &[Seen], at: usize) -> Option<Arrival>
        requires place { at < length history.now }
        requires ready { AreReady shape.now history.now self.now }
        ensures some { IfSome result (λ x. IsForwardedTo shape.now history.now at x) }
        ensures none { IfNone result ((x : ArrivalValue) → ¬ IsForwardedTo shape.now history.now at x) }
    {
        let _count = history.len();
        let seen = &history[at];
        let event = only_new(seen, &self.sent)?;
        let origin = order_of(shape, &event)?;
        let holder = getter_of(&self.getters, &event)?;
        let answer = self.answers[holder]?;
        let onward = only_forward(&history[answer], &self.sent)?;
        self.arrival(shape, seen.port, Some(origin), &onward)
    }

    /// What came of the entry's NEW.
    pub(crate) fn comes(
        &self,
        shape: &Shape,
        history: &[Seen],
        course: Course,
        at: usize,
    ) -> Option<Arrival>
        requires place { at < length history.now }
        requires ready { AreReady shape.now history.now self.now }
        ensures some { IfSome result (λ x. Comes shape.now history.now course at x) }
        ensures none { IfNone result ((x : ArrivalValue) → ¬ Comes shape.now history.now course at x) }
    {
        match course {
            Course::Itself => self.itself(shape, history, at),
            Course::Forwarded => self.forwarded(shape, history, at),
        }
    }
}
