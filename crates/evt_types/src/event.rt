//! Events, and what carries them between the ports and the scheduler.

ghost use Rattle.std.specs.Prelude.{◌≡◌, ℕ, ◌<◌, ◌^◌};

use crate::code::{kind_code, op_code};
use crate::packed::PackedEvent;
use std::marker::Model;
use thiserror::Error;

/// How many flows there are.
pub const MAX_FLOWS: u32 = 1 << 20;
/// How many event types there are.
pub const MAX_EVENT_TYPES: u8 = 16;
/// How many events may be added beside one that is held.
pub const MAX_EXTRAS: usize = 4;
/// How many events an event may be passed on as: those that were added beside it, and its FORWARD.
pub const MAX_FORWARDS: usize = MAX_EXTRAS + 1;
/// How many priorities a level has.
pub(crate) const LEVEL_PRIORITIES: u8 = 64;

/// What a port asks of the device with an event.
#[derive(Clone, Copy, Debug, PartialEq, Eq)]
pub enum Op {
    /// Brings an event into the device.
    New,
    /// Passes the oldest event that the port holds on to a queue.
    Forward,
    /// Ends the handling of the oldest event that the port holds.
    Release,
    /// Adds an event beside the oldest event that the port holds, which stays held. It costs a credit, as a NEW does; what was added
    /// goes to its queue where that event's FORWARD goes, or would go, and before it.
    ForwardMore,
}

/// The scheduling type of a queue.
#[derive(Clone, Copy, Debug, PartialEq, Eq)]
pub enum Kind {
    /// Events go to several ports at once, and their forwards leave in the order of the hand-out.
    Ordered,
    /// The events of a flow go to one port at a time, in order.
    Atomic,
    /// Events go to several ports at once, in no order.
    Parallel,
}

impl Kind {
    ghost use Rattle.std.specs.Prelude.{◌≡◌};
    ghost use Rattle.evt_types.specs.Plan as plans;

    /// Whether it is `Atomic`.
    pub fn is_atomic(self) -> bool
        ensures { result ≡ plans.is_atomic self }
    {
        match self {
            Kind::Atomic => true,
            Kind::Ordered | Kind::Parallel => false,
        }
    }

    /// Whether it is `Ordered`.
    pub fn is_ordered(self) -> bool
        ensures { result ≡ plans.is_ordered self }
    {
        match self {
            Kind::Ordered => true,
            Kind::Atomic | Kind::Parallel => false,
        }
    }
}

/// An event. `flow` is below 2^20, `event_type` below 16; `priority` is 0 for the highest and 255 for the lowest.
#[derive(Clone, Copy, Debug, PartialEq, Eq)]
pub struct Event {
    pub flow: u32,
    pub sub_type: u8,
    pub event_type: u8,
    pub op: Op,
    pub queue: u8,
    pub priority: u8,
    pub impl_opaque: u8,
    pub payload: u64,
    pub ghost flow_fits: { flow < 2 ^ 20 },
    pub ghost event_type_fits: { event_type < 16 },
}

impl Event {
    ghost use Rattle.std.specs.Prelude.{◌≡◌, ◌<◌, ◌≤◌, ◌^◌, ◌↔◌, IfOk};
    ghost use Rattle.evt_types.specs.Event.{IsEvent, forwarded_event, release_event};
    ghost use Rattle.evt_types.specs.Plan.{level_of};
    ghost use Rattle.evt_types.specs.Word.{word_of};

    /// Makes an event whose `impl_opaque` is 0.
    pub fn new(
        flow: u32,
        sub_type: u8,
        event_type: u8,
        op: Op,
        queue: u8,
        priority: u8,
        payload: u64,
    ) -> Result<Event, EventFault>
        ensures ok { IfOk result (λ e. IsEvent e flow sub_type event_type op queue priority payload) }
        ensures flow { (result ≡ Err EventFault.FlowTooLarge) ↔ (2 ^ 20 ≤ flow) }
        ensures event_type { (result ≡ Err EventFault.EventTypeTooLarge) ↔ ((flow < 2 ^ 20) × (16 ≤ event_type)) }
    {
        if flow >= MAX_FLOWS {
            return Err(EventFault::FlowTooLarge);
        }
        if event_type >= MAX_EVENT_TYPES {
            return Err(EventFault::EventTypeTooLarge);
        }
        Ok(Event {
            flow,
            sub_type,
            event_type,
            op,
            queue,
            priority,
            impl_opaque: 0,
            payload,
        })
    }

    /// The event by which a port releases of its own accord; only its operation counts.
    pub fn release() -> Event
        ensures { result ≡ release_event }
    {
        Event {
            flow: 0,
            sub_type: 0,
            event_type: 0,
            op: Op::Release,
            queue: 0,
            priority: 0,
            impl_opaque: 0,
            payload: 0,
        }
    }

    /// The event that the holder of this one forwards to the queue, with this payload; all else of it stays.
    pub fn forwarded(&self, queue: u8, payload: u64) -> Event
        ensures { result ≡ forwarded_event self.now queue payload }
    {
        Event {
            flow: self.flow,
            sub_type: self.sub_type,
            event_type: self.event_type,
            op: Op::Forward,
            queue,
            priority: self.priority,
            impl_opaque: self.impl_opaque,
            payload,
        }
    }

    /// The level at which it is served, from 0 for the first to 3.
    pub fn level(&self) -> usize
        ensures { result ≡ level_of self.now }
    {
        usize::from(self.priority / LEVEL_PRIORITIES)
    }

    /// The event and its queue's scheduling type in 64 bits.
    #[inline(always)]
    pub fn word(&self, kind: Kind) -> u64
        ensures { result ≡ word_of self.now kind }
    {
        let (flow, sub_type, event_type) = (self.flow, self.sub_type, self.event_type);
        let (queue, priority, impl_opaque) = (self.queue, self.priority, self.impl_opaque);
        let op = u64::from(op_code(self.op));
        let kind = u64::from(kind_code(kind));
        u64::from(flow)
            + (u64::from(sub_type) << 20)
            + (u64::from(event_type) << 28)
            + (op << 32)
            + (kind << 38)
            + (u64::from(queue) << 40)
            + (u64::from(priority) << 48)
            + (u64::from(impl_opaque) << 56)
    }
}

impl Default for Event {
    ghost use Rattle.evt_types.specs.Event.{IsEvent};
    ghost use Rattle.evt_types.specs.declared.event.Op.TheVariants as ops;

    ghost is_default = { λ e. IsEvent e 0 0 0 ops.New 0 0 0 };

    fn default() -> Event {
        Event {
            flow: 0,
            sub_type: 0,
            event_type: 0,
            op: Op::New,
            queue: 0,
            priority: 0,
            impl_opaque: 0,
            payload: 0,
        }
    }
}

/// An event of a queue on its way to a port: its number counts the events that the queue accepted, from 0. While it is held it is
/// known by the pair of queue and number. The queue is the one that the event names, so that 24 bytes are enough.
#[derive(Clone, Copy, Debug, PartialEq, Eq, Default)]
pub struct Delivery {
    event: PackedEvent,
    number: u64,
}

impl Model for Delivery {
    ghost use Rattle.evt_types.specs.Delivered.{Delivered};

    ghost Value = { Delivered };

    ghost use Rattle.evt_types.specs.Deliveries.{delivery_in, inside_of};

    ghost view = { delivery_in };

    ghost inverse = { inside_of };
}

impl Delivery {
    ghost use Rattle.std.specs.Prelude.{◌≡◌};
    ghost use Rattle.evt_types.specs.Delivered.{delivered};

    /// The event of this number of the queue that it names.
    #[inline(always)]
    pub fn new(event: PackedEvent, number: u64) -> Delivery
        ensures { result ≡ delivered event number }
    {
        Delivery { event, number }
    }

    /// The event with its fields.
    #[inline(always)]
    pub fn event(&self) -> Event
        ensures { result ≡ self.now.event }
    {
        self.event.unpack()
    }

    /// The event in 16 bytes.
    #[inline(always)]
    pub fn packed(&self) -> PackedEvent
        ensures { result ≡ self.now.event }
    {
        self.event
    }

    /// The queue that accepted it.
    #[inline(always)]
    pub fn queue(&self) -> usize
        ensures { result ≡ self.now.queue }
    {
        usize::from(self.event.queue())
    }

    #[inline(always)]
    pub fn number(&self) -> u64
        ensures { result ≡ self.now.number }
    {
        self.number
    }
}

/// An event on its way from a port to the scheduler.
#[derive(Clone, Copy, Debug, PartialEq, Eq, Default)]
pub struct Reply {
    pub event: PackedEvent,
}

/// An event with its number in its queue.
#[derive(Clone, Copy, Debug, PartialEq, Eq)]
pub struct Numbered {
    pub number: u64,
    pub event: PackedEvent,
}

/// An event that an ordered queue keeps until all before it is answered, with the queue and the number of the event that was
/// passed on as it.
#[derive(Clone, Copy, Debug, PartialEq, Eq)]
pub struct KeptEvent {
    pub queue: usize,
    pub number: u64,
    pub event: Event,
}

/// Why no event was made.
#[derive(Clone, Copy, Debug, PartialEq, Eq, Error)]
pub enum EventFault {
    /// The flow is 2^20 or more.
    #[error("the flow has more than 20 bits")]
    FlowTooLarge,
    /// The event type is 16 or more.
    #[error("the event type has more than 4 bits")]
    EventTypeTooLarge,
}
