//! Events in 16 bytes.

ghost use Rattle.std.specs.Prelude.{◌≡◌, ◌%◌, ◌/◌, ◌<◌, ◌^◌};

use crate::code::kind_code;
use crate::event::{Event, Kind, LEVEL_PRIORITIES, Op};
use crate::word::{bits, op_of};
use std::marker::Model;

/// An event in 16 bytes, as DPDK's `rte_event` has it: the event word, without a scheduling type, and the payload. In contracts it is
/// the event.
#[derive(Clone, Copy, Debug, PartialEq, Eq)]
pub struct PackedEvent {
    word: u64,
    payload: u64,
}

impl Model for PackedEvent {
    ghost use Rattle.std.specs.Prelude.{◌≡◌, ◌<◌, ◌^◌};
    ghost use Rattle.evt_types.specs.declared.event.Event.{Event as EventValue};

    ghost Value = { EventValue };

    ghost use Rattle.evt_types.specs.Packed.{event_in, inside_of, spare, words_back};

    ghost view = { event_in };

    ghost invariant = { λ a. (a.word < 2 ^ 64) × (spare a.word ≡ 0) };

    ghost inverse = { inside_of };

    ghost inverse_ok = { λ a h. words_back a h.0 h.1 };
}

impl PackedEvent {
    ghost use Rattle.std.specs.Prelude.{◌≡◌, ◌+◌, ◌*◌, ◌/◌, ◌%◌, ◌^◌};
    ghost use Rattle.evt_types.specs.Event.{forwarded_event, release_event};
    ghost use Rattle.evt_types.specs.Operation.{is_new_op};
    ghost use Rattle.evt_types.specs.Plan.{level_of};
    ghost use Rattle.evt_types.specs.declared.event.Op.TheVariants as ops;
    ghost use Rattle.evt_types.specs.Packed.{spare};
    ghost use Rattle.evt_types.specs.Word.{Fits, word_of};
    ghost use Rattle.evt_types.specs.declared.event.Kind.TheVariants.{Ordered};

    /// The event.
    #[inline(always)]
    pub fn of(event: &Event) -> PackedEvent
        ensures { result ≡ event.now }
    {
        // The reads make the fields' ranges known.
        let (_sub_type, _queue) = (event.sub_type, event.queue);
        let (_priority, _impl_opaque) = (event.priority, event.impl_opaque);
        PackedEvent {
            word: event.word(Kind::Ordered),
            payload: event.payload,
        }
    }

    /// The event of a word and a payload. What the word has as scheduling type and in the reserved bits isn't judged.
    #[inline(always)]
    pub fn of_words(word: u64, payload: u64) -> PackedEvent
        ensures word { word ≡ word_of result Ordered + 2 ^ 34 * spare word }
        ensures payload { result.payload ≡ payload }
        ensures fits { Fits result }
    {
        PackedEvent {
            word: word - (bits(word, 34, 6) << 34),
            payload,
        }
    }

    /// The event by which a port releases of its own accord; only its operation counts.
    #[inline(always)]
    pub fn release() -> PackedEvent
        ensures { result ≡ release_event }
    {
        PackedEvent::of(&Event::release())
    }

    /// The event that the holder of this one forwards to the queue, with this payload; all else of it stays.
    #[inline(always)]
    pub fn forwarded(&self, queue: u8, payload: u64) -> PackedEvent
        ensures { result ≡ forwarded_event self.now queue payload }
    {
        PackedEvent::of(&self.unpack().forwarded(queue, payload))
    }

    /// The event as a FORWARD of it.
    #[inline(always)]
    pub fn to_forward(&self) -> PackedEvent
        ensures { result ≡ record self.now { op = ops.Forward } }
    {
        PackedEvent {
            word: self.word - (bits(self.word, 32, 2) << 32) + (1 << 32),
            payload: self.payload,
        }
    }

    /// The event with its fields.
    #[inline(always)]
    pub fn unpack(&self) -> Event
        ensures { result ≡ self.now }
    {
        Event {
            flow: self.flow(),
            sub_type: bits(self.word, 20, 8) as u8,
            event_type: bits(self.word, 28, 4) as u8,
            op: self.op(),
            queue: self.queue(),
            priority: self.priority(),
            impl_opaque: self.impl_opaque(),
            payload: self.payload,
        }
    }

    #[inline(always)]
    pub fn flow(&self) -> u32
        ensures { result ≡ self.now.flow }
    {
        bits(self.word, 0, 20) as u32
    }

    /// From the lowest bit up: flow (20 bits), sub type (8), event type (4).
    #[inline(always)]
    pub fn flow_and_types(&self) -> u32
        ensures { result ≡ self.now.flow + 2 ^ 20 * (self.now.sub_type + 2 ^ 8 * self.now.event_type) }
    {
        bits(self.word, 0, 32) as u32
    }

    /// Whether it brings an event in. Of four operations that one is told first, by a test of two bits; a `match` of all four is
    /// compiled to a table of jumps.
    #[inline(always)]
    pub fn is_new(&self) -> bool
        ensures { result ≡ is_new_op self.now.op }
    {
        bits(self.word, 32, 2) == 0
    }

    #[inline(always)]
    pub fn op(&self) -> Op
        ensures { result ≡ self.now.op }
    {
        op_of(bits(self.word, 32, 2) as u8)
    }

    #[inline(always)]
    pub fn queue(&self) -> u8
        ensures { result ≡ self.now.queue }
    {
        bits(self.word, 40, 8) as u8
    }

    #[inline(always)]
    pub fn priority(&self) -> u8
        ensures { result ≡ self.now.priority }
    {
        bits(self.word, 48, 8) as u8
    }

    #[inline(always)]
    pub fn impl_opaque(&self) -> u8
        ensures { result ≡ self.now.impl_opaque }
    {
        bits(self.word, 56, 8) as u8
    }

    #[inline(always)]
    pub fn payload(&self) -> u64
        ensures { result ≡ self.now.payload }
    {
        self.payload
    }

    /// The level at which it is served, from 0 for the first to 3.
    #[inline(always)]
    pub fn level(&self) -> usize
        ensures value { result ≡ level_of self.now }
        ensures few { result < 4 }
    {
        usize::from(self.priority() / LEVEL_PRIORITIES)
    }

    /// The event and its queue's scheduling type in 64 bits.
    #[inline(always)]
    pub fn word(&self, kind: Kind) -> u64
        ensures value { result ≡ word_of self.now kind }
        ensures fits { Fits self.now }
    {
        self.word + (u64::from(kind_code(kind)) << 38)
    }
}

impl Default for PackedEvent {
    ghost use Rattle.evt_types.specs.Event.{IsEvent};
    ghost use Rattle.evt_types.specs.declared.event.Op.TheVariants as ops;

    ghost is_default = { λ e. IsEvent e 0 0 0 ops.New 0 0 0 };

    fn default() -> PackedEvent {
        PackedEvent {
            word: 0,
            payload: 0,
        }
    }
}
