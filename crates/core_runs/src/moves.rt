//! The moves that a core is put through, and what comes of them.

use core_oracle::{PlainOffer, PlainTook};
use evt_types::{Event, Op};

/// What a table or a drawing says of an event. All else of it is 0.
#[derive(Clone, Copy, Debug, PartialEq, Eq)]
pub(crate) struct Packet {
    pub(crate) op: Op,
    pub(crate) queue: u8,
    pub(crate) flow: u8,
    pub(crate) priority: u8,
    pub(crate) payload: u64,
}

impl Packet {
    /// One that differs in its flow alone.
    pub(crate) fn of_flow(&self, flow: u8) -> Packet {
        Packet { flow, ..*self }
    }

    /// The event.
    pub(crate) fn event(&self) -> Event {
        Event {
            op: self.op,
            queue: self.queue,
            flow: u32::from(self.flow),
            priority: self.priority,
            payload: self.payload,
            sub_type: 0,
            event_type: 0,
            impl_opaque: 0,
        }
    }
}

/// What is done with a core.
#[derive(Clone, Copy, Debug, PartialEq, Eq)]
pub(crate) enum Move {
    /// A reply of the lane comes.
    Reply {
        lane: usize,
        packet: Packet,
    },
    /// So many replies of the lane come that are alike but for their flows, the first of which is this one.
    Replies {
        lane: usize,
        packet: Packet,
        count: usize,
    },
    /// What is proposed is given, and with it what is chosen after it: so many events at most.
    Give {
        most: usize,
    },
    /// What is proposed finds no room in the lane's ring.
    Bounce,
    /// New events are turned away from now on.
    Shut,
    /// A sweep begins, in which nothing is passed over yet.
    NextSweep,
}

impl Move {
    /// The same move, of as many replies as were taken.
    pub(crate) fn with_count(self, made: Made) -> Move {
        match (self, made) {
            (Move::Replies { lane, packet, .. }, Made::TookRow(count)) => Move::Replies {
                lane,
                packet,
                count,
            },
            _ => self,
        }
    }

    /// The lane beside whose oldest event an event comes to be added, if that is what is done.
    pub(crate) fn adds_on(&self) -> Option<usize> {
        match *self {
            Move::Reply { lane, packet } if packet.op == Op::ForwardMore => Some(lane),
            _ => None,
        }
    }
}

/// What comes of a move, in the plain core's words.
#[derive(Clone, Copy, Debug, PartialEq, Eq)]
pub(crate) enum Made {
    /// What became of a reply, where it may be taken.
    Took(Option<PlainTook>),
    /// So many of the replies were taken, from the first on.
    TookRow(usize),
    /// What was given first.
    Gave(Option<PlainOffer>),
    /// What found no room in the lane's ring.
    Bounced(Option<PlainOffer>),
    /// Nothing that is told.
    Nothing,
}
