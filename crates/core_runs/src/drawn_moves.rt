//! Moves that are drawn at random from a seed.

use crate::moves::{Move, Packet};
use crate::run::MAX_ROW;
use evt_types::Op;
use rand_core::utils::NextWord;
use rand_pcg::Pcg32;
use sched_core::MAX_RUN;

/// What is drawn from for a device with so many ports, lanes and queues, and events of so many flows.
#[derive(Clone, Copy)]
pub(crate) struct Counts {
    pub(crate) ports: usize,
    pub(crate) lanes: usize,
    pub(crate) queues: usize,
    pub(crate) flows: usize,
}

/// The moves of a seed.
#[derive(Drop)]
pub(crate) struct Drawing {
    random: Pcg32,
    counts: Counts,
    /// The lane of the last reply, where that was a FORWARD_MORE.
    adding: Option<usize>,
    /// Whether events were given last.
    gave: bool,
}

impl Drawing {
    /// Moves from a seed.
    pub(crate) fn new(seed: u64, counts: Counts) -> Drawing {
        Drawing {
            random: Pcg32::new(seed, 54),
            counts,
            adding: None,
            gave: false,
        }
    }

    /// A number below the count, where there is one.
    pub(crate) fn below(&mut self, count: usize) -> usize {
        let word: u32 = self.random.next_word();
        if count == 0 { 0 } else { word as usize % count }
    }

    /// A number below the count, which is 256 at most.
    fn byte_below(&mut self, count: usize) -> u8 {
        (self.below(count) & 0xff) as u8
    }

    /// An event of one of the flows, of any priority, mostly for a queue that is there.
    fn packet(&mut self, op: Op) -> Packet {
        let Counts { queues, flows, .. } = self.counts;
        let is_there = self.below(20) != 0;
        let queue = if is_there {
            self.byte_below(queues)
        } else {
            255
        };
        let flow = self.byte_below(flows);
        let priority = self.byte_below(256);
        let payload = self.below(1000) as u64;
        Packet {
            op,
            queue,
            flow,
            priority,
            payload,
        }
    }

    /// The operation of a reply: mostly one that answers.
    fn op(&mut self) -> Op {
        match self.below(14) {
            0..4 => Op::New,
            4..9 => Op::Forward,
            9..13 => Op::Release,
            _ => Op::ForwardMore,
        }
    }

    /// The lane of a reply: a port's own where the reply is a new event, any where it is not.
    fn lane(&mut self, op: Op) -> usize {
        let Counts { ports, lanes, .. } = self.counts;
        match op {
            Op::New => self.below(ports),
            Op::Forward | Op::Release | Op::ForwardMore => self.below(lanes),
        }
    }

    /// The operation and the lane of a reply. After a FORWARD_MORE another one of its lane comes mostly, so that several are added
    /// beside an event.
    fn op_and_lane(&mut self) -> (Op, usize) {
        let adds_again = self.below(5) != 0;
        match self.adding {
            Some(lane) if adds_again => (Op::ForwardMore, lane),
            _ => {
                let op = self.op();
                (op, self.lane(op))
            }
        }
    }

    /// A reply.
    fn reply(&mut self) -> Move {
        let (op, lane) = self.op_and_lane();
        self.adding = if op == Op::ForwardMore {
            Some(lane)
        } else {
            None
        };
        let packet = self.packet(op);
        Move::Reply { lane, packet }
    }

    /// Replies that are alike, of an operation that goes in rows.
    fn replies(&mut self) -> Move {
        let op = match self.below(4) {
            0 => Op::New,
            1..3 => Op::Forward,
            _ => Op::Release,
        };
        let lane = self.lane(op);
        let packet = self.packet(op);
        let count = self.below(MAX_ROW - 1).saturating_add(2);
        Move::Replies {
            lane,
            packet,
            count,
        }
    }

    /// Events to be given, to a lane that has room for so many: mostly for few.
    fn give(&mut self) -> Move {
        let most = match self.below(4) {
            0 => 1,
            1..3 => 2,
            _ => MAX_RUN,
        };
        Move::Give { most }
    }

    /// A move: mostly a reply, several that are alike, or events to be given; late in the run a shut now and then. Where events were given more are given
    /// often, so that a run follows another as in a sweep.
    pub(crate) fn next(&mut self, is_late: bool) -> Move {
        let gives_again = self.gave && self.below(3) == 0;
        let step = match self.below(1000) {
            0..10 if is_late => Move::Shut,
            0..50 => Move::Bounce,
            _ if gives_again => self.give(),
            50..230 => self.give(),
            230..420 => self.replies(),
            _ => self.reply(),
        };
        self.gave = matches!(step, Move::Give { .. });
        step
    }
}
