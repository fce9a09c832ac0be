//! Lawful transcripts that are drawn at random from a seed: what a plain core logs.

use crate::fault::RunFault;
use core_oracle::{PlainCore, PlainSkips};
use evt_types::{Event, Op, Shape, Step};
use rand_core::utils::NextWord;
use rand_pcg::Pcg32;
use std::alloc::Global;

/// What is drawn from a seed.
#[derive(Drop)]
pub(crate) struct Drawing {
    random: Pcg32,
}

impl Drawing {
    /// What is drawn from this seed.
    pub(crate) fn new(seed: u64) -> Drawing {
        Drawing {
            random: Pcg32::new(seed, 54),
        }
    }

    /// A number below the count, where there is one.
    pub(crate) fn below(&mut self, count: usize) -> usize {
        let word: u32 = self.random.next_word();
        if count == 0 { 0 } else { word as usize % count }
    }

    /// A number below the count, which is 256 at most.
    pub(crate) fn byte_below(&mut self, count: usize) -> u8 {
        (self.below(count) & 0xff) as u8
    }

    /// The operation of a reply.
    fn op(&mut self) -> Op {
        match self.below(14) {
            0..6 => Op::New,
            6..9 => Op::Forward,
            9..12 => Op::Release,
            _ => Op::ForwardMore,
        }
    }

    /// An event of one of few flows, of any priority, for one of so many queues.
    fn event(&mut self, op: Op, queues: usize) -> Event {
        let queue = self.byte_below(queues);
        let flow = u32::from(self.byte_below(4));
        let priority = self.byte_below(256);
        let payload = self.below(1000) as u64;
        Event {
            op,
            queue,
            flow,
            priority,
            payload,
            sub_type: 0,
            event_type: 0,
            impl_opaque: 0,
        }
    }

    /// A reply is taken, if it may be.
    fn reply(&mut self, core: &mut PlainCore, lanes: usize, queues: usize) -> Result<(), RunFault> {
        let op = self.op();
        let lane = self.below(lanes);
        let event = self.event(op, queues);
        let _ = core.take(lane, event)?;
        Ok(())
    }

    /// An event is given, if one may be.
    fn give(&mut self, alloc: Global, core: &mut PlainCore) -> Result<(), RunFault> {
        let skips = PlainSkips::none(alloc);
        if let Some(offer) = core.propose(&skips) {
            core.give(offer)?;
        }
        Ok(())
    }

    /// A lawful transcript: the log of a core in which so many moves were made.
    pub(crate) fn transcript(
        &mut self,
        alloc: Global,
        shape: Shape,
        moves: usize,
    ) -> Result<Vec<Step>, RunFault> {
        let (lanes, queues) = (shape.lanes(), shape.queues().len());
        let mut core = PlainCore::new(alloc, shape)?;
        for _ in 0..moves {
            match self.below(100) {
                0..60 => self.reply(&mut core, lanes, queues)?,
                60..95 => self.give(alloc, &mut core)?,
                95..99 => core.bounce(self.below(lanes))?,
                _ => core.shut()?,
            }
        }
        Ok(Vec::from_slice(alloc, core.log())?)
    }
}
