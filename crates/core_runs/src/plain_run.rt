//! The plain core, put through the same moves.

use crate::device::Device;
use crate::fault::RunFault;
use crate::moves::{Made, Move, Packet};
use core_oracle::{PlainCore, PlainSkips};
use std::alloc::{AllocError, Global};

/// A plain core, and what its sweep passes over.
#[derive(Drop)]
pub(crate) struct PlainRun {
    alloc: Global,
    pub(crate) core: PlainCore,
    skips: PlainSkips,
}

impl PlainRun {
    /// A core in which nothing has happened.
    pub(crate) fn new(alloc: Global, device: &Device) -> Result<PlainRun, RunFault> {
        Ok(PlainRun {
            alloc,
            core: PlainCore::new(alloc, device.shape(alloc)?)?,
            skips: PlainSkips::none(alloc),
        })
    }

    /// What comes of a move.
    pub(crate) fn make(&mut self, step: Move) -> Result<Made, RunFault> {
        match step {
            Move::Reply { lane, packet } => Ok(Made::Took(self.core.take(lane, packet.event())?)),
            Move::Replies {
                lane,
                packet,
                count,
            } => self.take_row(lane, packet, count),
            // The plain core gives one event at a time: what a run goes on with is asked of it one by one.
            Move::Give { .. } => Ok(self.give()?),
            Move::Bounce => Ok(self.bounce()?),
            Move::Shut => {
                self.core.shut()?;
                Ok(Made::Nothing)
            }
            Move::NextSweep => {
                self.skips = PlainSkips::none(self.alloc);
                Ok(Made::Nothing)
            }
        }
    }

    /// Takes so many replies one by one, of one flow after the other, up to the first that may not be taken.
    fn take_row(&mut self, lane: usize, first: Packet, count: usize) -> Result<Made, RunFault> {
        for index in 0..count {
            let packet = first.of_flow(first.flow.wrapping_add((index & 0xff) as u8));
            if self.core.take(lane, packet.event())?.is_none() {
                return Ok(Made::TookRow(index));
            }
        }
        Ok(Made::TookRow(count))
    }

    /// Gives what is proposed.
    pub(crate) fn give(&mut self) -> Result<Made, AllocError> {
        let proposed = self.core.propose(&self.skips);
        if let Some(offer) = proposed {
            self.core.give(offer)?;
            self.skips.given(offer.queue)?;
        }
        Ok(Made::Gave(proposed))
    }

    /// The lane of what is proposed has no room.
    fn bounce(&mut self) -> Result<Made, AllocError> {
        let proposed = self.core.propose(&self.skips);
        if let Some(offer) = proposed {
            self.core.bounce(offer.lane)?;
            self.skips.bounced(offer.lane)?;
        }
        Ok(Made::Bounced(proposed))
    }
}
