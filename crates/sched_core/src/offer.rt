//! What the core proposes to give.

ghost use Rattle.std.specs.Prelude.{◌≡◌};
ghost use Rattle.evt_types.specs.Plan.{level_of};
ghost use Rattle.sched_core.specs.Offered.{numbered_in};

use evt_types::{Delivery, Numbered};
use parked_queue::{Found, Level};

/// An event that may be given to a lane.
#[derive(Clone, Copy)]
pub struct Offer {
    pub lane: usize,
    pub delivery: Delivery,
    /// The event's level and its slot, so that the event itself is only copied whole where it is given.
    pub(crate) level: Level,
    pub(crate) slot: usize,
    ghost level_is: { level.number ≡ level_of delivery.event },
}

/// A delivery's event with its number.
#[inline(always)]
pub(crate) fn numbered(delivery: &Delivery) -> Numbered
    ensures { result ≡ numbered_in delivery.now }
{
    Numbered {
        number: delivery.number(),
        event: delivery.packed(),
    }
}

impl Offer {
    /// The event that was found at the level of its queue, for the lane.
    #[inline(always)]
    pub(crate) fn of(level: Level, lane: usize, found: Found) -> Offer
        requires { level.number ≡ level_of found.waiting.event }
        ensures lane { result.lane ≡ lane }
        ensures queue { result.delivery.queue ≡ found.waiting.event.queue }
        ensures event { numbered_in result.delivery ≡ found.waiting }
        ensures slot { result.slot ≡ found.slot }
    {
        let Found { slot, waiting, .. } = found;
        let Numbered { number, event } = waiting;
        Offer {
            lane,
            delivery: Delivery::new(event, number),
            level,
            slot,
        }
    }
}
