//! The choice of the event that is given next, and of its lane.

ghost use Rattle.std.specs.Prelude.{◌<◌};

use crate::offer::PlainOffer;
use crate::skips::PlainSkips;
use crate::state::{LEVELS, PlainCore};
use evt_types::{FLOW_DEPTH, FlowLane, Numbered, PortDraft, QueueDraft, Serving};

/// Whether the port is linked to the queue.
fn is_linked(port: &PortDraft, queue: usize) -> bool {
    port.links.iter().any(|link| *link as usize == queue)
}

impl PlainCore {
    /// What is given next in a sweep that passes over so much: of the queues that have something to give, the first by priority
    /// and number gives.
    pub fn propose(&self, skips: &PlainSkips) -> Option<PlainOffer> {
        (0..self.waiting.len())
            .filter_map(|queue| self.offer_of(queue, skips))
            .min_by_key(|offer| self.priority(offer.queue))
    }

    /// The queue's priority. The lowest is served first.
    fn priority(&self, queue: usize) -> u8 {
        self.queue(queue).map_or(0, |draft| draft.priority)
    }

    /// What the queue gives next: of its levels the first that has something to give gives. Once the queue has used up its
    /// quantum, it gives nothing more in this sweep.
    fn offer_of(&self, queue: usize, skips: &PlainSkips) -> Option<PlainOffer> {
        if skips.given_len(queue) >= self.shape.sweep() as usize {
            return None;
        }
        for level in 0..LEVELS {
            let offer = self.offer_in(queue, level, skips);
            if offer.is_some() {
                return offer;
            }
        }
        None
    }

    /// What the queue's level gives next: its oldest event that some lane may be given.
    fn offer_in(&self, queue: usize, level: usize, skips: &PlainSkips) -> Option<PlainOffer>
        requires { level < LEVELS }
    {
        let levels = self.waiting.get(queue)?;
        for place in 0..levels.len(level) {
            let offer = self.offer_for(queue, levels.at(level, place)?, skips);
            if offer.is_some() {
                return offer;
            }
        }
        None
    }

    /// The queue's event, and the lane that it goes to: of those that may be given it and refused no delivery in this sweep, the
    /// first of those with the fewest unanswered events.
    fn offer_for(
        &self,
        queue: usize,
        waiting: &Numbered,
        skips: &PlainSkips,
    ) -> Option<PlainOffer> {
        let draft = self.queue(queue)?;
        let (number, event) = (waiting.number, waiting.event.unpack());
        (0..self.shape.lanes())
            .map(|lane| PlainOffer {
                lane,
                queue,
                number,
                event,
            })
            .filter(|offer| !skips.has_bounced(offer.lane) && self.may_give(offer, &draft))
            .min_by_key(|offer| self.load(offer.lane))
    }

    /// Whether the event may be given to the lane: the lane serves it and holds fewer events than it may, an ordered queue
    /// has room for one more open event, and of an atomic queue no other lane has an event of the same slot.
    fn may_give(&self, offer: &PlainOffer, draft: &QueueDraft) -> bool {
        let is_ordered = draft.kind.is_ordered();
        let is_atomic = draft.kind.is_atomic();
        self.serves(offer, draft)
            && self.load(offer.lane) < self.depth(offer.lane)
            && (!is_ordered || self.open_len(offer.queue) < draft.order as usize)
            && (!is_atomic || self.is_alone(offer, draft.slots))
    }

    /// Whether the lane serves the event. A port's lane serves what the port is linked to, save the atomic queues whose slots
    /// have flow lanes; each of these lanes serves its slot.
    fn serves(&self, offer: &PlainOffer, draft: &QueueDraft) -> bool {
        let has_flow_lanes = self.shape.serving() == Serving::Flows && draft.kind.is_atomic();
        match self.shape.ports().get(offer.lane) {
            Some(port) => is_linked(port, offer.queue) && !has_flow_lanes,
            None => has_flow_lanes && self.is_of_flow_lane(offer, draft.slots),
        }
    }

    /// Whether the event is one of the flow lane's slot, of so many.
    fn is_of_flow_lane(&self, offer: &PlainOffer, slots: u32) -> bool {
        let slot = offer.event.flow.checked_rem(slots);
        let flow = self.flow_lane(offer.lane);
        flow.is_some_and(|flow| {
            flow.queue == offer.queue && slot.is_some_and(|slot| slot as usize == flow.slot)
        })
    }

    /// The flow lane of this number. They come after the ports' lanes.
    fn flow_lane(&self, lane: usize) -> Option<FlowLane> {
        let place = lane.checked_sub(self.shape.ports().len())?;
        self.shape.flows().get(place).copied()
    }

    /// How many events the lane may hold.
    fn depth(&self, lane: usize) -> usize {
        match self.shape.ports().get(lane) {
            Some(port) => port.depth as usize,
            None => FLOW_DEPTH as usize,
        }
    }

    /// How many unanswered events the lane has.
    fn load(&self, lane: usize) -> usize {
        self.handed
            .iter()
            .filter(|out| out.lane == lane && !out.is_answered)
            .count()
    }

    /// Whether no other lane has an unanswered event of the same one of so many slots.
    fn is_alone(&self, offer: &PlainOffer, slots: u32) -> bool {
        let slot = offer.event.flow.checked_rem(slots);
        self.handed
            .iter()
            .filter(|out| out.queue == offer.queue && out.lane != offer.lane)
            .all(|out| out.is_answered || out.event.flow.checked_rem(slots) != slot)
    }
}
