//! All lanes of a port, and the order in which it dequeued from them.

ghost use Rattle.std.specs.Prelude.{◌≡◌, ◌≤◌, false, []};
ghost use Rattle.lane_rings.specs.Identity.{far_id};
ghost use Rattle.event_ports.specs.Holds.{AddedAll, AreIdle, HaveNoNew, GaveBack};
ghost use Rattle.event_ports.specs.Lanes.{AreOrdered, held_in};
ghost use Rattle.event_ports.specs.Flows.{flow_site, hands_of};

use crate::flows::FlowLanes;
use crate::held_ring::HeldRing;
use crate::lane::Lane;
use evt_types::{Op, PackedEvent, Reply};
use flow_claims::ClaimSeat;
use lane_rings::{Deliveries, Far, Refusal};

/// The lanes of a port: its own one, and the flow lanes. What was received and isn't answered is noted in the order of the
/// dequeues, where there are flow lanes; between two calls no flow lane is held of which nothing is unanswered.
#[derive(Drop)]
pub(crate) struct Lanes {
    own: Far,
    flows: FlowLanes,
    order: HeldRing,
    ghost depth: { (order.capacity ≡ (far_id own).depth) × (order.capacity ≤ 64) },
    ghost ordered: { AreOrdered own (hands_of flows) (held_in own order) },
    ghost gave_back: { GaveBack (hands_of flows) },
    ghost no_new: { HaveNoNew (hands_of flows) },
    ghost added: { AddedAll (hands_of flows) },
    ghost idle: { AreIdle (hands_of flows) },
    ghost noted: { order.notes ≡ false → (flow_site flows).links ≡ [] },
}

impl Lanes {
    ghost use Rattle.std.specs.Prelude.{◌≡◌, ◌≢◌, ℕ, ◌+◌, ◌<◌, ◌≤◌, ◌∷◌, All, true, length, map, take, count_by, Some, IfErr, MatchOption, MatchResult};
    ghost use Rattle.evt_types.specs.Additions.{extras_of};
    ghost use Rattle.evt_types.specs.Operation.{costs_credit, is_answer, is_more_reply, is_new_reply};
    ghost use Rattle.evt_types.specs.declared.event.Op.TheVariants as ops;
    ghost use Rattle.evt_types.specs.declared.event.TheConstants.{MAX_EXTRAS};
    ghost use Rattle.event_ports.specs.Lanes.{Rests, Submits, SubmitsTo, Arrives, ArrivesFrom, HasRoomFor, IsEmptyHand, IsEndOf, AreOf, TakesMore, extras_in, first_lane, lane_for, held_of, pair_in, reply_of};
    ghost use Rattle.event_ports.specs.Handed.{IsReadable, lanes_site, flow_count, links_of, flow_hands, seating_of, seen_own, hand_of, mores_of, news_of, releases_of, CountsOne, CountsNone, IsFilled, RefusesOldest, AnswersRow, BringsRow, OwnFirst};
    ghost use Rattle.lane_rings.specs.Ends.{received_by, answered, held_list, room_left};
    ghost use Rattle.evt_types.specs.declared.event.Reply.{Reply as ReplyValue};
    ghost use Rattle.evt_types.specs.declared.event.Op.{Op};
    ghost use Rattle.flow_claims.specs.Claims.{seating, port_of, IsSeatOf};
    ghost use Rattle.flow_claims.specs.Laws.{IsUnused};
    ghost use Rattle.flow_claims.specs.Seats.{HoldsNone};
    ghost use Rattle.flow_claims.specs.Answers.{AsksNone};
    ghost use Rattle.event_ports.specs.Claiming.{ClaimsEach};
    ghost use Rattle.event_ports.specs.Holds.{AreDrained, AreEmpty, AreLinked, IsDrained, stint_in};
    ghost use Rattle.event_ports.specs.Flows.{linked_of};
    ghost use Rattle.event_ports.specs.declared.lane.Lane.TheVariants as lanes;

    /// The lanes of a port that received and answered nothing, and whose order has the room of its own lane's depth.
    pub(crate) fn new(own: Far, flows: FlowLanes, order: HeldRing) -> Lanes
        requires own { IsUnused own }
        requires flows { AreEmpty (hands_of flows) }
        requires order { (order.items ≡ []) × (order.capacity ≡ (far_id own).depth) × (order.capacity ≤ 64) }
        requires noted { order.notes ≡ false → (flow_site flows).links ≡ [] }
        ensures site { lanes_site result ≡ record { own = far_id own; flows = flow_site flows; depth = order.capacity } }
        ensures empty { IsEmptyHand (hand_of result) }
        ensures none { (news_of result ≡ 0) × (mores_of result ≡ 0) × (releases_of result ≡ 0) }
    {
        Lanes { own, flows, order }
    }

    /// How many deliveries are held.
    #[inline(always)]
    pub(crate) fn held(&self) -> usize
        ensures value { result ≡ length (hand_of self.now).holding }
        ensures within { result ≤ (lanes_site self.now).depth }
    {
        if !self.order.notes() {
            return self.own.held();
        }
        self.order.len()
    }

    // The lane from which the oldest delivery that is held came.
    fn first(&self) -> Option<Lane>
        ensures { result ≡ first_lane (hand_of self.now).holding }
    {
        if !self.order.notes() {
            if self.own.held() == 0 {
                return None;
            }
            return Some(Lane::Own);
        }
        let oldest = self.order.front()?;
        Some(oldest.lane)
    }

    /// How many events were added beside the oldest delivery that is held; `None` where nothing is held.
    pub(crate) fn extras(&self) -> Option<usize>
        ensures { MatchOption result ((hand_of self.now).holding ≡ []) (λ n. ((hand_of self.now).holding ≢ []) × (n ≡ extras_in (hand_of self.now))) }
    {
        match self.first()? {
            Lane::Own => Some(self.own.extras()),
            Lane::Flow(lane) => Some(self.flows.extras(lane)),
        }
    }

    /// Submits what costs a credit: a NEW to the port's own lane, and an event that is added beside the oldest delivery that is held to
    /// the lane from which that came.
    #[inline(always)]
    pub(crate) fn submit(&mut self, event: &PackedEvent) -> Result<(), Refusal>
        requires costs { costs_credit event.now.op ≡ true }
        requires takes { event.now.op ≡ ops.ForwardMore → TakesMore (hand_of self.old) }
        ensures site { lanes_site self.new ≡ lanes_site self.old }
        ensures submitted { MatchResult result (λ _. SubmitsTo (lane_for event.now.op (hand_of self.old).holding) (reply_of event.now) (hand_of self.old) (hand_of self.new)) (λ _. Rests (hand_of self.old) (hand_of self.new)) }
        ensures counts { MatchResult result (λ _. CountsOne (reply_of event.now) self.old self.new) (λ _. CountsNone self.old self.new) }
        ensures refused { IfErr result (λ e. (e ≡ Refusal.Full) × IsFilled self.new (lane_for event.now.op (hand_of self.new).holding)) }
    {
        match event.op() {
            Op::New => self.own.submit(event),
            _ => self.add(event),
        }
    }

    /// How many NEWs more there is a free slot for, as far as that is known.
    #[inline(always)]
    pub(crate) fn known_room(&self) -> usize
        ensures { result ≡ room_left self.now.own }
    {
        self.own.known_room()
    }

    /// As `submit`, of NEWs one after the other, for which there is room: they go into the ring by one store.
    #[inline(always)]
    pub(crate) fn bring_row(&mut self, replies: &[Reply])
        requires news { All (λ (r : ReplyValue). is_new_reply r ≡ true) replies.now }
        requires room { length replies.now ≤ room_left self.old.own }
        ensures { BringsRow replies.now self.old self.new }
    {
        self.own.bring_row(replies);
    }

    // Adds an event beside the oldest delivery that is held.
    fn add(&mut self, event: &PackedEvent) -> Result<(), Refusal>
        requires more { is_more_reply (reply_of event.now) ≡ true }
        requires takes { TakesMore (hand_of self.old) }
        ensures site { lanes_site self.new ≡ lanes_site self.old }
        ensures submitted { MatchResult result (λ _. SubmitsTo (first_lane (hand_of self.old).holding) (reply_of event.now) (hand_of self.old) (hand_of self.new)) (λ _. Rests (hand_of self.old) (hand_of self.new)) }
        ensures counts { MatchResult result (λ _. CountsOne (reply_of event.now) self.old self.new) (λ _. CountsNone self.old self.new) }
        ensures refused { IfErr result (λ e. (e ≡ Refusal.Full) × IsFilled self.new (first_lane (hand_of self.new).holding)) }
    {
        let Some(lane) = self.first() else {
            return Err(Refusal::NothingHeld);
        };
        match lane {
            Lane::Own => self.own.submit(event),
            Lane::Flow(lane) => self.flows.answer(lane, event),
        }
    }

    /// Answers the oldest delivery that is held, to the lane from which it came.
    #[inline(always)]
    pub(crate) fn answer(&mut self, event: &PackedEvent) -> Result<(), Refusal>
        requires { is_answer (reply_of event.now) ≡ true }
        ensures site { lanes_site self.new ≡ lanes_site self.old }
        ensures asks { AsksNone (seating_of self.old) (seating_of self.new) }
        ensures submitted { MatchResult result (λ _. SubmitsTo (first_lane (hand_of self.old).holding) (reply_of event.now) (hand_of self.old) (hand_of self.new)) (λ _. Rests (hand_of self.old) (hand_of self.new)) }
        ensures counts { MatchResult result (λ _. CountsOne (reply_of event.now) self.old self.new) (λ _. CountsNone self.old self.new) }
        ensures refused { IfErr result (RefusesOldest self.new) }
    {
        let Some(lane) = self.first() else {
            return Err(Refusal::NothingHeld);
        };
        match lane {
            Lane::Own => match self.own.submit(event) {
                Ok(()) => {
                    self.order.drop_row(1);
                    Ok(())
                }
                Err(fault) => Err(fault),
            },
            Lane::Flow(lane) => match self.flows.answer_oldest(lane, event) {
                Ok(()) => {
                    self.order.drop_row(1);
                    Ok(())
                }
                Err(fault) => Err(fault),
            },
        }
    }

    /// How many of so many answers may go to the own lane in a row: all that is held came from it, and there is room.
    #[inline(always)]
    pub(crate) fn own_row(&self, most: usize) -> usize
        ensures within { result ≤ most }
        ensures own { All (λ x. x.lane ≡ lanes.Own) (take result (hand_of self.now).holding) }
        ensures held { result ≤ length (hand_of self.now).holding }
        ensures room { result ≤ room_left self.now.own }
    {
        let held = self.held();
        if self.own.held() < held {
            return 0;
        }
        most.min(self.own.known_room()).min(held)
    }

    /// Answers so many of the oldest that are held, which came from the own lane: the answers go into its ring by one store.
    #[inline(always)]
    pub(crate) fn answer_row(&mut self, replies: &[Reply])
        requires some { 0 < length replies.now }
        requires answers { All (λ (r : ReplyValue). is_answer r ≡ true) replies.now }
        requires own { All (λ x. x.lane ≡ lanes.Own) (take (length replies.now) (hand_of self.old).holding) }
        requires held { length replies.now ≤ length (hand_of self.old).holding }
        requires room { length replies.now ≤ room_left self.old.own }
        ensures { AnswersRow replies.now self.old self.new }
    {
        self.own.answer_row(replies);
        self.order.drop_row(replies.len());
    }

    /// Receives at most `max` deliveries, and no more than may be held: from the own lane first, then from the linked flow lanes
    /// in their order, of which one that isn't held is claimed by one try where there is a hint that it has something.
    #[inline(always)]
    pub(crate) fn receive_all(&mut self, max: usize, into: &mut Deliveries)
        requires { into.old.items ≡ [] }
        ensures site { lanes_site self.new ≡ lanes_site self.old }
        ensures claims { ClaimsEach (links_of self.old) (seating_of self.old) (seating_of self.new) }
        ensures counts { CountsNone self.old self.new }
        ensures arrived { Arrives (links_of self.old) (hand_of self.old) (hand_of self.new) [] into.new.items }
        ensures few { (length into.new.items ≤ max) × (length (hand_of self.new).holding ≤ (lanes_site self.new).depth) }
        ensures drained { length into.new.items < max → length (hand_of self.new).holding < (lanes_site self.new).depth → seen_own self.new ≡ [] }
        ensures drained_flows { length into.new.items < max → length (hand_of self.new).holding < (lanes_site self.new).depth → AreDrained (flow_hands self.new) }
        ensures own_first { OwnFirst self.old self.new into.new.items }
    {
        let most = max.min(self.order.capacity() - self.held());
        self.own.receive_some(most, into);
        self.order.note(Lane::Own, 0, into);
        self.receive_flows(most, into);
    }

    /// The own end, the port's claim seat once all its flow lanes were surrendered, and what is held.
    pub(crate) fn into_parts(self) -> (Far, ClaimSeat, HeldRing)
        ensures own { (far_id result.0 ≡ (lanes_site self).own) × (received_by result.0 ≡ (hand_of self).got lanes.Own) × (answered result.0 ≡ (hand_of self).said lanes.Own) }
        ensures seat { IsSeatOf (lanes_site self).flows.claims result.1 × (port_of result.1 ≡ (lanes_site self).flows.port) }
        ensures parts { (seating result.1).parts ≡ (lanes_site self).flows.parts }
        ensures none_open { HoldsNone (seating result.1) }
        ensures lists { IsEndOf (hand_of self) (seating result.1).finished }
        ensures linked { AreLinked (lanes_site self).flows.port (links_of self) (seating result.1).finished }
        ensures no_new { (j : ℕ) → count_by is_new_reply ((hand_of self).said (lanes.Flow j)) ≡ 0 }
        ensures held { result.2.items ≡ (hand_of self).holding }
        ensures counted { AreOf (flow_count (lanes_site self)) (hand_of self).holding }
        ensures ordered { map pair_in (held_of lanes.Own (hand_of self).holding) ≡ held_list result.0 }
    {
        let Lanes {
            own,
            flows,
            mut order,
        } = self;
        order.note_held(&own);
        (own, flows.into_seat(), order)
    }

    // Receives from the linked flow lanes in their order, until `most` deliveries came in all. Those that aren't worth a look are
    // passed over.
    #[inline(always)]
    fn receive_flows(&mut self, most: usize, into: &mut Deliveries)
        requires { HasRoomFor most (lanes_site self.old).depth (hand_of self.old).holding into.old.items }
        ensures site { lanes_site self.new ≡ lanes_site self.old }
        ensures drained { length into.new.items < most → AreDrained (flow_hands self.new) }
        ensures claims { ClaimsEach (links_of self.old) (seating_of self.old) (seating_of self.new) }
        ensures counts { CountsNone self.old self.new }
        ensures arrived { ArrivesFrom (map lanes.Flow (links_of self.old)) (hand_of self.old) (hand_of self.new) into.old.items into.new.items }
        ensures room { HasRoomFor most (lanes_site self.new).depth (hand_of self.new).holding into.new.items }
        ensures none { length into.old.items ≡ most → into.new.items ≡ into.old.items }
        ensures others { seen_own self.new ≡ seen_own self.old }
    {
        // A port that notes nothing has no flow lanes.
        if !self.order.notes() {
            return;
        }
        let mut worthy = self.flows.worth_a_look();
        let count = self.flows.link_count();
        let wanted = most.saturating_sub(into.len());
        let mut position = self.flows.next_link(0, &mut worthy, wanted);
        while position < count && into.len() < most {
            let lane = self.flows.link(position);
            self.receive_flow(lane, most, into);
            let wanted = most.saturating_sub(into.len());
            position = self.flows.next_link(position + 1, &mut worthy, wanted);
        }
        self.flows.look_later(worthy);
    }

    // Receives from a flow lane to which the port is linked, until `most` deliveries came in all, or none is seen. The lane is held by
    // one try, where it isn't held already, and is given back where nothing of it is unanswered.
    fn receive_flow(&mut self, lane: usize, most: usize, into: &mut Deliveries)
        requires notes { self.old.order.notes ≡ true }
        requires readable { IsReadable (lanes_site self.old) (lanes.Flow lane) }
        requires room { HasRoomFor most (lanes_site self.old).depth (hand_of self.old).holding into.old.items }
        ensures notes { self.new.order.notes ≡ self.old.order.notes }
        ensures site { lanes_site self.new ≡ lanes_site self.old }
        ensures linked { linked_of self.new.flows ≡ linked_of self.old.flows }
        ensures other_lanes { (j : ℕ) → j ≢ lane → stint_in (flow_hands self.new) j ≡ stint_in (flow_hands self.old) j }
        ensures drained { length into.new.items < most → IsDrained (stint_in (flow_hands self.new) lane) }
        ensures claims { ClaimsEach (lane ∷ []) (seating_of self.old) (seating_of self.new) }
        ensures counts { CountsNone self.old self.new }
        ensures arrived { ArrivesFrom (lanes.Flow lane ∷ []) (hand_of self.old) (hand_of self.new) into.old.items into.new.items }
        ensures room { HasRoomFor most (lanes_site self.new).depth (hand_of self.new).holding into.new.items }
        ensures none { length into.old.items ≡ most → into.new.items ≡ into.old.items }
        ensures others { seen_own self.new ≡ seen_own self.old }
    {
        if into.len() >= most {
            return;
        }
        if !self.flows.hold(lane) {
            return;
        }
        let from = into.len();
        self.flows.receive_some(lane, most, into);
        self.order.note(Lane::Flow(lane), from, into);
        // What came is unanswered.
        let some_came = into.len() > from;
        self.flows.leave_unless(lane, some_came);
    }
}
