//! The flow lanes of a port: those that it holds, and those that it is linked to.

ghost use Rattle.std.specs.Arc.{arc_value};
ghost use Rattle.event_ports.specs.Holds.{AreFlows};
ghost use Rattle.event_ports.specs.Looks.{AreFirst, IsLinkSet, HasHeld};

use evt_types::{Delivery, PackedEvent};
use flow_claims::{Claim, ClaimSeat, Claims, Stint};
use lane_rings::{Deliveries, Hints, LaneSet, Refusal};
use std::alloc::{AllocError, Global};
use std::sync::Arc;

/// The flow lanes of a port. There is a position for each flow lane of the device, with the stint where the port holds the lane.
#[derive(Drop)]
pub(crate) struct FlowLanes {
    claims: Arc<Claims, Global>,
    seat: ClaimSeat,
    stints: Vec<Option<Stint>>,
    links: Vec<usize>,
    /// The hints of the device, the lanes of the links, and those that the port holds. A dequeue finds the lanes to look at by these
    /// three. No promise rests on the hints.
    hints: Arc<Hints, Global>,
    linked: LaneSet,
    held: LaneSet,
    ghost are: { AreFlows (arc_value claims) seat stints.items links.items },
    ghost placed: { IsLinkSet linked links.items },
    ghost has_held: { HasHeld held stints.items },
}

/// The lanes that a dequeue has still to look at.
#[derive(Clone, Copy)]
pub(crate) struct Worthy {
    /// Those whose hints were cleared.
    next: LaneSet,
    /// All of them.
    left: LaneSet,
    ghost first: { AreFirst next left },
}

impl Worthy {
    ghost use Rattle.std.specs.Prelude.{◌≡◌, IfSome, IfNone};
    ghost use Rattle.lane_rings.specs.LaneSets.{IsEmpty, IsFirst, SameBut};

    // The lowest lane, which leaves both sets, where its hint was cleared.
    #[inline(always)]
    fn take(&mut self) -> Option<usize>
        ensures first { IfSome result (IsFirst self.old.left) }
        ensures others { IfSome result (λ lane. SameBut lane self.old.left self.new.left) }
        ensures none { IfNone result (IsEmpty self.old.next) }
        ensures same { IfNone result (self.new ≡ self.old) }
    {
        let lane = self.next.take_lowest()?;
        self.left.remove(lane);
        Some(lane)
    }
}

impl FlowLanes {
    ghost use Rattle.std.specs.Prelude.{◌≡◌, ◌≢◌, ℕ, ◌<◌, ◌≤◌, [], ◌∷◌, ◌++◌, true, false, length, slice_get, replicate, All, IsOk, IfOk, IfErr, IfSome, IfNone, MatchOption, MatchResult};
    ghost use Rattle.std.specs.Option.{is_some};
    ghost use Rattle.lists.specs.Lists.{has};
    ghost use Rattle.evt_types.specs.Operation.{is_answer, is_more_reply};
    ghost use Rattle.evt_types.specs.declared.event.TheConstants.{MAX_EXTRAS};
    ghost use Rattle.lane_rings.specs.LaneSets.{Has, IsFirst, SameBut, lanes_below, lanes_in};
    ghost use Rattle.lane_rings.specs.Refusal.{reply_of};
    ghost use Rattle.flow_claims.specs.Claims.{seating, port_of, lanes_of, IsSeatOf};
    ghost use Rattle.flow_claims.specs.Seats.{HoldsNone};
    ghost use Rattle.flow_claims.specs.Answers.{AsksNone};
    ghost use Rattle.event_ports.specs.Claiming.{ClaimsEach};
    ghost use Rattle.event_ports.specs.Holds.{AreIdle, IsDrained, IsFilledBy, AreLinked, Brings, Same, Kept, Says, Ends, AreEmpty, extras_on, stint_in, held_on};
    ghost use Rattle.event_ports.specs.Flows.{hands_of, flow_site, linked_of};
    ghost use Rattle.event_ports.specs.Looks.{IsIn};

    /// The flow lanes of a port whose seat has no stint, with a position for each.
    pub(crate) fn new(
        claims: Arc<Claims, Global>,
        seat: ClaimSeat,
        stints: Vec<Option<Stint>>,
        links: Vec<usize>,
        hints: Arc<Hints, Global>,
    ) -> FlowLanes
        requires seat { IsSeatOf (arc_value claims) seat × (port_of seat < 254) }
        requires fresh { HoldsNone (seating seat) × ((seating seat).finished ≡ []) }
        requires links { All (λ lane. lane < length (lanes_of (arc_value claims))) links.items }
        requires entries { stints.items ≡ replicate (length (lanes_of (arc_value claims))) None }
        ensures site { flow_site result ≡ record { claims = arc_value claims; port = port_of seat; links = links.items; parts = (seating seat).parts } }
        ensures empty { AreEmpty (hands_of result) }
    {
        let linked = lanes_of_links(&links);
        FlowLanes {
            claims,
            seat,
            stints,
            links,
            hints,
            linked,
            held: LaneSet::none(),
        }
    }

    /// How many flow lanes the port is linked to.
    pub(crate) fn link_count(&self) -> usize
        ensures { result ≡ length (flow_site self.now).links }
    {
        self.links.len()
    }

    /// The flow lane at this position of the links.
    pub(crate) fn link(&self, position: usize) -> usize
        requires { position < length (flow_site self.now).links }
        ensures exists { result < length (lanes_of (flow_site self.now).claims) }
        ensures linked { has result (flow_site self.now).links ≡ true }
        ensures at_link { slice_get (flow_site self.now).links position ≡ Some result }
    {
        self.links[position]
    }

    /// The linked flow lanes that may have something: those with a hint, and those that the port holds.
    #[inline(always)]
    pub(crate) fn worth_a_look(&self) -> Worthy
        ensures { (j lane : ℕ) → slice_get (flow_site self.now).links j ≡ Some lane → IsIn (linked_of self.now) lane → is_some (stint_in (hands_of self.now) lane) ≡ true → Has result.left lane }
    {
        let next = LaneSet::none();
        // Without flow lanes the words aren't read.
        if self.links.is_empty() {
            return Worthy { next, left: next };
        }
        let left = self.hints.lanes().either(self.held).both(self.linked);
        Worthy { next, left }
    }

    /// The lowest lane that is worth a look, which leaves both sets. Where no hint of those that are left was cleared, as many are as
    /// events may come, so that other ports look elsewhere. Where none may come no lane leaves, since it wouldn't be looked at.
    #[inline(always)]
    fn next_worthy(&self, worthy: &mut Worthy, most: usize) -> Option<usize>
        ensures first { IfSome result (IsFirst worthy.old.left) }
        ensures others { IfSome result (λ lane. SameBut lane worthy.old.left worthy.new.left) }
        ensures none { IfNone result (0 < most → (lane : ℕ) → lane < 128 → ¬ Has worthy.old.left lane) }
        ensures same { IfNone result (worthy.new.left ≡ worthy.old.left) }
    {
        if most == 0 {
            return None;
        }
        if let Some(lane) = worthy.take() {
            return Some(lane);
        }
        let left = worthy.left;
        let next = left.lowest(most);
        // What the scheduler gives from here on sets a hint again.
        self.hints.clear_all(next);
        *worthy = Worthy { next, left };
        worthy.take()
    }

    // How many lanes of the links are below this one; all of them, where there is none.
    #[inline(always)]
    fn links_below(&self, lane: Option<usize>) -> usize
        ensures { MatchOption lane (result ≡ lanes_in (linked_of self.now)) (λ below. result ≡ lanes_below (linked_of self.now) below) }
    {
        match lane {
            Some(lane) => self.linked.count_below(lane),
            // Behind all lanes of which there are hints come those that are always worth a look.
            None => self.linked.count(),
        }
    }

    /// The position in the links, from this one on, of the lowest lane that is worth a look, which is one no more; past the last where
    /// there is none. So many events may come.
    #[inline(always)]
    pub(crate) fn next_link(&self, position: usize, worthy: &mut Worthy, most: usize) -> usize
        requires { position ≤ length (flow_site self.now).links }
        ensures within { (position ≤ result) × (result ≤ length (flow_site self.now).links) }
        ensures passed { (j lane : ℕ) → position ≤ j → j < result → slice_get (flow_site self.now).links j ≡ Some lane → 0 < most → IsIn (linked_of self.now) lane × (¬ Has worthy.old.left lane) }
        ensures left { (j lane : ℕ) → result < j → slice_get (flow_site self.now).links j ≡ Some lane → IsIn (linked_of self.now) lane → Has worthy.old.left lane → Has worthy.new.left lane }
    {
        if position >= self.links.len() {
            return position;
        }
        // The links rise, so before a lane's position come the lower ones.
        let lane = self.next_worthy(worthy, most);
        let lower = self.links_below(lane);
        lower.max(position).min(self.links.len())
    }

    /// The lanes whose hints were cleared, and that weren't looked at, may have something still.
    #[inline(always)]
    pub(crate) fn look_later(&self, worthy: Worthy) {
        self.hints.set_all(worthy.next);
    }

    /// Holds the lane, where it isn't held already, by one try. False where it can't be had.
    #[inline(always)]
    pub(crate) fn hold(&mut self, lane: usize) -> bool
        requires exists { lane < length (lanes_of (flow_site self.old).claims) }
        requires linked { has lane (flow_site self.old).links ≡ true }
        ensures site { flow_site self.new ≡ flow_site self.old }
        ensures linked { linked_of self.new ≡ linked_of self.old }
        ensures others { (j : ℕ) → j ≢ lane → stint_in (hands_of self.new) j ≡ stint_in (hands_of self.old) j }
        ensures claims { ClaimsEach (lane ∷ []) (hands_of self.old).view (hands_of self.new).view }
        ensures same { Same (hands_of self.old) (hands_of self.new) }
        ensures held { is_some (stint_in (hands_of self.new) lane) ≡ result }
        ensures elsewhere { (j : ℕ) → j ≢ lane → is_some (stint_in (hands_of self.new) j) ≡ is_some (stint_in (hands_of self.old) j) }
    {
        if self.stints[lane].is_some() {
            return true;
        }
        let Claim::Held(stint) = self.claims.claim(&mut self.seat, lane) else {
            self.hints.set(lane);
            return false;
        };
        self.stints[lane] = Some(stint);
        self.held.add(lane);
        true
    }

    /// Receives from the lane, where the array has fewer than `most` deliveries, until it has as many, none is seen, or as many are
    /// unanswered as the lane's depth allows; nothing where the lane isn't held.
    #[inline(always)]
    pub(crate) fn receive_some(&mut self, lane: usize, most: usize, into: &mut Deliveries)
        requires exists { lane < length (lanes_of (flow_site self.old).claims) }
        requires most { most ≤ 64 }
        requires room { length into.old.items < most }
        ensures site { flow_site self.new ≡ flow_site self.old }
        ensures drained { length into.new.items < most → IsDrained (stint_in (hands_of self.new) lane) }
        ensures linked { linked_of self.new ≡ linked_of self.old }
        ensures others { (j : ℕ) → j ≢ lane → stint_in (hands_of self.new) j ≡ stint_in (hands_of self.old) j }
        ensures seat { (hands_of self.new).view ≡ (hands_of self.old).view }
        ensures lists { Brings lane (hands_of self.old) into.old.items (hands_of self.new) into.new.items }
        ensures few { length into.new.items ≤ most }
        ensures entries { (j : ℕ) → is_some (stint_in (hands_of self.new) j) ≡ is_some (stint_in (hands_of self.old) j) }
    {
        let Some(stint) = &mut self.stints[lane] else {
            return;
        };
        let some_left = stint.receive_waiting(most, into);
        hint_again(&self.hints, lane, some_left);
    }

    /// How many events were added beside the oldest delivery that is held of the lane; 0 where the lane isn't held.
    pub(crate) fn extras(&self, lane: usize) -> usize
        requires { lane < length (lanes_of (flow_site self.now).claims) }
        ensures { result ≡ extras_on (hands_of self.now) lane }
    {
        match &self.stints[lane] {
            Some(stint) => stint.extras(),
            None => 0,
        }
    }

    /// Answers the oldest delivery that is held of the lane, or adds an event beside it.
    #[inline(always)]
    pub(crate) fn answer(&mut self, lane: usize, event: &PackedEvent) -> Result<(), Refusal>
        requires exists { lane < length (lanes_of (flow_site self.old).claims) }
        requires held { held_on (hands_of self.old) lane ≢ [] }
        requires few { is_more_reply (reply_of event.now) ≡ true → extras_on (hands_of self.old) lane < MAX_EXTRAS }
        ensures site { flow_site self.new ≡ flow_site self.old }
        ensures seat { (hands_of self.new).view ≡ (hands_of self.old).view }
        ensures lists { MatchResult result (λ _. Says lane (reply_of event.now) (hands_of self.old) (hands_of self.new)) (λ _. Same (hands_of self.old) (hands_of self.new)) }
        ensures entries { (j : ℕ) → is_some (stint_in (hands_of self.new) j) ≡ is_some (stint_in (hands_of self.old) j) }
        ensures refused { IfErr result (λ e. (e ≡ Refusal.Full) × IsFilledBy (stint_in (hands_of self.new) lane)) }
    {
        let Some(stint) = &mut self.stints[lane] else {
            return Err(Refusal::NothingHeld);
        };
        stint.submit(event)
    }

    /// Answers the oldest delivery that is held of the lane by an answer, and gives the lane back where nothing more of it is
    /// unanswered.
    #[inline(always)]
    pub(crate) fn answer_oldest(&mut self, lane: usize, event: &PackedEvent) -> Result<(), Refusal>
        requires exists { lane < length (lanes_of (flow_site self.old).claims) }
        requires held { held_on (hands_of self.old) lane ≢ [] }
        requires answer { is_answer (reply_of event.now) ≡ true }
        ensures site { flow_site self.new ≡ flow_site self.old }
        ensures asks { AsksNone (hands_of self.old).view (hands_of self.new).view }
        ensures lists { MatchResult result (λ _. Says lane (reply_of event.now) (hands_of self.old) (hands_of self.new)) (λ _. Same (hands_of self.old) (hands_of self.new)) }
        ensures idle { AreIdle (hands_of self.old) → AreIdle (hands_of self.new) }
        ensures refused { IfErr result (λ e. (e ≡ Refusal.Full) × IsFilledBy (stint_in (hands_of self.new) lane)) }
    {
        self.answer(lane, event)?;
        self.leave(lane);
        Ok(())
    }

    /// Gives the lane back where nothing of it is unanswered.
    #[inline(always)]
    pub(crate) fn leave(&mut self, lane: usize)
        requires { lane < length (lanes_of (flow_site self.old).claims) }
        ensures site { flow_site self.new ≡ flow_site self.old }
        ensures drained { IsDrained (stint_in (hands_of self.old) lane) → IsDrained (stint_in (hands_of self.new) lane) }
        ensures linked { linked_of self.new ≡ linked_of self.old }
        ensures others { (j : ℕ) → j ≢ lane → stint_in (hands_of self.new) j ≡ stint_in (hands_of self.old) j }
        ensures asks { AsksNone (hands_of self.old).view (hands_of self.new).view }
        ensures same { Same (hands_of self.old) (hands_of self.new) }
        ensures left { held_on (hands_of self.old) lane ≡ [] → is_some (stint_in (hands_of self.new) lane) ≡ false }
        ensures elsewhere { (j : ℕ) → j ≢ lane → is_some (stint_in (hands_of self.new) j) ≡ is_some (stint_in (hands_of self.old) j) }
    {
        let Some(stint) = &mut self.stints[lane] else {
            return;
        };
        if stint.far.held() > 0 {
            return;
        }
        self.give_back(lane);
    }

    /// As `leave`, but the lane isn't looked at where something of it is known to be unanswered.
    #[inline(always)]
    pub(crate) fn leave_unless(&mut self, lane: usize, some_held: bool)
        requires exists { lane < length (lanes_of (flow_site self.old).claims) }
        requires held { some_held ≡ true → held_on (hands_of self.old) lane ≢ [] }
        ensures site { flow_site self.new ≡ flow_site self.old }
        ensures drained { IsDrained (stint_in (hands_of self.old) lane) → IsDrained (stint_in (hands_of self.new) lane) }
        ensures linked { linked_of self.new ≡ linked_of self.old }
        ensures others { (j : ℕ) → j ≢ lane → stint_in (hands_of self.new) j ≡ stint_in (hands_of self.old) j }
        ensures asks { AsksNone (hands_of self.old).view (hands_of self.new).view }
        ensures same { Same (hands_of self.old) (hands_of self.new) }
        ensures left { held_on (hands_of self.old) lane ≡ [] → is_some (stint_in (hands_of self.new) lane) ≡ false }
        ensures elsewhere { (j : ℕ) → j ≢ lane → is_some (stint_in (hands_of self.new) j) ≡ is_some (stint_in (hands_of self.old) j) }
    {
        if !some_held {
            self.leave(lane);
        }
    }

    // Gives back the lane, of which nothing is unanswered.
    #[inline(always)]
    fn give_back(&mut self, lane: usize)
        requires exists { lane < length (lanes_of (flow_site self.old).claims) }
        requires answered { held_on (hands_of self.old) lane ≡ [] }
        ensures site { flow_site self.new ≡ flow_site self.old }
        ensures linked { linked_of self.new ≡ linked_of self.old }
        ensures others { (j : ℕ) → j ≢ lane → stint_in (hands_of self.new) j ≡ stint_in (hands_of self.old) j }
        ensures asks { AsksNone (hands_of self.old).view (hands_of self.new).view }
        ensures same { Same (hands_of self.old) (hands_of self.new) }
        ensures left { is_some (stint_in (hands_of self.new) lane) ≡ false }
        ensures elsewhere { (j : ℕ) → j ≢ lane → is_some (stint_in (hands_of self.new) j) ≡ is_some (stint_in (hands_of self.old) j) }
    {
        let Some(stint) = self.stints[lane].take() else {
            return;
        };
        self.claims.give_back(&mut self.seat, stint);
        self.held.remove(lane);
    }

    /// Surrenders the lane, where it is held.
    fn surrender(&mut self, lane: usize)
        requires exists { lane < length (lanes_of (flow_site self.old).claims) }
        ensures site { flow_site self.new ≡ flow_site self.old }
        ensures kept { Kept (hands_of self.old) (hands_of self.new) }
        ensures free { stint_in (hands_of self.new) lane ≡ None }
        ensures elsewhere { (j : ℕ) → j ≢ lane → stint_in (hands_of self.new) j ≡ stint_in (hands_of self.old) j }
    {
        let Some(stint) = self.stints[lane].take() else {
            return;
        };
        self.claims.surrender(&mut self.seat, stint);
    }

    /// The port's seat, once all lanes that are held were surrendered.
    pub(crate) fn into_seat(mut self) -> ClaimSeat
        ensures seat { IsSeatOf (flow_site self).claims result × (port_of result ≡ (flow_site self).port) }
        ensures parts { (seating result).parts ≡ (flow_site self).parts }
        ensures none_open { HoldsNone (seating result) }
        ensures lists { Ends (hands_of self) (seating result) }
        ensures linked { AreLinked (flow_site self).port (flow_site self).links (seating result).finished }
    {
        for lane in 0..self.stints.len() {
            self.surrender(lane);
        }
        let FlowLanes { seat, .. } = self;
        seat
    }
}

ghost use Rattle.std.specs.Prelude.{◌≡◌, ℕ, ◌<◌, true, Some, replicate, slice_get, IfOk};
ghost use Rattle.lane_rings.specs.LaneSets.{Has};

/// Places for so many flow lanes, none of which is held.
pub(crate) fn free_entries(alloc: Global, lanes: usize) -> Result<Vec<Option<Stint>>, AllocError>
    ensures { IfOk result (λ v. v.items ≡ replicate lanes None) }
{
    let mut stints = Vec::with_capacity(alloc, lanes)?;
    for _ in 0..lanes {
        stints.push_reserved(None);
    }
    Ok(stints)
}

// The set of the links, where they rise; else no lane, so that each link is always worth a look.
fn lanes_of_links(links: &[usize]) -> LaneSet
    ensures { IsLinkSet result links.now }
{
    let lanes = all_lanes(links);
    if !are_placed(links, lanes) {
        return LaneSet::none();
    }
    lanes
}

// All of these lanes of which there may be hints.
fn all_lanes(links: &[usize]) -> LaneSet
    ensures { (i lane : ℕ) → slice_get links.now i ≡ Some lane → lane < 128 → Has result lane }
{
    let mut lanes = LaneSet::none();
    for lane in links {
        lanes.add(*lane);
    }
    lanes
}

// Whether each link stands behind as many links as the set has lower lanes, or behind all of the set's.
fn are_placed(links: &[usize], lanes: LaneSet) -> bool
    requires { (i lane : ℕ) → slice_get links.now i ≡ Some lane → lane < 128 → Has lanes lane }
    ensures { result ≡ true → IsLinkSet lanes links.now }
{
    let all = lanes.count();
    for (position, lane) in links.iter().enumerate() {
        let lower = lanes.count_below(*lane);
        if lower != position && (lower < all || position < all) {
            return false;
        }
    }
    true
}

// Sets the lane's hint where something was left in its ring.
#[inline(always)]
fn hint_again(hints: &Hints, lane: usize, some_left: bool) {
    if some_left {
        hints.set(lane);
    }
}
