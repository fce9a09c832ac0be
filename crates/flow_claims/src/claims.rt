//! The lanes with their words, and the seats that step on them.
ghost use Rattle.std.specs.Prelude.{◌≡◌, ◌≢◌, ◌+◌, ◌*◌, ◌/◌, ◌%◌, ◌^◌, ◌<◌, ◌≤◌, ◌⊎◌, ◌==◌, true, false, [], map, take, length, slice_get, vec_capacity, ℕ, List, All, IsOk, IfOk, IfErr, sum_by};
ghost use Rattle.lane_rings.specs.declared.far.Far.{Far};
ghost use Rattle.flow_claims.specs.Seats.{slot_of};

use crate::boxed::BoxedFar;
use crate::claim::{Claim, Stint};
use crate::ends::{unwrapped, wrapped};
use crate::rule::{Both, ClaimExchange, ClaimRule, ClosingSwap, Front, OnePart, Probe, Return};
use crate::seating::Seating;
use atomic_table::{Refused, Seat, Table};
use evt_types::Memory;
use lane_rings::Far;
use std::alloc::{AllocError, Global};
use std::snapshot::Snapshot;

/// How many stints a lane's word can count.
pub const MAX_STINTS: u64 = (1 << 56) - 1;

/// The port of a seat that belongs to none. Ports have the numbers below it.
pub const NO_PORT: usize = 254;

/// What the word of a lane that no port can claim any more ends in.
const SURRENDERED: u64 = 255;

/// Lanes to be claimed. Threads share them by reference.
#[derive(Drop)]
pub struct Claims {
    table: Table<Option<BoxedFar>, Seating, Snapshot<Vec<Far>>, ClaimRule, Global>,
    ghost words: { table.shared.table_id.words ≡ length table.shared.key.value.items + 1 },
    ghost slots: { table.shared.table_id.slots ≡ length table.shared.key.value.items },
}

/// A seat: its stints, which only the calls that are given the seat change, and the number of its port.
#[derive(Drop)]
pub struct ClaimSeat {
    seat: Seat<Option<BoxedFar>, Seating>,
    port: usize,
    ghost slots: { seat.me.1 ≡ map slot_of seat.me.0.held },
    ghost has_part: { 0 < seat.me.0.parts },
    ghost none_closed: { seat.me.0.closed ≡ 0 },
    ghost lanes_exist: { All (λ p. p.lane < length seat.me.0.lanes) seat.me.0.finished },
    pub ghost own_port: { All (λ b. b.port ≡ port) seat.me.0.held },
}

impl Claims {
    ghost use Rattle.lane_rings.specs.Ends.{received_by, answered, unanswered};
    ghost use Rattle.lane_rings.specs.Identity.{far_id};
    ghost use Rattle.evt_types.specs.declared.event.Delivery.{Delivery};
    ghost use Rattle.evt_types.specs.declared.event.Reply.{Reply};
    ghost use Rattle.flow_claims.specs.declared.claim.Stint.{Stint};
    ghost use Rattle.flow_claims.specs.Seats.{stint_at, HoldsNone, HasAll, first_seating, after_look, after_load, after_join, part_of, rest_of};
    ghost use Rattle.flow_claims.specs.Open.{IsOpen};
    ghost use Rattle.flow_claims.specs.Answers.{AnswersClaim, AnswersAll, AsksOnce, Taken, KeepsPort, EndsStint};
    ghost use Rattle.flow_claims.specs.Weights.{weight_received, weight_answered};
    ghost use Rattle.flow_claims.specs.Ends.{IsEnd};
    ghost use Rattle.flow_claims.specs.Steps.{Reads};
    ghost use Rattle.flow_claims.specs.Laws.{IsUnused};
    ghost use Rattle.flow_claims.specs.Claims.{seating, port_of, lanes_of, claims_id, IsSeatOf};

    /// Claims over these lanes, none of which a port holds, and the first seat, which belongs to no port and has all 64 parts.
    /// After want of memory the ends come back in their order.
    pub fn new(alloc: Global, ends: Vec<Far>) -> Result<(Claims, ClaimSeat), (Memory, Vec<Far>)>
        requires { All IsUnused ends.items }
        ensures lanes { IfOk result (λ r. lanes_of r.0 ≡ ends.items) }
        ensures seat { IfOk result (λ r. IsSeatOf r.0 r.1 × (port_of r.1 ≡ 254)) }
        ensures seating { IfOk result (λ r. seating r.1 ≡ first_seating ends.items) }
        ensures back { IfErr result (λ e. e.1.items ≡ ends.items) }
    {
        let about = Snapshot::of(&ends);
        // One word more than lanes: a split and a join each read a word, also where there is no lane.
        let Ok(words) = vec![in alloc; 0; ends.len() + 1] else {
            return Err((AllocError, ends));
        };
        let Ok(slots) = Vec::with_capacity(alloc, ends.len()) else {
            return Err((AllocError, ends));
        };
        let (slots, rest) = match wrapped(alloc, ends, slots) {
            Ok(wrapped) => wrapped,
            Err(ends) => return Err((AllocError, ends)),
        };
        match Table::new(alloc, &words, slots, &about) {
            Ok((table, seat)) => Ok((
                Claims { table },
                ClaimSeat {
                    seat,
                    port: NO_PORT,
                },
            )),
            Err(Refused { slots }) => Err((AllocError, unwrapped(slots, rest))),
        }
    }

    /// The table of the lanes' words and ends, with what all seats know. Its rule is `ClaimRule`, whose fact holds between any two steps
    /// of any seats and is `Claimed` of these lanes. So the laws, `a_lane_has_one_holder` and the others, are of these claims at every
    /// moment.
    pub fn table(&self) -> &Table<Option<BoxedFar>, Seating, Snapshot<Vec<Far>>, ClaimRule, Global>
        ensures table { result.now.shared.table_id ≡ claims_id self.now }
        ensures lanes { result.now.shared.key.value.items ≡ lanes_of self.now }
    {
        &self.table
    }

    /// Gives one of the seat's parts, of which it has two or more, to a new seat for the port. It never refuses.
    pub fn split(
        &self,
        mut seat: ClaimSeat,
        port: usize,
    ) -> Result<(ClaimSeat, ClaimSeat), ClaimSeat>
        requires seat { IsSeatOf self.now seat }
        requires parts { 1 < (seating seat).parts }
        requires port { port < 254 }
        ensures granted { IsOk result }
        ensures first { IfOk result (λ r. IsSeatOf self.now r.0 × (port_of r.0 ≡ port_of seat) × (seating r.0 ≡ rest_of (seating seat))) }
        ensures second { IfOk result (λ r. IsSeatOf self.now r.1 × (port_of r.1 ≡ port) × (seating r.1 ≡ part_of (seating seat))) }
    {
        let other = self.table.shared.split_seat::<OnePart>(&mut seat.seat);
        Ok((seat, ClaimSeat { seat: other, port }))
    }

    /// Makes one seat of two, with the stints and the parts of both, for the port of the first. The second holds no lane.
    pub fn join(&self, mut a: ClaimSeat, b: ClaimSeat) -> ClaimSeat
        requires first { IsSeatOf self.now a }
        requires second { IsSeatOf self.now b }
        requires none_open { HoldsNone (seating b) }
        ensures seat { IsSeatOf self.now result × (port_of result ≡ port_of a) }
        ensures seating { seating result ≡ after_join (seating a) (seating b) }
    {
        let ClaimSeat {
            seat: other,
            port: _,
        } = b;
        self.table.shared.join_seat::<Both>(&mut a.seat, other);
        a
    }

    /// Tries once to hold the lane for the seat's port. One load, at most one exchange and the taking out of the end: a claim that
    /// answers `WornOut` or `Busy` read one word, by the load, and one that answers `Raced` or `Held` two, the second by the exchange.
    pub fn claim(&self, seat: &mut ClaimSeat, lane: usize) -> Claim
        requires seat { IsSeatOf self.now seat.old }
        requires port { port_of seat.old < 254 }
        requires lane { lane < length (lanes_of self.now) }
        ensures seat { IsSeatOf self.now seat.new }
        ensures port { KeepsPort seat.old seat.new }
        ensures answer { AnswersClaim (port_of seat.old) lane (seating seat.old) result (seating seat.new) }
        ensures all { HasAll (seating seat.old) → AnswersAll lane (seating seat.old) result }
        ensures asks { AsksOnce lane (seating seat.old) (seating seat.new) }
        ensures refused { ((stint : Stint) → result ≢ Claim.Held stint) → (seating seat.new).held ≡ (seating seat.old).held }
        ensures finished { (seating seat.new).finished ≡ (seating seat.old).finished }
        ensures others { (j : ℕ) → j ≢ lane → stint_at (seating seat.new) j ≡ stint_at (seating seat.old) j }
        ensures open { (stint : Stint) → IsOpen (seating seat.old) stint → IsOpen (seating seat.new) stint }
        ensures parts { (seating seat.new).parts ≡ (seating seat.old).parts }
    {
        let word = self.probe(seat, lane);
        if word / 256 == MAX_STINTS {
            return Claim::WornOut;
        }
        if word % 256 != 0 {
            return Claim::Busy { seen: word };
        }
        let number = word / 256;
        match self.seize(seat, lane, word) {
            Ok(far) => Claim::Held(Stint { lane, number, far }),
            Err(found) => Claim::Raced {
                first: word,
                second: found,
            },
        }
    }

    /// Ends a stint of whose lane nothing is unanswered, and frees the lane. It always
    /// succeeds.
    #[inline(always)]
    pub fn give_back(&self, seat: &mut ClaimSeat, stint: Stint)
        requires seat { IsSeatOf self.now seat.old }
        requires open { IsOpen (seating seat.old) stint }
        requires answered { unanswered stint.far ≡ [] }
        ensures { EndsStint self.now false stint seat.old seat.new }
    {
        self.end(seat, stint, 0);
    }

    /// Ends a stint, whatever is unanswered; no claim gets the lane any more. It always
    /// succeeds.
    pub fn surrender(&self, seat: &mut ClaimSeat, stint: Stint)
        requires seat { IsSeatOf self.now seat.old }
        requires open { IsOpen (seating seat.old) stint }
        ensures { EndsStint self.now true stint seat.old seat.new }
    {
        self.end(seat, stint, SURRENDERED);
    }

    /// Takes each lane's end out, in the order of the lanes, once all seats were joined into this one, which holds no lane.
    /// One load and one swap per lane. It always succeeds.
    pub fn close(&self, seat: ClaimSeat, into: &mut Vec<Far>)
        requires seat { IsSeatOf self.now seat }
        requires whole { (seating seat).parts ≡ 64 }
        requires none_open { HoldsNone (seating seat) }
        requires room { (into.old.items ≡ []) × (length (lanes_of self.now) ≤ vec_capacity into.old) }
        ensures order { map far_id into.new.items ≡ map far_id (lanes_of self.now) }
        ensures ends { (lane : ℕ) (far : Far) → slice_get into.new.items lane ≡ Some far → IsEnd (lanes_of self.now) (seating seat).finished lane far }
        ensures lanes { All (λ p. p.lane < length (lanes_of self.now)) (seating seat).finished }
        ensures received { (f : Delivery → ℕ) → weight_received f (seating seat).finished ≡ sum_by (λ far. sum_by f (received_by far)) into.new.items }
        ensures answered { (f : Reply → ℕ) → weight_answered f (seating seat).finished ≡ sum_by (λ far. sum_by f (answered far)) into.new.items }
    {
        let ClaimSeat { mut seat, port: _ } = seat;
        for lane in 0..self.table.slot_count() {
            into.push_reserved(self.close_one(&mut seat, lane));
        }
    }

    // The lane's word.
    fn probe(&self, seat: &mut ClaimSeat, lane: usize) -> u64
        requires seat { IsSeatOf self.now seat.old }
        requires lane { lane < length (lanes_of self.now) }
        ensures seat { IsSeatOf self.now seat.new × (port_of seat.new ≡ port_of seat.old) }
        ensures seating { seating seat.new ≡ after_load lane result (seating seat.old) }
        ensures told { Reads lane result (seating seat.old) }
    {
        self.table.shared.load::<Probe>(&mut seat.seat, lane)
    }

    // Takes the lane's end where the lane's word is `word` still, which is that of a free lane; else the word that it found.
    fn seize(&self, seat: &mut ClaimSeat, lane: usize, word: u64) -> Result<BoxedFar, u64>
        requires seat { IsSeatOf self.now seat.old }
        requires port { port_of seat.old < 254 }
        requires lane { lane < length (lanes_of self.now) }
        requires free { (word % 256 ≡ 0) × (word / 256 + 1 < 2 ^ 56) }
        ensures seat { IsSeatOf self.now seat.new × (port_of seat.new ≡ port_of seat.old) }
        ensures held { IfOk result (λ far. Taken (port_of seat.old) lane (word / 256) far (seating seat.old) (seating seat.new)) }
        ensures raced { IfErr result (λ found. (found ≢ word) × (seating seat.new ≡ after_look lane found (seating seat.old)) × Reads lane found (seating seat.old)) }
    {
        let taken = word + seat.port as u64 + 1;
        let shared = &self.table.shared;
        let found = shared.compare_exchange::<ClaimExchange>(&mut seat.seat, lane, word, taken);
        if found != word {
            return Err(found);
        }
        let Some(far) = shared.exchange(&mut seat.seat, lane, None) else {
            unreachable!()
        };
        Ok(far)
    }

    // Puts the end into its slot, and the slot and the lane back. The word then ends in `tail`.
    #[inline(always)]
    fn end(&self, seat: &mut ClaimSeat, stint: Stint, tail: u64)
        requires seat { IsSeatOf self.now seat.old }
        requires open { IsOpen (seating seat.old) stint }
        requires tail { ((tail ≡ 0) × (unanswered stint.far ≡ [])) ⊎ (tail ≡ 255) }
        ensures { EndsStint self.now (tail == 255) stint seat.old seat.new }
    {
        let Stint { lane, number, far } = stint;
        let shared = &self.table.shared;
        shared.load::<Front>(&mut seat.seat, lane);
        // The slot is empty while the lane is held, so there is no end to be dropped.
        let None = shared.exchange(&mut seat.seat, lane, Some(far)) else {
            unreachable!()
        };
        shared.store::<Return>(&mut seat.seat, lane, 256 * (number + 1) + tail);
    }

    // Takes the end of a lane out for good; the lanes below it were closed before.
    fn close_one(&self, seat: &mut Seat<Option<BoxedFar>, Seating>, lane: usize) -> Far
        requires seat { (seat.old.table_id ≡ claims_id self.now) × (seat.old.me.0.lanes ≡ lanes_of self.now) }
        requires whole { (seat.old.me.0.parts ≡ 64) × (seat.old.me.0.closed ≡ lane) }
        requires none_open { HoldsNone seat.old.me.0 }
        requires lane { lane < length (lanes_of self.now) }
        ensures seat { (seat.new.table_id ≡ claims_id self.now) × (seat.new.me.0.lanes ≡ lanes_of self.now) }
        ensures whole { (seat.new.me.0.parts ≡ 64) × (seat.new.me.0.closed ≡ lane + 1) }
        ensures stints { (seat.new.me.0.held ≡ seat.old.me.0.held) × (seat.new.me.0.finished ≡ seat.old.me.0.finished) }
        ensures end { IsEnd (lanes_of self.now) seat.old.me.0.finished lane result }
    {
        let shared = &self.table.shared;
        let stints = shared.load::<Probe>(seat, lane) / 256;
        shared.swap::<ClosingSwap>(seat, lane, 256 * stints + SURRENDERED);
        let Some(far) = shared.exchange(seat, lane, None) else {
            unreachable!()
        };
        far.into_far()
    }
}
