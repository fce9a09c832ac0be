//! What a dequeue does at a port's desk, and the enqueue of several events.

ghost use Rattle.std.specs.Prelude.{◌≡◌, ◌+◌, ◌%◌, ◌^◌, ◌<◌, ◌≤◌, [], length, min, take, IsTrue, ◌↔◌, IsErr, IsNone, IfOk, IfErr, OnOk, MatchResult};
ghost use Rattle.evt_types.specs.declared.event.Op.TheVariants as ops;
ghost use Rattle.flow_claims.specs.Answers.{AsksNone};
ghost use Rattle.event_ports.specs.Claiming.{ClaimsEach};
ghost use Rattle.event_ports.specs.Holds.{AreDrained};
ghost use Rattle.event_ports.specs.Lanes.{Releases, Dequeues};
ghost use Rattle.event_ports.specs.Desks.{own_site, account_of, claim_seating, flow_hands, pocket_of, hand, seen_by, links, was_filled, released_first, Bursts, events_of};
ghost use Rattle.event_ports.specs.Handed.{OwnFirst};

use crate::desk::Desk;
use event_answers::{Behind, Refused};
use evt_types::{Event, PackedEvent, Reply};
use lane_rings::Deliveries;

/// How many replies are made at a time of events that aren't packed yet, and of what a dequeue releases.
const ROW: usize = 8;

/// Packs the first of the events, each in the reply that carries it, as far as the array has room: how many.
#[inline(always)]
fn pack(events: &[Event], replies: &mut [Reply]) -> usize
    ensures count { result ≡ min (length events.now) (length replies.old) }
    ensures room { length replies.new ≡ length replies.old }
    ensures packed { events_of (take result replies.new) ≡ take result events.now }
{
    let count = events.len().min(replies.len());
    for position in 0..count {
        replies[position] = Reply {
            event: PackedEvent::of(&events[position]),
        };
    }
    count
}

impl Desk {
    // Enqueues the events, one after the other, up to the first that is refused: so many at a time are packed, and go as a burst of replies.
    pub(crate) fn submit_events(&mut self, events: &[Event]) -> (usize, Option<Refused>)
        ensures count { result.0 ≤ length events.now }
        ensures all { IsNone result.1 ↔ (result.0 ≡ length events.now) }
        ensures chain { Bursts self.old events.now result.0 result.1 self.new }
    {
        let mut replies = [Reply::default(); ROW];
        let mut taken = 0;
        while taken < events.len() {
            let count = pack(&events[taken..], &mut replies);
            let (sent, refused) = self.submit_burst(&replies[..count]);
            taken += sent;
            if refused.is_some() {
                return (taken, refused);
            }
        }
        (taken, None)
    }

    // Enqueues what the replies bring, one after the other, up to the first that is refused: a row of them, then one by itself, until none is
    // left.
    pub(crate) fn submit_burst(&mut self, replies: &[Reply]) -> (usize, Option<Refused>)
        ensures count { result.0 ≤ length replies.now }
        ensures all { IsNone result.1 ↔ (result.0 ≡ length replies.now) }
        ensures chain { Bursts self.old (events_of replies.now) result.0 result.1 self.new }
    {
        let mut rest = replies;
        loop {
            let (row, refused) = self.submit_row(rest);
            rest = &rest[row..];
            if refused.is_some() {
                return (replies.len() - rest.len(), refused);
            }
            let Some((reply, others)) = rest.split_first() else {
                return (replies.len(), None);
            };
            if let Err(refused) = self.submit(&reply.event) {
                return (replies.len() - rest.len(), Some(refused));
            }
            rest = others;
        }
    }

    // What a dequeue does before the return rule: how many were released first.
    pub(crate) fn exchange(&mut self, max: usize, into: &mut Deliveries) -> Result<usize, Behind>
        requires { into.old.items ≡ [] }
        ensures site { own_site self.new ≡ own_site self.old }
        ensures claims { ClaimsEach (links self.old) (claim_seating self.old) (claim_seating self.new) }
        ensures credit { account_of self.new ≡ account_of self.old }
        ensures ok { OnOk result (Dequeues (links self.old) (released_first self.old) (hand self.old) (hand self.new) into.new.items) }
        ensures few { OnOk result ((length into.new.items ≤ max) × (length (hand self.new).holding ≤ (own_site self.old).lanes.depth)) }
        ensures drained { OnOk result (length into.new.items < max → length (hand self.new).holding < (own_site self.old).lanes.depth → seen_by self.new ≡ []) }
        ensures drained_flows { OnOk result (length into.new.items < max → length (hand self.new).holding < (own_site self.old).lanes.depth → AreDrained (flow_hands self.new)) }
        ensures own_first { OnOk result (OwnFirst self.old.lanes self.new.lanes into.new.items) }
        ensures released { IfOk result (λ n. n ≡ released_first self.old) }
        ensures none { IsErr result → into.new.items ≡ [] }
        ensures behind { IfErr result (λ b. IsTrue (own_site self.old).implicit × (b.released < length (hand self.old).holding) × Releases b.released (hand self.old) (hand self.new) × was_filled self.new ops.Release) }
        ensures pocket { MatchResult result
            (λ _. pocket_of self.new ≡ (pocket_of self.old + released_first self.old) % 2 ^ 64)
            (λ b. pocket_of self.new ≡ (pocket_of self.old + b.released) % 2 ^ 64) }
    {
        let _pocket = self.pocket;
        if !self.implicit {
            self.lanes.receive_all(max, into);
            return Ok(0);
        }
        let released = self.release_all()?;
        self.lanes.receive_all(max, into);
        Ok(released)
    }

    // Releases all that is held, oldest first, or as much as the reply rings take: how many.
    fn release_all(&mut self) -> Result<usize, Behind>
        ensures site { own_site self.new ≡ own_site self.old }
        ensures asks { AsksNone (claim_seating self.old) (claim_seating self.new) }
        ensures credit { account_of self.new ≡ account_of self.old }
        ensures all { IfOk result (λ n. n ≡ length (hand self.old).holding) }
        ensures ok { OnOk result (Releases (length (hand self.old).holding) (hand self.old) (hand self.new) × (pocket_of self.new ≡ (pocket_of self.old + length (hand self.old).holding) % 2 ^ 64)) }
        ensures behind { IfErr result (λ b. (b.released < length (hand self.old).holding) × Releases b.released (hand self.old) (hand self.new) × was_filled self.new ops.Release × (pocket_of self.new ≡ (pocket_of self.old + b.released) % 2 ^ 64)) }
    {
        let held = self.lanes.held();
        let rows = self.release_rows(held);
        for released in rows..held {
            if let Err(_) = self.lanes.answer(&PackedEvent::release()) {
                return Err(Behind { released });
            }
            self.pocket = self.pocket.wrapping_add(1);
        }
        Ok(held)
    }

    // Releases the oldest that are held, where they are several and came from the own lane, as far as its ring is known to have room: how
    // many. Those of a row go into the ring by one store.
    #[inline(always)]
    fn release_rows(&mut self, held: usize) -> usize
        requires { held ≡ length (hand self.old).holding }
        ensures site { own_site self.new ≡ own_site self.old }
        ensures asks { claim_seating self.new ≡ claim_seating self.old }
        ensures credit { account_of self.new ≡ account_of self.old }
        ensures within { result ≤ length (hand self.old).holding }
        ensures released { Releases result (hand self.old) (hand self.new) }
        ensures pocket { pocket_of self.new ≡ (pocket_of self.old + result) % 2 ^ 64 }
    {
        let _pocket = self.pocket;
        if held < 2 {
            return 0;
        }
        let releases = [Reply {
            event: PackedEvent::release(),
        }; ROW];
        let mut released = 0;
        while released < held {
            let row = self.lanes.own_row(ROW);
            if row == 0 {
                return released;
            }
            self.lanes.answer_row(&releases[..row]);
            self.pocket = self.pocket.wrapping_add(row as u64);
            released += row;
        }
        released
    }
}
