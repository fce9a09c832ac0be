//! The port.

ghost use Rattle.std.specs.Prelude.{◌≡◌, ◌≢◌, ℕ, ◌+◌, [], true, false};
ghost use Rattle.credit_pool.specs.Pockets.{IsPocket};
ghost use Rattle.event_ports.specs.declared.lane.Lane.TheVariants.{Flow};
ghost use Rattle.event_ports.specs.Desks.{account_of as account_at, hand as hand_at, holds_flow, mores_by, news_by, pocket_of as pocket_at, releases_by};
ghost use Rattle.event_ports.specs.Lanes.{held_of};

use crate::counts::PortCounts;
use crate::desk::Desk;
use arrayvec::ArrayVec;
use event_answers::{Behind, Refused};
use evt_types::{Delivery, Event, PackedEvent, Reply};
use lane_rings::Deliveries;

/// A port of a device: the way of one thread into it and out of it. Between two of its calls all that it enqueued is in the reply
/// rings, where the scheduler sees it, and it holds just those flow lanes of which it holds something: each under its open stint.
/// In its pocket is what it drew and what it released, less what it returned, its NEWs and its FORWARD_MOREs.
#[derive(Drop)]
pub struct Port {
    pub(crate) desk: Desk,
    pub(crate) counts: PortCounts,
    pub ghost idle: { (j : ℕ) → held_of (Flow j) (hand_at desk).holding ≡ [] → holds_flow desk j ≡ false },
    pub ghost staffed: { (j : ℕ) → held_of (Flow j) (hand_at desk).holding ≢ [] → holds_flow desk j ≡ true },
    pub ghost paid: { IsPocket (pocket_at desk) ((account_at desk).drawn + releases_by desk) ((account_at desk).returned + news_by desk + mores_by desk) },
}

impl Port {
    ghost use Rattle.std.specs.Prelude.{◌≡◌, ◌≢◌, ◌+◌, ◌%◌, ◌^◌, ◌<◌, ◌≤◌, ◌↔◌, [], length, take, IsTrue, IsFalse, IsErr, IsNone, IfSome, IfOk, IfErr, OnOk, MatchResult};
    ghost use Rattle.evt_types.specs.declared.event.Op.TheVariants as ops;
    ghost use Rattle.credit_pool.specs.Accounts.{IsOpen, Stays};
    ghost use Rattle.event_answers.specs.declared.answer.Refused.TheVariants as refusals;
    ghost use Rattle.event_ports.specs.Lanes.{Rests, Releases, Dequeues, SubmitsTo, SubmitsAll, lane_for, reply_of};
    ghost use Rattle.event_ports.specs.declared.lane.Lane.TheVariants as lanes;
    ghost use Rattle.event_ports.specs.Claiming.{ClaimsEach};
    ghost use Rattle.event_ports.specs.Holds.{AreDrained};
    ghost use Rattle.event_ports.specs.Draws.{HasLooked, ReturnsSpare};
    ghost use Rattle.event_ports.specs.Queues.{AllNameQueues, NamesQueue};
    ghost use Rattle.event_ports.specs.Counts.{after_behind, after_burst, after_dequeue, after_enqueue, plus};
    ghost use Rattle.event_ports.specs.Desks.{events_of};
    ghost use Rattle.event_ports.specs.Ports.{own_site, account_of, claim_seating, flow_hands, counts_of, pocket_of, hand, seen_by, links, was_filled, SameCredits, Pays, Refuses, released_first, Bursts, StopsAt};

    /// The port's number in the device, from 0.
    pub fn number(&self) -> usize
        ensures { result ≡ (own_site self.now).number }
    {
        self.desk.number
    }

    /// How many deliveries were received and not answered.
    pub fn held(&self) -> usize
        ensures value { result ≡ length (hand self.now).holding }
        ensures within { result ≤ (own_site self.now).lanes.depth }
    {
        self.desk.lanes.held()
    }

    /// How many credits are in the port's pocket: those that were drawn or released, and not spent or returned.
    pub fn pocket(&self) -> u64
        ensures { result ≡ pocket_of self.now }
    {
        self.desk.pocket
    }

    /// What the port counted since it was made.
    pub fn counts(&self) -> PortCounts
        ensures { result ≡ counts_of self.now }
    {
        self.counts
    }

    /// Whether the device is shut, by one look at the credits. Once it was seen, every NEW is refused.
    pub fn shut_seen(&mut self) -> bool
        ensures site { own_site self.new ≡ own_site self.old }
        ensures credit { Stays (account_of self.old) (account_of self.new) }
        ensures same { Rests (hand self.old) (hand self.new) × SameCredits self.old self.new }
        ensures seen { IsTrue result ↔ IsTrue (account_of self.new).saw_shut }
        ensures read { IsFalse result → IsOpen (account_of self.new).last }
        ensures looked { HasLooked (account_of self.old) (account_of self.new) }
        ensures counted { counts_of self.new ≡ counts_of self.old }
    {
        self.desk.shut_seen()
    }

    /// Enqueues an event: a NEW to the port's own lane, for one credit; a FORWARD or RELEASE as the answer to the oldest delivery
    /// that is held, to the lane from which that came; a FORWARD_MORE to the same lane, for one credit, and that delivery stays held.
    /// What is taken names a queue of the device, where it is no RELEASE. A refused event changes nothing that was submitted or is held.
    ///
    /// The causes of a refusal in their order: of a NEW `Stopped`, `BadQueue`, `Backpressure` or `Raced`, `Full`; of an answer
    /// `BadQueue`, `NothingHeld`, `Full`; of a FORWARD_MORE `BadQueue`, `NothingHeld`, `TooMany`, then with an empty pocket `Stopped`,
    /// `Backpressure` or `Raced`, and `Full`. What was drawn before a `Full` stays in the pocket.
    #[tactic(auto, using(crate::proofs::IdleLanes::idle_lanes, crate::proofs::IdleLanes::staffed_lanes))]
    pub fn enqueue(&mut self, event: Event) -> Result<(), Refused>
        ensures site { own_site self.new ≡ own_site self.old }
        ensures credit { Stays (account_of self.old) (account_of self.new) }
        ensures submitted { MatchResult result (λ _. SubmitsTo (lane_for event.op (hand self.old).holding) (reply_of event) (hand self.old) (hand self.new)) (λ _. Rests (hand self.old) (hand self.new)) }
        ensures pays { OnOk result (Pays event.op self.old self.new) }
        ensures there { OnOk result (NamesQueue (own_site self.old).queues event) }
        ensures refused { IfErr result (λ e. Refuses self.old event e self.new) }
        ensures stopped { IsTrue (account_of self.old).saw_shut → event.op ≡ ops.New → result ≡ Err refusals.Stopped }
        ensures counted { counts_of self.new ≡ after_enqueue result (counts_of self.old) }
    {
        let packed = PackedEvent::of(&event);
        let answer = self.desk.submit(&packed);
        self.counts.enqueue(&answer);
        answer
    }

    /// Receives at most `max` deliveries, and no more than may be held: from the own lane until nothing is seen in its ring, and then
    /// from the linked flow lanes, of which one that isn't held is claimed by one try, where a hint says that it may have something,
    /// and goes back where nothing came. With implicit release all that is held is released first, oldest first; where a reply ring
    /// has no room for all of it, nothing is received and the rest stays held.
    pub fn dequeue(&mut self, max: usize) -> Result<ArrayVec<Delivery, 64>, Behind>
        ensures site { own_site self.new ≡ own_site self.old }
        ensures credit { Stays (account_of self.old) (account_of self.new) }
        ensures claims { ClaimsEach (links self.old) (claim_seating self.old) (claim_seating self.new) }
        ensures ok { IfOk result (λ v. Dequeues (links self.old) (released_first self.old) (hand self.old) (hand self.new) v.items) }
        ensures few { IfOk result (λ v. (length v.items ≤ max) × (length (hand self.new).holding ≤ (own_site self.old).lanes.depth)) }
        ensures drained { IfOk result (λ v. length v.items < max → length (hand self.new).holding < (own_site self.old).lanes.depth → seen_by self.new ≡ []) }
        ensures drained_flows { IfOk result (λ v. length v.items < max → length (hand self.new).holding < (own_site self.old).lanes.depth → AreDrained (flow_hands self.new)) }
        ensures own_first { IfOk result (λ v. length ((hand self.new).got lanes.Own) ≢ length ((hand self.old).got lanes.Own) + length v.items → seen_by self.new ≡ []) }
        ensures behind { IfErr result (λ b. IsTrue (own_site self.old).implicit × (b.released < length (hand self.old).holding) × Releases b.released (hand self.old) (hand self.new) × was_filled self.new ops.Release) }
        ensures returned_spare { MatchResult result
            (λ _. ReturnsSpare (own_site self.old).quantum ((pocket_of self.old + released_first self.old) % 2 ^ 64) (account_of self.old) (pocket_of self.new) (account_of self.new))
            (λ b. ReturnsSpare (own_site self.old).quantum ((pocket_of self.old + b.released) % 2 ^ 64) (account_of self.old) (pocket_of self.new) (account_of self.new)) }
        ensures counted { MatchResult result
            (λ v. counts_of self.new ≡ after_dequeue (released_first self.old) (length v.items) (counts_of self.old))
            (λ b. counts_of self.new ≡ after_behind b.released (counts_of self.old)) }
    {
        let mut row = Deliveries::new();
        match self.dequeue_burst(max, &mut row) {
            Ok(_) => {
                let mut deliveries = ArrayVec::new();
                let _ = deliveries.try_extend_from_slice(row.as_slice());
                Ok(deliveries)
            }
            Err(behind) => Err(behind),
        }
    }

    /// Dequeues into a row of the caller's, which is emptied first, and so spares the copies of a whole array: how many came. After `Behind`
    /// the row is empty.
    #[tactic(auto, using(crate::proofs::IdleLanes::idle_lanes, crate::proofs::IdleLanes::staffed_lanes))]
    pub fn dequeue_burst(&mut self, max: usize, into: &mut Deliveries) -> Result<usize, Behind>
        ensures site { own_site self.new ≡ own_site self.old }
        ensures credit { Stays (account_of self.old) (account_of self.new) }
        ensures claims { ClaimsEach (links self.old) (claim_seating self.old) (claim_seating self.new) }
        ensures ok { OnOk result (Dequeues (links self.old) (released_first self.old) (hand self.old) (hand self.new) into.new.items) }
        ensures few { OnOk result ((length into.new.items ≤ max) × (length (hand self.new).holding ≤ (own_site self.old).lanes.depth)) }
        ensures drained { OnOk result (length into.new.items < max → length (hand self.new).holding < (own_site self.old).lanes.depth → seen_by self.new ≡ []) }
        ensures drained_flows { OnOk result (length into.new.items < max → length (hand self.new).holding < (own_site self.old).lanes.depth → AreDrained (flow_hands self.new)) }
        ensures own_first { OnOk result (length ((hand self.new).got lanes.Own) ≢ length ((hand self.old).got lanes.Own) + length into.new.items → seen_by self.new ≡ []) }
        ensures count { IfOk result (λ n. n ≡ length into.new.items) }
        ensures none { IsErr result → into.new.items ≡ [] }
        ensures behind { IfErr result (λ b. IsTrue (own_site self.old).implicit × (b.released < length (hand self.old).holding) × Releases b.released (hand self.old) (hand self.new) × was_filled self.new ops.Release) }
        ensures returned_spare { MatchResult result
            (λ _. ReturnsSpare (own_site self.old).quantum ((pocket_of self.old + released_first self.old) % 2 ^ 64) (account_of self.old) (pocket_of self.new) (account_of self.new))
            (λ b. ReturnsSpare (own_site self.old).quantum ((pocket_of self.old + b.released) % 2 ^ 64) (account_of self.old) (pocket_of self.new) (account_of self.new)) }
        ensures counted { MatchResult result
            (λ _. counts_of self.new ≡ after_dequeue (released_first self.old) (length into.new.items) (counts_of self.old))
            (λ b. counts_of self.new ≡ after_behind b.released (counts_of self.old)) }
    {
        into.clear();
        let answer = self.desk.exchange(max, into);
        self.desk.return_spare();
        match answer {
            Ok(released) => {
                let came = into.len();
                self.counts.dequeue(released, came);
                Ok(came)
            }
            Err(behind) => {
                self.counts.fall_behind(behind.released);
                Err(behind)
            }
        }
    }

    /// Enqueues the events one after the other, each as `enqueue` does, up to the first that is refused: how many were taken, and why
    /// the next one wasn't. They are packed in parts, of which each goes as `enqueue_packed` has it.
    pub fn enqueue_burst(&mut self, events: &[Event]) -> (usize, Option<Refused>)
        ensures site { own_site self.new ≡ own_site self.old }
        ensures credit { Stays (account_of self.old) (account_of self.new) }
        ensures count { result.0 ≤ length events.now }
        ensures all { IsNone result.1 ↔ (result.0 ≡ length events.now) }
        ensures submitted { SubmitsAll (take result.0 events.now) (hand self.old) (hand self.new) }
        ensures there { AllNameQueues (own_site self.old).queues (take result.0 events.now) }
        ensures refused { IfSome result.1 (λ e. StopsAt self.old events.now result.0 e self.new) }
        ensures singly { Bursts self.old events.now result.0 result.1 self.new }
        ensures counted { counts_of self.new ≡ after_burst result.0 result.1 (counts_of self.old) }
        ensures taken { (counts_of self.new).enqueued ≡ plus (counts_of self.old).enqueued result.0 }
    {
        let answer = self.desk.submit_events(events);
        self.counts.enqueue_burst(answer.0, &answer.1);
        answer
    }

    /// The same of packed events, as they come out of a dequeue, each in the reply that carries it. What is of one operation and goes to the
    /// own lane in a row goes into its ring by one store, and is copied there and nowhere before.
    pub fn enqueue_packed(&mut self, replies: &[Reply]) -> (usize, Option<Refused>)
        ensures site { own_site self.new ≡ own_site self.old }
        ensures credit { Stays (account_of self.old) (account_of self.new) }
        ensures count { result.0 ≤ length replies.now }
        ensures all { IsNone result.1 ↔ (result.0 ≡ length replies.now) }
        ensures submitted { SubmitsAll (take result.0 (events_of replies.now)) (hand self.old) (hand self.new) }
        ensures there { AllNameQueues (own_site self.old).queues (take result.0 (events_of replies.now)) }
        ensures refused { IfSome result.1 (λ e. StopsAt self.old (events_of replies.now) result.0 e self.new) }
        ensures singly { Bursts self.old (events_of replies.now) result.0 result.1 self.new }
        ensures counted { counts_of self.new ≡ after_burst result.0 result.1 (counts_of self.old) }
        ensures taken { (counts_of self.new).enqueued ≡ plus (counts_of self.old).enqueued result.0 }
    {
        let answer = self.desk.submit_burst(replies);
        self.counts.enqueue_burst(answer.0, &answer.1);
        answer
    }
}
