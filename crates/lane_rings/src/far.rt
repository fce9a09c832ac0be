//! The holder's end of a lane.

ghost use Rattle.std.specs.Prelude.{◌≡◌, ◌<◌, ◌≤◌, ◌+◌, [], ◌++◌, length, count_by, drop, map, take};
ghost use mathlib.Core.List.{IsPrefix};
ghost use Rattle.evt_types.specs.Additions.{AreBeside, extras_of};
ghost use Rattle.evt_types.specs.Event.{pair_of};
ghost use Rattle.evt_types.specs.Operation.{is_answer};
ghost use Rattle.evt_types.specs.declared.event.TheConstants.{MAX_EXTRAS};
ghost use Rattle.rtrb.specs.Ring.{consumer_capacity, known_items, SameConsumer};
ghost use Rattle.lane_rings.specs.HeldPairs.{holds};
ghost use Rattle.lane_rings.specs.Intakes.{inside, handed};
ghost use Rattle.lane_rings.specs.Outlets.{put_in};

use crate::deliveries::Deliveries;
use crate::held_pairs::HeldPairs;
use crate::intake::Intake;
use crate::outlet::Outlet;
use evt_types::{Delivery, MAX_EXTRAS, Op, PackedEvent, Reply};
use thiserror::Error;

/// Why a reply is refused; of two causes the first.
#[derive(Clone, Copy, Debug, PartialEq, Eq, Error)]
pub enum AnswerFault {
    /// A FORWARD, RELEASE or FORWARD_MORE where nothing that was received is unanswered.
    #[error("no received event is unanswered")]
    NothingHeld,
    /// A FORWARD_MORE where `MAX_EXTRAS` events were added beside the oldest already.
    #[error("too many events were added beside the oldest")]
    TooMany,
    /// The ring had no room. The reply comes back as it was.
    #[error("the reply ring is full")]
    Full(Reply),
}

/// Why a reply is refused, where it doesn't come back; of two causes the first.
#[derive(Clone, Copy, Debug, PartialEq, Eq)]
pub enum Refusal {
    /// A FORWARD, RELEASE or FORWARD_MORE where nothing that was received is unanswered.
    NothingHeld,
    /// A FORWARD_MORE where `MAX_EXTRAS` events were added beside the oldest already.
    TooMany,
    /// The ring has no room.
    Full,
}

/// The holder's end of a lane: it receives deliveries and answers. It knows which deliveries it has not answered, and how many
/// events it added beside the oldest of them.
#[derive(Drop)]
pub struct Far {
    pub(crate) deliveries: Intake<Delivery>,
    pub(crate) replies: Outlet<Reply>,
    pub(crate) held: HeldPairs,
    pub(crate) extras: usize,
    pub ghost held_is: { count_by is_answer (put_in replies) + length held.items ≡ length (handed deliveries) },
    pub ghost held_are: { held.items ≡ map pair_of (drop (count_by is_answer (put_in replies)) (handed deliveries)) },
    ghost held_few: { length held.items ≤ consumer_capacity deliveries.ring },
    ghost held_room: { consumer_capacity deliveries.ring ≤ held.room },
    ghost all_received: { inside deliveries ≡ [] },
    ghost extras_are: { extras ≡ extras_of (put_in replies) },
    ghost extras_few: { extras ≤ MAX_EXTRAS },
    pub ghost beside: { AreBeside (length (handed deliveries)) (put_in replies) },
}

/// Hands out at most `most` of what the ring has, of which nothing was fetched, and which is held then. It is copied once, as one row.
#[inline(always)]
fn hand_row(from: &mut Intake<Delivery>, held: &mut HeldPairs, most: usize, into: &mut Deliveries)
    requires into { length into.old.items + most ≤ 64 }
    requires held { length held.old.items + most ≤ held.old.room }
    requires none { inside from.old ≡ [] }
    ensures ring { SameConsumer from.old.ring from.new.ring }
    ensures none { inside from.new ≡ [] }
    ensures into { into.new.items ≡ into.old.items ++ drop (length into.old.items) into.new.items }
    ensures handed { handed from.new ≡ handed from.old ++ drop (length into.old.items) into.new.items }
    ensures held { held.new ≡ holds (held.old.items ++ map pair_of (drop (length into.old.items) into.new.items)) held.old.room }
    ensures few { length into.new.items ≤ length into.old.items + most }
    ensures known { IsPrefix (known_items from.old.ring) (drop (length into.old.items) into.new.items ++ known_items from.new.ring) }
    ensures short { length into.new.items < length into.old.items + most → known_items from.new.ring ≡ [] }
{
    let there = into.len();
    into.take_row(from, most);
    held.note(&into.as_slice()[there..]);
}

/// Hands out the first delivery that the ring showed, of which nothing was fetched, and which is held then. It is copied once, and by
/// no loop.
#[inline(always)]
fn hand_first(from: &mut Intake<Delivery>, held: &mut HeldPairs, into: &mut Deliveries)
    requires room { length into.old.items < 64 }
    requires held { length held.old.items < held.old.room }
    requires none { inside from.old ≡ [] }
    requires some { 0 < length (known_items from.old.ring) }
    ensures ring { SameConsumer from.old.ring from.new.ring }
    ensures handed { handed from.new ≡ handed from.old ++ take 1 (known_items from.old.ring) }
    ensures none { inside from.new ≡ [] }
    ensures known { known_items from.new.ring ≡ drop 1 (known_items from.old.ring) }
    ensures held { held.new ≡ holds (held.old.items ++ map pair_of (take 1 (known_items from.old.ring))) held.old.room }
    ensures into { into.new.items ≡ into.old.items ++ take 1 (known_items from.old.ring) }
{
    let first = from.first_there();
    held.note_one(first);
    into.push(*first);
    from.pass_there();
}

impl Far {
    ghost use Rattle.std.specs.Prelude.{◌≡◌, ◌≢◌, ◌<◌, ◌≤◌, ◌↔◌, ◌+◌, true, false, List, [], ◌∷◌, ◌++◌, All, length, drop, map, slice_get, IsTrue, IsFalse, OnOk, IfOk, IfErr, IfNone, MatchOption, MatchResult};
    ghost use Rattle.evt_types.specs.Additions.{more_after};
    ghost use Rattle.evt_types.specs.Operation.{is_answer, is_more_reply, is_new_reply, needs_held};
    ghost use mathlib.Core.List.{IsPrefix};
    ghost use Rattle.evt_types.specs.declared.event.Reply.{Reply as ReplyValue};
    ghost use Rattle.lane_rings.specs.Ends.{received_by, seen_deliveries, next_delivery, answered, answers_among, unanswered, held_list, room_left, Comes};
    ghost use Rattle.lane_rings.specs.Identity.{far_id};
    ghost use Rattle.lane_rings.specs.Refusal.{RefusesAnswer, RefusesReply, reply_of};

    /// Receives the oldest delivery out of the ring; it is then held until it is answered. Wants `is_full` to be false: fewer are
    /// held than the lane's depth.
    /// `None` where no delivery is seen; the scheduler may have offered one by the next call.
    #[inline(always)]
    pub fn receive(&mut self) -> Option<Delivery>
        requires { length (unanswered self.old) < (far_id self.old).depth }
        ensures lane { far_id self.new ≡ far_id self.old }
        ensures answered { answered self.new ≡ answered self.old }
        ensures received { MatchOption result
            (received_by self.new ≡ received_by self.old)
            (λ d. received_by self.new ≡ received_by self.old ++ d ∷ []) }
        ensures held { MatchOption result
            (unanswered self.new ≡ unanswered self.old)
            (λ d. unanswered self.new ≡ unanswered self.old ++ d ∷ []) }
        ensures next { (d : Delivery) → next_delivery self.old ≡ Some d → result ≡ Some d }
        ensures none { IfNone result ((seen_deliveries self.old ≡ []) × (seen_deliveries self.new ≡ [])) }
    {
        self.deliveries.look(1);
        let first = self.deliveries.first()?;
        let delivery = *first;
        self.deliveries.next();
        self.held.note_one(&delivery);
        Some(delivery)
    }

    /// Receives deliveries, oldest first, until the array has `most` or as many are held as the lane's depth allows: one by one as
    /// `receive` does, but out of the ring by one store. Where it ends before that, none is seen in the ring.
    #[inline(always)]
    pub fn receive_some(&mut self, most: usize, into: &mut Deliveries)
        requires { most ≤ 64 }
        ensures lane { far_id self.new ≡ far_id self.old }
        ensures answered { answered self.new ≡ answered self.old }
        ensures came { Comes self.old into.old.items self.new into.new.items }
        ensures few { length into.old.items ≤ most → length into.new.items ≤ most }
        ensures within { length (unanswered self.new) ≤ (far_id self.new).depth }
        ensures drained { length into.new.items < most → length (unanswered self.new) < (far_id self.new).depth → seen_deliveries self.new ≡ [] }
    {
        let room = self.deliveries.ring.capacity() - self.held.len();
        let wanted = room.min(most.saturating_sub(into.len()));
        hand_row(&mut self.deliveries, &mut self.held, wanted, into);
    }

    /// As `receive_some`, where the array has fewer than `most`. Whether a delivery is seen then: all that lay in the ring as the call
    /// began was looked at.
    #[inline(always)]
    pub fn receive_waiting(&mut self, most: usize, into: &mut Deliveries) -> bool
        requires most { most ≤ 64 }
        requires room { length into.old.items < most }
        ensures lane { far_id self.new ≡ far_id self.old }
        ensures answered { answered self.new ≡ answered self.old }
        ensures came { Comes self.old into.old.items self.new into.new.items }
        ensures few { length into.new.items ≤ most }
        ensures within { length (unanswered self.new) ≤ (far_id self.new).depth }
        ensures drained { length into.new.items < most → length (unanswered self.new) < (far_id self.new).depth → seen_deliveries self.new ≡ [] }
        ensures left { IsFalse result ↔ (seen_deliveries self.new ≡ []) }
    {
        let there = self.deliveries.there();
        if there == 0 {
            return false;
        }
        if there == 1 && !self.is_full() {
            hand_first(&mut self.deliveries, &mut self.held, into);
            return false;
        }
        self.receive_row(most, into)
    }

    // The same of more than one delivery, or of none.
    #[cold]
    fn receive_row(&mut self, most: usize, into: &mut Deliveries) -> bool
        requires most { most ≤ 64 }
        ensures lane { far_id self.new ≡ far_id self.old }
        ensures answered { answered self.new ≡ answered self.old }
        ensures came { Comes self.old into.old.items self.new into.new.items }
        ensures few { length into.old.items ≤ most → length into.new.items ≤ most }
        ensures within { length (unanswered self.new) ≤ (far_id self.new).depth }
        ensures drained { length into.new.items < most → length (unanswered self.new) < (far_id self.new).depth → seen_deliveries self.new ≡ [] }
        ensures left { IsFalse result ↔ (seen_deliveries self.new ≡ []) }
    {
        self.receive_some(most, into);
        self.deliveries.sees()
    }

    /// Puts a reply into the ring, where the scheduler sees it. A FORWARD or RELEASE answers the oldest delivery that is held; a
    /// FORWARD_MORE adds an event beside it, of which there may be `MAX_EXTRAS`. `Full` never comes before as many replies were given
    /// as the ring has room for. A refused answer changes nothing.
    pub fn answer(&mut self, reply: Reply) -> Result<(), AnswerFault>
        ensures lane { far_id self.new ≡ far_id self.old }
        ensures received { (received_by self.new ≡ received_by self.old) × (seen_deliveries self.new ≡ seen_deliveries self.old) }
        ensures answered { MatchResult result
            (λ _. answered self.new ≡ answered self.old ++ reply ∷ [])
            (λ _. answered self.new ≡ answered self.old) }
        ensures held { MatchResult result
            (λ _. unanswered self.new ≡ drop (answers_among (reply ∷ [])) (unanswered self.old))
            (λ _. unanswered self.new ≡ unanswered self.old) }
        ensures nothing_held { (result ≡ Err AnswerFault.NothingHeld) ↔ ((needs_held reply ≡ true) × (unanswered self.old ≡ [])) }
        ensures too_many { (result ≡ Err AnswerFault.TooMany) ↔ ((is_more_reply reply ≡ true) × (unanswered self.old ≢ []) × (MAX_EXTRAS ≤ extras_of (answered self.old))) }
        ensures refused { IfErr result (RefusesAnswer self.old reply) }
    {
        match self.submit(&reply.event) {
            Ok(()) => Ok(()),
            Err(Refusal::NothingHeld) => Err(AnswerFault::NothingHeld),
            Err(Refusal::TooMany) => Err(AnswerFault::TooMany),
            Err(Refusal::Full) => Err(AnswerFault::Full(reply)),
        }
    }

    /// As `answer`, of the event's reply. The event is copied into the ring, and nowhere before.
    #[inline(always)]
    pub fn submit(&mut self, event: &PackedEvent) -> Result<(), Refusal>
        ensures lane { far_id self.new ≡ far_id self.old }
        ensures received { (received_by self.new ≡ received_by self.old) × (seen_deliveries self.new ≡ seen_deliveries self.old) }
        ensures answered { MatchResult result
            (λ _. answered self.new ≡ answered self.old ++ reply_of event.now ∷ [])
            (λ _. answered self.new ≡ answered self.old) }
        ensures held { MatchResult result
            (λ _. unanswered self.new ≡ drop (answers_among (reply_of event.now ∷ [])) (unanswered self.old))
            (λ _. unanswered self.new ≡ unanswered self.old) }
        ensures nothing_held { (result ≡ Err Refusal.NothingHeld) ↔ ((needs_held (reply_of event.now) ≡ true) × (unanswered self.old ≡ [])) }
        ensures too_many { (result ≡ Err Refusal.TooMany) ↔ ((is_more_reply (reply_of event.now) ≡ true) × (unanswered self.old ≢ []) × (MAX_EXTRAS ≤ extras_of (answered self.old))) }
        ensures refused { IfErr result (RefusesReply self.old (reply_of event.now)) }
    {
        // What is put into the ring may lie where the event does, as far as the compiler can tell: it would be read again.
        let is_new = event.is_new();
        let (ended, extras) = self.after(event)?;
        if !self.replies.has_room() {
            return Err(Refusal::Full);
        }
        self.replies.put_one(Reply { event: *event });
        // A NEW answers nothing, so what is held isn't written.
        if is_new {
            return Ok(());
        }
        self.held.skip(ended);
        self.extras = extras;
        Ok(())
    }

    /// How many replies more there is a free slot for, as far as that is known; the next `submit` looks where none is known.
    #[inline(always)]
    pub fn known_room(&self) -> usize
        ensures { result ≡ room_left self.now }
    {
        self.replies.free
    }

    /// As `answer`, of FORWARDs and RELEASEs one after the other, of which each answers a delivery that is held, and for which there is
    /// room: they go into the ring by one store. They are copied there, and nowhere before.
    #[inline(always)]
    pub fn answer_row(&mut self, replies: &[Reply])
        requires some { 0 < length replies.now }
        requires answers { All (λ (r : ReplyValue). is_answer r ≡ true) replies.now }
        requires held { length replies.now ≤ length (unanswered self.old) }
        requires room { length replies.now ≤ room_left self.old }
        ensures lane { far_id self.new ≡ far_id self.old }
        ensures received { (received_by self.new ≡ received_by self.old) × (seen_deliveries self.new ≡ seen_deliveries self.old) }
        ensures answered { answered self.new ≡ answered self.old ++ replies.now }
        ensures held { unanswered self.new ≡ drop (length replies.now) (unanswered self.old) }
    {
        self.replies.put_all(replies);
        self.held.skip(replies.len());
        self.extras = 0;
    }

    /// The same of NEWs, for which there is room.
    #[inline(always)]
    pub fn bring_row(&mut self, replies: &[Reply])
        requires news { All (λ (r : ReplyValue). is_new_reply r ≡ true) replies.now }
        requires room { length replies.now ≤ room_left self.old }
        ensures lane { far_id self.new ≡ far_id self.old }
        ensures received { (received_by self.new ≡ received_by self.old) × (seen_deliveries self.new ≡ seen_deliveries self.old) }
        ensures answered { answered self.new ≡ answered self.old ++ replies.now }
        ensures held { unanswered self.new ≡ unanswered self.old }
    {
        self.replies.put_all(replies);
    }

    // How many of the deliveries that are held the event's reply answers, and how many events are beside the oldest once it is given; or
    // why it can't be.
    #[inline(always)]
    fn after(&self, event: &PackedEvent) -> Result<(usize, usize), Refusal>
        ensures ended { IfOk result (λ n. (n.0 ≡ answers_among (reply_of event.now ∷ [])) × (n.0 ≤ length self.now.held.items)) }
        ensures extras { IfOk result (λ n. (n.1 ≡ more_after self.now.extras (reply_of event.now)) × (n.1 ≤ MAX_EXTRAS)) }
        ensures may_add { IfOk result (λ n. is_more_reply (reply_of event.now) ≡ true → (0 < length self.now.held.items) × (self.now.extras < MAX_EXTRAS)) }
        ensures needs { IfOk result (λ n. needs_held (reply_of event.now) ≡ true → 0 < length self.now.held.items) }
        ensures nothing_held { (result ≡ Err Refusal.NothingHeld) ↔ ((needs_held (reply_of event.now) ≡ true) × (length self.now.held.items ≡ 0)) }
        ensures too_many { (result ≡ Err Refusal.TooMany) ↔ ((is_more_reply (reply_of event.now) ≡ true) × (0 < length self.now.held.items) × (MAX_EXTRAS ≤ self.now.extras)) }
        ensures full { result ≢ Err Refusal.Full }
    {
        if event.is_new() {
            return Ok((0, self.extras));
        }
        if self.held.len() == 0 {
            return Err(Refusal::NothingHeld);
        }
        if event.op() != Op::ForwardMore {
            return Ok((1, 0));
        }
        if self.extras == MAX_EXTRAS {
            return Err(Refusal::TooMany);
        }
        Ok((0, self.extras + 1))
    }

    /// How many deliveries were received and not answered, from 0 to the lane's depth.
    pub fn held(&self) -> usize
        ensures value { result ≡ length (unanswered self.now) }
        ensures within { result ≤ (far_id self.now).depth }
        ensures fewer { answers_among (answered self.now) ≤ length (received_by self.now) }
    {
        self.held.len()
    }

    /// The queue and the number of the oldest delivery that was received and not answered: the next answer ends it, and what is added is
    /// added beside it. `None` where nothing is held.
    #[inline(always)]
    pub fn oldest(&self) -> Option<(usize, u64)>
        ensures { result ≡ slice_get (held_list self.now) 0 }
    {
        self.held.get(0)
    }

    /// The same of the delivery that so many older ones stand before; `None` where no more are held.
    pub fn held_at(&self, position: usize) -> Option<(usize, u64)>
        ensures { result ≡ slice_get (held_list self.now) position }
    {
        self.held.get(position)
    }

    /// How many events were added beside the oldest delivery that is held: the FORWARD_MOREs since the last FORWARD or RELEASE.
    /// Each was given while something was held, and with fewer than `MAX_EXTRAS` beside it.
    pub fn extras(&self) -> usize
        ensures value { result ≡ extras_of (answered self.now) }
        ensures few { result ≤ MAX_EXTRAS }
        ensures beside { AreBeside (length (received_by self.now)) (answered self.now) }
    {
        self.extras
    }

    /// Whether as many deliveries are held as the lane's depth allows; where not, `receive` may be called.
    pub fn is_full(&self) -> bool
        ensures full { IsTrue result ↔ (length (unanswered self.now) ≡ (far_id self.now).depth) }
        ensures room { result ≡ false → length (unanswered self.now) < (far_id self.now).depth }
    {
        self.held.len() == self.deliveries.ring.capacity()
    }
}
