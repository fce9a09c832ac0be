//! The scheduler's end of a lane.

use crate::gathering::Gathering;
use crate::intake::Intake;
use evt_types::{Delivery, Reply};

/// The scheduler's end of a lane: it offers deliveries and takes replies.
#[derive(Drop)]
pub struct Near {
    pub(crate) deliveries: Gathering<Delivery>,
    pub(crate) replies: Intake<Reply>,
}

impl Near {
    ghost use Rattle.std.specs.Prelude.{◌≡◌, ◌≢◌, ◌+◌, ◌<◌, ◌≤◌, [], ◌∷◌, ◌++◌, drop, length, take, Some, IsFalse, IsTrue, OnOk, OnErr, IfErr, IfNone, IfSome, IsSome, MatchOption};
    ghost use mathlib.Core.List.{IsPrefix};
    ghost use Rattle.lane_rings.specs.Ends.{offered, hidden_offers, room_in, taken, seen_replies, fetched_replies, next_reply};
    ghost use Rattle.lane_rings.specs.Identity.{near_id};

    /// Puts a delivery into the ring, where the holder sees it, or hands it back where the ring is full: never before as many were
    /// offered as the lane's depth. A refused offer changes nothing that was offered or taken.
    pub fn offer(&mut self, delivery: Delivery) -> Result<(), Delivery>
        ensures lane { near_id self.new ≡ near_id self.old }
        ensures replies { (taken self.new ≡ taken self.old) × (seen_replies self.new ≡ seen_replies self.old) × (fetched_replies self.new ≡ fetched_replies self.old) }
        ensures ok { OnOk result (offered self.new ≡ offered self.old ++ delivery ∷ []) }
        ensures refused { IfErr result (λ back. (back ≡ delivery) × (offered self.new ≡ offered self.old)) }
        ensures full { OnErr result ((near_id self.old).depth ≤ length (offered self.old)) }
        ensures shown { hidden_offers self.new ≡ [] }
    {
        let staged = self.stage(&delivery);
        self.flush();
        if staged { Ok(()) } else { Err(delivery) }
    }

    /// As `offer`, but the delivery is gathered: it goes into the ring by the next `flush`, and until then the holder can't see it.
    /// It is copied where it is gathered, and nowhere before; false where the ring is full.
    pub fn stage(&mut self, delivery: &Delivery) -> bool
        ensures lane { near_id self.new ≡ near_id self.old }
        ensures replies { (taken self.new ≡ taken self.old) × (seen_replies self.new ≡ seen_replies self.old) × (fetched_replies self.new ≡ fetched_replies self.old) }
        ensures ok { IsTrue result → offered self.new ≡ offered self.old ++ delivery.now ∷ [] }
        ensures refused { IsFalse result → offered self.new ≡ offered self.old }
        ensures full { IsFalse result → (near_id self.old).depth ≤ length (offered self.old) }
    {
        self.deliveries.put(delivery)
    }

    /// As `stage`, of a delivery for which there is room.
    #[inline(always)]
    pub fn gather(&mut self, delivery: &Delivery)
        requires { 0 < room_in self.old }
        ensures lane { near_id self.new ≡ near_id self.old }
        ensures replies { (taken self.new ≡ taken self.old) × (seen_replies self.new ≡ seen_replies self.old) × (fetched_replies self.new ≡ fetched_replies self.old) }
        ensures offered { offered self.new ≡ offered self.old ++ delivery.now ∷ [] }
        ensures room { room_in self.new + 1 ≡ room_in self.old }
    {
        self.deliveries.gather(*delivery);
    }

    /// Puts all that was gathered into the ring, by one store: the holder sees it. Nothing that is seen at this end changes.
    pub fn flush(&mut self)
        ensures lane { near_id self.new ≡ near_id self.old }
        ensures lists { (offered self.new ≡ offered self.old) × (taken self.new ≡ taken self.old) × (seen_replies self.new ≡ seen_replies self.old) }
        ensures fetched { fetched_replies self.new ≡ fetched_replies self.old }
        ensures shown { hidden_offers self.new ≡ [] }
    {
        self.deliveries.flush();
    }

    /// How many deliveries one `offer_all` may have: so many slots of the ring at least are free. The ring is looked at anew where none
    /// is known to be.
    #[inline(always)]
    pub fn room(&mut self) -> usize
        ensures lane { near_id self.new ≡ near_id self.old }
        ensures lists { (offered self.new ≡ offered self.old) × (hidden_offers self.new ≡ hidden_offers self.old) × (taken self.new ≡ taken self.old) × (seen_replies self.new ≡ seen_replies self.old) × (fetched_replies self.new ≡ fetched_replies self.old) }
        ensures room { result ≡ room_in self.new }
        ensures full { result ≡ 0 → (near_id self.old).depth ≤ length (offered self.old) }
    {
        self.deliveries.room()
    }

    /// The same, where the ring is looked at anew where fewer than so many are known to be free.
    #[inline(always)]
    pub fn room_for(&mut self, count: usize) -> usize
        ensures lane { near_id self.new ≡ near_id self.old }
        ensures lists { (offered self.new ≡ offered self.old) × (hidden_offers self.new ≡ hidden_offers self.old) × (taken self.new ≡ taken self.old) × (seen_replies self.new ≡ seen_replies self.old) × (fetched_replies self.new ≡ fetched_replies self.old) }
        ensures room { result ≡ room_in self.new }
    {
        self.deliveries.room_for(count)
    }

    /// Puts the deliveries into the ring, by one store: the holder sees them. They are copied there, and nowhere before.
    #[inline(always)]
    pub fn offer_all(&mut self, deliveries: &[Delivery])
        requires room { length deliveries.now ≤ room_in self.old }
        requires shown { hidden_offers self.old ≡ [] }
        ensures lane { near_id self.new ≡ near_id self.old }
        ensures replies { (taken self.new ≡ taken self.old) × (seen_replies self.new ≡ seen_replies self.old) × (fetched_replies self.new ≡ fetched_replies self.old) }
        ensures offered { offered self.new ≡ offered self.old ++ deliveries.now }
        ensures shown { hidden_offers self.new ≡ [] }
    {
        self.deliveries.put_all(deliveries);
    }

    /// Takes at most `most` replies out of the ring, by one store; where some are left that were fetched before, it takes none out, and
    /// only looks at the ring. Whether one is fetched. Until they are taken, by `take` or `pass`, they are untaken; the holder may give as
    /// many more.
    #[inline(always)]
    pub fn fetch(&mut self, most: usize) -> bool
        ensures lane { near_id self.new ≡ near_id self.old }
        ensures lists { (offered self.new ≡ offered self.old) × (hidden_offers self.new ≡ hidden_offers self.old) × (taken self.new ≡ taken self.old) }
        ensures seen { IsPrefix (seen_replies self.old) (seen_replies self.new) }
        ensures few { fetched_replies self.old ≡ [] → length (fetched_replies self.new) ≤ most }
        ensures stays { fetched_replies self.old ≢ [] → fetched_replies self.new ≡ fetched_replies self.old }
        ensures some { IsTrue result → fetched_replies self.new ≢ [] }
        ensures nothing { IsFalse result → fetched_replies self.new ≡ [] }
        ensures none { 0 < most → fetched_replies self.new ≡ [] → seen_replies self.new ≡ [] }
    {
        self.replies.look(most)
    }

    /// Whether a reply is seen that isn't taken, in the ring or out of it, as far as looks have shown. The ring isn't looked at anew.
    #[inline(always)]
    pub fn sees(&self) -> bool
        ensures some { IsTrue result → seen_replies self.now ≢ [] }
        ensures none { IsFalse result → seen_replies self.now ≡ [] }
    {
        self.replies.sees()
    }

    /// The oldest reply that wasn't taken, which stays: the next `take` gives the same one. `None` where no reply is seen; the
    /// holder may have given one by the next call.
    #[tactic(auto, using(crate::proofs::Handing::of_looks))]
    pub fn peek(&mut self) -> Option<Reply>
        ensures lane { near_id self.new ≡ near_id self.old }
        ensures lists { (offered self.new ≡ offered self.old) × (hidden_offers self.new ≡ hidden_offers self.old) × (taken self.new ≡ taken self.old) }
        ensures next { MatchOption result (seen_replies self.new ≡ []) (λ r. next_reply self.new ≡ Some r) }
        ensures same { (r : Reply) → next_reply self.old ≡ Some r → result ≡ Some r }
    {
        self.fetch(1);
        self.replies.first().copied()
    }

    /// Takes the oldest reply: out of the ring, where none is left that was fetched. `None` where no reply is seen.
    #[inline(always)]
    pub fn take(&mut self) -> Option<Reply>
        ensures lane { near_id self.new ≡ near_id self.old }
        ensures offered { (offered self.new ≡ offered self.old) × (hidden_offers self.new ≡ hidden_offers self.old) }
        ensures taken { MatchOption result
            (taken self.new ≡ taken self.old)
            (λ r. taken self.new ≡ taken self.old ++ r ∷ []) }
        ensures next { (r : Reply) → next_reply self.old ≡ Some r → result ≡ Some r }
        ensures none { IfNone result ((seen_replies self.old ≡ []) × (seen_replies self.new ≡ [])) }
        ensures fetched { fetched_replies self.new ≡ drop 1 (fetched_replies self.old) }
    {
        self.fetch(1);
        self.replies.next()
    }

    /// The replies that were fetched and not taken, oldest first, where they lie.
    #[inline(always)]
    pub fn fetched(&self) -> &[Reply]
        ensures value { result.now ≡ fetched_replies self.now }
        ensures seen { IsPrefix result.now (seen_replies self.now) }
    {
        self.replies.batch()
    }

    /// Takes the oldest replies that were fetched, so many: nothing of them is copied.
    #[inline(always)]
    pub fn pass(&mut self, count: usize)
        requires { count ≤ length (fetched_replies self.old) }
        ensures lane { near_id self.new ≡ near_id self.old }
        ensures offered { (offered self.new ≡ offered self.old) × (hidden_offers self.new ≡ hidden_offers self.old) }
        ensures taken { taken self.new ≡ taken self.old ++ take count (fetched_replies self.old) }
        ensures fetched { fetched_replies self.new ≡ drop count (fetched_replies self.old) }
        ensures seen { seen_replies self.new ≡ drop count (seen_replies self.old) }
    {
        self.replies.skip(count);
    }
}
