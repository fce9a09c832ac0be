//! A held lane, and what a claim answers.

ghost use Rattle.std.specs.Prelude.{◌+◌, ◌<◌, ◌^◌};

use crate::boxed::BoxedFar;
use evt_types::{Delivery, MAX_EXTRAS, PackedEvent, Reply};
use lane_rings::{AnswerFault, Deliveries, Refusal};

/// A lane that a port holds, with the lane's end.
#[derive(Drop)]
pub struct Stint {
    pub lane: usize,
    /// How many stints the lane had before.
    pub number: u64,
    pub far: BoxedFar,
    pub ghost small: { number + 1 < 2 ^ 56 },
}

/// What a claim answers. The seat has one stint more at `Held`, and else the same ones.
#[derive(Drop)]
pub enum Claim {
    /// The lane has had as many stints as its word can count.
    WornOut,
    /// The lane's word, which was read, wasn't that of a free lane.
    Busy { seen: u64 },
    /// The lane was free, but another seat changed its word between the two reads, which found these words.
    Raced { first: u64, second: u64 },
    /// The port holds the lane.
    Held(Stint),
}

impl Stint {
    ghost use Rattle.std.specs.Prelude.{◌≡◌, ◌<◌, ◌≤◌, ◌↔◌, true, [], ◌∷◌, ◌++◌, length, IsFalse, MatchOption, MatchResult};
    ghost use Rattle.evt_types.specs.Additions.{AreBeside, extras_of};
    ghost use Rattle.evt_types.specs.Operation.{is_answer};
    ghost use Rattle.lane_rings.specs.Ends.{received_by, answered, unanswered, seen_deliveries, Comes};
    ghost use Rattle.lane_rings.specs.Identity.{far_id};
    ghost use Rattle.flow_claims.specs.declared.seating.Seating.{Seating};
    ghost use Rattle.lane_rings.specs.Refusal.{reply_of};
    ghost use Rattle.flow_claims.specs.Holder.{Receives, AnswersWith, SubmitsWith};
    ghost use Rattle.flow_claims.specs.Open.{IsOpen, received_so_far, answered_so_far};

    /// `Far::receive` of the lane's end. The stint stays open in the seat that has it.
    pub fn receive(&mut self) -> Option<Delivery>
        requires { length (unanswered self.old.far) < (far_id self.old.far).depth }
        ensures far { Receives self.old.far result self.new.far }
        ensures lane { (self.new.lane ≡ self.old.lane) × (self.new.number ≡ self.old.number) }
        ensures open { (v : Seating) → IsOpen v self.old → IsOpen v self.new }
        ensures so_far { (v : Seating) → IsOpen v self.old → MatchOption result
            (received_so_far v self.new ≡ received_so_far v self.old)
            (λ d. received_so_far v self.new ≡ received_so_far v self.old ++ d ∷ []) }
        ensures answered { (v : Seating) → answered_so_far v self.new ≡ answered_so_far v self.old }
    {
        let far = &mut self.far;
        far.end.receive()
    }

    /// `Far::receive_some` of the lane's end. The stint stays open in the seat that has it.
    pub fn receive_some(&mut self, most: usize, into: &mut Deliveries)
        requires { most ≤ 64 }
        ensures far { (far_id self.new.far ≡ far_id self.old.far) × (answered self.new.far ≡ answered self.old.far) }
        ensures came { Comes self.old.far into.old.items self.new.far into.new.items }
        ensures few { length into.old.items ≤ most → length into.new.items ≤ most }
        ensures drained { length into.new.items < most → length (unanswered self.new.far) < (far_id self.new.far).depth → seen_deliveries self.new.far ≡ [] }
        ensures lane { (self.new.lane ≡ self.old.lane) × (self.new.number ≡ self.old.number) }
        ensures open { (v : Seating) → IsOpen v self.old → IsOpen v self.new }
        ensures so_far { (v : Seating) → IsOpen v self.old → (c : Comes self.old.far into.old.items self.new.far into.new.items) → received_so_far v self.new ≡ received_so_far v self.old ++ c.came }
        ensures answered { (v : Seating) → answered_so_far v self.new ≡ answered_so_far v self.old }
    {
        let far = &mut self.far;
        far.end.receive_some(most, into);
    }

    /// `Far::receive_waiting` of the lane's end. The stint stays open in the seat that has it.
    #[inline(always)]
    pub fn receive_waiting(&mut self, most: usize, into: &mut Deliveries) -> bool
        requires most { most ≤ 64 }
        requires room { length into.old.items < most }
        ensures far { (far_id self.new.far ≡ far_id self.old.far) × (answered self.new.far ≡ answered self.old.far) }
        ensures came { Comes self.old.far into.old.items self.new.far into.new.items }
        ensures few { length into.new.items ≤ most }
        ensures drained { length into.new.items < most → length (unanswered self.new.far) < (far_id self.new.far).depth → seen_deliveries self.new.far ≡ [] }
        ensures left { IsFalse result ↔ (seen_deliveries self.new.far ≡ []) }
        ensures lane { (self.new.lane ≡ self.old.lane) × (self.new.number ≡ self.old.number) }
        ensures open { (v : Seating) → IsOpen v self.old → IsOpen v self.new }
        ensures so_far { (v : Seating) → IsOpen v self.old → (c : Comes self.old.far into.old.items self.new.far into.new.items) → received_so_far v self.new ≡ received_so_far v self.old ++ c.came }
        ensures answered { (v : Seating) → answered_so_far v self.new ≡ answered_so_far v self.old }
    {
        let far = &mut self.far;
        far.end.receive_waiting(most, into)
    }

    /// `Far::answer` of the lane's end. The stint stays open in the seat that has it.
    pub fn answer(&mut self, reply: Reply) -> Result<(), AnswerFault>
        ensures far { AnswersWith self.old.far reply result self.new.far }
        ensures lane { (self.new.lane ≡ self.old.lane) × (self.new.number ≡ self.old.number) }
        ensures open { (v : Seating) → IsOpen v self.old → IsOpen v self.new }
        ensures so_far { (v : Seating) → IsOpen v self.old → MatchResult result
            (λ _. answered_so_far v self.new ≡ answered_so_far v self.old ++ reply ∷ [])
            (λ _. answered_so_far v self.new ≡ answered_so_far v self.old) }
        ensures received { (v : Seating) → received_so_far v self.new ≡ received_so_far v self.old }
    {
        let far = &mut self.far;
        far.end.answer(reply)
    }

    /// `Far::submit` of the lane's end. The stint stays open in the seat that has it.
    #[inline(always)]
    pub fn submit(&mut self, event: &PackedEvent) -> Result<(), Refusal>
        ensures far { SubmitsWith self.old.far (reply_of event.now) result self.new.far }
        ensures lane { (self.new.lane ≡ self.old.lane) × (self.new.number ≡ self.old.number) }
        ensures open { (v : Seating) → IsOpen v self.old → IsOpen v self.new }
        ensures so_far { (v : Seating) → IsOpen v self.old → MatchResult result
            (λ _. answered_so_far v self.new ≡ answered_so_far v self.old ++ reply_of event.now ∷ [])
            (λ _. answered_so_far v self.new ≡ answered_so_far v self.old) }
        ensures received { (v : Seating) → received_so_far v self.new ≡ received_so_far v self.old }
    {
        let far = &mut self.far;
        far.end.submit(event)
    }

    /// `Far::extras` of the lane's end.
    pub fn extras(&self) -> usize
        ensures value { result ≡ extras_of (answered self.now.far) }
        ensures few { result ≤ MAX_EXTRAS }
        ensures beside { AreBeside (length (received_by self.now.far)) (answered self.now.far) }
    {
        let far = &self.far;
        far.end.extras()
    }
}
