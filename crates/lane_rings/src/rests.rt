//! What is left in a lane at rest.

use crate::held_pairs::HeldPairs;
use crate::intake::Intake;
use evt_types::{Delivery, Reply};
use std::collections::VecDeque;

/// A lane whose ends are both at hand: the deliveries not received, the replies not taken, and which deliveries are held.
#[derive(Drop)]
pub struct Beside {
    pub(crate) deliveries: Intake<Delivery>,
    pub(crate) offered: VecDeque<Delivery>,
    pub(crate) replies: Intake<Reply>,
    pub(crate) held: HeldPairs,
}

impl Beside {
    ghost use Rattle.std.specs.Prelude.{◌≡◌, [], ◌∷◌, MatchOption};
    ghost use Rattle.lane_rings.specs.Rest.{undelivered, untaken, held_pairs, held_in};

    /// The oldest delivery that was offered and not received, which leaves; `None` only where none is left.
    pub fn next_undelivered(&mut self) -> Option<Delivery>
        ensures rest { MatchOption result
            ((undelivered self.old ≡ []) × (undelivered self.new ≡ []))
            (λ d. undelivered self.old ≡ d ∷ undelivered self.new) }
        ensures others { (untaken self.new ≡ untaken self.old) × (held_pairs self.new ≡ held_pairs self.old) }
    {
        let seen = self.deliveries.next_seen();
        if seen.is_some() {
            return seen;
        }
        self.offered.pop_front()
    }

    /// The oldest reply that was given and not taken, which leaves; `None` only where none is left.
    pub fn next_untaken(&mut self) -> Option<Reply>
        ensures rest { MatchOption result
            ((untaken self.old ≡ []) × (untaken self.new ≡ []))
            (λ r. untaken self.old ≡ r ∷ untaken self.new) }
        ensures others { (undelivered self.new ≡ undelivered self.old) × (held_pairs self.new ≡ held_pairs self.old) }
    {
        self.replies.next_seen()
    }

    /// The queue and the number of the oldest delivery that was received and not answered, which leaves; `None` only where none is left.
    pub fn next_held(&mut self) -> Option<(usize, u64)>
        ensures rest { MatchOption result
            ((held_pairs self.old ≡ []) × (held_pairs self.new ≡ []))
            (λ p. held_pairs self.old ≡ p ∷ held_pairs self.new) }
        ensures others { (undelivered self.new ≡ undelivered self.old) × (untaken self.new ≡ untaken self.old) }
    {
        let oldest = self.held.get(0)?;
        self.held.skip(1);
        Some(oldest)
    }

    /// How many deliveries were received and not answered, and didn't leave.
    pub fn held(&self) -> usize
        ensures { result ≡ held_in self.now }
    {
        self.held.len()
    }
}
