//! Laws of the claim words, of every state between two steps of any seats. Each function does nothing: its contract is the law.

ghost use Rattle.std.specs.Prelude.{◌≡◌, ◌≢◌, ℕ, ◌+◌, ◌*◌, ◌/◌, ◌%◌, ◌<◌, ◌≤◌, ◌⊎◌, Bool, List, [], ◌∷◌, ◌++◌, length, slice_set, All, Contains, sum_by};
ghost use Rattle.std.specs.List.{range_with_len};
ghost use Rattle.lane_rings.specs.Ends.{unanswered};
ghost use Rattle.lane_rings.specs.declared.far.Far.{Far};
ghost use Rattle.flow_claims.specs.declared.seating.Begun.{Begun};
ghost use Rattle.flow_claims.specs.declared.seating.Past.{Past};
ghost use Rattle.flow_claims.specs.declared.seating.Seating.{Seating};
ghost use Rattle.flow_claims.specs.Lists.{no_lists, GoesOn};
ghost use Rattle.flow_claims.specs.Stints.{IsDone, at_lane, below, stints_of, times};
ghost use Rattle.flow_claims.specs.Seats.{stint_at, HasAll, first_seating, rest_of, part_of, after_join, spent_seating};
ghost use Rattle.flow_claims.specs.Rule.{Board, Claimed, IsSpent, busy, opens, word_at};
ghost use Rattle.flow_claims.specs.declared.claim.Claim.{Claim};
ghost use Rattle.flow_claims.specs.declared.claim.Stint.{Stint};
ghost use Rattle.flow_claims.specs.declared.claims.ClaimSeat.{ClaimSeat};
ghost use Rattle.flow_claims.specs.declared.claims.Claims.{Claims};
ghost use Rattle.evt_types.specs.declared.event.Delivery.{Delivery};
ghost use Rattle.evt_types.specs.declared.event.Reply.{Reply};
ghost use Rattle.flow_claims.specs.Claims.{seating};
ghost use Rattle.flow_claims.specs.Open.{IsOpen, open_count};
ghost use Rattle.flow_claims.specs.Answers.{AnswersClaim, EndsStint};
ghost use Rattle.flow_claims.specs.Weights.{received_weight, answered_weight};
ghost use Rattle.flow_claims.specs.Laws.{first_board, IsUnused, Sits, IsAtHome, IsAway, IsHeldByOne, IsInOneList, WasClosed, WasSurrendered, parts_in, IsStep, MayChange, SameInAll};

/// A lane has one holder at a time, whose port its word names: where the word says neither free nor over, one seat has one open stint
/// of the lane and no other seat has one; where it says free or over, no seat has one.
pub fn a_lane_has_one_holder()
    ensures named { (lanes : List Far) (s : Board) (lane i : ℕ) (v : Seating) (b : Begun) → Claimed lanes s → Sits s i v → stint_at v lane ≡ Some b → (lane < length lanes) × IsAway s lane b }
    ensures once { (lanes : List Far) (s : Board) (lane i : ℕ) (v : Seating) → Claimed lanes s → Sits s i v → opens lane v.held ≤ 1 }
    ensures one { (lanes : List Far) (s : Board) (lane : ℕ) → Claimed lanes s → lane < length lanes → word_at s lane % 256 ≢ 0 → word_at s lane % 256 ≢ 255 → IsHeldByOne s lane }
    ensures none { (lanes : List Far) (s : Board) (lane i : ℕ) (v : Seating) → Claimed lanes s → lane < length lanes → (word_at s lane % 256 ≡ 0) ⊎ (word_at s lane % 256 ≡ 255) → Sits s i v → stint_at v lane ≡ None }
{}

/// The end of a free lane is at home, with nothing unanswered. A lane is over only where a seat closed it, or where a finished stint surrendered it,
/// and then its end is at home.
pub fn a_lane_at_home_is_settled()
    ensures free { (lanes : List Far) (s : Board) (lane : ℕ) → Claimed lanes s → lane < length lanes → word_at s lane % 256 ≡ 0 → (far : Far) × IsAtHome lanes s lane far × (unanswered far ≡ []) }
    ensures over { (lanes : List Far) (s : Board) (lane : ℕ) → Claimed lanes s → lane < length lanes → word_at s lane % 256 ≡ 255 → WasClosed s lane ⊎ WasSurrendered lanes s lane }
{}

/// The rule holds of the board with which claims begin. As long as the first seat knows no more, each lane is free and has had no stint.
pub fn new_claims_are_free()
    ensures made { (lanes : List Far) → All IsUnused lanes → Claimed lanes (first_board lanes) }
    ensures free { (lanes : List Far) (s : Board) (lane i : ℕ) → Claimed lanes s → Sits s i (first_seating lanes) → lane < length lanes → word_at s lane ≡ 0 }
{}

/// A lane's stints are numbered without a gap: where its word counts k of them, each number below k is in just one seat's list of
/// finished stints, once, and no other number is in any. An open stint has the number k.
pub fn stints_are_numbered()
    ensures finished { (lanes : List Far) (s : Board) (lane number : ℕ) → Claimed lanes s → lane < length lanes → number < word_at s lane / 256 → IsInOneList s lane number }
    ensures none { (lanes : List Far) (s : Board) (lane number i : ℕ) (v : Seating) → Claimed lanes s → lane < length lanes → word_at s lane / 256 ≤ number → Sits s i v → times lane number v.finished ≡ 0 }
    ensures begun { (lanes : List Far) (s : Board) (lane i : ℕ) (v : Seating) (b : Begun) → Claimed lanes s → Sits s i v → stint_at v lane ≡ Some b → b.number ≡ word_at s lane / 256 }
{}

/// A lane's lists go on from stint to stint: the first begins with none, each later one with those with which the one before it ended,
/// whichever seats have the two. One that gave the lane back left nothing unanswered.
pub fn stints_go_on()
    ensures first { (lanes : List Far) (s : Board) (i : ℕ) (v : Seating) (p : Past) → Claimed lanes s → Sits s i v → Contains v.finished p → p.number ≡ 0 → p.start ≡ no_lists }
    ensures next { (lanes : List Far) (s : Board) (i j : ℕ) (v w : Seating) (p q : Past) → Claimed lanes s → Sits s i v → Sits s j w → Contains v.finished p → Contains w.finished q
        → q.lane ≡ p.lane → q.number ≡ p.number + 1 → q.start ≡ p.end }
    ensures begun { (lanes : List Far) (s : Board) (i j : ℕ) (v w : Seating) (p : Past) (b : Begun) → Claimed lanes s → Sits s i v → Sits s j w → Contains v.finished p → stint_at w p.lane ≡ Some b
        → b.number ≡ p.number + 1 → b.start ≡ p.end }
    ensures grows { (lanes : List Far) (s : Board) (i : ℕ) (v : Seating) → Claimed lanes s → Sits s i v → All (λ p. GoesOn p.start p.end) v.finished }
    ensures done { (lanes : List Far) (s : Board) (i : ℕ) (v : Seating) → Claimed lanes s → Sits s i v → All IsDone v.finished }
{}

/// All seats together have 64 parts. A seat without parts has no stint, open or finished. So a seat with all parts has all stints, and no
/// other seat has any: of each lane it has as many finished ones as the lane's word counts, each number once, and an open one exactly
/// where the word says that a port holds the lane.
pub fn parts_add_up()
    ensures sum { (lanes : List Far) (s : Board) → Claimed lanes s → parts_in s ≡ 64 }
    ensures none { (lanes : List Far) (s : Board) (i : ℕ) (v : Seating) → Claimed lanes s → Sits s i v → v.parts ≡ 0 → IsSpent v }
    ensures alone { (lanes : List Far) (s : Board) (i j : ℕ) (v w : Seating) → Claimed lanes s → Sits s i v → HasAll v → j ≢ i → Sits s j w → IsSpent w }
    ensures counted { (lanes : List Far) (s : Board) (lane i : ℕ) (v : Seating) → Claimed lanes s → lane < length lanes → Sits s i v → HasAll v → stints_of lane v.finished ≡ word_at s lane / 256 }
    ensures numbered { (lanes : List Far) (s : Board) (lane number i : ℕ) (v : Seating) → Claimed lanes s → lane < length lanes → Sits s i v → HasAll v → times lane number v.finished ≡ below number (word_at s lane / 256) }
    ensures open { (lanes : List Far) (s : Board) (lane i : ℕ) (v : Seating) → Claimed lanes s → lane < length lanes → Sits s i v → HasAll v → opens lane v.held ≡ busy (word_at s lane) }
{}

/// What any step of a seat on a lane's word may change. A split and a join change no word, and all seats together keep their stints.
pub fn a_step_changes_one_seat()
    ensures step { (lanes : List Far) (seat : ℕ) (s t : Board) → IsStep lanes seat s t → MayChange lanes seat s t }
    ensures split { (lanes : List Far) (s : Board) (i : ℕ) (v : Seating) → Claimed lanes s → Sits s i v → 1 < v.parts → SameInAll s.views (slice_set s.views i (rest_of v) ++ part_of v ∷ []) }
    ensures join { (lanes : List Far) (s : Board) (i j : ℕ) (v w : Seating) → Claimed lanes s → Sits s i v → Sits s j w → j ≢ i → SameInAll s.views (slice_set (slice_set s.views i (after_join v w)) j spent_seating) }
{}

/// Weighed in whatever way, stints weigh as much as those of each lane do together.
pub fn stints_add_up_by_lane()
    ensures finished { (n : ℕ) (ps : List Past) (f : Past → ℕ) → All (λ p. p.lane < n) ps → sum_by f ps ≡ sum_by (λ lane. sum_by (at_lane lane f) ps) (range_with_len 0 n) }
    ensures held { (lanes : List Far) (s : Board) (i : ℕ) (v : Seating) → Claimed lanes s → Sits s i v → open_count v ≡ sum_by (λ lane. opens lane v.held) (range_with_len 0 (length lanes)) }
{}

/// What was received and answered in a seat's stints, the finished ones and those in a list that it has open, weighs the same where a
/// claim brings one more into the list, and where the end of one takes it out.
pub fn open_stints_keep_their_weight()
    ensures claimed { (port lane : ℕ) (v after : Seating) (stint : Stint) (others : List Stint) → AnswersClaim port lane v (Claim.Held stint) after → All (IsOpen v) others
        → ((f : Delivery → ℕ) → received_weight f after (stint ∷ others) ≡ received_weight f v others) × ((f : Reply → ℕ) → answered_weight f after (stint ∷ others) ≡ answered_weight f v others) }
    ensures ended { (claims : Claims) (surrendered : Bool) (stint : Stint) (before after : ClaimSeat) (others : List Stint) → EndsStint claims surrendered stint before after → All (λ s. s.lane ≢ stint.lane) others
        → ((f : Delivery → ℕ) → received_weight f (seating after) others ≡ received_weight f (seating before) (stint ∷ others))
        × ((f : Reply → ℕ) → answered_weight f (seating after) others ≡ answered_weight f (seating before) (stint ∷ others)) }
{}
