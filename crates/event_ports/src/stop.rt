//! All ports of a device taken together, once none works any more.

ghost use Rattle.std.specs.Prelude.{◌≡◌, ℕ, ◌+◌, ◌<◌, [], ◌++◌, Bool, List, length, All, count_by, sum_by};
ghost use Rattle.std.specs.List.{range_with_len};
ghost use Rattle.evt_types.specs.declared.event.Reply.{Reply};
ghost use Rattle.evt_types.specs.Operation.{is_new_reply};
ghost use Rattle.lane_rings.specs.Ends.{answered, unanswered};
ghost use Rattle.lane_rings.specs.declared.far.Far.{Far};
ghost use Rattle.flow_claims.specs.declared.seating.Past.{Past};
ghost use Rattle.flow_claims.specs.Ends.{IsEnd};
ghost use Rattle.credit_pool.specs.declared.pool.Credits.{Credits};
ghost use Rattle.credit_pool.specs.declared.pool.CreditSeat.{CreditSeat};
ghost use Rattle.flow_claims.specs.declared.claims.Claims.{Claims};
ghost use Rattle.flow_claims.specs.declared.claims.ClaimSeat.{ClaimSeat};
ghost use Rattle.flow_claims.specs.Claims.{seating, lanes_of};
ghost use Rattle.event_ports.specs.declared.port.Port.{Port};
ghost use Rattle.event_ports.specs.declared.lane.Lane.TheVariants.{Own};
ghost use Rattle.event_ports.specs.Holds.{left_past};
ghost use Rattle.event_ports.specs.Lanes.{held_of};
ghost use Rattle.event_ports.specs.Ports.{hand};
ghost use Rattle.event_ports.specs.Stop.{counted_past, flows_in, AreLinkedBy, AreEnds, IsShared, IsJoined, IsCounted, IsPortOf};

/// Laws of the flow lanes once all seats are one; the function does nothing. What stints of two seats count adds up. What all finished
/// stints count is what the lanes' ends have. And each lane's lists are those of stints of ports that are linked to it.
pub fn flow_lanes_at_stop()
    ensures joined { (P : Reply → Bool) (n : ℕ) (xs ys : List Past) → counted_past P n (xs ++ ys) ≡ counted_past P n xs + counted_past P n ys }
    ensures counted { (P : Reply → Bool) (n : ℕ) (lanes : List Far) (finished : List Past) (ends : ℕ → Far) → AreEnds lanes finished n ends
        → counted_past P n finished ≡ sum_by (λ j. count_by P (answered (ends j))) (range_with_len 0 n) }
    ensures shared { (linked : ℕ → ℕ → Bool) (lanes : List Far) (finished : List Past) (lane : ℕ) (far : Far) → AreLinkedBy linked finished → IsEnd lanes finished lane far → IsShared linked finished lane far }
{}

/// Laws of the ports once their seats are one, which had no stint of its own; the function does nothing. What the finished stints of a
/// lane left unanswered is what is unanswered at its end. All that the ports held of flow lanes is unanswered at the lanes' ends, and
/// all that they answered to them was answered there, with no NEW.
pub fn ports_at_stop()
    ensures held { (lanes : List Far) (finished : List Past) (lane : ℕ) (far : Far) → IsEnd lanes finished lane far → left_past lane finished ≡ unanswered far }
    ensures all_held { (pool : Credits) (claims : Claims) (credit : CreditSeat) (claim : ClaimSeat) (ports : List Port) (credits_after : CreditSeat) (claims_after : ClaimSeat) (ends : ℕ → Far)
        → IsJoined pool claims credit claim ports credits_after claims_after → (seating claim).finished ≡ [] → All IsCounted ports → All (IsPortOf pool claims) ports
        → AreEnds (lanes_of claims) (seating claims_after).finished (length (lanes_of claims)) ends
        → sum_by (λ p. length (hand p).holding) ports ≡ sum_by (λ p. length (held_of Own (hand p).holding)) ports + sum_by (λ j. length (unanswered (ends j))) (range_with_len 0 (length (lanes_of claims))) }
    ensures counted { (pool : Credits) (claims : Claims) (credit : CreditSeat) (claim : ClaimSeat) (ports : List Port) (credits_after : CreditSeat) (claims_after : ClaimSeat) (ends : ℕ → Far)
        → IsJoined pool claims credit claim ports credits_after claims_after → (seating claim).finished ≡ [] → All IsCounted ports → All (IsPortOf pool claims) ports
        → AreEnds (lanes_of claims) (seating claims_after).finished (length (lanes_of claims)) ends
        → (P : Reply → Bool) → sum_by (λ j. count_by P (answered (ends j))) (range_with_len 0 (length (lanes_of claims))) ≡ sum_by (flows_in P (length (lanes_of claims))) ports }
    ensures answers { (pool : Credits) (claims : Claims) (credit : CreditSeat) (claim : ClaimSeat) (ports : List Port) (credits_after : CreditSeat) (claims_after : ClaimSeat) (ends : ℕ → Far)
        → IsJoined pool claims credit claim ports credits_after claims_after → (seating claim).finished ≡ [] → All IsCounted ports → All (IsPortOf pool claims) ports
        → AreEnds (lanes_of claims) (seating claims_after).finished (length (lanes_of claims)) ends
        → (j : ℕ) → j < length (lanes_of claims) → count_by is_new_reply (answered (ends j)) ≡ 0 }
{}
