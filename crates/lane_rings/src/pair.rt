//! A lane is made as a pair of ends, and is at rest once both are in one hand.

ghost use Rattle.std.specs.Prelude.{◌≡◌, ◌+◌, ◌≤◌, [], ◌++◌, length, max, IfOk};
ghost use Rattle.evt_types.specs.Additions.{AreBeside};
ghost use Rattle.lane_rings.specs.Ends.{offered, hidden_offers, taken, seen_replies, fetched_replies, received_by, seen_deliveries, answered, answers_among, held_list};
ghost use Rattle.lane_rings.specs.Identity.{near_id, far_id};
ghost use Rattle.lane_rings.specs.Intakes.{ahead, handed};
ghost use Rattle.lane_rings.specs.Rest.{undelivered, untaken, held_pairs};
ghost use Rattle.rtrb.specs.Ring.{IsPair, consumer_capacity, producer_capacity, sent};

use crate::far::Far;
use crate::gathering::Gathering;
use crate::held_pairs::HeldPairs;
use crate::intake::Intake;
use crate::near::Near;
use crate::outlet::Outlet;
use crate::rests::Beside;
use evt_types::{Delivery, Memory, Reply};
use rtrb::{Producer, RingBuffer};
use std::alloc::Global;
use std::collections::VecDeque;

/// The two sides of a ring of so many slots, with nothing in it.
fn ends_of<T: Copy>(
    alloc: Global,
    slots: usize,
    filler: T,
) -> Result<(Producer<T>, Intake<T>), Memory>
    ensures pair { IfOk result (λ r. IsPair r.0 r.1.ring) }
    ensures writing { IfOk result (λ r. (sent r.0 ≡ []) × (producer_capacity r.0 ≡ slots)) }
    ensures reading { IfOk result (λ r. (handed r.1 ≡ []) × (ahead r.1 ≡ []) × (consumer_capacity r.1.ring ≡ slots)) }
{
    let (producer, consumer) = RingBuffer::new(alloc, slots)?;
    let intake = Intake::new(alloc, consumer, filler)?;
    Ok((producer, intake))
}

/// Makes a lane, whose lists are empty. `depth` is how many deliveries the ring has room for, and how many the holder may
/// hold unanswered; `replies` is how many replies the other ring has room for. Any numbers will do for which memory is there.
pub fn lane(alloc: Global, depth: usize, replies: usize) -> Result<(Near, Far), Memory>
    ensures pair { IfOk result (λ r. near_id r.0 ≡ far_id r.1) }
    ensures room { IfOk result (λ r. ((far_id r.1).depth ≡ depth) × ((far_id r.1).room ≡ replies)) }
    ensures near { IfOk result (λ r. (offered r.0 ≡ []) × (hidden_offers r.0 ≡ []) × (taken r.0 ≡ []) × (seen_replies r.0 ≡ []) × (fetched_replies r.0 ≡ [])) }
    ensures far { IfOk result (λ r. (received_by r.1 ≡ []) × (seen_deliveries r.1 ≡ []) × (answered r.1 ≡ [])) }
{
    let (offers, receipts) = ends_of(alloc, depth, Delivery::default())?;
    let (answers, takings) = ends_of(alloc, replies, Reply::default())?;
    let held = HeldPairs::new(alloc, depth)?;
    let near = Near {
        deliveries: Gathering::new(alloc, offers)?,
        replies: takings,
    };
    let far = Far {
        deliveries: receipts,
        replies: Outlet::new(answers),
        held,
        extras: 0,
    };
    Ok((near, far))
}

/// Brings the two ends of one lane together, and shows what is left in it: no more deliveries than its ring has room for, and of
/// replies as many in the ring and as many that were taken out of it and not taken.
pub fn beside(near: Near, far: Far) -> Beside
    requires { near_id near ≡ far_id far }
    ensures undelivered { offered near ≡ received_by far ++ undelivered result }
    ensures untaken { answered far ≡ taken near ++ untaken result }
    ensures room { (length (undelivered result) ≤ (near_id near).depth) × (length (untaken result) ≤ (near_id near).room + max 1 (near_id near).room) }
    ensures fetched { length (untaken result) ≤ (near_id near).room + length (fetched_replies near) }
    ensures held { held_pairs result ≡ held_list far }
    ensures fewer { answers_among (answered far) ≤ length (received_by far) }
    ensures beside { AreBeside (length (received_by far)) (answered far) }
{
    let Near {
        deliveries,
        replies: mut takings,
    } = near;
    let Gathering {
        outlet: mut offers,
        batch,
    } = deliveries;
    let Far {
        deliveries: mut receipts,
        replies: mut answers,
        held,
        extras: _,
    } = far;
    // First each producer, which then knows how many slots are free, and so how many items are left.
    offers.ring.slots_beside(&mut receipts.ring);
    answers.ring.slots_beside(&mut takings.ring);
    receipts.ring.slots_beside(&mut offers.ring);
    takings.ring.slots_beside(&mut answers.ring);
    Beside {
        deliveries: receipts,
        offered: VecDeque::from(batch),
        replies: takings,
        held,
    }
}
