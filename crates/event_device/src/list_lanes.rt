//! What is left in the lanes of a device at rest.

ghost use Rattle.std.specs.Prelude.{◌≡◌, ◌+◌, ◌*◌, ◌≤◌, ℕ, [], ◌++◌, length, map, filter_map, count_by, sum_by, All, vec_len, vec_capacity};
ghost use Rattle.evt_types.specs.Plan.{Plan, lanes, lanes_of};
ghost use Rattle.lane_rings.specs.Identity.{far_id, near_id};
ghost use Rattle.lane_rings.specs.Rest as rests;
ghost use Rattle.event_device.specs.Between.{IsAtRest, rest_at, rest_between};
ghost use Rattle.event_device.specs.Listed.{undelivered_all, undelivered_of, untaken_all, untaken_of};
ghost use Rattle.world_laws.specs.Account.{has_event};

use event_answers::{Undelivered, Untaken};
use evt_types::{Op, Reply};
use lane_rings::{Beside, Far, Near, beside};

/// Lists the deliveries that weren't received.
fn list_undelivered(lane: usize, left: &mut Beside, into: &mut Vec<Undelivered>)
    requires { vec_len into.old + length (rests.undelivered left.old) ≤ vec_capacity into.old }
    ensures listed { into.new.items ≡ into.old.items ++ map (undelivered_of lane) (rests.undelivered left.old) }
    ensures room { vec_capacity into.new ≡ vec_capacity into.old }
    ensures others { rests.untaken left.new ≡ rests.untaken left.old }
{
    while let Some(delivery) = left.next_undelivered() {
        into.push_reserved(Undelivered {
            lane,
            queue: delivery.queue(),
            number: delivery.number(),
            event: delivery.event(),
        });
    }
}

/// The event of a reply that wasn't taken. A RELEASE has none.
fn untaken(lane: usize, reply: Reply) -> Option<Untaken>
    ensures { result ≡ untaken_of lane reply }
{
    let event = reply.event.unpack();
    match event.op {
        Op::New | Op::Forward | Op::ForwardMore => Some(Untaken { lane, event }),
        Op::Release => None,
    }
}

/// Lists the events of the replies that weren't taken.
fn list_untaken(lane: usize, left: &mut Beside, into: &mut Vec<Untaken>)
    requires { vec_len into.old + length (rests.untaken left.old) ≤ vec_capacity into.old }
    ensures listed { into.new.items ≡ into.old.items ++ filter_map (untaken_of lane) (rests.untaken left.old) }
    ensures room { vec_capacity into.new ≡ vec_capacity into.old }
{
    while let Some(reply) = left.next_untaken() {
        if let Some(event) = untaken(lane, reply) {
            into.push_reserved(event);
        }
    }
}

/// Lists what is left in one lane.
fn list_lane(
    lane: usize,
    near: Near,
    far: Far,
    undelivered: &mut Vec<Undelivered>,
    untaken: &mut Vec<Untaken>,
)
    requires lane { near_id near ≡ far_id far }
    requires small { ((near_id near).depth ≤ 64) × ((near_id near).room ≤ 64) }
    requires undelivered_room { vec_len undelivered.old + 64 ≤ vec_capacity undelivered.old }
    requires untaken_room { vec_len untaken.old + 128 ≤ vec_capacity untaken.old }
    ensures undelivered { undelivered.new.items ≡ undelivered.old.items ++ map (undelivered_of lane) (rest_between near far).undelivered }
    ensures untaken { untaken.new.items ≡ untaken.old.items ++ filter_map (untaken_of lane) (rest_between near far).untaken }
    ensures rest { IsAtRest (rest_between near far) }
    ensures few { (vec_len undelivered.new ≤ vec_len undelivered.old + 64) × (vec_len untaken.new ≤ vec_len untaken.old + 128) }
    ensures room { (vec_capacity undelivered.new ≡ vec_capacity undelivered.old) × (vec_capacity untaken.new ≡ vec_capacity untaken.old) }
{
    let mut left = beside(near, far);
    list_undelivered(lane, &mut left, undelivered);
    list_untaken(lane, &mut left, untaken);
}

/// Lists what is left in the lanes, of which both ends are at hand, by rising lane, oldest first.
pub fn list_lanes(
    nears: Vec<Near>,
    fars: Vec<Far>,
    undelivered: &mut Vec<Undelivered>,
    untaken: &mut Vec<Untaken>,
)
    requires lanes { map near_id nears.items ≡ map far_id fars.items }
    requires small { All (λ near. ((near_id near).depth ≤ 64) × ((near_id near).room ≤ 64)) nears.items }
    requires undelivered_room { (undelivered.old.items ≡ []) × (64 * length nears.items ≤ vec_capacity undelivered.old) }
    requires untaken_room { (untaken.old.items ≡ []) × (128 * length nears.items ≤ vec_capacity untaken.old) }
    ensures undelivered { (p : Plan) → lanes_of p ≡ length nears.items → undelivered.new.items ≡ undelivered_all p (rest_at nears.items fars.items) }
    ensures untaken { (p : Plan) → lanes_of p ≡ length nears.items → untaken.new.items ≡ untaken_all p (rest_at nears.items fars.items) }
    ensures rests { (l : ℕ) → IsAtRest (rest_at nears.items fars.items l) }
    ensures undelivered_count { (p : Plan) → lanes_of p ≡ length nears.items
        → length undelivered.new.items ≡ sum_by (λ l. length (rest_at nears.items fars.items l).undelivered) (lanes p) }
    ensures untaken_count { (p : Plan) → lanes_of p ≡ length nears.items
        → length untaken.new.items ≡ sum_by (λ l. count_by has_event (rest_at nears.items fars.items l).untaken) (lanes p) }
{
    for (lane, (near, far)) in nears.into_iter().zip(fars).enumerate() {
        list_lane(lane, near, far, undelivered, untaken);
    }
}
