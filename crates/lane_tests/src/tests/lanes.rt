//! The lane in one thread: lists of calls, each with what it must answer, and what they leave. A lane is made again where memory was
//! refused, and serves then as ever.

ghost use Rattle.std.specs.Prelude.{◌≡◌, [], IfOk};
ghost use Rattle.lane_rings.specs.Ends.{offered, taken, seen_replies, received_by, seen_deliveries, answered};
ghost use Rattle.lane_rings.specs.Identity.{near_id, far_id};

use super::left::{leaves, leaves_held};
use super::made::{delivery, reply};
use super::refusals::{fault_of, say};
use evt_types::{Delivery, Op, Reply};
use lane_rings::{Deliveries, Far, Memory, Near, Refusal, beside, lane};
use std::alloc::Global;
use std::test::Fail;

/// A call on a lane, with what it must answer. Deliveries are known by their numbers, replies by their operation and number.
#[derive(Clone, Copy)]
enum Call {
    /// The delivery is offered; whether there is room for it.
    Offer(u64, bool),
    /// The same, gathered.
    Stage(u64, bool),
    Flush,
    Peek(Option<(Op, u64)>),
    Take(Option<(Op, u64)>),
    Fetch(usize),
    Receive(Option<u64>),
    /// So many are wanted, and these come.
    ReceiveSome(usize, &'static [u64]),
    Answer(Op, u64, Said),
    /// The same, by the call that takes the event.
    Submit(Op, u64, Said),
    /// Whether as many deliveries are held as the lane's depth allows.
    IsFull(bool),
    /// How many deliveries are held.
    Holds(usize),
    /// How many events were added beside the oldest.
    Extras(usize),
}

/// What becomes of a reply.
type Said = Result<(), Refusal>;

const GIVEN: Said = Ok(());

const NOTHING_HELD: Said = Err(Refusal::NothingHeld);

const TOO_MANY: Said = Err(Refusal::TooMany);

const FULL: Said = Err(Refusal::Full);

/// A lane, the calls that are made on it, and what they leave.
#[derive(Clone, Copy)]
struct Row {
    name: &'static str,
    depth: usize,
    replies: usize,
    calls: &'static [Call],
    undelivered: &'static [u64],
    untaken: &'static [(Op, u64)],
    held: &'static [u64],
}

static ROWS: [Row; 6] = [
    Row {
        name: "each call once",
        depth: 1,
        replies: 1,
        calls: &[
            Call::Offer(0, true),
            Call::Offer(1, false),
            Call::IsFull(false),
            Call::Receive(Some(0)),
            Call::Answer(Op::Release, 4, GIVEN),
            Call::Answer(Op::Release, 5, NOTHING_HELD),
            Call::Answer(Op::New, 6, FULL),
        ],
        undelivered: &[],
        untaken: &[(Op::Release, 4)],
        held: &[],
    },
    Row {
        name: "what is left",
        depth: 4,
        replies: 4,
        calls: &[
            Call::Peek(None),
            Call::Take(None),
            Call::Receive(None),
            Call::Offer(0, true),
            Call::Receive(Some(0)),
            Call::Offer(1, true),
            Call::Receive(Some(1)),
            Call::Offer(2, true),
            Call::Receive(Some(2)),
            Call::Offer(9, true),
            Call::Answer(Op::New, 8, GIVEN),
            Call::Answer(Op::Forward, 9, GIVEN),
            Call::Peek(Some((Op::New, 8))),
            Call::Take(Some((Op::New, 8))),
        ],
        undelivered: &[9],
        untaken: &[(Op::Forward, 9)],
        held: &[1, 2],
    },
    Row {
        name: "several refusals",
        depth: 2,
        replies: 1,
        calls: &[
            Call::Answer(Op::Forward, 0, NOTHING_HELD),
            Call::Holds(0),
            Call::Answer(Op::Release, 0, NOTHING_HELD),
            Call::Holds(0),
            Call::Offer(0, true),
            Call::Receive(Some(0)),
            Call::Offer(1, true),
            Call::Receive(Some(1)),
            Call::Answer(Op::New, 1, GIVEN),
            Call::Answer(Op::New, 2, FULL),
            Call::Answer(Op::Forward, 3, FULL),
            Call::Answer(Op::Release, 4, FULL),
            Call::Holds(2),
            Call::IsFull(true),
            Call::Take(Some((Op::New, 1))),
            Call::Answer(Op::Forward, 5, GIVEN),
            Call::Answer(Op::Release, 6, FULL),
            Call::Holds(1),
            Call::IsFull(false),
        ],
        undelivered: &[],
        untaken: &[(Op::Forward, 5)],
        held: &[1],
    },
    // What is added leaves the oldest held; an answer ends it, and more may be added beside the next.
    Row {
        name: "added beside the oldest",
        depth: 2,
        replies: 6,
        calls: &[
            Call::Answer(Op::ForwardMore, 0, NOTHING_HELD),
            Call::Extras(0),
            Call::Offer(0, true),
            Call::Receive(Some(0)),
            Call::Offer(1, true),
            Call::Receive(Some(1)),
            Call::Answer(Op::ForwardMore, 1, GIVEN),
            Call::Submit(Op::ForwardMore, 2, GIVEN),
            Call::Answer(Op::ForwardMore, 3, GIVEN),
            Call::Extras(3),
            Call::Answer(Op::ForwardMore, 4, GIVEN),
            Call::Answer(Op::ForwardMore, 5, TOO_MANY),
            Call::Extras(4),
            Call::Holds(2),
            Call::Answer(Op::Forward, 6, GIVEN),
            Call::Extras(0),
            Call::Holds(1),
            Call::Answer(Op::ForwardMore, 7, GIVEN),
            Call::Answer(Op::ForwardMore, 8, FULL),
            Call::Extras(1),
            Call::Take(Some((Op::ForwardMore, 1))),
            Call::Answer(Op::New, 9, GIVEN),
            Call::Extras(1),
        ],
        undelivered: &[],
        untaken: &[
            (Op::ForwardMore, 2),
            (Op::ForwardMore, 3),
            (Op::ForwardMore, 4),
            (Op::Forward, 6),
            (Op::ForwardMore, 7),
            (Op::New, 9),
        ],
        held: &[1],
    },
    // What is gathered isn't seen before the flush, and takes places of the ring; no more is received than may be held.
    Row {
        name: "deliveries by slices",
        depth: 2,
        replies: 2,
        calls: &[
            Call::Stage(0, true),
            Call::Stage(1, true),
            Call::Stage(2, false),
            Call::Receive(None),
            Call::Flush,
            Call::ReceiveSome(1, &[0]),
            Call::Offer(2, true),
            Call::ReceiveSome(64, &[1]),
            Call::IsFull(true),
        ],
        undelivered: &[2],
        untaken: &[],
        held: &[0, 1],
    },
    // A reply is seen at once. As many as were wanted come out of the ring, leave its places free, and are untaken until they are taken.
    Row {
        name: "replies by slices",
        depth: 2,
        replies: 2,
        calls: &[
            Call::Submit(Op::New, 0, GIVEN),
            Call::Peek(Some((Op::New, 0))),
            Call::Submit(Op::New, 1, GIVEN),
            Call::Submit(Op::New, 2, GIVEN),
            Call::Submit(Op::New, 3, FULL),
            Call::Take(Some((Op::New, 0))),
            Call::Fetch(1),
            Call::Answer(Op::New, 3, GIVEN),
            Call::Answer(Op::New, 4, FULL),
            Call::Take(Some((Op::New, 1))),
            Call::Fetch(2),
            Call::Submit(Op::New, 4, GIVEN),
            Call::Answer(Op::New, 5, GIVEN),
        ],
        undelivered: &[],
        untaken: &[(Op::New, 2), (Op::New, 3), (Op::New, 4), (Op::New, 5)],
        held: &[],
    },
];

fn lane_again(alloc: Global, depth: usize, replies: usize) -> Result<(Near, Far), Memory>
    ensures { IfOk result (λ r. near_id r.0 ≡ far_id r.1) }
{
    match lane(alloc, depth, replies) {
        Ok(ends) => Ok(ends),
        Err(_) => lane(alloc, depth, replies),
    }
}

fn reply_of(wanted: Option<(Op, u64)>) -> Option<Reply> {
    let (op, number) = wanted?;
    Some(reply(op, number))
}

fn delivery_of(wanted: Option<u64>) -> Option<Delivery> {
    let number = wanted?;
    Some(delivery(number))
}

/// Whether there is room for the delivery, which comes back where there isn't.
fn offers(near: &mut Near, delivery: Delivery, gathers: bool, has_room: bool) -> bool
    ensures { near_id near.new ≡ near_id near.old }
{
    if gathers {
        return near.stage(&delivery) == has_room;
    }
    let wanted = if has_room { Ok(()) } else { Err(delivery) };
    near.offer(delivery) == wanted
}

/// Whether this is said of the reply, which comes back where there is no room for it.
fn answers(far: &mut Far, reply: Reply, submits: bool, said: Said) -> bool
    ensures { far_id far.new ≡ far_id far.old }
{
    let wanted = said.map_err(|refusal| fault_of(refusal, reply));
    say(far, reply, submits) == wanted
}

/// Whether just these come where so many are wanted.
fn receives(far: &mut Far, most: usize, wanted: &[u64]) -> bool
    ensures { far_id far.new ≡ far_id far.old }
{
    let mut came = Deliveries::new();
    far.receive_some(most.min(64), &mut came);
    let came = came.as_slice();
    for (place, number) in wanted.iter().enumerate() {
        if place >= came.len() || came[place] != delivery(*number) {
            return false;
        }
    }
    came.len() == wanted.len()
}

/// Makes a call of the scheduler's end; whether it answered what it must.
fn make_near(near: &mut Near, call: Call) -> bool
    ensures { near_id near.new ≡ near_id near.old }
{
    match call {
        Call::Offer(number, has_room) => offers(near, delivery(number), false, has_room),
        Call::Stage(number, has_room) => offers(near, delivery(number), true, has_room),
        Call::Flush => {
            near.flush();
            true
        }
        Call::Peek(wanted) => near.peek() == reply_of(wanted),
        Call::Take(wanted) => near.take() == reply_of(wanted),
        Call::Fetch(most) => {
            near.fetch(most);
            true
        }
        _ => true,
    }
}

/// Makes a call of the holder's end; whether it answered what it must.
fn make_far(far: &mut Far, call: Call) -> bool
    ensures { far_id far.new ≡ far_id far.old }
{
    match call {
        Call::Receive(wanted) => !far.is_full() && far.receive() == delivery_of(wanted),
        Call::ReceiveSome(most, wanted) => receives(far, most, wanted),
        Call::Answer(op, number, said) => answers(far, reply(op, number), false, said),
        Call::Submit(op, number, said) => answers(far, reply(op, number), true, said),
        Call::IsFull(wanted) => far.is_full() == wanted,
        Call::Holds(count) => far.held() == count,
        Call::Extras(count) => far.extras() == count,
        _ => true,
    }
}

/// The place of the first call that answered otherwise than it must.
fn play(near: &mut Near, far: &mut Far, calls: &[Call]) -> Option<usize>
    ensures near { near_id near.new ≡ near_id near.old }
    ensures far { far_id far.new ≡ far_id far.old }
{
    for (place, call) in calls.iter().enumerate() {
        if !make_near(near, *call) || !make_far(far, *call) {
            return Some(place);
        }
    }
    None
}

/// Makes the row's calls on a new lane: the first that answered otherwise, and whether what is left is the row's.
fn ends_as(row: &Row, near: Near, far: Far) -> (Option<usize>, bool)
    requires { near_id near ≡ far_id far }
{
    let (mut near, mut far) = (near, far);
    let other = play(&mut near, &mut far, row.calls);
    let mut rests = beside(near, far);
    let is_counted = rests.held() == row.held.len();
    let is_left = leaves(&mut rests, row.undelivered, row.untaken);
    let is_held = leaves_held(&mut rests, row.held) && rests.next_held() == None;
    (other, is_counted && is_left && is_held)
}

#[test]
fn lane_calls(rt: HostRuntime) -> Result<(), Fail> {
    for row in &ROWS {
        let (near, far) = lane_again(rt.alloc(), row.depth, row.replies)?;
        let name = row.name;
        assert_eq!(rt; ends_as(row, near, far), (None, true), "{name}");
    }
    Ok(())
}
