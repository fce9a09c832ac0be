//! The lane: a refused reply leaves both rings and what is held as they were.

ghost use Rattle.std.specs.Prelude.{◌≡◌};
ghost use Rattle.lane_rings.specs.Identity.{near_id, far_id};

use super::left::{leaves, leaves_held};
use super::made::{delivery, pair, reply};
use evt_types::{Op, Reply};
use lane_rings::{AnswerFault, Beside, Far, Memory, Near, Refusal, beside, lane};
use std::alloc::Global;
use std::test::Fail;

/// How many replies the ring has room for, the deliveries that are received, the replies that are given, how many of these were added
/// beside the oldest that is held then, and the deliveries that are held then.
type Stand = (usize, &'static [u64], &'static [Op], usize, &'static [u64]);

/// Where a lane may stand when replies are refused, and which are, by the cause. Deliveries are known by their numbers; number 9 is
/// offered and not received.
#[derive(Clone, Copy)]
struct Row {
    name: &'static str,
    stands: &'static [Stand],
    refused: &'static [(Refusal, &'static [Op])],
}

/// How many deliveries may be held.
const DEPTH: usize = 3;

/// The replies that answer what is held, or are added beside it.
const OF_HELD: &[Op] = &[Op::Forward, Op::Release, Op::ForwardMore];

const ALL: &[Op] = &[Op::New, Op::Forward, Op::Release, Op::ForwardMore];

/// As many events as may be added beside one.
const FOUR: &[Op] = &[Op::ForwardMore; 4];

/// The same beside the second, once one was added beside the first.
const FOUR_LATER: &[Op] = &[
    Op::ForwardMore,
    Op::Release,
    Op::ForwardMore,
    Op::ForwardMore,
    Op::ForwardMore,
    Op::ForwardMore,
];

static ROWS: [Row; 6] = [
    Row {
        name: "nothing held",
        stands: &[
            (2, &[], &[], 0, &[]),
            (2, &[0], &[Op::Forward], 0, &[]),
            (2, &[0], &[Op::Release], 0, &[]),
            (3, &[0], &[Op::ForwardMore, Op::Forward], 0, &[]),
        ],
        refused: &[(Refusal::NothingHeld, OF_HELD)],
    },
    // Where the ring is full too, that nothing is held is the first cause.
    Row {
        name: "nothing held and no room",
        stands: &[
            (2, &[], &[Op::New, Op::New], 0, &[]),
            (2, &[0, 1], &[Op::Forward, Op::Release], 0, &[]),
            (2, &[0, 1], &[Op::Release, Op::Forward], 0, &[]),
        ],
        refused: &[(Refusal::NothingHeld, OF_HELD), (Refusal::Full, &[Op::New])],
    },
    Row {
        name: "one held and no room",
        stands: &[
            (2, &[0], &[Op::New, Op::New], 0, &[0]),
            (2, &[0, 1], &[Op::Forward, Op::New], 0, &[1]),
            (2, &[0, 1], &[Op::New, Op::Release], 0, &[1]),
        ],
        refused: &[(Refusal::Full, ALL)],
    },
    Row {
        name: "two held and no room",
        stands: &[
            (2, &[0, 1], &[Op::New, Op::New], 0, &[0, 1]),
            (2, &[0, 1], &[Op::ForwardMore, Op::ForwardMore], 2, &[0, 1]),
        ],
        refused: &[(Refusal::Full, ALL)],
    },
    Row {
        name: "four added",
        stands: &[(5, &[0], FOUR, 4, &[0])],
        refused: &[(Refusal::TooMany, &[Op::ForwardMore])],
    },
    // Where the ring is full too, that too many were added is the first cause.
    Row {
        name: "four added and no room",
        stands: &[(4, &[0], FOUR, 4, &[0]), (6, &[0, 1], FOUR_LATER, 4, &[1])],
        refused: &[
            (Refusal::TooMany, &[Op::ForwardMore]),
            (Refusal::Full, &[Op::New, Op::Forward, Op::Release]),
        ],
    },
];

/// Offers a delivery for each number, and receives it; whether all came.
pub(crate) fn deliver(near: &mut Near, far: &mut Far, numbers: &[u64]) -> bool
    ensures near { near_id near.new ≡ near_id near.old }
    ensures far { far_id far.new ≡ far_id far.old }
{
    for number in numbers {
        let offered = near.offer(delivery(*number));
        if offered.is_err() || far.is_full() || far.receive() != Some(delivery(*number)) {
            return false;
        }
    }
    true
}

/// The fault of a reply that is refused for this cause.
pub(crate) fn fault_of(refusal: Refusal, reply: Reply) -> AnswerFault {
    match refusal {
        Refusal::NothingHeld => AnswerFault::NothingHeld,
        Refusal::TooMany => AnswerFault::TooMany,
        Refusal::Full => AnswerFault::Full(reply),
    }
}

/// What is said of a reply, by the one call or by the other, which takes the event.
pub(crate) fn say(far: &mut Far, reply: Reply, submits: bool) -> Result<(), AnswerFault>
    ensures { far_id far.new ≡ far_id far.old }
{
    if submits {
        far.submit(&reply.event)
            .map_err(|refusal| fault_of(refusal, reply))
    } else {
        far.answer(reply)
    }
}

/// Gives a reply of each kind; whether all were accepted.
fn give(far: &mut Far, ops: &[Op], submits: bool) -> bool
    ensures { far_id far.new ≡ far_id far.old }
{
    for (place, op) in ops.iter().enumerate() {
        if say(far, reply(*op, place as u64), submits) != Ok(()) {
            return false;
        }
    }
    true
}

/// Takes a reply of each kind, in order; whether they came, and no other.
fn take(near: &mut Near, ops: &[Op]) -> bool
    ensures { near_id near.new ≡ near_id near.old }
{
    for (place, op) in ops.iter().enumerate() {
        if near.take() != Some(reply(*op, place as u64)) {
            return false;
        }
    }
    near.take() == None
}

/// Lets so many deliveries pass and be released, so that both rings are used from a later place on; whether all passed.
pub(crate) fn turn(near: &mut Near, far: &mut Far, count: u64) -> bool
    ensures near { near_id near.new ≡ near_id near.old }
    ensures far { far_id far.new ≡ far_id far.old }
{
    for _ in 0..count {
        if !deliver(near, far, &[8]) || !give(far, &[Op::Release], false) {
            return false;
        }
        if !take(near, &[Op::Release]) {
            return false;
        }
    }
    true
}

/// The operation of the reply that is refused, and its cause.
type Refused = (Op, Refusal);

/// The reply that is refused.
fn refused_reply(op: Op) -> Reply {
    reply(op, 7)
}

/// How many of the deliveries that are held and of number 9, which comes behind them, are answered once the reply is accepted: one by an
/// answer, and where no more could be added the oldest was released before.
fn ended_by(refused: Refused) -> usize {
    let (op, refusal) = refused;
    let is_answer = matches!(op, Op::Forward | Op::Release);
    usize::from(is_answer) + usize::from(refusal == Refusal::TooMany)
}

/// Of the deliveries that are held and of number 9, which comes behind them, the one behind so many.
fn held_behind(held: &[u64], count: usize) -> Option<(usize, u64)> {
    match held.get(count) {
        Some(number) => Some(pair(*number)),
        None if count == held.len() => Some(pair(9)),
        None => None,
    }
}

/// Whether the deliveries behind so many are left as held, with number 9 behind them, and no others.
fn leaves_behind(rests: &mut Beside, held: &[u64], count: usize) -> bool {
    if count > held.len() {
        return rests.held() == 0 && rests.next_held() == None;
    }
    let rest = &held[count..];
    rests.held() == rest.len() + 1
        && leaves_held(rests, rest)
        && rests.next_held() == Some(pair(9))
        && rests.next_held() == None
}

/// Whether as much is held as is said, the oldest of it first, with as much added beside that, and what is next in the ring of deliveries
/// is not received.
fn stands(far: &Far, stand: Stand) -> bool {
    let (_, _, _, extras, held) = stand;
    let oldest = held.first().map(|number| pair(*number));
    far.held() == held.len() && far.oldest() == oldest && far.extras() == extras && !far.is_full()
}

/// Whether the reply is refused for its cause, and what is held is the same before and after.
fn refuses(far: &mut Far, stand: Stand, refused: Refused, submits: bool) -> bool
    ensures { far_id far.new ≡ far_id far.old }
{
    let (op, refusal) = refused;
    let said = Err(fault_of(refusal, refused_reply(op)));
    stands(far, stand) && say(far, refused_reply(op), submits) == said && stands(far, stand)
}

/// Where no more may be added beside the oldest that is held, that is released; whether the release is taken.
fn makes_way(near: &mut Near, far: &mut Far, refusal: Refusal) -> bool
    ensures near { near_id near.new ≡ near_id near.old }
    ensures far { far_id far.new ≡ far_id far.old }
{
    if refusal != Refusal::TooMany {
        return true;
    }
    let answered = far.answer(reply(Op::Release, 6));
    answered == Ok(()) && far.extras() == 0 && near.take() == Some(reply(Op::Release, 6))
}

/// Whether number 9 is received now, and the reply that was refused is accepted and is all that is taken; then the next is the oldest.
fn goes_on(near: &mut Near, far: &mut Far, stand: Stand, refused: Refused) -> bool
    ensures near { near_id near.new ≡ near_id near.old }
    ensures far { far_id far.new ≡ far_id far.old }
{
    let (op, refusal) = refused;
    if far.is_full() || far.receive() != Some(delivery(9)) || !makes_way(near, far, refusal) {
        return false;
    }
    far.answer(refused_reply(op)) == Ok(())
        && far.oldest() == held_behind(stand.4, ended_by(refused))
        && near.take() == Some(refused_reply(op))
        && near.take() == None
}

/// Brings a lane to where replies are refused; whether all came there.
fn comes(near: &mut Near, far: &mut Far, stand: Stand, turns: u64, submits: bool) -> bool
    ensures near { near_id near.new ≡ near_id near.old }
    ensures far { far_id far.new ≡ far_id far.old }
{
    let (_, received, given, _, _) = stand;
    turn(near, far, turns)
        && deliver(near, far, received)
        && give(far, given, submits)
        && near.offer(delivery(9)) == Ok(())
}

/// Brings a lane there, after so many turns and by the one call or the other, has the reply refused, takes what was given before it,
/// and goes on; whether all is as is said.
fn plays(ends: (Near, Far), stand: Stand, refused: Refused, way: (u64, bool)) -> bool
    requires { near_id ends.0 ≡ far_id ends.1 }
{
    let (mut near, mut far) = ends;
    let (turns, submits) = way;
    let is_there = comes(&mut near, &mut far, stand, turns, submits);
    let is_refused = refuses(&mut far, stand, refused, submits);
    let is_next = take(&mut near, stand.2) && goes_on(&mut near, &mut far, stand, refused);
    let mut rests = beside(near, far);
    let is_left = leaves(&mut rests, &[], &[])
        && leaves_behind(&mut rests, stand.4, ended_by(refused));
    is_there && is_refused && is_next && is_left
}

/// The same over the places at which a ring begins, and by each of the two calls.
fn plays_each(alloc: Global, stand: Stand, refused: Refused) -> Result<bool, Memory> {
    for turns in 0..4 {
        for submits in [false, true] {
            let ends = lane(alloc, DEPTH, stand.0)?;
            if !plays(ends, stand, refused, (turns, submits)) {
                return Ok(false);
            }
        }
    }
    Ok(true)
}

/// The same for each of these replies: the first that doesn't go as is said.
fn other_of(
    alloc: Global,
    stand: Stand,
    refusal: Refusal,
    ops: &[Op],
) -> Result<Option<Op>, Memory> {
    for op in ops {
        if !plays_each(alloc, stand, (*op, refusal))? {
            return Ok(Some(*op));
        }
    }
    Ok(None)
}

#[test]
fn a_refused_reply_changes_nothing(rt: HostRuntime) -> Result<(), Fail> {
    for row in &ROWS {
        for stand in row.stands {
            for (refusal, ops) in row.refused {
                let other = other_of(rt.alloc(), *stand, *refusal, ops)?;
                let (name, given) = (row.name, stand.2.len());
                assert_eq!(rt; other, None, "{name}, {given} given");
            }
        }
    }
    Ok(())
}
