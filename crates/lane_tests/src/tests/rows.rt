//! A row of replies, which goes into the ring by one store: the scheduler takes what it would take of the single replies, and as much
//! is held after it.

ghost use Rattle.std.specs.Prelude.{◌≡◌, ◌≤◌, true, length, All};
ghost use Rattle.evt_types.specs.Operation.{is_answer, is_new_reply};
ghost use Rattle.evt_types.specs.declared.event.Reply.{Reply as ReplyValue};
ghost use Rattle.lane_rings.specs.Identity.{near_id, far_id};

use super::left::{leaves, leaves_held};
use super::made::{pair, reply};
use super::refusals::{deliver, turn};
use evt_types::{Op, Reply};
use lane_rings::{Far, Near, Refusal, beside, lane};
use std::test::Fail;

/// How many deliveries may be held, and are as a row begins.
const DEPTH: usize = 4;

/// How many replies the ring has room for: one that is given before the row, the longest row, and one more.
const ROOM: usize = 5;

/// The operations of a row of answers, and the numbers of their replies.
const ANSWERS: [(Op, u64); 3] = [(Op::Forward, 1), (Op::Release, 2), (Op::Forward, 3)];

/// The same of a row of NEWs.
const NEWS: [(Op, u64); 3] = [(Op::New, 1), (Op::New, 2), (Op::New, 3)];

/// The same of what fills the ring.
const FILL: [(Op, u64); ROOM] = [(Op::New, 9); ROOM];

/// The numbers of the deliveries that are held as a row begins.
const HELD: [u64; DEPTH] = [0, 1, 2, 3];

fn answers() -> [Reply; 3]
    ensures count { length result ≡ 3 }
    ensures answers { All (λ (r : ReplyValue). is_answer r ≡ true) result }
{
    [
        reply(Op::Forward, 1),
        reply(Op::Release, 2),
        reply(Op::Forward, 3),
    ]
}

fn news() -> [Reply; 3]
    ensures count { length result ≡ 3 }
    ensures news { All (λ (r : ReplyValue). is_new_reply r ≡ true) result }
{
    [reply(Op::New, 1), reply(Op::New, 2), reply(Op::New, 3)]
}

/// Gives the replies one by one; whether all were accepted.
fn give_singly(far: &mut Far, replies: &[Reply]) -> bool
    ensures { far_id far.new ≡ far_id far.old }
{
    for one in replies {
        if far.submit(&one.event) != Ok(()) {
            return false;
        }
    }
    true
}

/// Gives so many answers, as a row or one by one; whether all were accepted.
fn give_answers(far: &mut Far, count: usize, as_row: bool) -> bool
    ensures { far_id far.new ≡ far_id far.old }
{
    let all = answers();
    let most = all.len().min(far.held()).min(far.known_room());
    if count == 0 || count > most {
        return false;
    }
    if as_row {
        far.answer_row(&all[..count]);
        return true;
    }
    give_singly(far, &all[..count])
}

/// The same of NEWs.
fn give_news(far: &mut Far, count: usize, as_row: bool) -> bool
    ensures { far_id far.new ≡ far_id far.old }
{
    let all = news();
    if count > all.len().min(far.known_room()) {
        return false;
    }
    if as_row {
        far.bring_row(&all[..count]);
        return true;
    }
    give_singly(far, &all[..count])
}

/// Gives replies of number 9 until the ring is full; how many were accepted.
fn fill(far: &mut Far) -> usize
    ensures { far_id far.new ≡ far_id far.old }
{
    for given in 0..ROOM {
        if far.submit(&reply(Op::New, 9).event) == Err(Refusal::Full) {
            return given;
        }
    }
    ROOM
}

/// Takes these replies, in order; whether they came.
fn takes(near: &mut Near, replies: &[(Op, u64)]) -> bool
    ensures { near_id near.new ≡ near_id near.old }
{
    for (op, number) in replies {
        if near.take() != Some(reply(*op, *number)) {
            return false;
        }
    }
    true
}

/// Fills the ring of replies, after so many turns, and empties it: at the next reply the holder finds the whole ring free. Whether all
/// went as it must.
fn begins(near: &mut Near, far: &mut Far, turns: u64) -> bool
    ensures near { near_id near.new ≡ near_id near.old }
    ensures far { far_id far.new ≡ far_id far.old }
{
    turn(near, far, turns) && fill(far) == ROOM && takes(near, &FILL) && near.take() == None
}

/// A row: whether it is one of NEWs, how many replies it has, and whether these are given by one call.
#[derive(Clone, Copy)]
struct Row {
    is_new: bool,
    count: usize,
    is_one_call: bool,
    ghost short: { count ≤ 3 },
}

/// Gives the row while four deliveries are held and one event is added beside the oldest; whether all replies were accepted.
fn gives(near: &mut Near, far: &mut Far, row: Row) -> bool
    ensures near { near_id near.new ≡ near_id near.old }
    ensures far { far_id far.new ≡ far_id far.old }
{
    if !deliver(near, far, &HELD) || far.submit(&reply(Op::ForwardMore, 0).event) != Ok(()) {
        return false;
    }
    if row.is_new {
        give_news(far, row.count, row.is_one_call)
    } else {
        give_answers(far, row.count, row.is_one_call)
    }
}

/// Whether the answers ended the oldest that were held, and NEWs nothing; what was added beside the oldest is its own.
fn holds_after(far: &Far, row: Row) -> bool {
    let (ended, extras) = if row.is_new { (0, 1) } else { (row.count, 0) };
    far.held() == DEPTH - ended
        && far.oldest() == Some(pair(ended as u64))
        && far.extras() == extras
}

/// Gives a row after so many turns, and then as many more as there is room for; whether the scheduler takes just these, in order, and
/// the rest is held.
fn plays(ends: (Near, Far), row: Row, turns: u64) -> bool
    requires { near_id ends.0 ≡ far_id ends.1 }
{
    let (mut near, mut far) = ends;
    let is_given = begins(&mut near, &mut far, turns) && gives(&mut near, &mut far, row);
    let is_held = holds_after(&far, row);
    let more = ROOM - 1 - row.count;
    let is_full = fill(&mut far) == more && holds_after(&far, row);
    let given = if row.is_new {
        &NEWS[..row.count]
    } else {
        &ANSWERS[..row.count]
    };
    let is_taken = takes(&mut near, &[(Op::ForwardMore, 0)])
        && takes(&mut near, given)
        && takes(&mut near, &FILL[..more]);
    let mut rests = beside(near, far);
    let ended = if row.is_new { 0 } else { row.count };
    let is_left = leaves(&mut rests, &[], &[]) && leaves_held(&mut rests, &HELD[ended..]);
    is_given && is_held && is_full && is_taken && is_left && rests.next_held() == None
}

#[test]
fn a_row_goes_as_its_replies(rt: HostRuntime) -> Result<(), Fail> {
    for is_new in [false, true] {
        for count in 1..4 {
            for is_one_call in [false, true] {
                for turns in 0..ROOM as u64 {
                    let row = Row {
                        is_new,
                        count,
                        is_one_call,
                    };
                    let ends = lane(rt.alloc(), DEPTH, ROOM)?;
                    let is_same = plays(ends, row, turns);
                    assert!(rt;
                        is_same,
                        "{count} replies, NEWs: {is_new}, one call: {is_one_call}, after {turns}"
                    );
                }
            }
        }
    }
    Ok(())
}
