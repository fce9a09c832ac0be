//! From which events of a queue others were passed on.

ghost use Rattle.std.specs.Prelude.{◌≡◌, ◌+◌, ◌<◌, ◌^◌, [], ◌++◌, IfOk, OnOk, length, slice_get};
ghost use Rattle.std.specs.List.{cons_option};
ghost use Rattle.transcripts.specs.Transcript as transcripts;
ghost use Rattle.judge_app.specs.Forwards as forwards;

use crate::steps::{answer_of, given_to, passer_of};
use evt_types::{Shape, Step};
use std::alloc::{AllocError, Global};

/// The number of the queue that the lane passes an event on from with the step, if it does; its next answer is to that one.
fn sent_from(lane: usize, queue: usize, next: Option<(usize, u64)>, step: &Step) -> Option<u64>
    ensures { result ≡ forwards.sent_from lane queue next step.now }
{
    if passer_of(step) != Some(lane) {
        return None;
    }
    match next {
        Some((of, number)) => { if of == queue { Some(number) } else { None } }
        None => None,
    }
}

/// Puts the number behind the others, if it is there.
fn push_number(numbers: &mut Vec<u64>, number: Option<u64>) -> Result<(), AllocError>
    ensures { OnOk result (numbers.new.items ≡ numbers.old.items ++ cons_option number []) }
{
    if let Some(number) = number {
        numbers.push(number)?;
    }
    Ok(())
}

/// Puts the queue and the number behind the others, if they are there.
fn push_pair(pairs: &mut Vec<(usize, u64)>, pair: Option<(usize, u64)>) -> Result<(), AllocError>
    ensures { OnOk result (pairs.new.items ≡ pairs.old.items ++ cons_option pair []) }
{
    if let Some(pair) = pair {
        pairs.push(pair)?;
    }
    Ok(())
}

fn pair_at(pairs: &[(usize, u64)], at: usize) -> Option<(usize, u64)>
    ensures { result ≡ slice_get pairs.now at }
{
    pairs.get(at).copied()
}

/// How many answers the lane has given once the step is done, if there were so many before it.
fn answers_after(lane: usize, count: usize, step: &Step) -> usize
    requires { count < 2 ^ 63 }
    ensures { result ≡ count + length (cons_option (transcripts.answer_of lane step.now) []) }
{
    if answer_of(lane, step).is_some() {
        count + 1
    } else {
        count
    }
}

/// The numbers of the queue that the lane passed events on from, in order.
fn sent_on(alloc: Global, past: &[Step], lane: usize, queue: usize) -> Result<Vec<u64>, AllocError>
    ensures { IfOk result (λ numbers. numbers.items ≡ forwards.sent_on past.now lane queue) }
{
    let mut numbers = Vec::new(alloc);
    let mut given = Vec::new(alloc);
    let mut answered = 0;
    for step in past {
        let next = pair_at(&given, answered);
        push_number(&mut numbers, sent_from(lane, queue, next, step))?;
        push_pair(&mut given, given_to(lane, step))?;
        answered = answers_after(lane, answered, step);
    }
    Ok(numbers)
}

/// The numbers of the queue that events were passed on from, by lane.
pub(crate) fn sent_of(
    alloc: Global,
    shape: &Shape,
    past: &[Step],
    queue: usize,
) -> Result<Vec<u64>, AllocError>
    ensures { IfOk result (λ numbers. numbers.items ≡ forwards.sent_of shape.now past.now queue) }
{
    let mut numbers = Vec::new(alloc);
    for lane in 0..shape.lanes() {
        numbers.extend_from_slice(&sent_on(alloc, past, lane, queue)?)?;
    }
    Ok(numbers)
}
