//! What stands in the steps before one: lists of what they did, and places of single ones.

ghost use Rattle.std.specs.Prelude.{◌≡◌, IfOk, length, position};
ghost use Rattle.transcripts.specs.Transcript as transcripts;
ghost use Rattle.judge_app.specs.Scans as scans;

use crate::steps::{
    accepted_in, accepts, answer_of, extras_after, given_of, given_to, gives, is_shut, source_in,
    takes,
};
use evt_types::{Event, Step};
use std::alloc::{AllocError, Global};

/// The events that the queue accepted, in order.
#[tactic(auto, unfolding(transcripts::specs::Transcript::accepted))]
pub(crate) fn accepted_by(
    alloc: Global,
    past: &[Step],
    queue: usize,
) -> Result<Vec<Event>, AllocError>
    ensures { IfOk result (λ events. events.items ≡ transcripts.accepted past.now queue) }
{
    past.iter()
        .filter_map(|step| accepted_in(queue, step))
        .collect(alloc)
}

/// The queue's numbers in the order of their Gives.
#[tactic(auto, unfolding(transcripts::specs::Transcript::hand))]
pub(crate) fn hand_of(alloc: Global, past: &[Step], queue: usize) -> Result<Vec<u64>, AllocError>
    ensures { IfOk result (λ numbers. numbers.items ≡ transcripts.hand past.now queue) }
{
    past.iter()
        .filter_map(|step| given_of(queue, step))
        .collect(alloc)
}

/// The queue's numbers from which events were accepted, in order.
#[tactic(auto, unfolding(transcripts::specs::Transcript::sources))]
pub(crate) fn sources_of(alloc: Global, past: &[Step], queue: usize) -> Result<Vec<u64>, AllocError>
    ensures { IfOk result (λ numbers. numbers.items ≡ transcripts.sources past.now queue) }
{
    past.iter()
        .filter_map(|step| source_in(queue, step))
        .collect(alloc)
}

/// How many answers the lane gave.
#[tactic(auto, unfolding(transcripts::specs::Transcript::answers))]
fn answer_count(past: &[Step], lane: usize) -> usize
    ensures { result ≡ length (transcripts.answers past.now lane) }
{
    past.iter().filter_map(|step| answer_of(lane, step)).count()
}

/// The queues and numbers that the lane hasn't answered, in the order in which it was given them.
#[tactic(auto, unfolding(transcripts::specs::Transcript::out, transcripts::specs::Transcript::unanswered))]
pub(crate) fn unanswered_of(
    alloc: Global,
    past: &[Step],
    lane: usize,
) -> Result<Vec<(usize, u64)>, AllocError>
    ensures { IfOk result (λ pairs. pairs.items ≡ transcripts.unanswered past.now lane) }
{
    past.iter()
        .filter_map(|step| given_to(lane, step))
        .skip(answer_count(past, lane))
        .collect(alloc)
}

/// How many events were added beside the lane's oldest unanswered one.
pub(crate) fn extra_count(past: &[Step], lane: usize) -> usize
    ensures { result ≡ length (transcripts.extras past.now lane) }
{
    let mut count = 0;
    for step in past {
        count = extras_after(lane, count, step);
    }
    count
}

/// Where the queue accepted this number.
pub(crate) fn place_of_accept(past: &[Step], queue: usize, number: u64) -> Option<usize>
    ensures { result ≡ scans.accept_place past.now queue number }
{
    past.iter()
        .enumerate()
        .filter_map(|(at, step)| if accepts(queue, step) { Some(at) } else { None })
        .nth(number as usize)
}

/// Where the queue's number was given first.
pub(crate) fn place_of_give(past: &[Step], queue: usize, number: u64) -> Option<usize>
    ensures { result ≡ scans.give_place past.now queue number }
{
    past.iter().position(|step| gives(queue, number, step))
}

/// Where an event was accepted from the queue's number first.
pub(crate) fn place_of_take(past: &[Step], queue: usize, number: u64) -> Option<usize>
    ensures { result ≡ scans.take_place past.now queue number }
{
    past.iter().position(|step| takes(queue, number, step))
}

/// Where the device was shut first.
pub(crate) fn place_of_shut(past: &[Step]) -> Option<usize>
    ensures { result ≡ scans.shut_place past.now }
{
    past.iter().position(is_shut)
}
