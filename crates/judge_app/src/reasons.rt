//! What shows that a step breaks its clause.

ghost use Rattle.std.specs.Prelude.{◌≡◌, IfOk};
ghost use Rattle.transcript_judge.specs.Fronts.{IsFront};
ghost use Rattle.judge_app.specs.Reasons as reasons;

use crate::gifts::{full, given_again, passed, shared, unserved};
use crate::orders::out_of_order;
use crate::reason::{Gift, Reason};
use crate::scans::{extra_count, place_of_shut, unanswered_of};
use evt_types::{Shape, Source, Step};
use std::alloc::{AllocError, Global};
use transcript_judge::Clause;

/// Of a Give.
fn gift_reason(
    alloc: Global,
    shape: &Shape,
    past: &[Step],
    clause: Clause,
    gift: Gift,
) -> Result<Option<Reason>, AllocError>
    ensures { IfOk result (λ reason. reason ≡ reasons.gift_reason shape.now past.now clause gift) }
{
    match clause {
        Clause::Once => given_again(alloc, past, gift),
        Clause::Linked => unserved(alloc, past, gift),
        Clause::Depth => Ok(Some(full(alloc, past, gift.lane)?)),
        Clause::Flow => passed(alloc, shape, past, gift),
        Clause::Alone => shared(alloc, shape, past, gift),
        _ => Ok(None),
    }
}

/// Of an Accept from this number of the queue.
fn forward_reason(
    alloc: Global,
    shape: &Shape,
    past: &[Step],
    clause: Clause,
    queue: usize,
    number: u64,
) -> Result<Option<Reason>, AllocError>
    requires { IsFront shape.now past.now }
    ensures { IfOk result (λ reason. reason ≡ reasons.forward_reason shape.now past.now clause queue number) }
{
    match clause {
        Clause::Order => out_of_order(alloc, shape, past, queue, number),
        Clause::Origin => Ok(Some(Reason::Foreign { queue, number })),
        _ => Ok(None),
    }
}

/// Of an event that the lane adds.
fn extra_reason(alloc: Global, past: &[Step], lane: usize) -> Result<Reason, AllocError>
    ensures { IfOk result (λ reason. reason ≡ reasons.extra_reason past.now lane) }
{
    let count = unanswered_of(alloc, past, lane)?.len();
    if count == 0 {
        return Ok(Reason::Idle { lane });
    }
    let count = extra_count(past, lane);
    Ok(Reason::Added { lane, count })
}

/// Of an answer of the lane, or of an event that it adds.
fn answer_reason(
    alloc: Global,
    past: &[Step],
    clause: Clause,
    lane: usize,
) -> Result<Option<Reason>, AllocError>
    ensures { IfOk result (λ reason. reason ≡ reasons.answer_reason past.now clause lane) }
{
    match clause {
        Clause::Answers => Ok(Some(Reason::Idle { lane })),
        Clause::Extras => Ok(Some(extra_reason(alloc, past, lane)?)),
        _ => Ok(None),
    }
}

/// Of what is new, or turned away, or of Shut.
fn closed_reason(past: &[Step], clause: Clause) -> Option<Reason>
    ensures { result ≡ reasons.closed_reason past.now clause }
{
    match clause {
        Clause::Closed => match place_of_shut(past) {
            Some(at) => Some(Reason::Shut { at }),
            None => Some(Reason::Open),
        },
        _ => None,
    }
}

/// What shows that the step behind these breaks the clause, if the steps say it.
pub(crate) fn reason_of(
    alloc: Global,
    shape: &Shape,
    past: &[Step],
    clause: Clause,
    step: &Step,
) -> Result<Option<Reason>, AllocError>
    requires { IsFront shape.now past.now }
    ensures { IfOk result (λ reason. reason ≡ reasons.reason_of shape.now past.now clause step.now) }
{
    match step {
        Step::Accept { source, .. } => match source {
            Source::New { .. } => Ok(closed_reason(past, clause)),
            Source::Of { queue, number } => {
                forward_reason(alloc, shape, past, clause, *queue, *number)
            }
        },
        Step::Give {
            lane,
            queue,
            number,
        } => {
            let (lane, queue, number) = (*lane, *queue, *number);
            let gift = Gift {
                lane,
                queue,
                number,
            };
            gift_reason(alloc, shape, past, clause, gift)
        }
        Step::Done { lane, .. } | Step::More { lane, .. } => {
            answer_reason(alloc, past, clause, *lane)
        }
        Step::Turned { .. } | Step::Shut => Ok(closed_reason(past, clause)),
        Step::Bounced { .. } => Ok(None),
    }
}
