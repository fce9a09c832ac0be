//! The lines of the answers.

ghost use Rattle.std.specs.Prelude.{◌≡◌, ◌++◌, OnOk, flat_map, string_bytes};
ghost use Rattle.play_text.specs.Text as texts;

use crate::answer::Answer;
use crate::words::write_event;
use event_answers::{Behind, Refused, Swept};
use evt_types::{Delivery, Op, QueueDraft};
use std::alloc::AllocError;

fn write_op(op: Op, out: &mut String) -> Result<(), AllocError>
    ensures { OnOk result (string_bytes out.new ≡ string_bytes out.old ++ texts.op_name op) }
{
    match op {
        Op::New => out.push_str("new"),
        Op::Forward => out.push_str("fwd"),
        Op::Release => out.push_str("rel"),
        Op::ForwardMore => out.push_str("more"),
    }
}

fn write_refusal(refused: Refused, out: &mut String) -> Result<(), AllocError>
    ensures { OnOk result (string_bytes out.new ≡ string_bytes out.old ++ texts.refusal_text refused) }
{
    match refused {
        Refused::Stopped => out.push_str("Stopped"),
        Refused::BadQueue => out.push_str("BadQueue"),
        Refused::NothingHeld => out.push_str("NothingHeld"),
        Refused::TooMany => out.push_str("TooMany"),
        Refused::Backpressure { free } => write!(out, "Backpressure free={free}"),
        Refused::Raced { .. } => out.push_str("Raced"),
        Refused::Full => out.push_str("Full"),
    }
}

fn write_outcome(outcome: Result<(), Refused>, out: &mut String) -> Result<(), AllocError>
    ensures { OnOk result (string_bytes out.new ≡ string_bytes out.old ++ texts.outcome_text outcome) }
{
    match outcome {
        Ok(()) => out.push_str("ok"),
        Err(refused) => write_refusal(refused, out),
    }
}

fn write_delivery(
    queues: &[QueueDraft],
    delivery: &Delivery,
    out: &mut String,
) -> Result<(), AllocError>
    ensures { OnOk result (string_bytes out.new ≡ string_bytes out.old ++ texts.delivery_line queues.now delivery.now) }
{
    let (queue, number) = (delivery.queue(), delivery.number());
    write!(out, "- q{queue} #{number} ")?;
    write_event(queues, &delivery.event(), out)
}

fn write_deliveries(
    queues: &[QueueDraft],
    deliveries: &[Delivery],
    out: &mut String,
) -> Result<(), AllocError>
    ensures { OnOk result (string_bytes out.new ≡ string_bytes out.old ++ texts.deliveries_text queues.now deliveries.now) }
{
    let count = deliveries.len();
    writeln!(out, "{count}")?;
    for delivery in deliveries {
        write_delivery(queues, delivery, out)?;
    }
    Ok(())
}

fn write_behind(behind: Behind, out: &mut String) -> Result<(), AllocError>
    ensures { OnOk result (string_bytes out.new ≡ string_bytes out.old ++ texts.behind_text behind) }
{
    let released = behind.released;
    writeln!(out, "Behind released={released}")
}

fn write_swept(swept: Swept, out: &mut String) -> Result<(), AllocError>
    ensures { OnOk result (string_bytes out.new ≡ string_bytes out.old ++ texts.swept_line swept) }
{
    let Swept {
        taken,
        given,
        bounced,
    } = swept;
    writeln!(out, "sweep: taken={taken} given={given} bounced={bounced}")
}

fn write_answer(queues: &[QueueDraft], answer: &Answer, out: &mut String) -> Result<(), AllocError>
    ensures { OnOk result (string_bytes out.new ≡ string_bytes out.old ++ texts.answer_text queues.now answer.now) }
{
    match answer {
        Answer::Enqueued { port, op, outcome } => {
            write_op(*op, out)?;
            write!(out, " {port}: ")?;
            write_outcome(*outcome, out)?;
            out.push_str("\n")
        }
        Answer::Dequeued { port, outcome } => {
            write!(out, "deq {port}: ")?;
            match outcome {
                Ok(deliveries) => write_deliveries(queues, deliveries, out),
                Err(behind) => write_behind(*behind, out),
            }
        }
        Answer::Swept(swept) => write_swept(*swept, out),
        Answer::Shut => out.push_str("shut: ok\n"),
    }
}

/// The lines of all answers.
pub fn write_answers(
    queues: &[QueueDraft],
    answers: &[Answer],
    out: &mut String,
) -> Result<(), AllocError>
    ensures { OnOk result (string_bytes out.new ≡ string_bytes out.old ++ flat_map (texts.answer_text queues.now) answers.now) }
{
    for answer in answers {
        write_answer(queues, answer, out)?;
    }
    Ok(())
}
