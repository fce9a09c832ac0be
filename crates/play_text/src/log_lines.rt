//! The lines of the log.

ghost use Rattle.std.specs.Prelude.{◌≡◌, ◌<◌, ◌+◌, ◌^◌, ℕ, ◌++◌, OnOk, string_bytes, slice_index, length, All, IfOk, replicate};
ghost use Rattle.play_text.specs.Text as texts;

use crate::words::write_event;
use evt_types::{Event, Outcome, QueueDraft, Source, Step};
use std::alloc::{AllocError, Global};

fn write_source(source: Source, out: &mut String) -> Result<(), AllocError>
    ensures { OnOk result (string_bytes out.new ≡ string_bytes out.old ++ texts.source_text source) }
{
    match source {
        Source::New { lane } => write!(out, "new l{lane}"),
        Source::Of { queue, number } => write!(out, "of q{queue} #{number}"),
    }
}

fn write_accept(
    queues: &[QueueDraft],
    queue: usize,
    number: u64,
    event: &Event,
    source: Source,
    out: &mut String,
) -> Result<(), AllocError>
    ensures { OnOk result (string_bytes out.new ≡ string_bytes out.old ++ texts.accept_line queues.now queue number event.now source) }
{
    write!(out, "accept q{queue} #{number} ")?;
    write_source(source, out)?;
    out.push_str(" ")?;
    write_event(queues, event, out)
}

fn write_done(queues: &[QueueDraft], outcome: &Outcome, out: &mut String) -> Result<(), AllocError>
    ensures { OnOk result (string_bytes out.new ≡ string_bytes out.old ++ texts.done_text queues.now outcome.now) }
{
    match outcome {
        Outcome::Released => out.push_str("release\n"),
        Outcome::Forwarded(event) => {
            out.push_str("forward ")?;
            write_event(queues, event, out)
        }
    }
}

/// The line of a step; `number` is that of an accepted event.
pub fn write_step(
    queues: &[QueueDraft],
    number: u64,
    step: &Step,
    out: &mut String,
) -> Result<(), AllocError>
    ensures { OnOk result (string_bytes out.new ≡ string_bytes out.old ++ texts.step_line queues.now number step.now) }
{
    match step {
        Step::Accept {
            queue,
            event,
            source,
        } => write_accept(queues, *queue, number, event, *source, out),
        Step::Give {
            lane,
            queue,
            number,
        } => writeln!(out, "give l{lane} q{queue} #{number}"),
        Step::Done { lane, outcome } => {
            write!(out, "done l{lane} ")?;
            write_done(queues, outcome, out)
        }
        Step::More { lane, event } => {
            write!(out, "more l{lane} ")?;
            write_event(queues, event, out)
        }
        Step::Turned { lane, event } => {
            write!(out, "turned l{lane} ")?;
            write_event(queues, event, out)
        }
        Step::Bounced { lane } => writeln!(out, "bounced l{lane}"),
        Step::Shut => out.push_str("shut\n"),
    }
}

/// How many events each queue has accepted, as far as a log was read.
#[derive(Debug, Drop)]
pub struct Counts {
    pub accepted: Vec<u64>,
}

impl Counts {
    /// Those of a log of which nothing was read.
    pub fn none(alloc: Global, queues: usize) -> Result<Counts, AllocError>
        ensures { IfOk result (λ counts. counts.accepted.items ≡ replicate queues 0) }
    {
        Ok(Counts {
            accepted: vec![in alloc; 0; queues]?,
        })
    }

    /// The number of the event that the step accepts, if it accepts one. Counts it.
    pub fn count(&mut self, step: &Step) -> u64
        requires there { texts.IsInRange (length self.old.accepted.items) step.now }
        requires fits { (q : ℕ) → slice_index self.old.accepted.items q + 1 < 2 ^ 64 }
        ensures number { result ≡ texts.count_of self.old.accepted.items step.now }
        ensures counted { self.new.accepted.items ≡ texts.counts_after self.old.accepted.items step.now }
    {
        match step {
            Step::Accept { queue, .. } => {
                let number = self.accepted[*queue];
                self.accepted[*queue] = number + 1;
                number
            }
            Step::Give { .. }
            | Step::Done { .. }
            | Step::More { .. }
            | Step::Turned { .. }
            | Step::Bounced { .. }
            | Step::Shut => 0,
        }
    }
}

/// The log; each accepted event with its number.
pub fn write_log(
    alloc: Global,
    queues: &[QueueDraft],
    log: &[Step],
    out: &mut String,
) -> Result<(), AllocError>
    requires { All (texts.IsInRange (length queues.now)) log.now }
    ensures { OnOk result (string_bytes out.new ≡ string_bytes out.old ++ texts.log_text queues.now log.now) }
{
    out.push_str("log\n")?;
    let mut counts = Counts::none(alloc, queues.len())?;
    for step in log {
        let number = counts.count(step);
        write_step(queues, number, step, out)?;
    }
    Ok(())
}
