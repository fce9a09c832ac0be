//! The lines of the report.

ghost use Rattle.std.specs.Prelude.{◌≡◌, ◌++◌, OnOk, flat_map, string_bytes};
ghost use Rattle.play_text.specs.Text as texts;

use crate::words::write_event;
use event_answers::{Held, Report, Undelivered, Untaken};
use evt_types::{Delivery, KeptEvent, QueueDraft};
use std::alloc::AllocError;

fn write_waiting(all: &[Delivery], out: &mut String) -> Result<(), AllocError>
    ensures { OnOk result (string_bytes out.new ≡ string_bytes out.old ++ flat_map texts.waiting_line all.now) }
{
    for waiting in all {
        let (queue, number) = (waiting.queue(), waiting.number());
        writeln!(out, "waiting q{queue} #{number}")?;
    }
    Ok(())
}

fn write_kept(queues: &[QueueDraft], all: &[KeptEvent], out: &mut String) -> Result<(), AllocError>
    ensures { OnOk result (string_bytes out.new ≡ string_bytes out.old ++ flat_map (texts.kept_line queues.now) all.now) }
{
    for kept in all {
        let (queue, number) = (kept.queue, kept.number);
        write!(out, "kept q{queue} #{number} ")?;
        write_event(queues, &kept.event, out)?;
    }
    Ok(())
}

#[tactic(auto, unfolding(crate::specs::Text::undelivered_line))]
fn write_undelivered_line(undelivered: &Undelivered, out: &mut String) -> Result<(), AllocError>
    ensures { OnOk result (string_bytes out.new ≡ string_bytes out.old ++ texts.undelivered_line undelivered.now) }
{
    let Undelivered {
        lane,
        queue,
        number,
        ..
    } = *undelivered;
    writeln!(out, "undelivered l{lane} q{queue} #{number}")
}

fn write_undelivered(all: &[Undelivered], out: &mut String) -> Result<(), AllocError>
    ensures { OnOk result (string_bytes out.new ≡ string_bytes out.old ++ flat_map texts.undelivered_line all.now) }
{
    for undelivered in all {
        write_undelivered_line(undelivered, out)?;
    }
    Ok(())
}

fn write_held(all: &[Held], out: &mut String) -> Result<(), AllocError>
    ensures { OnOk result (string_bytes out.new ≡ string_bytes out.old ++ flat_map texts.held_line all.now) }
{
    for held in all {
        let Held {
            port,
            queue,
            number,
        } = *held;
        writeln!(out, "held p{port} q{queue} #{number}")?;
    }
    Ok(())
}

fn write_untaken(queues: &[QueueDraft], all: &[Untaken], out: &mut String) -> Result<(), AllocError>
    ensures { OnOk result (string_bytes out.new ≡ string_bytes out.old ++ flat_map (texts.untaken_line queues.now) all.now) }
{
    for untaken in all {
        let lane = untaken.lane;
        write!(out, "untaken l{lane} ")?;
        write_event(queues, &untaken.event, out)?;
    }
    Ok(())
}

fn write_pockets(pockets: &[u64], out: &mut String) -> Result<(), AllocError>
    ensures { OnOk result (string_bytes out.new ≡ string_bytes out.old ++ flat_map texts.pocket_text pockets.now) }
{
    for pocket in pockets {
        write!(out, " {pocket}")?;
    }
    Ok(())
}

fn write_credits(limit: u64, report: &Report, out: &mut String) -> Result<(), AllocError>
    ensures { OnOk result (string_bytes out.new ≡ string_bytes out.old ++ texts.credits_text limit report.now) }
{
    let (free, own) = (report.free, report.own);
    write!(out, "free {free}\npockets")?;
    write_pockets(&report.pockets, out)?;
    write!(out, "\nown {own}\nlimit {limit}\n")
}

fn write_lists(queues: &[QueueDraft], report: &Report, out: &mut String) -> Result<(), AllocError>
    ensures { OnOk result (string_bytes out.new ≡ string_bytes out.old ++ texts.lists_text queues.now report.now) }
{
    write_waiting(&report.waiting, out)?;
    write_kept(queues, &report.kept, out)?;
    write_undelivered(&report.undelivered, out)?;
    write_held(&report.held, out)?;
    write_untaken(queues, &report.untaken, out)
}

/// The report of a device with this limit.
pub fn write_report(
    queues: &[QueueDraft],
    limit: u64,
    report: &Report,
    out: &mut String,
) -> Result<(), AllocError>
    ensures { OnOk result (string_bytes out.new ≡ string_bytes out.old ++ texts.report_text queues.now limit report.now) }
{
    out.push_str("report\n")?;
    write_lists(queues, report, out)?;
    write_credits(limit, report, out)
}
