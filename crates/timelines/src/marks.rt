//! The marks, one for each step.

ghost use Rattle.std.specs.Prelude.{◌≡◌, ◌+◌, ◌++◌, ◌<◌, ◌^◌, OnOk, Some, string_bytes, length};
ghost use Rattle.evt_types.specs.Plan.{queue_in};
ghost use Rattle.timelines.specs.Layout as layouts;
ghost use Rattle.timelines.specs.Layout.{frame_in};
ghost use Rattle.timelines.specs.Marks as marks;

use crate::layout::{Row, Sheet, end_at, flow_place};
use crate::links::Spot;
use crate::signs::{
    Look, write_bar, write_bounced_sign, write_done_sign, write_line, write_more_sign,
    write_number_label, write_pair_label, write_shut_sign, write_turned_sign,
};
use crate::titles::{
    write_accept_title, write_bounced_title, write_done_title, write_give_title, write_more_title,
    write_turned_title,
};
use evt_types::{Kind, QueueDraft, Source, Step};
use std::alloc::AllocError;

/// The pair that a Give gives.
fn pair_given(step: &Step) -> (usize, u64)
    ensures { result ≡ marks.pair_of (Some step.now) }
{
    match step {
        Step::Give { queue, number, .. } => (*queue, *number),
        Step::Accept { .. }
        | Step::Done { .. }
        | Step::More { .. }
        | Step::Turned { .. }
        | Step::Bounced { .. }
        | Step::Shut => (0, 0),
    }
}

/// The lane to which a Give gives.
fn lane_given(step: &Step) -> usize
    ensures { result ≡ marks.lane_of (Some step.now) }
{
    match step {
        Step::Give { lane, .. } => *lane,
        Step::Accept { .. }
        | Step::Done { .. }
        | Step::More { .. }
        | Step::Turned { .. }
        | Step::Bounced { .. }
        | Step::Shut => 0,
    }
}

/// The flow of what an Accept accepts.
fn flow_accepted(step: &Step) -> u32
    ensures { result ≡ marks.flow_of (Some step.now) }
{
    match step {
        Step::Accept { event, .. } => event.flow,
        Step::Give { .. }
        | Step::Done { .. }
        | Step::More { .. }
        | Step::Turned { .. }
        | Step::Bounced { .. }
        | Step::Shut => 0,
    }
}

/// Whether it is an Accept of what this event was passed on as.
fn comes_from(event: (usize, u64), step: &Step) -> bool
    ensures { result ≡ marks.comes_from event.0 event.1 (Some step.now) }
{
    match step {
        Step::Accept { source, .. } => match source {
            Source::New { .. } => false,
            Source::Of { queue, number } => *queue == event.0 && *number == event.1,
        },
        Step::Give { .. }
        | Step::Done { .. }
        | Step::More { .. }
        | Step::Turned { .. }
        | Step::Bounced { .. }
        | Step::Shut => false,
    }
}

/// Whether what this event was passed on as by this step isn't accepted at once.
fn is_kept(log: &[Step], place: usize, event: (usize, u64)) -> bool
    requires { place < length log.now }
    ensures { result ≡ marks.is_kept log.now place event }
{
    match log.get(place + 1) {
        Some(step) => !comes_from(event, step),
        None => true,
    }
}

/// Whether the queue's events pin their flows.
fn is_pinned(queues: &[QueueDraft], queue: usize) -> bool
    ensures { result ≡ marks.is_pinned queues.now queue }
{
    match queues.get(queue) {
        Some(draft) => draft.kind == Kind::Atomic,
        None => false,
    }
}

/// Whether a label stands in a bar of this width.
fn is_wide(least: u128, number: u64, width: u128) -> bool
    requires { least < 2 ^ 100 }
    ensures { result ≡ marks.is_wide least number width }
{
    let needed = if number < 100 { least } else { least + 36 };
    needed <= width
}

/// How the bar of an event that is with a lane looks.
fn look_of(pinned: bool) -> Look
    ensures { result ≡ marks.look_of pinned }
{
    if pinned { Look::Pinned } else { Look::Held }
}

fn write_number_if(
    wide: bool,
    x: u128,
    y: u64,
    number: usize,
    out: &mut String,
) -> Result<(), AllocError>
    requires left { x < 2 ^ 100 }
    requires top { y < 2 ^ 40 }
    ensures { OnOk result (string_bytes out.new ≡ string_bytes out.old ++ marks.number_if wide x y number) }
{
    if wide {
        write_number_label(x, y, number, out)?;
    }
    Ok(())
}

fn write_pair_if(
    wide: bool,
    x: u128,
    y: u64,
    event: (usize, u64),
    out: &mut String,
) -> Result<(), AllocError>
    requires left { x < 2 ^ 100 }
    requires top { y < 2 ^ 40 }
    ensures { OnOk result (string_bytes out.new ≡ string_bytes out.old ++ marks.pair_if wide x y event) }
{
    if wide {
        write_pair_label(x, y, event.0, event.1, out)?;
    }
    Ok(())
}

impl Row {
    /// So far below its top.
    pub(crate) fn below(&self, down: u64) -> u64
        requires { down < 100 }
        ensures { result ≡ self.now.top + down }
    {
        u64::from(self.top) + down
    }

    /// The top of the track on which the bar of this place lies.
    fn track(&self, place: usize) -> u64
        ensures value { result ≡ layouts.track_in self.now place }
        ensures small { result < 2 ^ 39 }
    {
        let Row { top, extra } = *self;
        let track = place as u64 % (u64::from(extra) + 1);
        u64::from(top) + 14 + 16 * track
    }
}

impl Sheet {
    /// Where a step begins.
    pub(crate) fn x_at(&self, place: usize) -> u128
        ensures value { result ≡ layouts.x_at (frame_in self.now).unit place }
        ensures small { result < 2 ^ 99 }
    {
        130 + u128::from(self.unit) * place as u128
    }

    pub(crate) fn row_at(&self, row: usize) -> Row
        ensures { result ≡ layouts.row_at (frame_in self.now).rows row }
    {
        match self.rows.get(row) {
            Some(row) => *row,
            None => Row { top: 0, extra: 0 },
        }
    }

    fn spot_at(&self, place: usize) -> Spot
        ensures { result ≡ layouts.spot_at (frame_in self.now).spots place }
    {
        match self.spots.get(place) {
            Some(spot) => *spot,
            None => Spot {
                place: 0,
                origin: None,
            },
        }
    }

    fn end_at(&self, place: usize) -> usize
        ensures { result ≡ layouts.end_at (frame_in self.now).ends place }
    {
        end_at(&self.ends, place)
    }

    /// The row of a lane.
    fn lane_row(&self, queues: usize, lane: usize) -> Row
        requires { queues < 2 ^ 16 }
        ensures { result ≡ layouts.row_at (frame_in self.now).rows (queues + lane) }
    {
        if lane >= self.rows.len() {
            return Row { top: 0, extra: 0 };
        }
        self.row_at(queues + lane)
    }

    /// How wide the bar of a step is.
    fn width_at(&self, place: usize) -> u128
        ensures { result ≡ marks.width_at (frame_in self.now) place }
    {
        let steps = self.end_at(place).saturating_sub(place);
        (u128::from(self.unit) * steps as u128).saturating_sub(2)
    }

    /// The pair of the Give that the step goes back to.
    fn pair_at(&self, log: &[Step], place: usize) -> (usize, u64)
        ensures { result ≡ marks.pair_at (frame_in self.now) log.now place }
    {
        match self.spot_at(place).origin {
            Some(origin) => match log.get(origin) {
                Some(step) => pair_given(step),
                None => (0, 0),
            },
            None => (0, 0),
        }
    }

    /// The flow of the Accept that the step goes back to.
    fn flow_at(&self, log: &[Step], place: usize) -> u32
        ensures { result ≡ marks.flow_at (frame_in self.now) log.now place }
    {
        match self.spot_at(place).origin {
            Some(origin) => match log.get(origin) {
                Some(step) => flow_accepted(step),
                None => 0,
            },
            None => 0,
        }
    }

    /// The track of the Give that the step, an answer on this row, goes back to.
    fn answer_track(&self, row: Row, place: usize) -> u64
        ensures { result ≡ marks.answer_track (frame_in self.now) row (marks.origin_at (frame_in self.now) place) }
    {
        match self.spot_at(place).origin {
            Some(origin) => row.track(self.spot_at(origin).place),
            None => row.track(0),
        }
    }

    /// The bar of an Accept, with its number where there is room.
    #[tactic(auto, unfolding(crate::specs::Marks::waiting_text))]
    fn write_waiting(
        &self,
        place: usize,
        y: u64,
        flow: u32,
        out: &mut String,
    ) -> Result<(), AllocError>
        requires { y < 2 ^ 39 }
        ensures { OnOk result (string_bytes out.new ≡ string_bytes out.old ++ marks.waiting_text (frame_in self.now) place y flow) }
    {
        let number = self.spot_at(place).place;
        let (x, width) = (self.x_at(place), self.width_at(place));
        write_bar(Look::Waits, flow_place(flow, &self.flows), x, y, width, out)?;
        write_number_if(is_wide(24, number as u64, width), x, y, number, out)
    }

    /// The bar of a Give, with its event where there is room.
    #[tactic(auto, unfolding(crate::specs::Marks::held_text))]
    fn write_held(
        &self,
        pinned: bool,
        place: usize,
        event: (usize, u64),
        y: u64,
        flow: u32,
        out: &mut String,
    ) -> Result<(), AllocError>
        requires { y < 2 ^ 39 }
        ensures { OnOk result (string_bytes out.new ≡ string_bytes out.old ++ marks.held_text (frame_in self.now) pinned place event y flow) }
    {
        let (x, width) = (self.x_at(place), self.width_at(place));
        write_bar(
            look_of(pinned),
            flow_place(flow, &self.flows),
            x,
            y,
            width,
            out,
        )?;
        write_pair_if(is_wide(40, event.1, width), x, y, event, out)
    }

    /// The line to an Accept from the answer that ended this Give of the event that it comes from.
    #[tactic(auto, unfolding(crate::specs::Marks::passed_from))]
    fn write_passed_from(
        &self,
        queues: usize,
        log: &[Step],
        given: usize,
        place: usize,
        y: u64,
        event: (usize, u64),
        out: &mut String,
    ) -> Result<(), AllocError>
        requires top { y < 2 ^ 39 }
        requires there { place < length log.now }
        requires few { queues < 2 ^ 16 }
        ensures { OnOk result (string_bytes out.new ≡ string_bytes out.old ++ marks.passed_from (frame_in self.now) log.now queues given place y event) }
    {
        let done = self.end_at(given);
        if done >= place {
            return Ok(());
        }
        let lane = match log.get(given) {
            Some(step) => lane_given(step),
            None => 0,
        };
        let from = self.lane_row(queues, lane).track(self.spot_at(given).place);
        let kept = is_kept(log, done, event);
        let (x, to) = (self.x_at(done), self.x_at(place));
        write_line(kept, x + 8, from + 6, to, y + 6, out)
    }

    /// The line to an Accept from where its event was passed on.
    fn write_passed(
        &self,
        queues: usize,
        log: &[Step],
        place: usize,
        y: u64,
        source: Source,
        out: &mut String,
    ) -> Result<(), AllocError>
        requires top { y < 2 ^ 39 }
        requires there { place < length log.now }
        requires few { queues < 2 ^ 16 }
        ensures { OnOk result (string_bytes out.new ≡ string_bytes out.old ++ marks.passed_text (frame_in self.now) log.now queues place y source) }
    {
        match source {
            Source::New { .. } => Ok(()),
            Source::Of { queue, number } => match self.spot_at(place).origin {
                Some(origin) => {
                    let given = self.end_at(origin);
                    self.write_passed_from(queues, log, given, place, y, (queue, number), out)
                }
                None => Ok(()),
            },
        }
    }
}

impl Sheet {
    /// What is drawn for an Accept.
    #[tactic(auto, unfolding(crate::specs::Marks::accept_text))]
    fn write_accept(
        &self,
        queues: usize,
        log: &[Step],
        place: usize,
        y: u64,
        flow: u32,
        source: Source,
        out: &mut String,
    ) -> Result<(), AllocError>
        requires top { y < 2 ^ 39 }
        requires there { place < length log.now }
        requires few { queues < 2 ^ 16 }
        ensures { OnOk result (string_bytes out.new ≡ string_bytes out.old ++ marks.accept_text (frame_in self.now) log.now queues place y flow source) }
    {
        self.write_waiting(place, y, flow, out)?;
        self.write_passed(queues, log, place, y, source, out)
    }

    /// What the title of the step says.
    fn write_title(
        &self,
        queues: &[QueueDraft],
        log: &[Step],
        place: usize,
        step: &Step,
        out: &mut String,
    ) -> Result<(), AllocError>
        requires { place < length log.now }
        ensures { OnOk result (string_bytes out.new ≡ string_bytes out.old ++ marks.title_at queues.now (frame_in self.now) log.now place step.now) }
    {
        let (steps, end) = (log.len(), self.end_at(place));
        match step {
            Step::Accept {
                queue,
                event,
                source,
            } => {
                let number = self.spot_at(place).place;
                write_accept_title(*queue, number, event.flow, *source, steps, end, out)
            }
            Step::Give {
                lane,
                queue,
                number,
            } => {
                let (flow, pinned) = (self.flow_at(log, place), is_pinned(queues, *queue));
                write_give_title(*lane, (*queue, *number), flow, pinned, steps, end, out)
            }
            Step::Done { lane, outcome } => {
                let event = self.pair_at(log, place);
                write_done_title(*lane, event, outcome, is_kept(log, place, event), out)
            }
            Step::More { lane, event } => {
                write_more_title(*lane, event.queue, self.pair_at(log, place), out)
            }
            Step::Turned { lane, event } => write_turned_title(*lane, event.queue, out),
            Step::Bounced { lane } => write_bounced_title(*lane, out),
            Step::Shut => out.push_str("the device is shut"),
        }
    }

    /// What is drawn for the step.
    fn write_drawn(
        &self,
        queues: &[QueueDraft],
        log: &[Step],
        place: usize,
        step: &Step,
        out: &mut String,
    ) -> Result<(), AllocError>
        requires there { place < length log.now }
        requires few { length queues.now < 2 ^ 16 }
        ensures { OnOk result (string_bytes out.new ≡ string_bytes out.old ++ marks.drawn_at queues.now (frame_in self.now) log.now place step.now) }
    {
        let (count, x) = (queues.len(), self.x_at(place));
        match step {
            Step::Accept {
                queue,
                event,
                source,
            } => {
                let y = self.row_at(*queue).track(self.spot_at(place).place);
                self.write_accept(count, log, place, y, event.flow, *source, out)
            }
            Step::Give {
                lane,
                queue,
                number,
            } => {
                let y = self.lane_row(count, *lane).track(self.spot_at(place).place);
                let (flow, pinned) = (self.flow_at(log, place), is_pinned(queues, *queue));
                self.write_held(pinned, place, (*queue, *number), y, flow, out)
            }
            Step::Done { lane, outcome } => {
                let kept = is_kept(log, place, self.pair_at(log, place));
                let y = self.answer_track(self.lane_row(count, *lane), place);
                write_done_sign(outcome, kept, x, y, out)
            }
            Step::More { lane, .. } => write_more_sign(
                x,
                self.lane_row(count, *lane).below(2),
                out,
            ),
            Step::Turned { lane, .. } => write_turned_sign(
                x,
                self.lane_row(count, *lane).below(2),
                out,
            ),
            Step::Bounced { lane } => write_bounced_sign(
                x,
                self.lane_row(count, *lane).below(3),
                out,
            ),
            Step::Shut => write_shut_sign(x, self.bottom, out),
        }
    }

    /// The mark of the step at this place of the log.
    #[tactic(auto, unfolding(crate::specs::Marks::mark_of))]
    pub(crate) fn write_mark(
        &self,
        queues: &[QueueDraft],
        log: &[Step],
        place: usize,
        step: &Step,
        out: &mut String,
    ) -> Result<(), AllocError>
        requires there { place < length log.now }
        requires few { length queues.now < 2 ^ 16 }
        ensures { OnOk result (string_bytes out.new ≡ string_bytes out.old ++ marks.mark_text (marks.mark_of queues.now (frame_in self.now) log.now place step.now)) }
    {
        out.push_str("<g role='img'><title>step ")?;
        write!(out, "{place}")?;
        out.push_str(": ")?;
        self.write_title(queues, log, place, step, out)?;
        out.push_str("</title>")?;
        self.write_drawn(queues, log, place, step, out)?;
        out.push_str("</g>\n")
    }
}
