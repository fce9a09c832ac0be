//! The whole picture.

ghost use Rattle.std.specs.Prelude.{◌≡◌, ◌↔◌, ℕ, ◌+◌, ◌++◌, ◌<◌, ◌^◌, true, List, OnOk, IfOk, All, string_bytes, length, map, flat_map};
ghost use Rattle.std.specs.List.{range_with_len};
ghost use Rattle.evt_types.specs.declared.draft.QueueDraft.{QueueDraft as QueueValue};
ghost use Rattle.evt_types.specs.declared.step.Step.{Step as StepValue};
ghost use Rattle.timelines.specs.Layout.{frame_in};
ghost use Rattle.timelines.specs.Marks as marks;
ghost use Rattle.timelines.specs.Picture as pictures;
ghost use Rattle.timelines.specs.Links.{IsPlaced};

use crate::layout::Sheet;
use evt_types::{QueueDraft, Step};
use std::alloc::{AllocError, Global};

impl Sheet {
    /// The marks, in the order of the steps.
    #[tactic(auto, using(crate::proofs::Texts::flat_map_more))]
    fn write_marks(
        &self,
        queues: &[QueueDraft],
        log: &[Step],
        out: &mut String,
    ) -> Result<(), AllocError>
        requires { length queues.now < 2 ^ 16 }
        ensures { OnOk result (string_bytes out.new ≡ string_bytes out.old ++ flat_map marks.mark_text (pictures.marks_of queues.now (frame_in self.now) log.now)) }
    {
        let mut place = 0;
        for step in log {
            self.write_mark(queues, log, place, step, out)?;
            place += 1;
        }
        Ok(())
    }
}

/// Whether the queue and the lane that the step names are there.
fn is_placed(queues: usize, lanes: usize, step: &Step) -> bool
    ensures { (result ≡ true) ↔ IsPlaced queues lanes step.now }
{
    match step {
        Step::Accept { queue, .. } => *queue < queues,
        Step::Give { lane, .. } => *lane < lanes,
        Step::Done { lane, .. } => *lane < lanes,
        Step::More { lane, .. } => *lane < lanes,
        Step::Turned { lane, .. } => *lane < lanes,
        Step::Bounced { lane } => *lane < lanes,
        Step::Shut => true,
    }
}

/// Whether the queues and the lanes that a log names are there, which a picture of it needs.
pub fn are_placed(queues: usize, lanes: usize, log: &[Step]) -> bool
    ensures { (result ≡ true) ↔ All (IsPlaced queues lanes) log.now }
{
    for step in log {
        if !is_placed(queues, lanes, step) {
            return false;
        }
    }
    true
}

/// The picture, in SVG, of a log of a device with these queues and so many lanes: a mark for each step, with a title that says which
/// step it is, of what kind and of which event, in the rows of the queues and lanes.
#[tactic(auto, unfolding(crate::specs::Picture::picture, crate::specs::Picture::head, crate::specs::Picture::marks))]
pub fn timeline(
    alloc: Global,
    queues: &[QueueDraft],
    lanes: usize,
    log: &[Step],
) -> Result<String, AllocError>
    requires few { length queues.now + lanes < 2 ^ 16 }
    requires placed { All (IsPlaced (length queues.now) lanes) log.now }
    ensures { IfOk result (λ text. string_bytes text ≡ pictures.picture queues.now lanes log.now) }
{
    let sheet = Sheet::of(alloc, queues.len(), lanes, log)?;
    let mut out = String::new(alloc);
    sheet.write_head(queues, log.len(), &mut out)?;
    sheet.write_marks(queues, log, &mut out)?;
    out.push_str("</svg>\n")?;
    Ok(out)
}

/// A picture is its head, the texts of its marks in order, and its foot; and its marks name each step of the log, in order, once. The
/// function does nothing: its contract is the law.
pub fn marks_name_each_step()
    ensures parts { (qs : List QueueValue) (ls : ℕ) (T : List StepValue) → pictures.picture qs ls T ≡ pictures.head qs ls T ++ flat_map marks.mark_text (pictures.marks qs ls T) ++ pictures.foot }
    ensures steps { (qs : List QueueValue) (ls : ℕ) (T : List StepValue) → map (λ (m : marks.Mark). m.step) (pictures.marks qs ls T) ≡ range_with_len 0 (length T) }
{}
