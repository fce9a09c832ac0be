//! The judges are compared on transcripts that are drawn at random.

use crate::device::Device;
use crate::drawing::Drawing;
use crate::fault::RunFault;
use crate::mutation::{Change, changed};
use crate::plain_judge::{Found, NOTHING};
use crate::tally::Tally;
use crate::words::Words;
use evt_types::{Shape, Step};
use std::alloc::Global;
use transcript_judge::{Verdict, judge};

/// How many seeds a device is run with.
const SEEDS: u64 = 80;
/// How many moves are made for a transcript.
const MOVES: usize = 60;

/// The judge judges the transcript, of which this was found. Its verdict is counted.
fn judge_beside(words: Words<'_>, found: Found, tally: &mut Tally) -> Result<Verdict, RunFault> {
    let steps = words.steps;
    let verdict = judge(words.alloc, words.shape, steps)?;
    if !words.agrees(found, verdict)? {
        return Err(RunFault::Differs(format!(in words.alloc;
            "of {steps:?} the verdict is {verdict:?}, and plainly it is {found:?}"
        )?));
    }
    tally.note(verdict);
    Ok(verdict)
}

/// Both judge each front of a lawful transcript, which nothing breaks, and the transcript too.
fn judge_fronts(words: Words<'_>, tally: &mut Tally) -> Result<(), RunFault> {
    let mut found = NOTHING;
    for count in 0..words.steps.len().saturating_add(1) {
        let front = words.before(count);
        if count > 0 {
            found = front.found_after(found)?;
        }
        if let Verdict::Broken { .. } = judge_beside(front, found, tally)? {
            let steps = front.steps;
            return Err(RunFault::Differs(format!(in words.alloc;
                "{steps:?} is broken, and is a front of a core's log"
            )?));
        }
    }
    Ok(())
}

/// The judges are compared on the device: on fronts of lawful transcripts, or on lawful ones with a change.
pub(crate) fn compare(
    alloc: Global,
    device: &Device,
    change: Option<Change>,
) -> Result<Tally, RunFault> {
    let mut tally = Tally::none();
    let shape = device.shape(alloc)?;
    for seed in 0..SEEDS {
        let mut drawing = Drawing::new(seed);
        let steps = drawing.transcript(alloc, device.shape(alloc)?, MOVES)?;
        match change {
            None => judge_fronts(words_of(alloc, &shape, &steps), &mut tally)?,
            Some(change) => {
                let other = changed(alloc, &steps, change, &mut drawing)?;
                let words = words_of(alloc, &shape, &other);
                let _ = judge_beside(words, words.found()?, &mut tally)?;
            }
        }
    }
    Ok(tally)
}

fn words_of<'a>(alloc: Global, shape: &'a Shape, steps: &'a [Step]) -> Words<'a> {
    Words {
        alloc,
        shape,
        steps,
    }
}
