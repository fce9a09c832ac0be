//! The drawing of a log that is read.

ghost use Rattle.std.specs.Prelude.{◌≡◌, None, IfOk, IfErr, IfSome, All, string_bytes};
ghost use Rattle.timelines.specs.Links.{IsPlaced};
ghost use Rattle.log_pictures.specs.Drawn.{IsDrawn, IsPictureOf};
ghost use Rattle.log_pictures.specs.Faults.{IsFirstUnplaced, IsPictureFault, IsTextFault};

use crate::fault::PictureFault;
use evt_types::{Shape, Step};
use log_reading::read_log;
use play_documents::{Document, read_document};
use std::alloc::Global;
use std::slice;
use timelines::{are_placed, timeline};

/// The place of the first step that names a lane that isn't there.
fn first_unplaced(queues: usize, lanes: usize, log: &[Step]) -> Option<usize>
    ensures some { IfSome result (IsFirstUnplaced queues lanes log.now) }
    ensures none { result ≡ None → All (IsPlaced queues lanes) log.now }
{
    for at in 0..log.len() {
        if !are_placed(queues, lanes, slice::from_ref(&log[at])) {
            return Some(at);
        }
    }
    None
}

/// The picture of the log that stands in the text.
fn drawn(alloc: Global, shape: &Shape, text: &[u8]) -> Result<String, PictureFault>
    ensures ok { IfOk result (λ picture. IsDrawn shape.now text.now (string_bytes picture)) }
    ensures err { IfErr result (IsTextFault shape.now text.now) }
{
    let (queues, lanes) = (shape.queues(), shape.lanes());
    let log = read_log(alloc, queues, text)?;
    if let Some(at) = first_unplaced(queues.len(), lanes, &log.steps) {
        let line = log.line as u128 + at as u128 + 1;
        return Err(PictureFault::NoLane { line });
    }
    Ok(timeline(alloc, queues, lanes, &log.steps)?)
}

/// The picture, in SVG, of the log that stands in what `play` printed, by the configuration of the document of these bytes. The document's
/// script isn't looked at.
pub fn picture_of_log(alloc: Global, document: &[u8], text: &[u8]) -> Result<String, PictureFault>
    ensures ok { IfOk result (λ picture. IsPictureOf document.now text.now (string_bytes picture)) }
    ensures err { IfErr result (IsPictureFault document.now text.now) }
{
    let Document { shape, .. } = read_document(alloc, document)?;
    drawn(alloc, &shape, text)
}
