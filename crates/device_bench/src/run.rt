//! The trace is run through the document's pipeline.

ghost use Rattle.std.specs.Prelude.{◌≤◌, IfOk};
ghost use Rattle.device_bench.specs.Run.{HasLength};

use crate::fault::BenchFault;
use crate::trace::entries;
use pipeline_app::{Gate, pipeline_text};
use run_documents::{Pipeline, read_pipeline};
use std::alloc::Global;
use std::sync::Wait;
use std::thread::Threads;

/// Runs a trace of so many events through the document's pipeline with so many workers, each of which dequeues at most `burst` events at
/// once, and gives the length of the text of what the stages accepted, which is that of the plain pipeline's.
pub fn text_length<R: Threads + Wait + Sync, G: Gate>(
    rt: &R,
    gate: &G,
    alloc: Global,
    document: &[u8],
    workers: u64,
    events: u64,
    burst: u64,
) -> Result<usize, BenchFault>
    requires { 1 ≤ workers }
    ensures { IfOk result (HasLength document.now workers events) }
{
    let Pipeline { shape, actions, .. } = read_pipeline(alloc, document, workers as usize)?;
    let pipeline = Pipeline {
        shape,
        actions,
        trace: entries(alloc, events)?,
    };
    let text = pipeline_text(rt, alloc, pipeline, burst as usize, gate)?;
    Ok(text.as_bytes().len())
}
