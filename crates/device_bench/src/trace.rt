//! The trace of the runs.

ghost use Rattle.std.specs.Prelude.{◌≡◌, IfOk};
ghost use Rattle.device_bench.specs.Trace.{IsTrace, entry_parts, parts};

use pipeline_laws::Entry;
use std::alloc::{AllocError, Global};

/// Of how many flows the events are.
pub const FLOWS: u64 = 1024;

/// The entry of this number: the flows come in turn, and the payload is the number.
fn entry(number: u64) -> Entry
    ensures { parts result ≡ entry_parts number }
{
    Entry {
        flow: (number % FLOWS) as u32,
        priority: 128,
        payload: number,
    }
}

/// A trace of so many entries. The document's own stays empty, since a document holds at most 1 MiB, which is less than 200,000 lines.
pub fn entries(alloc: Global, count: u64) -> Result<Vec<Entry>, AllocError>
    ensures { IfOk result (λ v. IsTrace count v.items) }
{
    let mut trace = Vec::new(alloc);
    for number in 0..count {
        trace.push(entry(number))?;
    }
    Ok(trace)
}
