//! The reading of a trace.

ghost use Rattle.std.specs.Prelude.{◌≡◌, map, IfOk};
ghost use Rattle.play_documents.specs.Document.{Gives};
ghost use Rattle.run_documents.specs.Trace.{entry_by, entry_in, line_entry, trace_of};

use evt_types::MAX_FLOWS;
use pipeline_laws::Entry;
use play_documents::words::{lines, next_line, number, without_carriage_return, words};
use play_documents::{DocFault, ReadFault};
use std::alloc::{AllocError, Global};

/// The event of this flow, priority and payload.
#[tactic(auto, unfolding(crate::specs::Trace::entry_by))]
fn entry_by(flow: &str, priority: &str, payload: &str) -> Option<Entry>
    ensures { result ≡ entry_by flow.now priority.now payload.now }
{
    let flow = number(flow, u64::from(MAX_FLOWS) - 1)? as u32;
    let priority = number(priority, u64::from(u8::MAX))? as u8;
    let payload = number(payload, u64::MAX)?;
    Some(Entry {
        flow,
        priority,
        payload,
    })
}

/// The event of a line's words.
fn entry_in(words: &[&str]) -> Option<Entry>
    ensures { result ≡ entry_in (map (λ s. s.now) words.now) }
{
    match words {
        [flow, priority, payload] => entry_by(flow, priority, payload),
        _ => None,
    }
}

/// The event of a line.
#[tactic(auto, unfolding(crate::specs::Trace::line_entry))]
fn line_entry(alloc: Global, line: &str) -> Result<Option<Entry>, AllocError>
    ensures { IfOk result (λ entry. entry ≡ line_entry line.now) }
{
    let words = words(alloc, line)?;
    Ok(entry_in(&words))
}

/// The events of a trace.
pub fn read_trace(alloc: Global, text: &str) -> Result<Vec<Entry>, ReadFault>
    ensures { Gives (λ v. v.items) result (trace_of text.now) }
{
    let lines = lines(alloc, text)?;
    let mut entries = Vec::new(alloc);
    let mut number = 0u32;
    for line in &lines {
        number = next_line(number)?;
        let line = without_carriage_return(line);
        if line.is_empty() {
            continue;
        }
        match line_entry(alloc, line)? {
            Some(entry) => entries.push(entry)?,
            None => return Err(ReadFault::Document(DocFault::BadTrace(number))),
        }
    }
    Ok(entries)
}
