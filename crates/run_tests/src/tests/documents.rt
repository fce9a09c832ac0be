//! A pipeline's document with the text of its runs, and the run of a document over memory.

use pipeline_app::{AppFault, Gate, run_trace};
use play_documents::DocFault;
use std::alloc::Global;
use std::process::Abort;
use std::sync::Wait;
use std::test::Fail;
use std::thread::Threads;

/// The first stage adds 1, the second drops the even payloads. The trace has two flows, of which one has two levels.
pub const PIPELINE: &str = r#"limit = 32
quantum = 1
sweep = 8
depth = 4
replies = 8
trace = """
7 128 1
7 128 2
9 0 3
7 255 4
9 0 6
"""
[[stage]]
kind = "ordered"
order = 8
action = "add 1"
[[stage]]
kind = "atomic"
slots = 4
action = "drop 2"
[[stage]]
kind = "parallel"
"#;

/// What the three stages accept of the trace.
pub const PIPELINE_TEXT: &str = "stage 0 flow 7 level 2: 1 2
stage 0 flow 7 level 3: 4
stage 0 flow 9 level 0: 3 6
stage 1 flow 7 level 2: 2 3
stage 1 flow 7 level 3: 5
stage 1 flow 9 level 0: 4 7
stage 2 flow 7 level 2: 3
stage 2 flow 7 level 3: 5
stage 2 flow 9 level 0: 7
";

/// The pipeline's document, in which new texts stand for old ones.
pub fn changed(alloc: Global, changes: &[(&str, &str)]) -> Result<String, Fail> {
    let mut document = format!(in alloc; "{PIPELINE}")?;
    for (old, new) in changes {
        let (front, rest) = document.split_once(*old).ok_or("the old text")?;
        let next = format!(in alloc; "{front}{new}{rest}")?;
        document = next;
    }
    Ok(document)
}

/// Runs a document of these bytes, which has this end: the whole text, or a fault with nothing written.
pub fn runs<R: Threads + Wait + Abort + Sync, G: Gate>(
    rt: &R,
    alloc: Global,
    document: &[u8],
    workers: u32,
    gate: &G,
    end: Result<&str, DocFault>,
) {
    let (wanted, text) = match end {
        Ok(text) => (Ok(()), text),
        Err(fault) => (Err(AppFault::Document(fault)), ""),
    };
    let mut reader = document;
    let mut written = Vec::new(alloc);
    assert!(rt; 1 <= workers && workers <= 8);
    let outcome = run_trace(rt, alloc, &mut reader, workers, gate, &mut written);
    assert_eq!(rt; outcome, wanted);
    assert!(rt; written.as_slice() == text.as_bytes());
}
