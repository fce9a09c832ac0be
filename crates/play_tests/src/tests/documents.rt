//! Documents with the texts of their runs, and the play of a document over memory.

use command_line::AppFault;
use pipeline_app::play;
use play_documents::DocFault;
use std::alloc::Global;
use std::process::Abort;

/// An event is accepted, given, dequeued and released.
pub const FIRST_EVENT: &str = r#"limit = 4
quantum = 2
sweep = 8
script = """
new 0 0 7 128 5
sweep
deq 1 4
rel 1
sweep
"""
[[queue]]
kind = "atomic"
slots = 4
[[port]]
threshold = 4
depth = 4
replies = 4
implicit = false
links = []
[[port]]
threshold = 4
depth = 4
replies = 4
implicit = false
links = [0]
"#;

pub const FIRST_EVENT_TEXT: &str = r#"new 0: ok
sweep: taken=1 given=1 bounced=0
deq 1: 1
- q0 #0 0080004000000007 5
rel 1: ok
sweep: taken=1 given=0 bounced=0
log
accept q0 #0 new l0 0080004000000007 5
give l1 q0 #0
done l1 release
report
free 2
pockets 1 1
own 0
limit 4
"#;

/// The script of that document.
pub const FIRST_SCRIPT: &str = "new 0 0 7 128 5\nsweep\ndeq 1 4\nrel 1\nsweep\n";

/// The text of the document without its script's lines: nothing happens in the device.
pub const EMPTY_SCRIPT_TEXT: &str = r#"log
report
free 4
pockets 0 0
own 0
limit 4
"#;

/// Plays a document of these bytes, which has this end: the whole text, or a fault with nothing written.
pub fn plays(rt: &impl Abort, alloc: Global, document: &[u8], end: Result<&str, DocFault>) {
    let (wanted, text) = match end {
        Ok(text) => (Ok(()), text),
        Err(fault) => (Err(AppFault::Document(fault)), ""),
    };
    let mut reader = document;
    let mut written = Vec::new(alloc);
    let outcome = play(alloc, &mut reader, &mut written);
    assert_eq!(rt; outcome, wanted);
    assert!(rt; written.as_slice() == text.as_bytes());
}
