//! The judging of a log.

use crate::texts::{document_in, log_for};
use crate::{BAD_LOG, failed, printed};
use command_line::AppFault;
use judge_app::{JudgeFault, judge_text, status_of};
use std::rt::Files;

/// Prints why a log isn't judged, and gives the status.
fn refused(rt: &impl Eprint, fault: JudgeFault) -> u8 {
    match fault {
        JudgeFault::Document(fault) => failed(rt, &AppFault::Document(fault)),
        JudgeFault::Memory => failed(rt, &AppFault::Memory),
        fault => {
            let _ = eprintln!(rt; "evsched: {fault}");
            BAD_LOG
        }
    }
}

/// Judges a log by a document, prints the verdict, and gives the status.
fn judged<R: AllocGlobal + Print + Eprint>(rt: &R, document: &[u8], log: &[u8]) -> u8 {
    match judge_text(rt.alloc(), document, log) {
        Ok(judged) => match printed(rt, judged.text.as_str()) {
            0 => status_of(&judged.finding),
            status => status,
        },
        Err(fault) => refused(rt, fault),
    }
}

/// Judges a log by the document in a file, and gives the status. Without a file the log stands on standard input.
pub(crate) fn judged_with_file<R: AllocGlobal + Files + Input + Print + Eprint>(
    rt: &R,
    document: &str,
    log: Option<&str>,
    on_terminal: bool,
) -> u8 {
    let document = match document_in(rt, document, false) {
        Ok(document) => document,
        Err(status) => return status,
    };
    match log_for(rt, "judge", log, on_terminal) {
        Ok(log) => judged(rt, &document, &log),
        Err(status) => status,
    }
}
