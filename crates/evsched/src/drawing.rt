//! The drawing of a log that is given.

use crate::texts::{document_in, document_in_input, log_for};
use crate::{BAD_LOG, REFUSED, complain, failed, printed};
use command_line::AppFault;
use document_checks::explain_play;
use log_pictures::{PictureFault, picture_of_log};
use std::rt::Files;

/// Prints a fault of the document, and below it where it is and why where `explain`, and gives the status.
fn bad_document<R: AllocGlobal + Eprint>(
    rt: &R,
    fault: &AppFault,
    document: &[u8],
    explain: bool,
) -> u8 {
    let status = failed(rt, fault);
    if explain {
        if let Ok(Some(explanation)) = explain_play(rt.alloc(), document) {
            let _ = eprint!(rt; "{}", explanation.text);
        }
    }
    status
}

/// Draws a log by a document, prints the picture, and gives the status.
fn drawn<R: AllocGlobal + Print + Eprint>(
    rt: &R,
    document: &[u8],
    log: &[u8],
    explain: bool,
) -> u8 {
    match picture_of_log(rt.alloc(), document, log) {
        Ok(picture) => printed(rt, picture.as_str()),
        Err(PictureFault::Document(fault)) => {
            bad_document(rt, &AppFault::Document(fault), document, explain)
        }
        Err(PictureFault::Memory) => failed(rt, &AppFault::Memory),
        Err(fault) => {
            let _ = eprintln!(rt; "evsched: {fault}");
            BAD_LOG
        }
    }
}

/// Draws a log by a document, each in a file or on standard input, and gives the status.
pub(crate) fn drawn_with_files<R: AllocGlobal + Files + Input + Print + Eprint>(
    rt: &R,
    document: Option<&str>,
    log: Option<&str>,
    explain: bool,
    on_terminal: bool,
) -> u8 {
    let document = match (document, log) {
        (Some(file), _) => document_in(rt, file, explain),
        (None, Some(_)) => document_in_input(rt, on_terminal, explain),
        (None, None) => {
            complain(
                rt,
                "evsched: the document and the log can't both be read from standard input",
            );
            Err(REFUSED)
        }
    };
    let document = match document {
        Ok(document) => document,
        Err(status) => return status,
    };
    match log_for(rt, "timeline", log, on_terminal) {
        Ok(log) => drawn(rt, &document, &log, explain),
        Err(status) => status,
    }
}
