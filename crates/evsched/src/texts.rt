//! The reading of a document and of a log, each from a file or from standard input. A fault is printed, and its status given.

use crate::noted::Noted;
use crate::{complain, failed, unreadable};
use command_line::{AppFault, read_all};
use document_checks::too_long;
use std::alloc::Global;
use std::fs::File;
use std::io;
use std::io::Read;
use std::rt::Files;

/// Prints why the reading of a file failed, where it did.
fn note_cause<I: Read>(rt: &impl Eprint, file: &str, reader: &Noted<I>) {
    if let Some(cause) = reader.cause() {
        let _ = eprintln!(rt; "  {file}: {cause}");
    }
}

/// The bytes of the document that the reader gives. All that can be wrong with them yet is that they are too many, which is explained
/// where `explain`.
fn document_from<R: AllocGlobal + Eprint, I: Read>(
    rt: &R,
    reader: &mut I,
    explain: bool,
) -> Result<Vec<u8>, u8> {
    let fault = match read_all(rt.alloc(), reader) {
        Ok(document) => return Ok(document),
        Err(fault) => fault,
    };
    let status = failed(rt, &fault);
    if let (true, AppFault::Document(_)) = (explain, &fault) {
        if let Ok(explanation) = too_long(rt.alloc()) {
            let _ = eprint!(rt; "{}", explanation.text);
        }
    }
    Err(status)
}

/// The bytes of the document in a file.
pub(crate) fn document_in<R: AllocGlobal + Files + Eprint>(
    rt: &R,
    file: &str,
    explain: bool,
) -> Result<Vec<u8>, u8> {
    match File::open(rt, file) {
        Ok(opened) => {
            let mut reader = Noted::new(opened);
            let document = document_from(rt, &mut reader, explain);
            note_cause(rt, file, &reader);
            document
        }
        Err(cause) => Err(unreadable(rt, file, &cause)),
    }
}

/// The bytes of the document on standard input. Where that is a terminal, a line says that it is waited for.
pub(crate) fn document_in_input<R: AllocGlobal + Input + Eprint>(
    rt: &R,
    on_terminal: bool,
    explain: bool,
) -> Result<Vec<u8>, u8> {
    await_document(rt, on_terminal);
    document_from(rt, &mut rt.reader(), explain)
}

/// Says that a document is waited for, where it is typed on a terminal.
pub(crate) fn await_document(rt: &impl Eprint, on_terminal: bool) {
    if on_terminal {
        complain(
            rt,
            "evsched: reading a document from standard input, to its end (Ctrl-D); evsched --help says more",
        );
    }
}

/// All that is read.
fn read_whole<I: Read>(alloc: Global, reader: &mut I) -> Result<Vec<u8>, AppFault> {
    let mut bytes = Vec::new(alloc);
    match reader.read_to_end(&mut bytes) {
        Ok(_) => Ok(bytes),
        Err(error) if error.kind() == io::ErrorKind::OutOfMemory => Err(AppFault::Memory),
        Err(_) => Err(AppFault::Read),
    }
}

/// The bytes of the log that the reader gives.
fn log_from<R: AllocGlobal + Eprint, I: Read>(rt: &R, reader: &mut I) -> Result<Vec<u8>, u8> {
    match read_whole(rt.alloc(), reader) {
        Ok(log) => Ok(log),
        Err(fault) => Err(failed(rt, &fault)),
    }
}

/// The bytes of the log in a file.
fn log_in<R: AllocGlobal + Files + Eprint>(rt: &R, file: &str) -> Result<Vec<u8>, u8> {
    match File::open(rt, file) {
        Ok(opened) => {
            let mut reader = Noted::new(opened);
            let log = log_from(rt, &mut reader);
            note_cause(rt, file, &reader);
            log
        }
        Err(cause) => Err(unreadable(rt, file, &cause)),
    }
}

/// The bytes of the log for this command: in a file, or without one on standard input. Where that is a terminal, a line says that it is
/// waited for.
pub(crate) fn log_for<R: AllocGlobal + Files + Input + Eprint>(
    rt: &R,
    command: &str,
    file: Option<&str>,
    on_terminal: bool,
) -> Result<Vec<u8>, u8> {
    if let Some(file) = file {
        return log_in(rt, file);
    }
    if on_terminal {
        let _ = eprintln!(rt;
            "evsched: reading a log from standard input, to its end (Ctrl-D); evsched help {command} says more"
        );
    }
    log_from(rt, &mut rt.reader())
}
