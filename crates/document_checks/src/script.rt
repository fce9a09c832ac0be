//! A line of a script that is no command, and one of a trace that is no event.

use crate::bad::write_text;
use crate::lines::position;
use crate::near::nearest;
use crate::places::TableName;
use crate::tables::{Source, tables_of};
use crate::unknown::write_words;
use play_documents::field::{text_at, text_or_none};
use play_documents::words::{lines, number, without_carriage_return, words};
use std::alloc::{AllocError, Global};

/// The commands.
const COMMANDS: [&str; 7] = ["new", "fwd", "more", "rel", "deq", "sweep", "shut"];

/// What a word of a line must be.
#[derive(Clone, Copy)]
enum Word {
    /// A port's number.
    Port,
    /// A number up to this.
    Number(&'static str, u64),
}

impl Word {
    fn is_port(&self) -> bool {
        matches!(self, Word::Port)
    }
}

const QUEUE: Word = Word::Number("the queue", 255);

const FLOW: Word = Word::Number("the flow", 1_048_575);

const PRIORITY: Word = Word::Number("the priority", 255);

const PAYLOAD: Word = Word::Number("the payload", u64::MAX);

/// The words of a command that brings an event, of a release, of a dequeue, and of an event of a trace.
const EVENT: [Word; 5] = [Word::Port, QUEUE, FLOW, PRIORITY, PAYLOAD];

const RELEASE: [Word; 1] = [Word::Port];

const DEQUEUE: [Word; 2] = [Word::Port, Word::Number("MAX", 64)];

const ENTRY: [Word; 3] = [FLOW, PRIORITY, PAYLOAD];

/// The words after a command's name, and how they are written.
fn words_after(name: &str) -> Option<(&'static [Word], &'static str)> {
    match name {
        "new" => Some((&EVENT, "new P Q FLOW PRIO PAYLOAD")),
        "fwd" => Some((&EVENT, "fwd P Q FLOW PRIO PAYLOAD")),
        "more" => Some((&EVENT, "more P Q FLOW PRIO PAYLOAD")),
        "rel" => Some((&RELEASE, "rel P")),
        "deq" => Some((&DEQUEUE, "deq P MAX")),
        "sweep" => Some((&[], "sweep")),
        "shut" => Some((&[], "shut")),
        _ => None,
    }
}

/// Writes what is wrong with the spaces of a line, where something is.
fn write_spaces(line: &str, out: &mut String) -> Result<bool, AllocError> {
    if line.starts_with(' ') {
        out.push_str("  the line begins with a space\n")?;
    } else if line.ends_with(' ') {
        out.push_str("  the line ends with a space\n")?;
    } else if let Some((before, _)) = line.split_once("  ") {
        out.push_str("  two spaces stand together after ")?;
        write_text(before, out)?;
        out.push_str("; words are separated by one\n")?;
    } else if line.contains('\t') {
        out.push_str("  the line has a tab; words are separated by one space\n")?;
    } else if line.contains('\r') {
        out.push_str("  the line has a carriage return; one may stand at its end\n")?;
    } else {
        return Ok(false);
    }
    Ok(true)
}

/// Writes why a word is no number up to the most.
fn write_no_number(name: &str, word: &str, most: u64, out: &mut String) -> Result<(), AllocError> {
    write!(out, "  {name}, ")?;
    write_text(word, out)?;
    if !word.bytes().all(|byte| byte.is_ascii_digit()) {
        out.push_str(", is no number: it must be decimal digits\n")
    } else if word.starts_with('0') {
        out.push_str(", has a 0 before its digits\n")
    } else {
        write!(out, ", is above {most}\n")
    }
}

/// Writes why a word isn't what it must be, where it isn't.
fn write_word(
    word: &str,
    wanted: Word,
    ports: usize,
    out: &mut String,
) -> Result<bool, AllocError> {
    let (name, most) = match wanted {
        Word::Port => ("the port", (ports as u64).saturating_sub(1)),
        Word::Number(name, most) => (name, most),
    };
    match number(word, u64::MAX) {
        None => write_no_number(name, word, most, out)?,
        Some(value) if value <= most => return Ok(false),
        Some(port) if wanted.is_port() => {
            write!(
                out,
                "  there is no port {port}; the ports are 0 to {most}\n"
            )?;
        }
        Some(value) => write!(out, "  {name}, {value}, is above {most}\n")?,
    }
    Ok(true)
}

/// Writes which of the words after so many isn't what it must be.
fn write_wrong(
    given: &[&str],
    wanted: &[Word],
    before: usize,
    ports: usize,
    form: &str,
    out: &mut String,
) -> Result<(), AllocError> {
    if given.len() != wanted.len() {
        let count = given.len().saturating_add(before);
        let words = wanted.len().saturating_add(before);
        return write!(out, "  the words are {count} and must be {words}: {form}\n");
    }
    for (word, wanted) in given.iter().zip(wanted.iter()) {
        if write_word(word, *wanted, ports, out)? {
            return Ok(());
        }
    }
    Ok(())
}

/// Writes why a line is no command.
fn write_no_command(
    alloc: Global,
    line: &str,
    ports: usize,
    out: &mut String,
) -> Result<(), AllocError> {
    let given = words(alloc, line)?;
    let Some((name, rest)) = given.split_first() else {
        return Ok(());
    };
    match words_after(name) {
        Some((wanted, form)) => write_wrong(rest, wanted, 1, ports, form, out),
        None => {
            out.push_str("  there is no command ")?;
            write_text(name, out)?;
            if let Some(near) = nearest(alloc, name, &COMMANDS)? {
                write!(out, "; did you mean `{near}`?")?;
            }
            out.push_str("\n  The commands: ")?;
            write_words(&COMMANDS, out)?;
            out.push_str("\n")
        }
    }
}

/// The line of this number of the document's bytes, from 1.
fn line_of<'a>(bytes: &'a [u8], wanted: usize) -> &'a [u8] {
    let mut found: &[u8] = &[];
    for (number, line) in bytes.split(|byte| *byte == b'\n').enumerate() {
        if number.saturating_add(1) == wanted {
            found = line;
        }
    }
    found
}

/// The line of the document on which a line of the text at a key stands, where it stands there as it is.
fn file_line(source: &Source<'_>, key: &str, number: u32, line: &str) -> Option<usize> {
    let mark = source.mark(TableName::Top, key)?;
    let value = source.bytes.get(mark.value..)?;
    let (first, _) = position(source.bytes.get(..mark.value)?);
    let is_below = value.starts_with(b"\"\"\"\n")
        || value.starts_with(b"'''\n")
        || value.starts_with(b"\"\"\"\r\n")
        || value.starts_with(b"'''\r\n");
    let first = if is_below {
        first.saturating_add(1)
    } else {
        first
    };
    let found = first.saturating_add(number as usize).saturating_sub(1);
    let text = str::from_utf8(line_of(source.bytes, found)).ok()?;
    if text.contains(line) {
        Some(found)
    } else {
        None
    }
}

/// Writes the number of the line in its text and in the document, and the line.
fn write_line(
    source: &Source<'_>,
    key: &str,
    number: u32,
    line: &str,
    out: &mut String,
) -> Result<(), AllocError> {
    write!(out, "  {key} line {number}")?;
    if let Some(found) = file_line(source, key, number, line) {
        write!(out, ", line {found} of the document")?;
    }
    out.push_str(": ")?;
    write_text(line, out)?;
    out.push_str("\n")
}

/// The line of this number of a text, from 1.
fn numbered<'a>(alloc: Global, text: &'a str, wanted: u32) -> Result<&'a str, AllocError> {
    let lines = lines(alloc, text)?;
    let place = (wanted as usize).saturating_sub(1);
    match lines.get(place) {
        Some(line) => Ok(without_carriage_return(line)),
        None => Ok(""),
    }
}

/// Writes the bad line of the script, and why it is no command.
pub(crate) fn write_bad_command(
    source: &Source<'_>,
    number: u32,
    out: &mut String,
) -> Result<(), AllocError> {
    let field = text_at(source.table, "script");
    let line = numbered(source.alloc, text_or_none(&field), number)?;
    write_line(source, "script", number, line, out)?;
    let ports = tables_of(source.alloc, source.table, "port")?.len();
    if write_spaces(line, out)? {
        return Ok(());
    }
    write_no_command(source.alloc, line, ports, out)
}

/// Writes the bad line of the trace, and why it is no event.
pub(crate) fn write_bad_trace(
    source: &Source<'_>,
    number: u32,
    out: &mut String,
) -> Result<(), AllocError> {
    let field = text_at(source.table, "trace");
    let line = numbered(source.alloc, text_or_none(&field), number)?;
    write_line(source, "trace", number, line, out)?;
    if write_spaces(line, out)? {
        return Ok(());
    }
    let given = words(source.alloc, line)?;
    write_wrong(&given, &ENTRY, 0, 0, "FLOW PRIO PAYLOAD", out)
}
