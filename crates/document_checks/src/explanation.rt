//! The fault of a document, and its explanation.

ghost use Rattle.std.specs.Prelude.{◌≡◌, IfOk, IfSome, option_map};
ghost use Rattle.toml.specs.View.{table_view};
ghost use Rattle.play_documents.specs.Document.{document_of};
ghost use Rattle.run_documents.specs.Pipelines.{pipeline_of};
ghost use Rattle.document_checks.specs.Explanations.{fault_in, fault_of_either, is_pipeline};
ghost use Rattle.document_checks.specs.Places.{IsPlaceIn, IsPlaceOf};
ghost use Rattle.document_checks.specs.declared.tables.Reading.TheVariants.{Play, Run};

use crate::bad::{bad_place, write_bad};
use crate::confirmed::confirmed;
use crate::keys::Key;
use crate::missing::{missing_place, write_missing};
use crate::places::Place;
use crate::script::{write_bad_command, write_bad_trace};
use crate::shape::write_shape;
use crate::stages::{write_last_action, write_limit_tight, write_parallel_inside};
use crate::tables::{Reading, Sheet, Source, sheets};
use crate::toml_text::write_not_toml;
use crate::unknown::{names_pipeline, unknown_place, write_unknown};
use play_documents::{DocFault, ReadFault, read_document, table_of};
use run_documents::read_pipeline;
use std::alloc::{AllocError, Global};
use toml::Table;

/// Why a document is refused.
#[derive(Debug, Drop)]
pub struct Explanation {
    /// The document's first fault.
    pub fault: DocFault,
    /// The table and the key that are at fault, where the fault is a key's.
    pub place: Option<Place>,
    /// Where and why, in lines that begin with two spaces.
    pub text: String,
}

/// Writes that a document is too long.
fn write_too_long(out: &mut String) -> Result<(), AllocError> {
    out.push_str("  A document has at most 1,048,576 bytes\n")
}

/// The table that the place names.
fn sheet_at<'s, 'a>(sheets: &'s [Sheet<'a>], place: &Place) -> Option<&'s Sheet<'a>> {
    sheets.iter().find(|sheet| sheet.name == place.table)
}

/// The key that the place names, of the ones that its table may have.
fn key_at(sheet: &Sheet<'_>, place: &Place) -> Option<Key> {
    for key in sheet.keys {
        if key.name == place.key.as_str() {
            return Some(*key);
        }
    }
    None
}

/// The first key that seems to be at fault.
fn found(
    alloc: Global,
    sheets: &[Sheet<'_>],
    fault: DocFault,
) -> Result<Option<Place>, AllocError> {
    match fault {
        DocFault::UnknownKey => unknown_place(alloc, sheets),
        DocFault::MissingKey => missing_place(alloc, sheets),
        DocFault::BadValue => bad_place(alloc, sheets),
        _ => Ok(None),
    }
}

/// The place of a key's fault. What was found is looked at once more, by what a table may have, must have and refuses.
fn place_of(
    alloc: Global,
    reading: Reading,
    table: &Table,
    sheets: &[Sheet<'_>],
    fault: DocFault,
) -> Result<Option<Place>, AllocError>
    ensures { IfOk result (λ p. IfSome p (IsPlaceOf reading (table_view table.now) fault)) }
{
    match found(alloc, sheets, fault)? {
        Some(place) => confirmed(alloc, reading, table, fault, place),
        None => Ok(None),
    }
}

/// Writes of a key's fault.
fn write_place(
    source: &Source<'_>,
    sheets: &[Sheet<'_>],
    fault: DocFault,
    place: &Place,
    out: &mut String,
) -> Result<(), AllocError> {
    let Some(sheet) = sheet_at(sheets, place) else {
        return Ok(());
    };
    if fault == DocFault::UnknownKey {
        return write_unknown(source, sheet, place.key.as_str(), out);
    }
    match key_at(sheet, place) {
        Some(key) if fault == DocFault::MissingKey => write_missing(source, sheet, &key, out),
        Some(key) => write_bad(source, sheet, &key, out),
        None => Ok(()),
    }
}

/// Writes of a fault that is no key's.
fn write_fault(source: &Source<'_>, fault: DocFault, out: &mut String) -> Result<(), AllocError> {
    match fault {
        DocFault::ParallelInside => write_parallel_inside(source, out),
        DocFault::LastAction => write_last_action(source, out),
        DocFault::Shape(fault) => write_shape(source, fault, out),
        DocFault::LimitTight => write_limit_tight(source, out),
        DocFault::BadCommand(line) => write_bad_command(source, line, out),
        DocFault::BadTrace(line) => write_bad_trace(source, line, out),
        DocFault::TooLong
        | DocFault::NotToml
        | DocFault::UnknownKey
        | DocFault::MissingKey
        | DocFault::BadValue => Ok(()),
    }
}

/// The explanation of a fault of a document that is TOML.
fn explained_table(
    alloc: Global,
    bytes: &[u8],
    table: &Table,
    reading: Reading,
    fault: DocFault,
) -> Result<Explanation, AllocError>
    ensures fault { IfOk result (λ e. e.fault ≡ fault) }
    ensures place { IfOk result (λ e. IfSome e.place (IsPlaceOf reading (table_view table.now) fault)) }
{
    let source = Source::new(alloc, bytes, reading, table)?;
    let sheets = sheets(alloc, reading, table)?;
    let place = place_of(alloc, reading, table, &sheets, fault)?;
    let mut text = String::new(alloc);
    match &place {
        Some(place) => write_place(&source, &sheets, fault, place, &mut text)?,
        None => write_fault(&source, fault, &mut text)?,
    }
    Ok(Explanation { fault, place, text })
}

/// The explanation of a fault of these bytes, read for a command.
fn explained(
    alloc: Global,
    bytes: &[u8],
    reading: Reading,
    fault: DocFault,
) -> Result<Explanation, AllocError>
    ensures fault { IfOk result (λ e. e.fault ≡ fault) }
    ensures place { IfOk result (λ e. IfSome e.place (IsPlaceIn reading bytes.now fault)) }
{
    match table_of(alloc, bytes) {
        Ok(table) => explained_table(alloc, bytes, &table, reading, fault),
        Err(ReadFault::Memory) => Err(AllocError),
        Err(ReadFault::Document(_)) => {
            let mut text = String::new(alloc);
            if fault == DocFault::TooLong {
                write_too_long(&mut text)?;
            } else {
                write_not_toml(alloc, bytes, &mut text)?;
            }
            Ok(Explanation {
                fault,
                place: None,
                text,
            })
        }
    }
}

/// The explanation of a document that wasn't read to its end, since it is too long.
pub fn too_long(alloc: Global) -> Result<Explanation, AllocError>
    ensures { IfOk result (λ e. e.fault ≡ DocFault.TooLong) }
{
    let mut text = String::new(alloc);
    write_too_long(&mut text)?;
    Ok(Explanation {
        fault: DocFault::TooLong,
        place: None,
        text,
    })
}

/// The fault that `play` finds in the document of these bytes, explained; `None` where it finds none.
pub fn explain_play(alloc: Global, bytes: &[u8]) -> Result<Option<Explanation>, AllocError>
    ensures fault { IfOk result (λ e. option_map (λ x. x.fault) e ≡ fault_in (document_of bytes.now)) }
    ensures place { IfOk result (λ e. IfSome e (λ x. IfSome x.place (IsPlaceIn Play bytes.now x.fault))) }
{
    match read_document(alloc, bytes) {
        Ok(_) => Ok(None),
        Err(ReadFault::Memory) => Err(AllocError),
        Err(ReadFault::Document(fault)) => {
            let explanation = explained(alloc, bytes, Reading::Play, fault)?;
            Ok(Some(explanation))
        }
    }
}

/// The fault that `run` finds in the document of these bytes, with so many workers, explained; `None` where it finds none.
pub fn explain_run(
    alloc: Global,
    bytes: &[u8],
    workers: usize,
) -> Result<Option<Explanation>, AllocError>
    ensures fault { IfOk result (λ e. option_map (λ x. x.fault) e ≡ fault_in (pipeline_of workers bytes.now)) }
    ensures place { IfOk result (λ e. IfSome e (λ x. IfSome x.place (IsPlaceIn (Run workers) bytes.now x.fault))) }
{
    match read_pipeline(alloc, bytes, workers) {
        Ok(_) => Ok(None),
        Err(ReadFault::Memory) => Err(AllocError),
        Err(ReadFault::Document(fault)) => {
            let explanation = explained(alloc, bytes, Reading::Run { workers }, fault)?;
            Ok(Some(explanation))
        }
    }
}

/// Whether the bytes are a pipeline's document: a table with a stage or a trace, and neither a script, nor a queue, nor a port.
#[tactic(auto, unfolding(crate::specs::Explanations::is_pipeline))]
pub fn is_pipeline(alloc: Global, bytes: &[u8]) -> Result<bool, AllocError>
    ensures { IfOk result (λ is. is ≡ is_pipeline bytes.now) }
{
    match table_of(alloc, bytes) {
        Ok(table) => Ok(names_pipeline(&table)),
        Err(ReadFault::Memory) => Err(AllocError),
        Err(ReadFault::Document(_)) => Ok(false),
    }
}

/// The fault of a document of either kind, explained, with so many workers where it is a pipeline's; `None` where it has none.
pub fn explain(
    alloc: Global,
    bytes: &[u8],
    workers: usize,
) -> Result<Option<Explanation>, AllocError>
    ensures fault { IfOk result (λ e. option_map (λ x. x.fault) e ≡ fault_of_either workers bytes.now) }
{
    if is_pipeline(alloc, bytes)? {
        explain_run(alloc, bytes, workers)
    } else {
        explain_play(alloc, bytes)
    }
}
