//! A script is played on a device.

ghost use Rattle.std.specs.Prelude.{IfOk, IfErr, List, ℕ, Option, OnOk, map, string_bytes, Some};
ghost use Rattle.event_device.specs.Home.{Stops};
ghost use Rattle.event_device.specs.Start.{IsFresh};
ghost use Rattle.event_device.specs.Stop.{steps_in};
ghost use Rattle.play_documents.specs.Command.{AllPortsThere, line_of};
ghost use Rattle.command_line.specs.Input.{HasRead};
ghost use Rattle.pipeline_app.specs.Play.{IsRun, HasRun, WritesRun, AfterFault, IsEarlyFault, IsFaultOf, form_of, run_form};

use crate::checking::read_explained;
use crate::form::{Form, made_of};
use crate::obey::obey_all;
use command_line::{AppFault, write_text};
use document_checks::explain_play;
use event_device::{Device, DeviceFault, Report};
use evt_types::{Shape, Step};
use play_documents::{Document, read_document};
use std::alloc::{AllocError, Global};
use std::io::{Read, Write};

/// A device of this configuration, in which nothing has happened, with a log that keeps every step.
fn make_device(alloc: Global, shape: Shape) -> Result<Device<Vec<Step>>, AppFault>
    ensures fresh { IfOk result (IsFresh shape) }
    ensures fault { (known : Option (List ℕ)) → IfErr result (IsEarlyFault known) }
{
    match Device::with_log(alloc, Vec::new(alloc), shape) {
        Ok(device) => Ok(device),
        Err(DeviceFault::Memory(_)) => Err(AppFault::Memory),
        Err(DeviceFault::NoSeat(_)) => Err(AppFault::NoSeat),
    }
}

/// Stops the device. All of it is at home, so what it may want is memory.
fn stop(device: Device<Vec<Step>>) -> Result<Report, AllocError>
    ensures { IfOk result (Stops steps_in device) }
{
    match device.stop() {
        Ok(report) => Ok(report),
        Err(_) => Err(AllocError),
    }
}

/// What is made of the document's run.
fn run_text(alloc: Global, form: Form, document: Document) -> Result<String, AppFault>
    requires { AllPortsThere document.shape document.commands.items }
    ensures run { IfOk result (λ text. IsRun (form_of form) document.shape (map line_of document.commands.items) (string_bytes text)) }
    ensures fault { (known : Option (List ℕ)) → IfErr result (IsEarlyFault known) }
{
    let Document { shape, commands } = document;
    let queues = Vec::from_slice(alloc, shape.queues())?;
    let limit = u64::from(shape.limit());
    let lanes = shape.lanes();
    let mut device = make_device(alloc, shape)?;
    let answers = obey_all(&mut device, alloc, &commands)?;
    let report = stop(device)?;
    Ok(made_of(alloc, form, &queues, limit, lanes, &answers, &report)?)
}

/// What is made of the run of the document of these bytes.
fn document_text(alloc: Global, form: Form, bytes: &[u8]) -> Result<String, AppFault>
    ensures run { IfOk result (λ text. HasRun (form_of form) (Some bytes.now) (string_bytes text)) }
    ensures fault { IfErr result (IsEarlyFault (Some bytes.now)) }
{
    let document = read_document(alloc, bytes)?;
    run_text(alloc, form, document)
}

/// What is made of the run of the document that the reader gives. Where the document has a fault, `why` says where it is and why.
fn explained_text<R: Read>(
    alloc: Global,
    form: Form,
    reader: &mut R,
    why: &mut String,
) -> Result<String, AppFault>
    ensures run { IfOk result (λ text. HasRun (form_of form) (R.remaining reader.old) (string_bytes text)) }
    ensures fault { IfErr result (IsEarlyFault (R.remaining reader.old)) }
    ensures reads { HasRead (R.remaining reader.old) (R.remaining reader.new) result }
{
    let bytes = read_explained(alloc, reader, why)?;
    let result = document_text(alloc, form, &bytes);
    if let Err(AppFault::Document(_)) = &result {
        if let Ok(Some(explanation)) = explain_play(alloc, &bytes) {
            *why = explanation.text;
        }
    }
    result
}

/// Reads a document, plays its script on a device in one thread, and writes the answers, the log and the report. The text
/// is built whole and then written.
pub fn play<R: Read, W: Write>(
    alloc: Global,
    reader: &mut R,
    writer: &mut W,
) -> Result<(), AppFault>
    ensures ok { OnOk result (WritesRun run_form (R.remaining reader.old) (W.contents writer.old) (W.contents writer.new)) }
    ensures err { IfErr result (AfterFault run_form (R.remaining reader.old) (W.contents writer.old) (W.contents writer.new)) }
    ensures fault { IfErr result (IsFaultOf (R.remaining reader.old)) }
    ensures reads { HasRead (R.remaining reader.old) (R.remaining reader.new) result }
{
    let mut why = String::new(alloc);
    play_as(alloc, Form::Text, reader, writer, &mut why)
}

/// Does what `play` does, and writes what the form makes of the run. Where the document has a fault, `why` says where it is and why, in
/// lines that end in a line feed.
pub fn play_as<R: Read, W: Write>(
    alloc: Global,
    form: Form,
    reader: &mut R,
    writer: &mut W,
    why: &mut String,
) -> Result<(), AppFault>
    ensures ok { OnOk result (WritesRun (form_of form) (R.remaining reader.old) (W.contents writer.old) (W.contents writer.new)) }
    ensures err { IfErr result (AfterFault (form_of form) (R.remaining reader.old) (W.contents writer.old) (W.contents writer.new)) }
    ensures fault { IfErr result (IsFaultOf (R.remaining reader.old)) }
    ensures reads { HasRead (R.remaining reader.old) (R.remaining reader.new) result }
{
    let text = explained_text(alloc, form, reader, why)?;
    write_text(writer, text.as_bytes())
}
