//! The reading of a document.

ghost use Rattle.std.specs.Prelude.{◌≡◌, IfOk, IfErr};
ghost use Rattle.toml.specs.View.{table_view};
ghost use Rattle.evt_types.specs.Plan.{plan_of};
ghost use Rattle.play_documents.specs.Command.{AllPortsThere};
ghost use Rattle.play_documents.specs.Document.{Gives, IsNamed, parsed, table_of, shape_fault, checked, judged, planned_of, document_of};
ghost use Rattle.play_documents.specs.Drafts.{plan_asked};
ghost use Rattle.play_documents.specs.Survey.{survey_seen};

use crate::command::Command;
use crate::drafts::draft_of;
use crate::fault::{DocFault, ReadFault};
use crate::field::text_or_none;
use crate::judge::first_fault;
use crate::script::read_script;
use crate::survey::{Survey, survey_of};
use evt_types::{Draft, Shape, ShapeFault};
use std::alloc::Global;
use toml::Table;

/// The most bytes of a document.
pub const MAX_INPUT: usize = 1_048_576;

/// What a document says: the configuration of a device, and the commands of its script.
#[derive(Debug, Drop)]
pub struct Document {
    /// The configuration.
    pub shape: Shape,
    /// The commands of the script, in order.
    pub commands: Vec<Command>,
}

/// The table that the bytes write.
fn parsed(alloc: Global, bytes: &[u8]) -> Result<Table, ReadFault>
    ensures { Gives table_view result (parsed bytes.now) }
{
    match toml::table_from_slice(alloc, bytes) {
        Ok(table) => Ok(table),
        Err(error) => {
            if error.is_memory() {
                Err(ReadFault::Memory)
            } else {
                Err(ReadFault::Document(DocFault::NotToml))
            }
        }
    }
}

/// The table that the bytes write, where they aren't too many.
pub fn table_of(alloc: Global, bytes: &[u8]) -> Result<Table, ReadFault>
    ensures { Gives table_view result (table_of bytes.now) }
{
    if bytes.len() > MAX_INPUT {
        return Err(ReadFault::Document(DocFault::TooLong));
    }
    parsed(alloc, bytes)
}

/// The fault of a refused configuration.
pub fn shape_fault(fault: ShapeFault) -> ReadFault
    ensures { result ≡ shape_fault fault }
{
    match fault {
        ShapeFault::QueueCount
        | ShapeFault::PortCount
        | ShapeFault::LimitRange
        | ShapeFault::QuantumRange
        | ShapeFault::ThresholdRange
        | ShapeFault::DepthRange
        | ShapeFault::FlowSlots
        | ShapeFault::OrderDepth
        | ShapeFault::SweepRange
        | ShapeFault::LinkUnknown
        | ShapeFault::LinkTwice
        | ShapeFault::QueueUnlinked
        | ShapeFault::SingleLinkCount => ReadFault::Document(DocFault::Shape(fault)),
        ShapeFault::Memory => ReadFault::Memory,
    }
}

/// The configuration of a draft, unless the device refuses it.
pub fn checked(alloc: Global, draft: &Draft) -> Result<Shape, ReadFault>
    ensures { Gives (λ s. s) result (checked (plan_of draft.now)) }
{
    match Shape::build(alloc, draft) {
        Ok(shape) => Ok(shape),
        Err(fault) => Err(shape_fault(fault)),
    }
}

/// The configuration that the rows ask for, checked.
fn shape_of(alloc: Global, survey: &Survey) -> Result<Shape, ReadFault>
    ensures { Gives (λ s. s) result (checked (plan_asked (survey_seen survey.now))) }
{
    let draft = draft_of(alloc, survey)?;
    checked(alloc, &draft)
}

/// What the rows say.
#[tactic(auto, unfolding(crate::specs::Document::judged))]
fn judged(alloc: Global, survey: &Survey) -> Result<Document, ReadFault>
    ensures { Gives planned_of result (judged (survey_seen survey.now)) }
{
    if let Some(fault) = first_fault(survey) {
        return Err(ReadFault::Document(fault));
    }
    let shape = shape_of(alloc, survey)?;
    let commands = read_script(alloc, shape.ports().len(), text_or_none(&survey.script))?;
    Ok(Document { shape, commands })
}

/// What the bytes say.
#[tactic(auto, unfolding(crate::specs::Document::document_of))]
fn planned(alloc: Global, bytes: &[u8]) -> Result<Document, ReadFault>
    ensures { Gives planned_of result (document_of bytes.now) }
{
    let table = table_of(alloc, bytes)?;
    let survey = survey_of(alloc, &table)?;
    judged(alloc, &survey)
}

/// Reads a document: its configuration and its script's commands, or its first fault.
pub fn read_document(alloc: Global, bytes: &[u8]) -> Result<Document, ReadFault>
    ensures read { Gives planned_of result (document_of bytes.now) }
    ensures named { IfErr result IsNamed }
    ensures ports { IfOk result (λ d. AllPortsThere d.shape d.commands.items) }
{
    planned(alloc, bytes)
}
