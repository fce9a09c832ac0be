//! A pipeline's table as plain rows: one pass over TOML, after which nothing looks at a TOML value again.

ghost use Rattle.std.specs.Prelude.{◌≡◌, map, IfOk};
ghost use Rattle.toml.specs.View.{table_view};
ghost use Rattle.play_documents.specs.Field.{field_map};
ghost use Rattle.run_documents.specs.Survey.{stage_row, stages_at, survey_of, survey_seen};

use crate::action::action_at;
use pipeline_laws::Action;
use play_documents::field::{Field, knows, number_at, tables_at, text_at};
use play_documents::{DeviceRow, QueueRow, device_row, queue_row};
use std::alloc::{AllocError, Global};
use toml::Table;

/// A stage's table.
#[derive(Drop)]
pub struct StageRow {
    /// Its queue; the keys that it knows are a stage's.
    pub queue: QueueRow,
    pub action: Field<Action>,
}

/// A pipeline's table.
#[derive(Drop)]
pub struct Survey<'a> {
    /// Whether each key is one of a pipeline's.
    pub known: bool,
    pub device: DeviceRow,
    pub depth: Field<u32>,
    pub replies: Field<u32>,
    pub trace: Field<&'a str>,
    pub stages: Field<Vec<StageRow>>,
}

/// The row of a stage.
fn stage_row(alloc: Global, table: &Table) -> Result<StageRow, AllocError>
    ensures { IfOk result (λ r. r ≡ stage_row (table_view table.now)) }
{
    let keys = ["kind", "priority", "slots", "order", "action"];
    let mut queue = queue_row(table);
    queue.known = knows(&keys, table);
    Ok(StageRow {
        queue,
        action: action_at(alloc, table, "action")?,
    })
}

/// The rows of stages.
fn stage_rows(alloc: Global, tables: &[&Table]) -> Result<Vec<StageRow>, AllocError>
    ensures { IfOk result (λ v. v.items ≡ map stage_row (map (λ t. table_view t.now) tables.now)) }
{
    let mut rows = Vec::new(alloc);
    for table in tables {
        rows.push(stage_row(alloc, table)?)?;
    }
    Ok(rows)
}

/// The stages at their key.
fn stages_at(alloc: Global, table: &Table) -> Result<Field<Vec<StageRow>>, AllocError>
    ensures { IfOk result (λ f. field_map (λ v. v.items) f ≡ stages_at (table_view table.now)) }
{
    match tables_at(alloc, table, "stage")? {
        Field::Absent => Ok(Field::Absent),
        Field::Bad => Ok(Field::Bad),
        Field::Good(tables) => Ok(Field::Good(stage_rows(alloc, &tables)?)),
    }
}

/// The rows of a pipeline.
#[tactic(auto, unfolding(crate::specs::Survey::survey_of))]
pub fn survey_of(alloc: Global, table: &Table) -> Result<Survey<'_>, AllocError>
    ensures { IfOk result (λ s. survey_seen s ≡ survey_of (table_view table.now)) }
{
    let keys = [
        "limit", "quantum", "sweep", "depth", "replies", "serving", "trace", "stage",
    ];
    Ok(Survey {
        known: knows(&keys, table),
        device: device_row(table),
        depth: number_at(table, "depth"),
        replies: number_at(table, "replies"),
        trace: text_at(table, "trace"),
        stages: stages_at(alloc, table)?,
    })
}
