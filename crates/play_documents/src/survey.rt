//! A document's table as plain rows: one pass over TOML, after which nothing looks at a TOML value again.

ghost use Rattle.std.specs.Prelude.{◌≡◌, map, codes, IfOk};
ghost use Rattle.toml.specs.View.{table_view};
ghost use Rattle.play_documents.specs.Field.{field_map};
ghost use Rattle.play_documents.specs.Survey.{kind_named, kind_at, serving_named, serving_at, device_row, queue_row, port_row, port_seen, ports_seen, queues_at, ports_at, survey_of, survey_seen};

use crate::field::{Field, byte_at, flag_at, knows, number_at, numbers_at, tables_at, text_at};
use evt_types::{Kind, Serving};
use std::alloc::{AllocError, Global};
use toml::Table;

/// What a document's table says of its device, whatever else it says.
#[derive(Drop)]
pub struct DeviceRow {
    pub limit: Field<u32>,
    pub quantum: Field<u32>,
    pub sweep: Field<u32>,
    pub serving: Field<Serving>,
}

/// A queue's table.
#[derive(Drop)]
pub struct QueueRow {
    /// Whether each key is one of a queue's.
    pub known: bool,
    pub kind: Field<Kind>,
    pub priority: Field<u8>,
    pub slots: Field<u32>,
    pub order: Field<u32>,
    pub single: Field<bool>,
}

/// A port's table.
#[derive(Drop)]
pub struct PortRow {
    /// Whether each key is one of a port's.
    pub known: bool,
    pub threshold: Field<u32>,
    pub depth: Field<u32>,
    pub replies: Field<u32>,
    pub implicit: Field<bool>,
    pub links: Field<Vec<u32>>,
}

/// A document's table.
#[derive(Drop)]
pub struct Survey<'a> {
    /// Whether each key is one of a document's.
    pub known: bool,
    pub device: DeviceRow,
    pub script: Field<&'a str>,
    pub queues: Field<Vec<QueueRow>>,
    pub ports: Field<Vec<PortRow>>,
}

/// The scheduling type of this name.
fn kind_named(name: &str) -> Field<Kind>
    ensures { result ≡ kind_named name.now }
{
    if name == "ordered" {
        Field::Good(Kind::Ordered)
    } else if name == "atomic" {
        Field::Good(Kind::Atomic)
    } else if name == "parallel" {
        Field::Good(Kind::Parallel)
    } else {
        Field::Bad
    }
}

/// The serving of this name.
fn serving_named(name: &str) -> Field<Serving>
    ensures { result ≡ serving_named name.now }
{
    if name == "ports" {
        Field::Good(Serving::Ports)
    } else if name == "flows" {
        Field::Good(Serving::Flows)
    } else {
        Field::Bad
    }
}

/// The scheduling type at a key.
fn kind_at(table: &Table, key: &str) -> Field<Kind>
    ensures { result ≡ kind_at key.now (table_view table.now) }
{
    match text_at(table, key) {
        Field::Absent => Field::Absent,
        Field::Bad => Field::Bad,
        Field::Good(name) => kind_named(name),
    }
}

/// The serving at a key.
fn serving_at(table: &Table, key: &str) -> Field<Serving>
    ensures { result ≡ serving_at key.now (table_view table.now) }
{
    match text_at(table, key) {
        Field::Absent => Field::Absent,
        Field::Bad => Field::Bad,
        Field::Good(name) => serving_named(name),
    }
}

/// What a document's table says of its device.
#[tactic(auto, unfolding(crate::specs::Survey::device_row))]
pub fn device_row(table: &Table) -> DeviceRow
    ensures { result ≡ device_row (table_view table.now) }
{
    DeviceRow {
        limit: number_at(table, "limit"),
        quantum: number_at(table, "quantum"),
        sweep: number_at(table, "sweep"),
        serving: serving_at(table, "serving"),
    }
}

/// The row of a queue.
#[tactic(auto, unfolding(crate::specs::Survey::queue_row))]
pub fn queue_row(table: &Table) -> QueueRow
    ensures { result ≡ queue_row (table_view table.now) }
{
    let keys = ["kind", "priority", "slots", "order", "single"];
    QueueRow {
        known: knows(&keys, table),
        kind: kind_at(table, "kind"),
        priority: byte_at(table, "priority"),
        slots: number_at(table, "slots"),
        order: number_at(table, "order"),
        single: flag_at(table, "single"),
    }
}

/// The row of a port.
#[tactic(auto, unfolding(crate::specs::Survey::port_row))]
fn port_row(alloc: Global, table: &Table) -> Result<PortRow, AllocError>
    ensures { IfOk result (λ r. port_seen r ≡ port_row (table_view table.now)) }
{
    let keys = ["threshold", "depth", "replies", "implicit", "links"];
    Ok(PortRow {
        known: knows(&keys, table),
        threshold: number_at(table, "threshold"),
        depth: number_at(table, "depth"),
        replies: number_at(table, "replies"),
        implicit: flag_at(table, "implicit"),
        links: numbers_at(alloc, table, "links")?,
    })
}

/// The rows of queues.
fn queue_rows(alloc: Global, tables: &[&Table]) -> Result<Vec<QueueRow>, AllocError>
    ensures { IfOk result (λ v. v.items ≡ map queue_row (map (λ t. table_view t.now) tables.now)) }
{
    let mut rows = Vec::new(alloc);
    for table in tables {
        rows.push(queue_row(table))?;
    }
    Ok(rows)
}

/// The rows of ports.
fn port_rows(alloc: Global, tables: &[&Table]) -> Result<Vec<PortRow>, AllocError>
    ensures { IfOk result (λ v. map port_seen v.items ≡ map port_row (map (λ t. table_view t.now) tables.now)) }
{
    let mut rows = Vec::new(alloc);
    for table in tables {
        rows.push(port_row(alloc, table)?)?;
    }
    Ok(rows)
}

/// The queues at their key.
fn queues_at(alloc: Global, table: &Table) -> Result<Field<Vec<QueueRow>>, AllocError>
    ensures { IfOk result (λ f. field_map (λ v. v.items) f ≡ queues_at (table_view table.now)) }
{
    match tables_at(alloc, table, "queue")? {
        Field::Absent => Ok(Field::Absent),
        Field::Bad => Ok(Field::Bad),
        Field::Good(tables) => Ok(Field::Good(queue_rows(alloc, &tables)?)),
    }
}

/// The ports at their key.
fn ports_at(alloc: Global, table: &Table) -> Result<Field<Vec<PortRow>>, AllocError>
    ensures { IfOk result (λ f. field_map ports_seen f ≡ ports_at (table_view table.now)) }
{
    match tables_at(alloc, table, "port")? {
        Field::Absent => Ok(Field::Absent),
        Field::Bad => Ok(Field::Bad),
        Field::Good(tables) => Ok(Field::Good(port_rows(alloc, &tables)?)),
    }
}

/// The rows of a document.
#[tactic(auto, unfolding(crate::specs::Survey::survey_of))]
pub fn survey_of(alloc: Global, table: &Table) -> Result<Survey<'_>, AllocError>
    ensures { IfOk result (λ s. survey_seen s ≡ survey_of (table_view table.now)) }
{
    let keys = [
        "limit", "quantum", "sweep", "serving", "script", "queue", "port",
    ];
    Ok(Survey {
        known: knows(&keys, table),
        device: device_row(table),
        script: text_at(table, "script"),
        queues: queues_at(alloc, table)?,
        ports: ports_at(alloc, table)?,
    })
}
