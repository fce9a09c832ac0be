//! Whether a key of a document is at fault.

ghost use Rattle.std.specs.Prelude.{◌≡◌, map, IfOk, IfSome, option_map, slice_get};
ghost use Rattle.toml.specs.View.{table_view};
ghost use Rattle.play_documents.specs.Field.{is_known, rows, tables_at};
ghost use Rattle.document_checks.specs.Keys.{may_have, needed_of_port, needed_on_top, needs, needs_size, queue_keys, port_refuses, queue_needs, queue_refuses, refuses, stage_refuses, top_refuses};
ghost use Rattle.document_checks.specs.Places.{IsPlaceOf, is_fault_of, table_named};

use crate::places::{Place, TableName};
use crate::tables::{Reading, has_key};
use evt_types::Kind;
use play_documents::field::{Field, byte_at, flag_at, number_at, numbers_at, tables_at, text_at};
use play_documents::{DocFault, device_row, queue_row};
use run_documents::action_at;
use std::alloc::{AllocError, Global};
use toml::Table;

/// Whether the key is one of these.
fn is_known(known: &[&str], key: &str) -> bool
    ensures { result ≡ is_known (map (λ k. k.now) known.now) key.now }
{
    known.iter().any(|name| *name == key)
}

/// The table of this number in an array.
fn numbered<'a>(
    alloc: Global,
    table: &'a Table,
    key: &str,
    number: usize,
) -> Result<Option<&'a Table>, AllocError>
    ensures { IfOk result (λ t. option_map (λ u. table_view u.now) t ≡ slice_get (rows (tables_at key.now (table_view table.now))) number) }
{
    match tables_at(alloc, table, key)? {
        Field::Good(tables) => Ok(tables.get(number).copied()),
        Field::Absent | Field::Bad => Ok(None),
    }
}

/// The table of this name.
fn table_named<'a>(
    alloc: Global,
    table: &'a Table,
    name: TableName,
) -> Result<Option<&'a Table>, AllocError>
    ensures { IfOk result (λ t. option_map (λ u. table_view u.now) t ≡ table_named name (table_view table.now)) }
{
    match name {
        TableName::Top => Ok(Some(table)),
        TableName::Queue(number) => numbered(alloc, table, "queue", number),
        TableName::Port(number) => numbered(alloc, table, "port", number),
        TableName::Stage(number) => numbered(alloc, table, "stage", number),
    }
}

/// Whether the document's own table needs the key.
fn top_needs(reading: Reading, key: &str) -> bool
    ensures { result ≡ is_known (needed_on_top reading) key.now }
{
    match reading {
        Reading::Play => {
            let keys = ["limit", "quantum", "sweep", "script", "queue", "port"];
            is_known(&keys, key)
        }
        Reading::Run { .. } => {
            let keys = [
                "limit", "quantum", "sweep", "depth", "replies", "trace", "stage",
            ];
            is_known(&keys, key)
        }
    }
}

fn is_queue_key(key: &str) -> bool
    ensures { result ≡ is_known queue_keys key.now }
{
    let keys = ["kind", "priority", "slots", "order"];
    is_known(&keys, key)
}

fn port_needs(key: &str) -> bool
    ensures { result ≡ is_known needed_of_port key.now }
{
    let keys = ["threshold", "depth", "replies", "links"];
    is_known(&keys, key)
}

/// Whether a table may have the key.
fn may_have(reading: Reading, name: TableName, key: &str) -> bool
    ensures { result ≡ may_have reading name key.now }
{
    match name {
        TableName::Top => top_needs(reading, key) || key == "serving",
        TableName::Queue(_) => is_queue_key(key) || key == "single",
        TableName::Port(_) => port_needs(key) || key == "implicit",
        TableName::Stage(_) => is_queue_key(key) || key == "action",
    }
}

/// Whether a queue of this kind needs the key.
fn needs_size(kind: &Field<Kind>, key: &str) -> bool
    ensures { result ≡ needs_size kind.now key.now }
{
    match kind {
        Field::Good(Kind::Atomic) => key == "slots",
        Field::Good(Kind::Ordered) => key == "order",
        Field::Good(Kind::Parallel) | Field::Absent | Field::Bad => false,
    }
}

fn queue_needs(table: &Table, key: &str) -> bool
    ensures { result ≡ queue_needs (table_view table.now) key.now }
{
    key == "kind" || needs_size(&queue_row(table).kind, key)
}

/// Whether the table needs the key.
fn needs(reading: Reading, name: TableName, table: &Table, key: &str) -> bool
    ensures { result ≡ needs reading name (table_view table.now) key.now }
{
    match name {
        TableName::Top => top_needs(reading, key),
        TableName::Queue(_) | TableName::Stage(_) => queue_needs(table, key),
        TableName::Port(_) => port_needs(key),
    }
}

fn top_refuses(alloc: Global, table: &Table, key: &str) -> Result<bool, AllocError>
    ensures { IfOk result (λ is. is ≡ top_refuses (table_view table.now) key.now) }
{
    let texts = ["script", "trace"];
    let arrays = ["queue", "port", "stage"];
    if key == "serving" {
        Ok(device_row(table).serving.is_bad())
    } else if is_known(&texts, key) {
        Ok(text_at(table, key).is_bad())
    } else if is_known(&arrays, key) {
        Ok(tables_at(alloc, table, key)?.is_bad())
    } else {
        Ok(number_at(table, key).is_bad())
    }
}

fn queue_refuses(table: &Table, key: &str) -> bool
    ensures { result ≡ queue_refuses (table_view table.now) key.now }
{
    if key == "kind" {
        queue_row(table).kind.is_bad()
    } else if key == "priority" {
        byte_at(table, key).is_bad()
    } else if key == "single" {
        flag_at(table, key).is_bad()
    } else {
        number_at(table, key).is_bad()
    }
}

fn port_refuses(alloc: Global, table: &Table, key: &str) -> Result<bool, AllocError>
    ensures { IfOk result (λ is. is ≡ port_refuses (table_view table.now) key.now) }
{
    if key == "implicit" {
        Ok(flag_at(table, key).is_bad())
    } else if key == "links" {
        Ok(numbers_at(alloc, table, key)?.is_bad())
    } else {
        Ok(number_at(table, key).is_bad())
    }
}

fn stage_refuses(alloc: Global, table: &Table, key: &str) -> Result<bool, AllocError>
    ensures { IfOk result (λ is. is ≡ stage_refuses (table_view table.now) key.now) }
{
    if key == "action" {
        Ok(action_at(alloc, table, key)?.is_bad())
    } else {
        Ok(queue_refuses(table, key))
    }
}

/// Whether the table has a refused value at the key.
fn refuses(alloc: Global, name: TableName, table: &Table, key: &str) -> Result<bool, AllocError>
    ensures { IfOk result (λ is. is ≡ refuses name (table_view table.now) key.now) }
{
    match name {
        TableName::Top => top_refuses(alloc, table, key),
        TableName::Queue(_) => Ok(queue_refuses(table, key)),
        TableName::Port(_) => port_refuses(alloc, table, key),
        TableName::Stage(_) => stage_refuses(alloc, table, key),
    }
}

/// Whether the table has the fault at the key.
fn is_fault_of(
    alloc: Global,
    reading: Reading,
    name: TableName,
    table: &Table,
    key: &str,
    fault: DocFault,
) -> Result<bool, AllocError>
    ensures { IfOk result (λ is. is ≡ is_fault_of reading name (table_view table.now) key.now fault) }
{
    match fault {
        DocFault::UnknownKey => Ok(has_key(table, key) && !may_have(reading, name, key)),
        DocFault::MissingKey => Ok(needs(reading, name, table, key) && !has_key(table, key)),
        DocFault::BadValue => {
            let refused = refuses(alloc, name, table, key)?;
            Ok(may_have(reading, name, key) && refused)
        }
        DocFault::TooLong
        | DocFault::NotToml
        | DocFault::ParallelInside
        | DocFault::LastAction
        | DocFault::Shape(_)
        | DocFault::LimitTight
        | DocFault::BadCommand(_)
        | DocFault::BadTrace(_) => Ok(false),
    }
}

/// The place, where the document's table has the fault there.
pub(crate) fn confirmed(
    alloc: Global,
    reading: Reading,
    table: &Table,
    fault: DocFault,
    place: Place,
) -> Result<Option<Place>, AllocError>
    ensures { IfOk result (λ p. IfSome p (IsPlaceOf reading (table_view table.now) fault)) }
{
    let Some(named) = table_named(alloc, table, place.table)? else {
        return Ok(None);
    };
    let is = is_fault_of(
        alloc,
        reading,
        place.table,
        named,
        place.key.as_str(),
        fault,
    )?;
    if is { Ok(Some(place)) } else { Ok(None) }
}
