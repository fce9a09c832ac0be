//! The tables of a document, with the keys that each may have.

ghost use Rattle.std.specs.Prelude.{◌≡◌, option_map};
ghost use Rattle.toml.specs.Data.{get_member};
ghost use Rattle.toml.specs.View.{view, table_view};
ghost use Rattle.document_checks.specs.Explanations.{has_key};

use crate::key_marks::{Mark, find, marks};
use crate::keys::{Key, PLAY_KEYS, PORT_KEYS, QUEUE_KEYS, RUN_KEYS, STAGE_KEYS};
use crate::lines::write_position;
use crate::places::TableName;
use play_documents::field::{Field, tables_at};
use std::alloc::{AllocError, Global};
use toml::{Table, Value};

/// Which command a document is read for.
#[derive(Clone, Copy, Debug, PartialEq, Eq)]
pub(crate) enum Reading {
    Play,
    /// With so many workers.
    Run { workers: usize },
}

/// A table of a document.
#[derive(Clone, Copy)]
pub(crate) struct Sheet<'a> {
    pub(crate) name: TableName,
    pub(crate) table: &'a Table,
    /// The keys that it may have.
    pub(crate) keys: &'static [Key],
}

/// A document that is TOML, and where its keys stand.
#[derive(Drop)]
pub(crate) struct Source<'a> {
    pub(crate) alloc: Global,
    pub(crate) bytes: &'a [u8],
    pub(crate) reading: Reading,
    pub(crate) table: &'a Table,
    marks: Vec<Mark<'a>>,
}

/// The value at a key.
pub(crate) fn value_at<'a>(table: &'a Table, key: &str) -> Option<&'a Value>
    ensures { option_map (λ v. view v.now) result ≡ get_member key.now (table_view table.now) }
{
    table.get(key)
}

/// Whether the table has the key.
pub(crate) fn has_key(table: &Table, key: &str) -> bool
    ensures { result ≡ has_key key.now (table_view table.now) }
{
    match value_at(table, key) {
        Some(_) => true,
        None => false,
    }
}

/// The tables of an array; none where it isn't one.
pub(crate) fn tables_of<'a>(
    alloc: Global,
    table: &'a Table,
    key: &str,
) -> Result<Vec<&'a Table>, AllocError> {
    match tables_at(alloc, table, key)? {
        Field::Good(tables) => Ok(tables),
        Field::Absent | Field::Bad => Ok(Vec::new(alloc)),
    }
}

/// The tables of a document: its own, and those of its arrays.
pub(crate) fn sheets<'a>(
    alloc: Global,
    reading: Reading,
    table: &'a Table,
) -> Result<Vec<Sheet<'a>>, AllocError> {
    let mut sheets = Vec::new(alloc);
    match reading {
        Reading::Play => {
            sheets.push(Sheet {
                name: TableName::Top,
                table,
                keys: &PLAY_KEYS,
            })?;
            for (number, table) in tables_of(alloc, table, "queue")?.iter().enumerate() {
                sheets.push(Sheet {
                    name: TableName::Queue(number),
                    table,
                    keys: &QUEUE_KEYS,
                })?;
            }
            for (number, table) in tables_of(alloc, table, "port")?.iter().enumerate() {
                sheets.push(Sheet {
                    name: TableName::Port(number),
                    table,
                    keys: &PORT_KEYS,
                })?;
            }
        }
        Reading::Run { .. } => {
            sheets.push(Sheet {
                name: TableName::Top,
                table,
                keys: &RUN_KEYS,
            })?;
            for (number, table) in tables_of(alloc, table, "stage")?.iter().enumerate() {
                sheets.push(Sheet {
                    name: TableName::Stage(number),
                    table,
                    keys: &STAGE_KEYS,
                })?;
            }
        }
    }
    Ok(sheets)
}

impl<'a> Source<'a> {
    pub(crate) fn new(
        alloc: Global,
        bytes: &'a [u8],
        reading: Reading,
        table: &'a Table,
    ) -> Result<Source<'a>, AllocError> {
        let marks = match str::from_utf8(bytes) {
            Ok(text) => marks(alloc, text)?,
            Err(_) => Vec::new(alloc),
        };
        Ok(Source {
            alloc,
            bytes,
            reading,
            table,
            marks,
        })
    }

    /// Where a key of a table stands. Where the key is empty that is the table itself.
    pub(crate) fn mark(&self, name: TableName, key: &str) -> Option<Mark<'a>> {
        let (array, number) = name.array();
        match find(&self.marks, array, number, key) {
            Some(mark) => Some(mark),
            // A document's own key may be written as a table's header.
            None if name == TableName::Top => find(&self.marks, key, 0, ""),
            None => None,
        }
    }

    /// Begins a line with the place of a key.
    pub(crate) fn begin_at_key(
        &self,
        name: TableName,
        key: &str,
        out: &mut String,
    ) -> Result<(), AllocError> {
        match self.mark(name, key) {
            Some(mark) => write_position(out, self.bytes, mark.at),
            None => out.push_str("  "),
        }
    }

    /// Begins a line with the place of a key's value.
    pub(crate) fn begin_at_value(
        &self,
        name: TableName,
        key: &str,
        out: &mut String,
    ) -> Result<(), AllocError> {
        match self.mark(name, key) {
            Some(mark) => write_position(out, self.bytes, mark.value),
            None => self.begin_at_key(name, "", out),
        }
    }
}

/// Writes what a queue, a stage or a port is called, and nothing for the document's own table.
pub(crate) fn write_number(name: TableName, out: &mut String) -> Result<(), AllocError> {
    match name {
        TableName::Top => Ok(()),
        TableName::Queue(number) => write!(out, "queue {number}: "),
        TableName::Port(number) => write!(out, "port {number}: "),
        TableName::Stage(number) => write!(out, "stage {number}: "),
    }
}

/// Writes what a table is called.
pub(crate) fn write_name(name: TableName, out: &mut String) -> Result<(), AllocError> {
    match name {
        TableName::Top => out.push_str("the document"),
        TableName::Queue(number) => write!(out, "[[queue]] {number}"),
        TableName::Port(number) => write!(out, "[[port]] {number}"),
        TableName::Stage(number) => write!(out, "[[stage]] {number}"),
    }
}
