//! A key that its table needs and lacks.

use crate::keys::{Key, Need};
use crate::places::{Place, TableName};
use crate::tables::{Sheet, Source, has_key, write_name};
use evt_types::Kind;
use play_documents::field::Field;
use play_documents::queue_row;
use std::alloc::{AllocError, Global};
use toml::Table;

/// Whether the table is a queue's of this kind.
fn is_of_kind(table: &Table, kind: Kind) -> bool {
    match queue_row(table).kind {
        Field::Good(it) => it == kind,
        Field::Absent | Field::Bad => false,
    }
}

/// Whether the table needs the key.
fn needs(table: &Table, key: &Key) -> bool {
    match key.need {
        Need::Never => false,
        Need::Always => true,
        Need::Atomic => is_of_kind(table, Kind::Atomic),
        Need::Ordered => is_of_kind(table, Kind::Ordered),
    }
}

/// Whether the table lacks the key, and needs it.
fn lacks(table: &Table, key: &Key) -> bool {
    !has_key(table, key.name) && needs(table, key)
}

/// The first key that the table needs and lacks.
fn missing_in(alloc: Global, sheet: &Sheet<'_>) -> Result<Option<Place>, AllocError> {
    for key in sheet.keys {
        if lacks(sheet.table, key) {
            let name = String::from_str(alloc, key.name)?;
            return Ok(Some(Place {
                table: sheet.name,
                key: name,
            }));
        }
    }
    Ok(None)
}

/// The first key that one of the tables needs and lacks.
pub(crate) fn missing_place(
    alloc: Global,
    sheets: &[Sheet<'_>],
) -> Result<Option<Place>, AllocError> {
    for sheet in sheets {
        if let Some(place) = missing_in(alloc, sheet)? {
            return Ok(Some(place));
        }
    }
    Ok(None)
}

/// Writes which other keys the table lacks.
fn write_others(sheet: &Sheet<'_>, first: &str, out: &mut String) -> Result<(), AllocError> {
    let mut found = false;
    for key in sheet.keys {
        if key.name != first && lacks(sheet.table, key) {
            out.push_str(if found { ", " } else { "  It lacks too: " })?;
            out.push_str(key.name)?;
            found = true;
        }
    }
    if found { out.push_str("\n") } else { Ok(()) }
}

/// Writes which table lacks the key, and what it needs there.
pub(crate) fn write_missing(
    source: &Source<'_>,
    sheet: &Sheet<'_>,
    key: &Key,
    out: &mut String,
) -> Result<(), AllocError> {
    if sheet.name == TableName::Top {
        out.push_str("  ")?;
    } else {
        source.begin_at_key(sheet.name, "", out)?;
    }
    write_name(sheet.name, out)?;
    let why = match key.need {
        Need::Never | Need::Always => "needs",
        Need::Atomic => "is atomic, and so needs",
        Need::Ordered => "is ordered, and so needs",
    };
    let (name, words) = (key.name, key.words);
    write!(out, " {why} the key `{name}`: {words}\n")?;
    write_others(sheet, name, out)?;
    if source.table.is_empty() {
        out.push_str("  The document is empty; evsched example prints some to begin with\n")?;
    }
    Ok(())
}
