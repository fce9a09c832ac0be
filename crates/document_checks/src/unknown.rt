//! A key that its table doesn't know.

ghost use Rattle.std.specs.Prelude.{◌≡◌};
ghost use Rattle.toml.specs.View.{table_view};
ghost use Rattle.document_checks.specs.Explanations.{names_pipeline};

use crate::keys::Key;
use crate::near::nearest;
use crate::places::Place;
use crate::tables::{Reading, Sheet, Source, has_key, write_name};
use std::alloc::{AllocError, Global};
use toml::Table;

fn is_known(keys: &[Key], key: &str) -> bool {
    keys.iter().any(|known| known.name == key)
}

/// The first unknown key of a table.
fn unknown_in(alloc: Global, sheet: &Sheet<'_>) -> Result<Option<Place>, AllocError> {
    for key in sheet.table.keys() {
        if !is_known(sheet.keys, key.as_str()) {
            let key = String::from_str(alloc, key.as_str())?;
            return Ok(Some(Place {
                table: sheet.name,
                key,
            }));
        }
    }
    Ok(None)
}

/// The first unknown key of the tables.
pub(crate) fn unknown_place(
    alloc: Global,
    sheets: &[Sheet<'_>],
) -> Result<Option<Place>, AllocError> {
    for sheet in sheets {
        if let Some(place) = unknown_in(alloc, sheet)? {
            return Ok(Some(place));
        }
    }
    Ok(None)
}

/// The names of the keys.
fn names_of(alloc: Global, keys: &'static [Key]) -> Result<Vec<&'static str>, AllocError> {
    let mut names = Vec::new(alloc);
    for key in keys {
        names.push(key.name)?;
    }
    Ok(names)
}

/// Writes the words with a comma between each two.
pub(crate) fn write_words(words: &[&str], out: &mut String) -> Result<(), AllocError> {
    for (number, word) in words.iter().enumerate() {
        if number > 0 {
            out.push_str(", ")?;
        }
        out.push_str(word)?;
    }
    Ok(())
}

/// Whether the table is a pipeline's.
pub(crate) fn names_pipeline(table: &Table) -> bool
    ensures { result ≡ names_pipeline (table_view table.now) }
{
    (has_key(table, "stage") || has_key(table, "trace"))
        && !(has_key(table, "script") || has_key(table, "queue") || has_key(table, "port"))
}

/// Whether the table is a script's document.
fn names_script(table: &Table) -> bool {
    (has_key(table, "script") || has_key(table, "queue") || has_key(table, "port"))
        && !(has_key(table, "stage") || has_key(table, "trace"))
}

/// Writes that the document is one of the other command, where it is.
fn write_other(source: &Source<'_>, out: &mut String) -> Result<(), AllocError> {
    match source.reading {
        Reading::Play if names_pipeline(source.table) => {
            out.push_str(
                "  This is a pipeline's document: evsched run takes it, and evsched check\n",
            )
        }
        Reading::Run { .. } if names_script(source.table) => {
            out.push_str(
                "  This is a script's document: evsched play takes it, and evsched check\n",
            )
        }
        Reading::Play | Reading::Run { .. } => Ok(()),
    }
}

/// Writes of an unknown key where it stands, what it may have been meant to be, and which there are.
pub(crate) fn write_unknown(
    source: &Source<'_>,
    sheet: &Sheet<'_>,
    key: &str,
    out: &mut String,
) -> Result<(), AllocError> {
    write_other(source, out)?;
    source.begin_at_key(sheet.name, key, out)?;
    write!(out, "`{key}` is no key of ")?;
    write_name(sheet.name, out)?;
    let names = names_of(source.alloc, sheet.keys)?;
    match nearest(source.alloc, key, &names)? {
        Some(name) => write!(out, "; did you mean `{name}`?\n")?,
        None => out.push_str("\n")?,
    }
    out.push_str("  Its keys: ")?;
    write_words(&names, out)?;
    out.push_str("\n")
}
