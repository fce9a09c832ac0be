//! A value that its key may not have.

use crate::keys::{Key, Wanted};
use crate::places::Place;
use crate::tables::{Sheet, Source, value_at, write_name};
use play_documents::field::{byte_at, flag_at, number_at, numbers_at, tables_at, text_at};
use play_documents::{device_row, queue_row};
use run_documents::action_at;
use std::alloc::{AllocError, Global};
use toml::{Table, Value};

/// The most characters of a text that are shown.
const MOST_SHOWN: usize = 40;

/// Whether the table has a refused value at the key.
fn is_refused(alloc: Global, table: &Table, key: &Key) -> Result<bool, AllocError> {
    match key.wanted {
        Wanted::Number => Ok(number_at(table, key.name).is_bad()),
        Wanted::Byte => Ok(byte_at(table, key.name).is_bad()),
        Wanted::Flag => Ok(flag_at(table, key.name).is_bad()),
        Wanted::Text => Ok(text_at(table, key.name).is_bad()),
        Wanted::Kind => Ok(queue_row(table).kind.is_bad()),
        Wanted::Serving => Ok(device_row(table).serving.is_bad()),
        Wanted::Action => Ok(action_at(alloc, table, key.name)?.is_bad()),
        Wanted::Numbers => Ok(numbers_at(alloc, table, key.name)?.is_bad()),
        Wanted::Tables => Ok(tables_at(alloc, table, key.name)?.is_bad()),
    }
}

/// The first key of the table with a refused value.
fn bad_in(alloc: Global, sheet: &Sheet<'_>) -> Result<Option<Place>, AllocError> {
    for key in sheet.keys {
        if is_refused(alloc, sheet.table, key)? {
            let name = String::from_str(alloc, key.name)?;
            return Ok(Some(Place {
                table: sheet.name,
                key: name,
            }));
        }
    }
    Ok(None)
}

/// The first key of the tables with a refused value.
pub(crate) fn bad_place(alloc: Global, sheets: &[Sheet<'_>]) -> Result<Option<Place>, AllocError> {
    for sheet in sheets {
        if let Some(place) = bad_in(alloc, sheet)? {
            return Ok(Some(place));
        }
    }
    Ok(None)
}

/// Writes a letter of a text.
fn write_letter(letter: char, out: &mut String) -> Result<(), AllocError> {
    match letter {
        '\t' => out.push_str("\\t"),
        '\r' => out.push_str("\\r"),
        '\n' => out.push_str("\\n"),
        _ if letter.is_control() => out.push('?'),
        _ => out.push(letter),
    }
}

/// Writes a text in quotes, as far as it is shown.
pub(crate) fn write_text(text: &str, out: &mut String) -> Result<(), AllocError> {
    out.push('"')?;
    for (number, letter) in text.chars().enumerate() {
        if number < MOST_SHOWN {
            write_letter(letter, out)?;
        } else if number == MOST_SHOWN {
            out.push_str("..")?;
        }
    }
    out.push('"')
}

/// Writes what a value is.
pub(crate) fn write_value(value: &Value, out: &mut String) -> Result<(), AllocError> {
    match value {
        Value::Integer(number) => write!(out, "{number}"),
        Value::String(text) => {
            out.push_str("the text ")?;
            write_text(text.as_str(), out)
        }
        Value::Boolean(true) => out.push_str("true"),
        Value::Boolean(false) => out.push_str("false"),
        Value::Float(_) => out.push_str("a number with a point or an exponent"),
        Value::Datetime(_) => out.push_str("a date or a time"),
        Value::Array(_) => out.push_str("an array"),
        Value::Table(_) => out.push_str("a table"),
    }
}

/// Writes the items of an array that aren't what they must be: the first of them.
fn write_item(value: &Value, key: &Key, out: &mut String) -> Result<(), AllocError> {
    let Some(items) = value.as_array() else {
        return Ok(());
    };
    let mut found = false;
    for (number, item) in items.iter().enumerate() {
        let is_wanted = match key.wanted {
            Wanted::Tables => item.is_table(),
            _ => match item.as_integer() {
                Some(number) => u32::try_from(number).is_ok(),
                None => false,
            },
        };
        if !is_wanted && !found {
            found = true;
            write!(out, " whose item {number} is ")?;
            write_value(item, out)?;
        }
    }
    Ok(())
}

/// Writes what stands at a key, and what may stand there.
pub(crate) fn write_bad(
    source: &Source<'_>,
    sheet: &Sheet<'_>,
    key: &Key,
    out: &mut String,
) -> Result<(), AllocError> {
    let (name, words) = (key.name, key.words);
    source.begin_at_value(sheet.name, name, out)?;
    write!(out, "`{name}` of ")?;
    write_name(sheet.name, out)?;
    out.push_str(" is ")?;
    let value = value_at(sheet.table, name);
    if let Some(value) = value {
        write_value(value, out)?;
        write_item(value, key, out)?;
    }
    write!(out, "; it must be {words}")?;
    let is_quoted = matches!(value, Some(Value::String(_)))
        && matches!(key.wanted, Wanted::Number | Wanted::Byte | Wanted::Flag);
    out.push_str(if is_quoted {
        ", without quotes\n"
    } else {
        "\n"
    })
}
