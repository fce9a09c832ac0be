//! What a TOML table has at a key.

ghost use Rattle.std.specs.Prelude.{◌≡◌, [], map, IfOk, option_map, string_bytes};
ghost use Rattle.std.specs.List.{list_any, list_all};
ghost use Rattle.std.specs.Map.{keys_of};
ghost use Rattle.toml.specs.Data.{get_member, as_table};
ghost use Rattle.toml.specs.View.{view, table_view, array_view};
ghost use Rattle.play_documents.specs.Field.{good_or_bad, field_of, field_map, is_absent, is_bad, value_or, rows, number_of, items_by, number_at, flag_at, text_at, numbers_at, tables_at, is_text, is_known, knows};

use std::alloc::{AllocError, Global};
use toml::value::Array;
use toml::{Table, Value};

/// What a table has at a key.
#[derive(Drop)]
pub enum Field<T> {
    /// Nothing.
    Absent,
    /// A value of another type or range than is wanted.
    Bad,
    /// A value that is wanted.
    Good(T),
}

impl<T> Field<T> {
    /// Whether there is nothing.
    pub fn is_absent(&self) -> bool
        ensures { result ≡ is_absent self.now }
    {
        matches!(self, Field::Absent)
    }

    /// Whether there is a refused value.
    pub fn is_bad(&self) -> bool
        ensures { result ≡ is_bad self.now }
    {
        matches!(self, Field::Bad)
    }
}

impl<T> Field<Vec<T>> {
    /// The rows of an array of tables. Of a field that is none nothing is looked at.
    pub fn rows(&self) -> &[T]
        ensures { result.now ≡ rows (field_map (λ v. v.items) self.now) }
    {
        match self {
            Field::Good(rows) => rows.as_slice(),
            Field::Absent | Field::Bad => &[],
        }
    }
}

impl<T: Copy> Field<T> {
    /// The good value, or else this one.
    pub fn value_or(&self, default: T) -> T
        ensures { result ≡ value_or default self.now }
    {
        match self {
            Field::Good(value) => *value,
            Field::Absent | Field::Bad => default,
        }
    }
}

/// A value that is there.
pub fn good_or_bad<T>(value: Option<T>) -> Field<T>
    ensures { result ≡ good_or_bad value }
{
    match value {
        Some(value) => Field::Good(value),
        None => Field::Bad,
    }
}

/// The value at a key.
fn value_at<'a>(table: &'a Table, key: &str) -> Option<&'a Value>
    ensures { option_map (λ v. view v.now) result ≡ get_member key.now (table_view table.now) }
{
    table.get(key)
}

/// The value as a number of 32 bits.
fn number_of(value: &Value) -> Option<u32>
    ensures { result ≡ number_of u32.MAX (view value.now) }
{
    match value.as_integer() {
        Some(number) => u32::try_from(number).ok(),
        None => None,
    }
}

/// The value as a number of eight bits.
fn byte_of(value: &Value) -> Option<u8>
    ensures { result ≡ number_of u8.MAX (view value.now) }
{
    match value.as_integer() {
        Some(number) => u8::try_from(number).ok(),
        None => None,
    }
}

/// The number at a key.
pub fn number_at(table: &Table, key: &str) -> Field<u32>
    ensures { result ≡ number_at u32.MAX key.now (table_view table.now) }
{
    match value_at(table, key) {
        Some(value) => good_or_bad(number_of(value)),
        None => Field::Absent,
    }
}

/// The number of eight bits at a key.
pub fn byte_at(table: &Table, key: &str) -> Field<u8>
    ensures { result ≡ number_at u8.MAX key.now (table_view table.now) }
{
    match value_at(table, key) {
        Some(value) => good_or_bad(byte_of(value)),
        None => Field::Absent,
    }
}

/// The flag at a key.
pub fn flag_at(table: &Table, key: &str) -> Field<bool>
    ensures { result ≡ flag_at key.now (table_view table.now) }
{
    match value_at(table, key) {
        Some(value) => good_or_bad(value.as_bool()),
        None => Field::Absent,
    }
}

/// The text at a key.
pub fn text_at<'a>(table: &'a Table, key: &str) -> Field<&'a str>
    ensures { field_map (λ s. s.now) result ≡ text_at key.now (table_view table.now) }
{
    match value_at(table, key) {
        Some(value) => good_or_bad(value.as_str()),
        None => Field::Absent,
    }
}

/// A field's text, which is empty where there is none.
pub fn text_or_none<'a>(field: &Field<&'a str>) -> &'a str
    ensures { result.now ≡ value_or [] (field_map (λ t. t.now) field.now) }
{
    match field {
        Field::Good(text) => text,
        Field::Absent | Field::Bad => "",
    }
}

/// The values as numbers, where all of them are.
fn numbers_in(alloc: Global, values: &Array) -> Result<Option<Vec<u32>>, AllocError>
    ensures { IfOk result (λ r. option_map (λ v. v.items) r ≡ items_by (number_of u32.MAX) (array_view values.now)) }
{
    let mut numbers = Vec::new(alloc);
    for value in values {
        match number_of(value) {
            Some(number) => numbers.push(number)?,
            None => return Ok(None),
        }
    }
    Ok(Some(numbers))
}

/// The values as tables, where all of them are.
fn tables_in(alloc: Global, values: &Array) -> Result<Option<Vec<&Table>>, AllocError>
    ensures { IfOk result (λ r. option_map (λ v. map (λ t. table_view t.now) v.items) r ≡ items_by as_table (array_view values.now)) }
{
    let mut tables = Vec::new(alloc);
    for value in values {
        match value.as_table() {
            Some(table) => tables.push(table)?,
            None => return Ok(None),
        }
    }
    Ok(Some(tables))
}

/// The numbers at a key.
pub fn numbers_at(alloc: Global, table: &Table, key: &str) -> Result<Field<Vec<u32>>, AllocError>
    ensures { IfOk result (λ f. field_map (λ v. v.items) f ≡ numbers_at key.now (table_view table.now)) }
{
    let Some(value) = value_at(table, key) else {
        return Ok(Field::Absent);
    };
    match value.as_array() {
        Some(values) => Ok(good_or_bad(numbers_in(alloc, values)?)),
        None => Ok(Field::Bad),
    }
}

/// The tables of an array of tables at a key.
pub fn tables_at<'a>(
    alloc: Global,
    table: &'a Table,
    key: &str,
) -> Result<Field<Vec<&'a Table>>, AllocError>
    ensures { IfOk result (λ f. field_map (λ v. map (λ t. table_view t.now) v.items) f ≡ tables_at key.now (table_view table.now)) }
{
    let Some(value) = value_at(table, key) else {
        return Ok(Field::Absent);
    };
    match value.as_array() {
        Some(values) => Ok(good_or_bad(tables_in(alloc, values)?)),
        None => Ok(Field::Bad),
    }
}

/// Whether the key is one of these.
fn is_known(known: &[&str], key: &str) -> bool
    ensures { result ≡ is_known (map (λ k. k.now) known.now) key.now }
{
    known.iter().any(|name| *name == key)
}

/// Whether each key of the table is one of these.
pub fn knows(known: &[&str], table: &Table) -> bool
    ensures { result ≡ knows (map (λ k. k.now) known.now) (table_view table.now) }
{
    table.keys().all(|key| is_known(known, key.as_str()))
}
