//! Which table of a document, and which key of it.

/// A table of a document.
#[derive(Clone, Copy, Debug, PartialEq, Eq)]
pub enum TableName {
    /// The document's own.
    Top,
    /// The one of `[[queue]]` that has this number.
    Queue(usize),
    /// The one of `[[port]]` that has this number.
    Port(usize),
    /// The one of `[[stage]]` that has this number.
    Stage(usize),
}

impl TableName {
    /// The key of the array that the table is in, and its number there; empty for the document's own.
    pub(crate) fn array(&self) -> (&'static str, usize) {
        match self {
            TableName::Top => ("", 0),
            TableName::Queue(number) => ("queue", *number),
            TableName::Port(number) => ("port", *number),
            TableName::Stage(number) => ("stage", *number),
        }
    }
}

/// A key of a table.
#[derive(Debug, PartialEq, Eq, Drop)]
pub struct Place {
    /// The table.
    pub table: TableName,
    /// The key.
    pub key: String,
}
