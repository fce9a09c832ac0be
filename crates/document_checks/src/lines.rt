//! Lines and columns of a text.

use std::alloc::AllocError;

/// The line and the column, both from 1, of the place after these bytes. A column counts characters.
pub(crate) fn position(before: &[u8]) -> (usize, usize) {
    let mut line = 1usize;
    let mut column = 1usize;
    for byte in before {
        if *byte == b'\n' {
            line = line.saturating_add(1);
            column = 1;
        } else if *byte & 0xC0 != 0x80 {
            column = column.saturating_add(1);
        }
    }
    (line, column)
}

/// Writes the place of a byte, as the beginning of a line.
pub(crate) fn write_position(out: &mut String, bytes: &[u8], at: usize) -> Result<(), AllocError> {
    let (line, column) = position(bytes.get(..at).unwrap_or(bytes));
    write!(out, "  line {line}, column {column}: ")
}
