//! Bytes that are no TOML.

use crate::lines::write_position;
use std::alloc::{AllocError, Global};

/// Writes where the bytes stop to be TOML, and why.
pub(crate) fn write_not_toml(
    alloc: Global,
    bytes: &[u8],
    out: &mut String,
) -> Result<(), AllocError> {
    if let Err(error) = str::from_utf8(bytes) {
        write_position(out, bytes, error.valid_up_to())?;
        return out.push_str("a byte that isn't UTF-8 text; a document is TOML, which is text\n");
    }
    if let Err(error) = toml::table_from_slice(alloc, bytes) {
        if let Some(span) = error.span() {
            write_position(out, bytes, span.start)?;
        }
        let message = error.message();
        write!(out, "{message}\n")?;
    }
    Ok(())
}
