//! The document of the runs.

use crate::asked::serving_word;
use evt_types::Serving;
use std::alloc::{AllocError, Global};

/// Three stages, and a trace of no event.
static PIPELINE: &str = "limit = 4096
quantum = 16
sweep = 64
depth = 64
replies = 64
trace = ''
[[stage]]
kind = 'atomic'
priority = 128
slots = 64
action = 'add 1'
[[stage]]
kind = 'ordered'
priority = 128
order = 64
action = 'drop 3'
[[stage]]
kind = 'parallel'
priority = 128
";

/// The document of a serving.
pub fn document(alloc: Global, serving: Serving) -> Result<String, AllocError> {
    let serving = serving_word(serving);
    let mut text = String::new(alloc);
    write!(text, "serving = '{serving}'\n")?;
    text.push_str(PIPELINE)?;
    Ok(text)
}
