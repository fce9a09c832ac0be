//! What a misspelt word was meant to be.

use std::alloc::{AllocError, Global};
use strsim::osa_distance;

/// The one of these words that is nearest to the word, where one is near: at most one change in three letters.
pub(crate) fn nearest<'a>(
    alloc: Global,
    word: &str,
    known: &[&'a str],
) -> Result<Option<&'a str>, AllocError> {
    let mut found = None;
    let mut least = word.len() / 3 + 1;
    for name in known {
        let distance = osa_distance(alloc, word, name)?;
        if distance <= least && found.is_none() || distance < least {
            found = Some(*name);
            least = distance;
        }
    }
    Ok(found)
}
