//! Documents as long as they may be, and longer by a byte.

use super::documents::{EMPTY_SCRIPT_TEXT, FIRST_EVENT, FIRST_SCRIPT, plays};
use play_documents::DocFault;
use std::alloc::Global;
use std::test::Fail;

/// The most bytes that a document may have.
const MOST: usize = 1_048_576;

/// The document of the first event without its script's lines, with a comment of spaces behind it up to so many bytes.
fn lengthened(alloc: Global, len: usize) -> Result<String, Fail> {
    let (front, rest) = FIRST_EVENT.split_once(FIRST_SCRIPT).ok_or("the script")?;
    let spaces = len
        .saturating_sub(front.len())
        .saturating_sub(rest.len())
        .saturating_sub("#".len());
    let comment = " ".repeat(alloc, spaces)?;
    Ok(format!(in alloc; "{front}{rest}#{comment}")?)
}

#[test]
fn plays_the_longest_document(rt: HostRuntime) -> Result<(), Fail> {
    let alloc = rt.alloc();
    for (len, end) in [
        (MOST, Ok(EMPTY_SCRIPT_TEXT)),
        (MOST + 1, Err(DocFault::TooLong)),
    ] {
        let document = lengthened(alloc, len)?;
        assert_eq!(rt; document.len(), len);
        plays(&rt, alloc, document.as_bytes(), end);
    }
    Ok(())
}

#[test]
fn looks_at_the_length_before_the_bytes(rt: HostRuntime) -> Result<(), Fail> {
    let alloc = rt.alloc();
    for (len, fault) in [(MOST, DocFault::NotToml), (MOST + 1, DocFault::TooLong)] {
        // No text has the byte 255.
        let document = vec![in alloc; 255u8; len]?;
        plays(&rt, alloc, &document, Err(fault));
    }
    Ok(())
}
