//! Documents that are cut.

use play_documents::DocFault;

/// The fault of a document's first bytes, so many. From the first of these numbers of bytes on they are TOML, in which a table lacks a
/// key; from the second on they aren't; and so on.
pub fn fault_of_front(count: usize, turns: &[usize]) -> DocFault {
    let passed = turns.iter().filter(|turn| **turn <= count).count();
    if passed % 2 == 1 {
        DocFault::MissingKey
    } else {
        DocFault::NotToml
    }
}
