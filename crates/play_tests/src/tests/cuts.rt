//! A good document, cut after each byte.

use super::documents::{FIRST_EVENT, FIRST_EVENT_TEXT, plays};
use crate::cuts::fault_of_front;
use evt_types::ShapeFault;
use play_documents::DocFault;

/// Where fronts of the document begin to be TOML, and cease to be, in turn, but for those of which `end_of` knows more.
static TURNS: [usize; 38] = [
    0, 1, 9, 11, 21, 23, 31, 33, 43, 44, 90, 92, 100, 102, 116, 118, 126, 128, 135, 137, 149, 151,
    159, 161, 171, 173, 188, 190, 208, 210, 222, 224, 232, 234, 244, 246, 261, 263,
];

/// How the play of the first bytes, so many, ends: behind the first port there is a whole document, in which no port serves the queue.
fn end_of(count: usize) -> Result<&'static str, DocFault> {
    match count {
        199..201 => Err(DocFault::Shape(ShapeFault::QueueUnlinked)),
        273.. => Ok(FIRST_EVENT_TEXT),
        _ => Err(fault_of_front(count, &TURNS)),
    }
}

#[test]
fn names_the_fault_of_each_front(rt: HostRuntime) {
    let bytes = FIRST_EVENT.as_bytes();
    assert_eq!(rt; bytes.len(), 274);
    for count in 0..bytes.len() {
        plays(&rt, rt.alloc(), &bytes[..count], end_of(count));
    }
}
