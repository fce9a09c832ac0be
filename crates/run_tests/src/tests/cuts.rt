//! A good pipeline's document, cut after each byte.

use super::documents::{PIPELINE, PIPELINE_TEXT, runs};
use pipeline_app::OpenGate;
use play_documents::DocFault;
use play_tests::cuts::fault_of_front;

/// Where fronts of the document begin to be TOML, and cease to be, in turn, but for those of which `end_of` knows more.
static TURNS: [usize; 26] = [
    0, 1, 9, 12, 22, 24, 32, 34, 42, 44, 54, 56, 65, 66, 106, 108, 116, 118, 133, 135, 170, 172,
    186, 188, 224, 226,
];

/// How the run of the first bytes, so many, ends. A document that is cut behind a stage is that of the stages before, where the last of
/// these has no action.
fn end_of(count: usize) -> Result<&'static str, DocFault> {
    let written = match count {
        143..145 => 82,
        196..198 => 164,
        242.. => 242,
        160..162 | 214..216 => return Err(DocFault::LastAction),
        _ => return Err(fault_of_front(count, &TURNS)),
    };
    // None where that isn't the end of a line.
    Ok(PIPELINE_TEXT.get(..written).unwrap_or(""))
}

#[test]
fn names_the_fault_of_each_front(rt: HostRuntime) {
    let bytes = PIPELINE.as_bytes();
    assert_eq!(rt; bytes.len(), 243);
    for count in 0..bytes.len() {
        runs(
            &rt,
            rt.alloc(),
            &bytes[..count],
            2,
            &OpenGate,
            end_of(count),
        );
    }
}
