//! Documents with two faults: the one that is looked for first is named, and nothing is written.

use super::documents::{changed, runs};
use pipeline_app::OpenGate;
use play_documents::DocFault;
use std::test::Fail;

/// The first stage is parallel, and the last one adds.
const PARALLEL_INSIDE: &[(&str, &str)] = &[
    ("kind = \"ordered\"", "kind = \"parallel\""),
    ("2\"\n[[stage]]\n", "2\"\n[[stage]]\naction = \"add 1\"\n"),
];

/// The limit is too low for two workers, and a line of the trace is short.
const LIMIT_TIGHT: &[(&str, &str)] = &[("limit = 32", "limit = 5"), ("7 128 1\n", "7 128\n")];

static FAULTS: [(&[(&str, &str)], DocFault); 2] = [
    (PARALLEL_INSIDE, DocFault::ParallelInside),
    (LIMIT_TIGHT, DocFault::LimitTight),
];

#[test]
fn names_the_first_fault(rt: HostRuntime) -> Result<(), Fail> {
    for (changes, fault) in &FAULTS {
        let document = changed(rt.alloc(), *changes)?;
        runs(
            &rt,
            rt.alloc(),
            document.as_bytes(),
            2,
            &OpenGate,
            Err(*fault),
        );
    }
    Ok(())
}
