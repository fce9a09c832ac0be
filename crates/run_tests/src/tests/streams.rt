//! A run over readers and writers that give and take little, and fail.

use super::documents::{PIPELINE, PIPELINE_TEXT};
use pipeline_app::{OpenGate, run_trace};
use play_tests::failing::other_over_failing;

#[test]
fn runs_over_failing_readers_and_writers(rt: HostRuntime) {
    let alloc = rt.alloc();
    let other = other_over_failing(alloc, PIPELINE, PIPELINE_TEXT, |reader, writer| {
        run_trace(&rt, alloc, reader, 2, &OpenGate, writer)
    });
    assert_eq!(rt; other, None);
}
