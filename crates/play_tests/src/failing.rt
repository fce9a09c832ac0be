//! Work that reads a document and writes a text, over readers and writers that give and take little, and fail at each place.

use crate::slow::{SlowReader, SlowWriter};
use command_line::AppFault;
use std::alloc::Global;

/// After how many reads of a byte the reader fails, how many bytes the writer takes a write, and after how many writes it fails.
#[derive(Clone, Copy, Debug, PartialEq, Eq)]
pub struct Failing {
    reads: usize,
    step: usize,
    writes: usize,
}

/// Whether the work ends as it must: by the fault of a read with nothing written where the document's end isn't found, which takes a
/// read more than it has bytes; by the fault of a write, with what was taken before it, where not the whole text is taken.
fn ends_as_wanted<'a, F>(
    alloc: Global,
    document: &'a str,
    text: &str,
    failing: Failing,
    work: &F,
) -> bool
where
    F: Fn(&mut SlowReader<'a>, &mut SlowWriter) -> Result<(), AppFault>,
    requires { F.IsAlwaysCallable work.now }
{
    let Failing {
        reads,
        step,
        writes,
    } = failing;
    let mut reader = SlowReader::new(document.as_bytes(), reads);
    let mut writer = SlowWriter::new(alloc, step, writes);
    let ended = work(&mut reader, &mut writer);
    let (wanted, count) = if reads <= document.len() {
        (Err(AppFault::Read), 0)
    } else if step == 0 {
        (Err(AppFault::Write), 0)
    } else if writes < text.len() {
        (Err(AppFault::Write), writes)
    } else {
        (Ok(()), text.len())
    };
    ended == wanted && text.as_bytes().get(..count) == Some(writer.taken.as_slice())
}

/// The reader and writer over which the work doesn't end as it must: a failure after each number of reads, after each number of writes
/// of a byte, or a writer that takes no byte.
pub fn other_over_failing<'a, F>(
    alloc: Global,
    document: &'a str,
    text: &str,
    work: F,
) -> Option<Failing>
where
    F: Fn(&mut SlowReader<'a>, &mut SlowWriter) -> Result<(), AppFault>,
    requires { F.IsAlwaysCallable work }
{
    let (all_reads, all_writes) = (document.len().saturating_add(1), text.len());
    let failing_reads = (0..=all_reads).map(|reads| (reads, 1, all_writes));
    let failing_writes = (0..all_writes).map(|writes| (all_reads, 1, writes));
    let full = [(all_reads, 0, 1)];
    for (reads, step, writes) in failing_reads.chain(failing_writes).chain(full) {
        let failing = Failing {
            reads,
            step,
            writes,
        };
        if !ends_as_wanted(alloc, document, text, failing, &work) {
            return Some(failing);
        }
    }
    None
}
