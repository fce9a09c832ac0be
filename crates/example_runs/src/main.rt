//! The program `example_runs`: it plays or runs each document that the index of its folder names, and says which of them don't end
//! as the index and the file beside the document say. The folder is the one that it is run in, examples/.
#![tactic(auto)]

mod ending;
mod index;

use anyhow::{Context, Result, ensure};
use ending::ending_of;
use index::{Entry, entry_of, names_a_run};
use std::fs;
use std::process::ExitCode;
use std::rt::Files;
use std::sync::Wait;
use std::thread::Threads;

/// The file that names the runs, one in each line.
const INDEX: &str = "runs.txt";

/// The bytes of a file of the folder.
fn bytes_of<R: AllocGlobal + Files>(rt: &R, name: &str) -> Result<Vec<u8>> {
    fs::read(rt, name).context(format_args!("{name} can't be read"))
}

/// Whether the run ends as its entry says. Where it doesn't, how it ended is printed.
fn ends_as_written<R: AllocGlobal + Files + Print + Threads + Wait + Sync>(
    rt: &R,
    entry: &Entry<'_>,
) -> Result<bool> {
    let Entry {
        document,
        printed,
        status,
        words,
    } = *entry;
    let given = bytes_of(rt, document)?;
    let wanted = bytes_of(rt, printed)?;
    let ending = ending_of(rt, words, &given)?;
    let is_as_written = ending.is(status, &wanted);
    if !is_as_written {
        println!(rt; "{document} {words}: not as written, but {ending}")?;
    }
    Ok(is_as_written)
}

/// Whether the run that a line of the index names ends as the line says.
fn holds<R: AllocGlobal + Files + Print + Threads + Wait + Sync>(
    rt: &R,
    line: &str,
) -> Result<bool> {
    let Some(entry) = entry_of(line) else {
        println!(rt; "{INDEX} names no run in the line: {line}")?;
        return Ok(false);
    };
    ends_as_written(rt, &entry)
}

fn main(rt: HostRuntime) -> Result<ExitCode> {
    let index = fs::read_to_string(&rt, INDEX).context("the index can't be read")?;
    let lines: Vec<&str> = index
        .lines()
        .filter(|line| names_a_run(line))
        .collect(rt.alloc())?;
    ensure!(!lines.is_empty(), "the index names no run");
    let count = lines.len();
    let mut wrong = 0usize;
    for line in &lines {
        if !holds(&rt, line)? {
            wrong = wrong.saturating_add(1);
        }
    }
    if wrong == 0 {
        println!(rt; "{count} runs, all as written")?;
        Ok(ExitCode::from(0))
    } else {
        println!(rt; "{count} runs, {wrong} not as written")?;
        Ok(ExitCode::from(1))
    }
}
