//! The program `evsched`: it plays the script of a document on an event device, or draws what happened then, runs the document's trace
//! through a pipeline, or says what is wrong with the document, which stands in a file or on standard input. It judges logs, too.
#![tactic(auto)]

ghost use Rattle.std.specs.Prelude.{◌≤◌};
ghost use Rattle.command_line.specs.CommandLine.{HasFew};

mod drawing;
mod judging;
mod noted;
mod piped;
mod progress;
mod terminals;
mod texts;

use arrayvec::ArrayString;
use drawing::drawn_with_files;
use example_documents::{EXAMPLES, example};
use judging::judged_with_file;
use noted::Noted;
use piped::Piped;
use pipeline_app::{
    AppFault, Choice, Form, RunStats, StatsForm, Task, check, choice, fault_line, play, play_as,
    run_explained, run_trace, run_with_counts,
};
use progress::Progress;
use std::fs::File;
use std::io::{IsTerminal, Read};
use std::process::ExitCode;
use std::rt::{Env, Files};
use std::sync::Wait;
use std::sync::atomic::{AtomicBool, Ordering};
use std::thread::Threads;
use std::time::Clock;
use std::{env, io};
use terminals::Terminals;
use texts::await_document;

/// The status after a command line that is refused.
pub(crate) const REFUSED: u8 = 2;

/// The status after a log at fault.
pub(crate) const BAD_LOG: u8 = 4;

/// The status after a write that failed.
const UNWRITTEN: u8 = 3;

/// Prints a line on standard error.
pub(crate) fn complain(rt: &impl Eprint, line: &str) {
    let _ = eprintln!(rt; "{line}");
}

/// Prints the line of a fault, and gives its status.
pub(crate) fn failed(rt: &impl Eprint, fault: &AppFault) -> u8 {
    let mut line = ArrayString::new();
    let status = fault_line(fault, &mut line);
    complain(rt, line.as_str());
    status
}

/// Prints what a command line that is no choice gave: help on standard output, all else on standard error.
fn explained(rt: &(impl Print + Eprint), status: u8, text: &str) -> u8 {
    match status {
        0 => printed(rt, text),
        REFUSED => {
            let _ = eprint!(rt; "{text}");
            status
        }
        _ => failed(rt, &AppFault::Memory),
    }
}

/// Gives the status of a write that failed, and prints its line, but for a pipe from which nobody reads any more: then there is nobody to
/// tell.
fn unwritten(rt: &impl Eprint, is_closed: bool) -> u8 {
    if is_closed {
        UNWRITTEN
    } else {
        failed(rt, &AppFault::Write)
    }
}

/// Prints a text on standard output, and gives the status.
pub(crate) fn printed(rt: &(impl Print + Eprint), text: &str) -> u8 {
    match print!(rt; "{text}") {
        Ok(()) => 0,
        Err(error) => unwritten(rt, error.kind() == io::ErrorKind::BrokenPipe),
    }
}

/// Prints the example of this name.
fn shown(rt: &(impl Print + Eprint), name: &str) -> u8 {
    match example(name) {
        Some(text) => printed(rt, text),
        None => {
            let _ = eprintln!(rt;
                "evsched: there is no example {name}; evsched example lists them"
            );
            REFUSED
        }
    }
}

/// Prints the names of the examples, each with the command that takes it.
fn listed(rt: &(impl Print + Eprint)) -> u8 {
    for (name, command) in &EXAMPLES {
        if let Err(error) = print!(rt; "{name}  (evsched {command})\n") {
            return unwritten(rt, error.kind() == io::ErrorKind::BrokenPipe);
        }
    }
    0
}

/// The words of the command line, or the status of a fault in them.
fn args<R: AllocGlobal + Env + Eprint>(rt: &R) -> Result<Vec<String>, u8> {
    match env::args(rt) {
        Ok(args) => args
            .collect(rt.alloc())
            .map_err(|_| failed(rt, &AppFault::Memory)),
        Err(error) if error.kind() == io::ErrorKind::InvalidData => {
            complain(rt, "evsched: a word of the command line isn't UTF-8");
            Err(REFUSED)
        }
        Err(_) => Err(failed(rt, &AppFault::Memory)),
    }
}

/// The form of what was counted: JSON where `json`.
fn form_of(json: bool) -> StatsForm {
    if json {
        StatsForm::Json
    } else {
        StatsForm::Text
    }
}

/// Runs the document's trace, and prints what was counted of the run below what the run printed.
fn run_with_stats<R: AllocGlobal + Print + Eprint + Clock + Threads + Wait + Sync, I: Read>(
    rt: &R,
    workers: u32,
    form: StatsForm,
    reader: &mut I,
    progress: &Progress<'_, R>,
    closed: &AtomicBool,
    why: &mut String,
) -> Result<(), AppFault>
    requires { (1 ≤ workers) × (workers ≤ 8) }
{
    let alloc = rt.alloc();
    let mut writer = progress.noting(Piped::new(io::writer(rt), closed));
    let stats = progress.during(
        || -> Result<RunStats, AppFault>
            requires { (1 ≤ workers) × (workers ≤ 8) }
        { run_with_counts(rt, alloc, reader, workers, form, progress, &mut writer, why) },
    )?;
    let ports = &stats.counts.threads.ports;
    let handled = ports
        .iter()
        .fold(0u64, |sum, port| sum.saturating_add(port.counts.dequeued));
    progress.show_rates(alloc, handled, form)?;
    let _ = eprint!(rt; "{}", stats.text);
    Ok(())
}

/// Runs the document's trace. Where its fault is to be explained, `why` says where it is and why.
fn run_alone<R: AllocGlobal + Print + Eprint + Clock + Threads + Wait + Sync, I: Read>(
    rt: &R,
    workers: u32,
    explain: bool,
    reader: &mut I,
    progress: &Progress<'_, R>,
    closed: &AtomicBool,
    why: &mut String,
) -> Result<(), AppFault>
    requires { (1 ≤ workers) × (workers ≤ 8) }
{
    let alloc = rt.alloc();
    let mut writer = progress.noting(Piped::new(io::writer(rt), closed));
    progress.during(
        || -> Result<(), AppFault>
            requires { (1 ≤ workers) × (workers ≤ 8) }
        {
            if explain {
                run_explained(rt, alloc, reader, workers, progress, &mut writer, why)
            } else {
                run_trace(rt, alloc, reader, workers, progress, &mut writer)
            }
        },
    )
}

/// Does the task with the document that the reader gives. Where its fault is to be explained, `why` says where it is and why; `closed` says
/// whether standard output is a pipe from which nobody reads any more.
fn outcome<R: AllocGlobal + Print + Eprint + Clock + Threads + Wait + Sync, I: Read>(
    rt: &R,
    task: Task,
    explain: bool,
    reader: &mut I,
    terminals: Terminals,
    closed: &AtomicBool,
    why: &mut String,
) -> Result<(), AppFault>
    requires { HasFew task }
{
    let (alloc, mut writer) = (rt.alloc(), Piped::new(io::writer(rt), closed));
    match task {
        Task::Play { json: true } => play_as(alloc, Form::Json, reader, &mut writer, why),
        Task::Play { .. } if explain => play_as(alloc, Form::Text, reader, &mut writer, why),
        Task::Play { .. } => play(alloc, reader, &mut writer),
        Task::Timeline => play_as(alloc, Form::Picture, reader, &mut writer, why),
        Task::Run {
            workers,
            quiet,
            stats: true,
            json,
        } => {
            let progress = Progress::new(rt, terminals, quiet, true);
            run_with_stats(rt, workers, form_of(json), reader, &progress, closed, why)
        }
        Task::Run {
            workers,
            quiet,
            stats: false,
            ..
        } => {
            let progress = Progress::new(rt, terminals, quiet, false);
            run_alone(rt, workers, explain, reader, &progress, closed, why)
        }
        Task::Check { workers } => check(alloc, reader, workers, why),
    }
}

/// Does the task, and gives the status. A fault's explanation, where it is asked for, is printed below its line.
fn done<R: AllocGlobal + Print + Eprint + Clock + Threads + Wait + Sync, I: Read>(
    rt: &R,
    task: Task,
    explain: bool,
    reader: &mut I,
    terminals: Terminals,
) -> u8
    requires { HasFew task }
{
    let mut why = String::new(rt.alloc());
    let closed = AtomicBool::new(false);
    match outcome(rt, task, explain, reader, terminals, &closed, &mut why) {
        Ok(()) => 0,
        Err(AppFault::Write) => unwritten(rt, closed.load(Ordering::SeqCst)),
        Err(fault) => {
            let status = failed(rt, &fault);
            if explain {
                let _ = eprint!(rt; "{why}");
            }
            status
        }
    }
}

/// Prints the line of a failing read, and below it the file and the cause.
pub(crate) fn unreadable(rt: &impl Eprint, file: &str, cause: &io::Error) -> u8 {
    let status = failed(rt, &AppFault::Read);
    let _ = eprintln!(rt; "  {file}: {cause}");
    status
}

/// Does the task with the document in a file.
fn done_with_file<R: AllocGlobal + Files + Print + Eprint + Clock + Threads + Wait + Sync>(
    rt: &R,
    task: Task,
    explain: bool,
    file: &str,
    terminals: Terminals,
) -> u8
    requires { HasFew task }
{
    match File::open(rt, file) {
        Ok(opened) => {
            let mut reader = Noted::new(opened);
            let terminals = Terminals {
                input: false,
                ..terminals
            };
            let status = done(rt, task, explain, &mut reader, terminals);
            if let Some(cause) = reader.cause() {
                let _ = eprintln!(rt; "  {file}: {cause}");
            }
            status
        }
        Err(cause) => unreadable(rt, file, &cause),
    }
}

/// Does the task with the document on standard input. Where that is a terminal, a line says that it is waited for.
fn done_with_input<R: AllocGlobal + Input + Print + Eprint + Clock + Threads + Wait + Sync>(
    rt: &R,
    task: Task,
    explain: bool,
    terminals: Terminals,
) -> u8
    requires { HasFew task }
{
    await_document(rt, terminals.input);
    done(rt, task, explain, &mut rt.reader(), terminals)
}

/// Does what the words after the program's name ask for, and gives the status.
fn run<R: AllocGlobal + Files + Input + Print + Eprint + Clock + Threads + Wait + Sync>(
    rt: &R,
    words: &[&str],
    terminals: Terminals,
) -> u8 {
    let mut text = String::new(rt.alloc());
    match choice(rt.alloc(), words, &mut text) {
        Ok(Choice::Play) => done_with_input(rt, Task::Play { json: false }, false, terminals),
        Ok(Choice::Run { workers }) => {
            let task = Task::Run {
                workers,
                quiet: false,
                stats: false,
                json: false,
            };
            done_with_input(rt, task, false, terminals)
        }
        Ok(
            Choice::Document {
                task,
                file,
                explain,
            },
        ) => match file.and_then(|word| words.get(word)) {
            Some(file) => done_with_file(rt, task, explain, file, terminals),
            None => done_with_input(rt, task, explain, terminals),
        },
        Ok(
            Choice::Drawing {
                document,
                log,
                explain,
            },
        ) => {
            let document = document.and_then(|word| words.get(word)).copied();
            let log = log.and_then(|word| words.get(word)).copied();
            drawn_with_files(rt, document, log, explain, terminals.input)
        }
        Ok(Choice::Judge { document, log }) => {
            let document = document.and_then(|word| words.get(word));
            let log = log.and_then(|word| words.get(word));
            judged_with_file(rt, document.unwrap_or(&""), log.copied(), terminals.input)
        }
        Ok(Choice::Example { name }) => match name.and_then(|word| words.get(word)) {
            Some(name) => shown(rt, name),
            None => listed(rt),
        },
        Err(status) => explained(rt, status, text.as_str()),
    }
}

fn main(rt: HostRuntime) -> ExitCode {
    let args = match args(&rt) {
        Ok(args) => args,
        Err(status) => return ExitCode::from(status),
    };
    let words: Result<Vec<&str>, _> = args
        .iter()
        .skip(1)
        .map(|word| word.as_str())
        .collect(rt.alloc());
    match words {
        Ok(words) => {
            let terminals = Terminals {
                input: rt.stdin().is_terminal(),
                output: rt.stdout().is_terminal(),
                error: rt.stderr().is_terminal(),
            };
            ExitCode::from(run(&rt, &words, terminals))
        },
        Err(_) => ExitCode::from(failed(&rt, &AppFault::Memory)),
    }
}
