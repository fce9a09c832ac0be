//! How a run ends.

ghost use Rattle.std.specs.Prelude.{IfOk};
ghost use Rattle.command_line.specs.CommandLine.{HasFew};

use anyhow::{Context, Result, bail};
use arrayvec::ArrayString;
use judge_app::{JudgeFault, judge_text, status_of};
use log_pictures::{PictureFault, picture_of_log};
use pipeline_app::{
    AppFault, Choice, Form, OpenGate, Task, check, choice, fault_line, play, play_as,
    run_explained, run_trace,
};
use std::alloc::{AllocError, Global};
use std::rt::Files;
use std::sync::Wait;
use std::thread::Threads;
use std::{fmt, fs};

/// The status after a log that breaks a promise, which is printed on standard output.
const BROKEN: u8 = 7;

/// The status after a log at fault.
const BAD_LOG: u8 = 4;

/// How a run of the program ended.
#[derive(Drop)]
pub struct Ending {
    status: u8,
    /// What stands on standard output.
    output: Vec<u8>,
    /// What stands on standard error.
    complaint: String,
}

impl Ending {
    /// The ending of a run with this outcome, which wrote this, and says this below the line of a fault.
    fn of(
        alloc: Global,
        outcome: Result<(), AppFault>,
        output: Vec<u8>,
        why: &str,
    ) -> Result<Ending, AllocError> {
        let mut complaint = String::new(alloc);
        let status = match outcome {
            Ok(()) => 0,
            Err(fault) => {
                let mut line = ArrayString::new();
                let status = fault_line(&fault, &mut line);
                complaint.push_str(line.as_str())?;
                complaint.push('\n')?;
                complaint.push_str(why)?;
                status
            }
        };
        Ok(Ending {
            status,
            output,
            complaint,
        })
    }

    /// The ending of the judging of a log by a document.
    fn of_judging(alloc: Global, document: &[u8], log: &[u8]) -> Result<Ending, AllocError> {
        let fault = match judge_text(alloc, document, log) {
            Ok(judged) => {
                return Ok(Ending {
                    status: status_of(&judged.finding),
                    output: judged.text.into_bytes(),
                    complaint: String::new(alloc),
                });
            }
            Err(JudgeFault::Document(fault)) => AppFault::Document(fault),
            Err(JudgeFault::Memory) => AppFault::Memory,
            Err(fault) => return Ending::of_log_fault(alloc, &fault),
        };
        Ending::of(alloc, Err(fault), Vec::new(alloc), "")
    }

    /// The ending of the drawing of a log by a document.
    fn of_drawing(alloc: Global, document: &[u8], log: &[u8]) -> Result<Ending, AllocError> {
        let fault = match picture_of_log(alloc, document, log) {
            Ok(picture) => return Ending::of(alloc, Ok(()), picture.into_bytes(), ""),
            Err(PictureFault::Document(fault)) => AppFault::Document(fault),
            Err(PictureFault::Memory) => AppFault::Memory,
            Err(fault) => return Ending::of_log_fault(alloc, &fault),
        };
        Ending::of(alloc, Err(fault), Vec::new(alloc), "")
    }

    /// The ending of a run whose log has this fault.
    fn of_log_fault<F: fmt::Display>(alloc: Global, fault: &F) -> Result<Ending, AllocError> {
        Ok(Ending {
            status: BAD_LOG,
            output: Vec::new(alloc),
            complaint: format!(in alloc; "evsched: {fault}\n")?,
        })
    }

    /// Whether the run ended with this status and printed this, and nothing else: on standard output with status 0 and that of a broken
    /// log, and on standard error with any other.
    pub fn is(&self, status: u8, printed: &[u8]) -> bool {
        let output = self.output.as_slice();
        let complaint = self.complaint.as_bytes();
        let is_printed = if status == 0 || status == BROKEN {
            output == printed && complaint.is_empty()
        } else {
            complaint == printed && output.is_empty()
        };
        self.status == status && is_printed
    }
}

impl fmt::Display for Ending {
    fn fmt<W: fmt::Write>(&self, f: &mut fmt::Formatter<W>) -> fmt::Result {
        let Ending {
            status,
            output,
            complaint,
        } = self;
        write!(
            f,
            "status {status} with {complaint:?} on standard error and "
        )?;
        match str::from_utf8(output) {
            Ok(text) => write!(f, "{text:?} on standard output"),
            Err(_) => write!(f, "{output:?} on standard output"),
        }
    }
}

/// What the words ask to be done with a log on standard input.
#[derive(Clone, Copy)]
enum LogTask {
    Judge,
    Draw,
}

/// What is done with a log on standard input, where the words ask for that, and the file that they name as its document.
fn log_task<'a>(alloc: Global, words: &[&'a str]) -> Option<(LogTask, &'a str)> {
    let mut text = String::new(alloc);
    let (task, word) = match choice(alloc, words, &mut text) {
        Ok(
            Choice::Judge {
                document: Some(word),
                log: None,
            },
        ) => (LogTask::Judge, word),
        Ok(
            Choice::Drawing {
                document: Some(word),
                log: None,
                explain: false,
            },
        ) => (LogTask::Draw, word),
        _ => return None,
    };
    Some((task, words.get(word).copied()?))
}

/// What the words after the program's name ask to be done with a document on standard input, and whether its fault is explained.
fn task_of(alloc: Global, words: &[&str]) -> Result<(Task, bool)>
    ensures { IfOk result (λ t. HasFew t.0) }
{
    let mut text = String::new(alloc);
    match choice(alloc, words, &mut text) {
        Ok(Choice::Play) => Ok((Task::Play { json: false }, false)),
        Ok(Choice::Run { workers }) => {
            let task = Task::Run {
                workers,
                quiet: false,
                stats: false,
                json: false,
            };
            Ok((task, false))
        }
        Ok(
            Choice::Document {
                task,
                file: None,
                explain,
            },
        ) => Ok((task, explain)),
        Ok(
            Choice::Document { .. }
            | Choice::Drawing { .. }
            | Choice::Judge { .. }
            | Choice::Example { .. },
        ) => bail!("the index has words that ask for another document"),
        Err(_) => bail!("the index has words that ask for no run: {text}"),
    }
}

/// Does what the words after the program's name ask for, with the document or the log on standard input.
pub fn ending_of<R: AllocGlobal + Files + Threads + Wait + Sync>(
    rt: &R,
    words: &str,
    document: &[u8],
) -> Result<Ending> {
    let alloc = rt.alloc();
    let words: Vec<&str> = words.split(' ').collect(alloc)?;
    if let Some((task, file)) = log_task(alloc, &words) {
        let by = fs::read(rt, file).context("the document of a log can't be read")?;
        return Ok(match task {
            LogTask::Judge => Ending::of_judging(alloc, &by, document)?,
            LogTask::Draw => Ending::of_drawing(alloc, &by, document)?,
        });
    }
    let (task, explain) = task_of(alloc, &words)?;
    let mut reader = document;
    let mut output = Vec::new(alloc);
    let mut why = String::new(alloc);
    let outcome = match task {
        Task::Play { json: true } => {
            play_as(alloc, Form::Json, &mut reader, &mut output, &mut why)
        }
        Task::Play { .. } if explain => {
            play_as(alloc, Form::Text, &mut reader, &mut output, &mut why)
        }
        Task::Play { .. } => play(alloc, &mut reader, &mut output),
        Task::Timeline => play_as(alloc, Form::Picture, &mut reader, &mut output, &mut why),
        Task::Run { workers, .. } if explain => run_explained(
            rt,
            alloc,
            &mut reader,
            workers,
            &OpenGate,
            &mut output,
            &mut why,
        ),
        Task::Run { workers, .. } => {
            run_trace(rt, alloc, &mut reader, workers, &OpenGate, &mut output)
        }
        Task::Check { workers } => check(alloc, &mut reader, workers, &mut why),
    };
    let said = if explain { why.as_str() } else { "" };
    Ok(Ending::of(alloc, outcome, output, said)?)
}
