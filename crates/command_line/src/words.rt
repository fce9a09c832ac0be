//! The reading of a command line.

ghost use Rattle.std.specs.Prelude.{◌≡◌, ◌⊎◌, ◌≤◌, IfOk, IfErr, OnOk, Err};
ghost use Rattle.command_line.specs.CommandLine.{HasFewWorkers, IsStatus, no_memory};
ghost use Rattle.play_documents.specs.Numbers.{fewest_workers, most_workers};

use crate::help_texts::{
    AFTER_CHECK_HELP, AFTER_EXAMPLE_HELP, AFTER_HELP, AFTER_JUDGE_HELP, AFTER_PLAY_HELP,
    AFTER_RUN_HELP, AFTER_TIMELINE_HELP, DOCUMENTS, FAULTS,
};
use crate::options::{Choice, Task};
use clap::error::ErrorKind;
use clap::{Arg, ArgAction, ArgMatches, Command, Error, value_parser};
use std::alloc::{AllocError, Global};

/// The status after help, and after words that are refused.
pub(crate) const HELP: u8 = 0;

pub(crate) const REFUSED: u8 = 2;
/// The status after an allocation that was refused.
pub(crate) const NO_MEMORY: u8 = 5;

/// The subcommands.
const PLAY: &str = "play";

const TIMELINE: &str = "timeline";

const RUN: &str = "run";

const CHECK: &str = "check";

const JUDGE: &str = "judge";

const EXAMPLE: &str = "example";

/// The option that says how many workers serve the stages.
const WORKERS: &str = "workers";

/// The option that has a fault explained.
const EXPLAIN: &str = "explain";

/// The option that shows nothing of a run while it goes on.
const QUIET: &str = "quiet";

/// The option that shows what was counted of a run.
const STATS: &str = "stats";

/// The option that prints JSON.
const JSON: &str = "json";

/// The file of a document, and the name of an example.
const FILE: &str = "FILE";

const EXAMPLE_NAME: &str = "NAME";

/// The files that a log is judged by, and that it stands in.
const DOCUMENT: &str = "DOCUMENT";

const LOG: &str = "LOG";

/// The word for standard input in place of a file.
const STANDARD_INPUT: &str = "-";

/// The fewest and the most workers that a run may have.
pub(crate) const MIN_WORKERS: u32 = 1;

pub(crate) const MAX_WORKERS: u32 = 8;

/// How many a run has where the words don't say.
const DEFAULT_WORKERS: &str = "2";

/// The program's name and version.
const NAME: &str = "evsched";

const VERSION: &str = "0.1.0";

/// The option of the number of workers.
fn workers_option<'a>(alloc: Global) -> Arg<'a> {
    let range = i64::from(MIN_WORKERS)..=i64::from(MAX_WORKERS);
    Arg::new(alloc, WORKERS)
        .long(WORKERS)
        .value_name("N")
        .help("The number of worker threads, from 1 to 8")
        .value_parser(value_parser!(u32).range(range))
        .default_value(DEFAULT_WORKERS)
}

/// The option that has a fault explained.
fn explain_option<'a>(alloc: Global) -> Arg<'a> {
    Arg::new(alloc, EXPLAIN)
        .long(EXPLAIN)
        .action(ArgAction::SetTrue)
        .help("Say below a document's fault where it is and why")
}

/// The option that shows nothing of a run while it goes on.
fn quiet_option<'a>(alloc: Global) -> Arg<'a> {
    Arg::new(alloc, QUIET)
        .long(QUIET)
        .action(ArgAction::SetTrue)
        .help("Show nothing of the run while it goes on, also on a terminal")
}

/// The option that shows what was counted of a run.
fn stats_option<'a>(alloc: Global) -> Arg<'a> {
    Arg::new(alloc, STATS)
        .long(STATS)
        .action(ArgAction::SetTrue)
        .help("Print after the run what was counted, on standard error")
}

/// The option that prints JSON.
fn json_option<'a>(alloc: Global, help: &'a str) -> Arg<'a> {
    Arg::new(alloc, JSON)
        .long(JSON)
        .action(ArgAction::SetTrue)
        .help(help)
}

/// The file of a document.
fn file_word<'a>(alloc: Global) -> Arg<'a> {
    Arg::new(alloc, FILE).help("The document; standard input where it is left out or is -")
}

/// The subcommand that plays a script.
fn play_command<'a>(alloc: Global) -> Result<Command<'a>, AllocError> {
    Command::new(alloc, PLAY)
        .about("Play the script of a document, and print what happened")
        .after_help(AFTER_PLAY_HELP)
        .arg(explain_option(alloc))?
        .arg(json_option(alloc, "Print JSON, one object a line, in place of the text"))?
        .arg(file_word(alloc))
}

/// The subcommand that draws the log of a script, or one that is given.
fn timeline_command<'a>(alloc: Global) -> Result<Command<'a>, AllocError> {
    let log = Arg::new(alloc, LOG).help(
        "A log to be drawn, as play prints it, and no script is played; - is standard input",
    );
    Command::new(alloc, TIMELINE)
        .about("Draw the log of a document's script, or one that was printed, as a picture in SVG")
        .after_help(AFTER_TIMELINE_HELP)
        .arg(explain_option(alloc))?
        .arg(file_word(alloc))?
        .arg(log)
}

/// The subcommand that runs a pipeline.
fn run_command<'a>(alloc: Global) -> Result<Command<'a>, AllocError> {
    Command::new(alloc, RUN)
        .about(
            "Run the trace of a document through its stages by worker threads, and print what each stage accepted",
        )
        .after_help(AFTER_RUN_HELP)
        .arg(workers_option(alloc))?
        .arg(explain_option(alloc))?
        .arg(quiet_option(alloc))?
        .arg(stats_option(alloc))?
        .arg(json_option(
            alloc,
            "Print what was counted as JSON, one object a line; implies --stats",
        ))?
        .arg(file_word(alloc))
}

/// The subcommand that looks for a document's fault.
fn check_command<'a>(alloc: Global) -> Result<Command<'a>, AllocError> {
    Command::new(alloc, CHECK)
        .about("Look for the fault of a document of either kind, and say where it is and why")
        .after_help(AFTER_CHECK_HELP)
        .arg(workers_option(alloc))?
        .arg(file_word(alloc))
}

/// The subcommand that judges a log.
fn judge_command<'a>(alloc: Global) -> Result<Command<'a>, AllocError> {
    let document = Arg::new(alloc, DOCUMENT)
        .required(true)
        .help("The document that was played");
    let log = Arg::new(alloc, LOG).help(
        "What play printed; standard input where it is left out or is -",
    );
    Command::new(alloc, JUDGE)
        .about("Judge the log that play printed: say in which line it first breaks which promise")
        .after_help(AFTER_JUDGE_HELP)
        .arg(document)?
        .arg(log)
}

/// The subcommand that prints an example.
fn example_command<'a>(alloc: Global) -> Result<Command<'a>, AllocError> {
    Command::new(alloc, EXAMPLE)
        .about("Print one of the example documents, or the names of all")
        .after_help(AFTER_EXAMPLE_HELP)
        .arg(Arg::new(alloc, EXAMPLE_NAME).help("The example; without it the names are printed"))
}

/// A part of the manual, which only `help` prints.
fn topic<'a>(alloc: Global, name: &'a str, text: &'a str) -> Command<'a> {
    Command::new(alloc, name)
        .hide(true)
        .arg_required_else_help(true)
        .override_help(text)
}

/// The program's command line.
fn command<'a>(alloc: Global) -> Result<Command<'a>, AllocError> {
    Command::new(alloc, NAME)
        .version(VERSION)
        .about("An event device with a software scheduler")
        .after_help(AFTER_HELP)
        .no_binary_name(true)
        .bin_name(NAME)?
        .subcommand_required(true)
        .subcommand(play_command(alloc)?)?
        .subcommand(timeline_command(alloc)?)?
        .subcommand(run_command(alloc)?)?
        .subcommand(check_command(alloc)?)?
        .subcommand(judge_command(alloc)?)?
        .subcommand(example_command(alloc)?)?
        .subcommand(topic(alloc, "documents", DOCUMENTS))?
        .subcommand(topic(alloc, "faults", FAULTS))
}

/// The number of workers of a run. clap has refused any other; the bounds stand here too, so that what is promised doesn't rest on
/// a parser.
fn workers(options: &ArgMatches) -> u32
    ensures { (fewest_workers ≤ result) × (result ≤ most_workers) }
{
    options
        .get_one(WORKERS)
        .unwrap_or(MIN_WORKERS)
        .clamp(MIN_WORKERS, MAX_WORKERS)
}

/// The number of the first of the words that is the value at this id.
fn place_of(words: &[&str], options: &ArgMatches, id: &str) -> Option<usize> {
    let value = options.get_str(id)?;
    words.iter().position(|word| *word == value)
}

/// The word that names the file at this id; none for standard input.
fn file_at(words: &[&str], options: &ArgMatches, id: &str) -> Option<usize> {
    if options.get_str(id) == Some(STANDARD_INPUT) {
        None
    } else {
        place_of(words, options, id)
    }
}

/// The word that names the file of a document; none for standard input.
fn file_of(words: &[&str], options: &ArgMatches) -> Option<usize> {
    file_at(words, options, FILE)
}

/// The playing of a script.
fn play_choice(file: Option<usize>, explain: bool, json: bool) -> Choice
    ensures workers { HasFewWorkers result }
{
    if file.is_none() && !explain && !json {
        return Choice::Play;
    }
    let task = Task::Play { json };
    Choice::Document {
        task,
        file,
        explain,
    }
}

/// The run of a pipeline.
fn run_choice(
    workers: u32,
    file: Option<usize>,
    explain: bool,
    quiet: bool,
    stats: bool,
    json: bool,
) -> Choice
    requires { (fewest_workers ≤ workers) × (workers ≤ most_workers) }
    ensures workers { HasFewWorkers result }
{
    if file.is_none() && !explain && !quiet && !stats && !json {
        return Choice::Run { workers };
    }
    let task = Task::Run {
        workers,
        quiet,
        stats: stats || json,
        json,
    };
    Choice::Document {
        task,
        file,
        explain,
    }
}

/// The drawing of a script's log, or of one that is given.
fn timeline_choice(words: &[&str], options: &ArgMatches) -> Choice
    ensures workers { HasFewWorkers result }
{
    let file = file_of(words, options);
    let explain = options.get_flag(EXPLAIN);
    if options.get_str(LOG).is_some() {
        return Choice::Drawing {
            document: file,
            log: file_at(words, options, LOG),
            explain,
        };
    }
    let task = Task::Timeline;
    Choice::Document {
        task,
        file,
        explain,
    }
}

/// What the words ask for that clap has accepted.
fn chosen(words: &[&str], matches: &ArgMatches) -> Choice
    ensures workers { HasFewWorkers result }
{
    if let Some(options) = matches.subcommand_matches(RUN) {
        let workers = workers(options);
        let (explain, quiet) = (options.get_flag(EXPLAIN), options.get_flag(QUIET));
        let (stats, json) = (options.get_flag(STATS), options.get_flag(JSON));
        let file = file_of(words, options);
        return run_choice(workers, file, explain, quiet, stats, json);
    }
    if let Some(options) = matches.subcommand_matches(CHECK) {
        return Choice::Document {
            task: Task::Check {
                workers: workers(options),
            },
            file: file_of(words, options),
            explain: true,
        };
    }
    if let Some(options) = matches.subcommand_matches(TIMELINE) {
        return timeline_choice(words, options);
    }
    if let Some(options) = matches.subcommand_matches(JUDGE) {
        return Choice::Judge {
            document: place_of(words, options, DOCUMENT),
            log: file_at(words, options, LOG),
        };
    }
    if let Some(options) = matches.subcommand_matches(EXAMPLE) {
        return Choice::Example {
            name: place_of(words, options, EXAMPLE_NAME),
        };
    }
    match matches.subcommand_matches(PLAY) {
        Some(options) => {
            let (explain, json) = (options.get_flag(EXPLAIN), options.get_flag(JSON));
            play_choice(file_of(words, options), explain, json)
        }
        None => Choice::Play,
    }
}

/// Puts what clap prints into `text`, and gives the status.
fn refused(alloc: Global, error: &Error, text: &mut String) -> u8
    ensures status { IsStatus result }
    ensures memory { result ≡ no_memory → text.new ≡ text.old }
{
    if error.kind() == ErrorKind::OutOfMemory {
        return NO_MEMORY;
    }
    let Ok(printed) = error.to_string(alloc) else {
        return NO_MEMORY;
    };
    *text = printed;
    if error.use_stderr() { REFUSED } else { HELP }
}

/// Reads the words after the program's name, or gives the status to end with: 0 for help and 2 for words that are refused, with
/// the text to print in `text`, and 5 where memory ran out.
pub fn choice(alloc: Global, words: &[&str], text: &mut String) -> Result<Choice, u8>
    ensures ok { OnOk result (text.new ≡ text.old) }
    ensures workers { IfOk result HasFewWorkers }
    ensures status { IfErr result IsStatus }
    ensures memory { result ≡ Err no_memory → text.new ≡ text.old }
{
    let Ok(command) = command(alloc) else {
        return Err(NO_MEMORY);
    };
    match command.try_get_matches_from(words) {
        Ok(matches) => Ok(chosen(words, &matches)),
        Err(error) => Err(refused(alloc, &error, text)),
    }
}
