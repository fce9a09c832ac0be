//! The command line.

use command_line::{Choice, Task, choice};

/// The words after the program's name, what they ask for or the status to end with, and a part of what is printed.
static LINES: [(&[&str], Result<Choice, u8>, &str); 30] = [
    (&["play"], Ok(Choice::Play), ""),
    (&["--help"], Err(0), "Usage: evsched <COMMAND>"),
    (&["help"], Err(0), "docs/FORMATS.md"),
    (&["--version"], Err(0), "evsched 0.1.0\n"),
    (&["play", "--help"], Err(0), "Usage: evsched play"),
    (&["help", "play"], Err(0), "evsched play first-event.toml"),
    (&[], Err(2), "play"),
    (&["stop"], Err(2), "stop"),
    (&["play", "now", "then"], Err(2), "then"),
    (
        &["play", "now"],
        Ok(Choice::Document {
            task: Task::Play { json: false },
            file: Some(1),
            explain: false,
        }),
        "",
    ),
    (
        &["timeline"],
        Ok(Choice::Document {
            task: Task::Timeline,
            file: None,
            explain: false,
        }),
        "",
    ),
    (
        &["timeline", "--explain", "now"],
        Ok(Choice::Document {
            task: Task::Timeline,
            file: Some(2),
            explain: true,
        }),
        "",
    ),
    (
        &["check", "--workers", "3", "-"],
        Ok(Choice::Document {
            task: Task::Check { workers: 3 },
            file: None,
            explain: true,
        }),
        "",
    ),
    (
        &["run", "--explain", "now"],
        Ok(Choice::Document {
            task: Task::Run {
                workers: 2,
                quiet: false,
                stats: false,
                json: false,
            },
            file: Some(2),
            explain: true,
        }),
        "",
    ),
    (
        &["run", "--quiet", "--workers", "3"],
        Ok(Choice::Document {
            task: Task::Run {
                workers: 3,
                quiet: true,
                stats: false,
                json: false,
            },
            file: None,
            explain: false,
        }),
        "",
    ),
    (
        &["run", "--stats", "-"],
        Ok(Choice::Document {
            task: Task::Run {
                workers: 2,
                quiet: false,
                stats: true,
                json: false,
            },
            file: None,
            explain: false,
        }),
        "",
    ),
    (
        &["run", "--json"],
        Ok(Choice::Document {
            task: Task::Run {
                workers: 2,
                quiet: false,
                stats: true,
                json: true,
            },
            file: None,
            explain: false,
        }),
        "",
    ),
    (
        &["play", "--json"],
        Ok(Choice::Document {
            task: Task::Play { json: true },
            file: None,
            explain: false,
        }),
        "",
    ),
    (
        &["play", "--explain", "--json", "now"],
        Ok(Choice::Document {
            task: Task::Play { json: true },
            file: Some(3),
            explain: true,
        }),
        "",
    ),
    (
        &["judge", "script"],
        Ok(Choice::Judge {
            document: Some(1),
            log: None,
        }),
        "",
    ),
    (
        &["judge", "script", "log"],
        Ok(Choice::Judge {
            document: Some(1),
            log: Some(2),
        }),
        "",
    ),
    (&["judge"], Err(2), "DOCUMENT"),
    (
        &["example", "two-flows"],
        Ok(Choice::Example { name: Some(1) }),
        "",
    ),
    (&["help", "faults"], Err(0), "LimitTight"),
    (&["run"], Ok(Choice::Run { workers: 2 }), ""),
    (
        &["run", "--workers", "1"],
        Ok(Choice::Run { workers: 1 }),
        "",
    ),
    (
        &["run", "--workers", "8"],
        Ok(Choice::Run { workers: 8 }),
        "",
    ),
    (&["run", "--workers", "0"], Err(2), "0"),
    (&["run", "--workers", "9"], Err(2), "9"),
    (&["run", "--help"], Err(0), "Usage: evsched run [OPTIONS]"),
];

#[test]
fn reads_the_command_line(rt: HostRuntime) {
    for (words, wanted, part) in &LINES {
        let mut text = String::new(rt.alloc());
        assert_eq!(rt; choice(rt.alloc(), words, &mut text), *wanted);
        assert_eq!(rt; text.is_empty(), wanted.is_ok());
        assert!(rt; text.as_str().contains(part));
    }
}
