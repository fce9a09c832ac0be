//! The progress of a run, shown while it goes on.

use crate::terminals::Terminals;
use pipeline_app::{Gate, Phase, StatsForm};
use serde_json::json;
use std::alloc::{AllocError, Global};
use std::io::Write;
use std::sync::atomic::{AtomicBool, AtomicU64, Ordering};
use std::sync::{Mutex, Wait};
use std::thread::{Parker, Threads, join};
use std::time::{Clock, Duration, Instant};
use std::{fmt, io};

/// After how long the line is written anew, in microseconds.
const EACH: u64 = 200_000;

/// The most bytes that are written at once of a text whose writing is shown: a quarter of what a pipe has room for.
const PIECE: usize = 16_384;

/// The microseconds of a second.
const SECOND: u64 = 1_000_000;

/// Takes the line away: it goes to its beginning and clears it.
const CLEAR: &str = "\r\x1b[K";

/// The thousands, from the highest that a number may have.
const THOUSANDS: [u64; 7] = [
    1_000_000_000_000_000_000,
    1_000_000_000_000_000,
    1_000_000_000_000,
    1_000_000_000,
    1_000_000,
    1_000,
    1,
];

/// A number with a comma before each three digits.
#[derive(Clone, Copy)]
struct Grouped(u64);

impl fmt::Display for Grouped {
    fn fmt<W: fmt::Write>(&self, f: &mut fmt::Formatter<W>) -> fmt::Result {
        let mut begun = false;
        for thousand in THOUSANDS {
            let group = self.0.checked_div(thousand).unwrap_or(0) % 1000;
            if begun {
                write!(f, ",{group:03}")?;
            } else if group > 0 || thousand == 1 {
                write!(f, "{group}")?;
                begun = true;
            }
        }
        Ok(())
    }
}

/// How many a second, by the million where there are so many.
#[derive(Clone, Copy)]
struct Rate(u64);

impl fmt::Display for Rate {
    fn fmt<W: fmt::Write>(&self, f: &mut fmt::Formatter<W>) -> fmt::Result {
        if self.0 < 1_000_000 {
            return write!(f, "{} a second", Grouped(self.0));
        }
        let tenths = self.0 / 100_000;
        write!(
            f,
            "{}.{} million a second",
            Grouped(tenths / 10),
            tenths % 10
        )
    }
}

/// So many microseconds, in seconds and tenths.
#[derive(Clone, Copy)]
struct Lasted(u64);

impl fmt::Display for Lasted {
    fn fmt<W: fmt::Write>(&self, f: &mut fmt::Formatter<W>) -> fmt::Result {
        let tenths = self.0 / 100_000;
        write!(f, "{}.{} s", tenths / 10, tenths % 10)
    }
}

/// How many hundredths so many are of so many.
fn share_of(count: u64, all: u64) -> u64 {
    count.saturating_mul(100).checked_div(all).unwrap_or(100)
}

/// So many in so many microseconds: how many a second.
fn per_second(count: u64, lasted: u64) -> u64 {
    count
        .saturating_mul(SECOND)
        .checked_div(lasted)
        .unwrap_or(0)
}

/// So many accepted and handled in so many microseconds, and how many a second, as JSON.
fn json_of(alloc: Global, accepted: u64, handled: u64, lasted: u64) -> Result<String, AllocError> {
    json!(in alloc; {
        "accepted": accepted,
        "accepted_a_second": per_second(accepted, lasted),
        "handled": handled,
        "handled_a_second": per_second(handled, lasted),
        "microseconds": lasted,
        "stats": "time",
    })?
    .to_string(alloc)
}

/// The same, to be shown.
fn rate_of(count: u64, lasted: u64) -> Rate {
    Rate(per_second(count, lasted))
}

/// What the line tells of.
#[derive(Drop)]
struct Line {
    /// What the run is at; `None` where nothing is written.
    phase: Option<Phase>,
    /// When that began, in microseconds of the whole run.
    since: u64,
    /// Whether the run has ended.
    is_over: bool,
}

/// Shows on standard error what a run is at and how far it has come: one line, written anew five times a second, in a thread of its own.
/// It is taken away in the end, and before the run's text is written where that goes to a terminal too.
#[derive(Drop)]
pub struct Progress<'a, R> {
    rt: &'a R,
    terminals: Terminals,
    /// Whether the line is written.
    is_shown: bool,
    /// When the run began; `None` where nobody asks.
    began: Option<Instant>,
    /// How many events the trace has.
    events: AtomicU64,
    /// When the trace's run began, in microseconds of the whole run.
    from: AtomicU64,
    /// When it ended, likewise.
    to: AtomicU64,
    /// When the line was written last, likewise, where no thread writes it anew.
    shown: AtomicU64,
    /// How many of the events were accepted.
    accepted: AtomicU64,
    /// How many bytes the run's text has, and how many of them are written.
    text: AtomicU64,
    written: AtomicU64,
    /// Whether a thread writes the line anew.
    is_kept: AtomicBool,
    /// What is written to the terminal, by one thread at a time.
    line: Mutex<Line>,
    /// Where the thread that writes the line waits.
    pause: Parker,
}

impl<'a, R: Clock + Eprint> Progress<'a, R> {
    /// The progress of a run that begins now, which is shown where standard error is a terminal and the run isn't `quiet`, and timed there
    /// or where `is_timed`.
    pub fn new(rt: &'a R, terminals: Terminals, quiet: bool, is_timed: bool) -> Progress<'a, R> {
        let is_shown = terminals.error && !quiet;
        let began = if is_shown || is_timed {
            Instant::now(rt).ok()
        } else {
            None
        };
        Progress {
            rt,
            terminals,
            is_shown,
            began,
            events: AtomicU64::new(0),
            from: AtomicU64::new(0),
            to: AtomicU64::new(0),
            shown: AtomicU64::new(0),
            accepted: AtomicU64::new(0),
            text: AtomicU64::new(0),
            written: AtomicU64::new(0),
            is_kept: AtomicBool::new(false),
            line: Mutex::new(Line {
                phase: None,
                since: 0,
                is_over: false,
            }),
            pause: Parker::new(),
        }
    }

    /// How many microseconds the run has lasted, where it is timed. A clock that fails shows nothing.
    fn now(&self) -> Option<u64> {
        let elapsed = self.began?.elapsed(self.rt).ok()?;
        let nanoseconds = u64::from(elapsed.subsec_nanos());
        Some(
            elapsed
                .as_secs()
                .saturating_mul(SECOND)
                .saturating_add(nanoseconds / 1_000),
        )
    }

    /// Writes this in place of the line, where it is shown.
    fn write(&self, line: &str) {
        if self.is_shown {
            let _ = eprint!(self.rt; "{CLEAR}{line}");
        }
    }

    /// A writer of the run's text that notes how much of it is written, where that is shown.
    pub fn noting<W: Write>(&self, to: W) -> Noting<'_, W> {
        Noting {
            to,
            is_shown: self.is_shown,
            text: &self.text,
            written: &self.written,
        }
    }

    /// Prints how long the trace's run lasted, and how many events a second its queues accepted as new and its workers, so many,
    /// handled.
    pub fn show_rates(
        &self,
        alloc: Global,
        handled: u64,
        form: StatsForm,
    ) -> Result<(), AllocError> {
        let from = self.from.load(Ordering::SeqCst);
        let lasted = self.to.load(Ordering::SeqCst).saturating_sub(from);
        let accepted = self.events.load(Ordering::SeqCst);
        let _ = match form {
            StatsForm::Text => eprintln!(self.rt;
                "time: {}.{:06} s, accepted {}, handled {}",
                lasted / SECOND,
                lasted % SECOND,
                rate_of(accepted, lasted),
                rate_of(handled, lasted)
            ),
            StatsForm::Json => {
                let rates = json_of(alloc, accepted, handled, lasted)?;
                eprintln!(self.rt; "{rates}")
            }
        };
        Ok(())
    }

    /// Writes how many events were accepted.
    fn show_accepted(&self, now: u64) -> io::Result<()> {
        let accepted = self.accepted.load(Ordering::SeqCst);
        let events = self.events.load(Ordering::SeqCst);
        let lasted = now.saturating_sub(self.from.load(Ordering::SeqCst));
        let share = share_of(accepted, events);
        eprint!(self.rt;
            "{CLEAR}accepted {} of {}, {share} %, {}",
            Grouped(accepted),
            Grouped(events),
            rate_of(accepted, lasted)
        )
    }

    /// Writes how much of the text is written, of which nothing is known before its first piece goes out.
    fn show_written(&self, lasted: Lasted) -> io::Result<()> {
        let written = self.written.load(Ordering::SeqCst);
        let text = self.text.load(Ordering::SeqCst).max(1);
        let share = share_of(written, text);
        eprint!(self.rt; "{CLEAR}writing, {share} %, {lasted}")
    }
}

impl<'a, R: Clock + Eprint + Wait> Progress<'a, R> {
    /// Takes the line away for good, where there is one.
    fn end(&self) {
        let mut line = self.line.lock(self.rt);
        line.is_over = true;
        self.write("");
        drop(line);
        self.pause.unpark();
    }

    /// Writes that the run begins this phase. What is typed, or what the run prints, would stand behind it in the same line, and nothing
    /// is written then.
    fn begin(&self, phase: Phase, now: u64) {
        let mut line = self.line.lock(self.rt);
        line.since = now;
        line.phase = None;
        match phase {
            Phase::Reading if self.terminals.input => return,
            Phase::Writing if self.terminals.output => return self.write(""),
            Phase::Reading => self.write("reading"),
            Phase::Running { .. } => self.write("running"),
            Phase::Checking => self.write("checking"),
            Phase::Writing => self.write("writing"),
        }
        line.phase = Some(phase);
    }

    /// Writes the line anew, and says whether the run goes on.
    fn show(&self) -> bool {
        let line = self.line.lock(self.rt);
        if let (false, Some(now), Some(phase)) = (line.is_over, self.now(), line.phase) {
            let lasted = Lasted(now.saturating_sub(line.since));
            let _ = match phase {
                Phase::Reading => eprint!(self.rt; "{CLEAR}reading, {lasted}"),
                Phase::Running { .. } => self.show_accepted(now),
                Phase::Checking => eprint!(self.rt; "{CLEAR}checking, {lasted}"),
                Phase::Writing => self.show_written(lasted),
            };
        }
        !line.is_over
    }

    /// Writes the line anew five times a second, until the run has ended.
    fn keep_shown(&self) {
        self.is_kept.store(true, Ordering::SeqCst);
        for _ in self.rt.forever() {
            self.pause
                .park_timeout(self.rt, Duration::from_micros(EACH));
            if !self.show() {
                return;
            }
        }
    }
}

impl<'a, R: Clock + Eprint + Threads + Wait + Sync> Progress<'a, R> {
    /// Does the work, a run that this is the progress of, and shows how far it has come until it ends.
    pub fn during<T, W: FnOnce() -> T>(&self, work: W) -> T
        requires { W.pre work }
    {
        if !self.is_shown {
            return work();
        }
        let ended = || -> T
            requires { W.pre work }
        {
            let result = work();
            self.end();
            result
        };
        join(self.rt, || self.keep_shown(), ended).1
    }
}

impl<R: Clock + Eprint + Wait + Sync> Gate for Progress<'_, R> {
    fn enter(&self, _worker: usize, _payload: u64) {}

    fn swept(&self, accepted: u64, _inside: usize) {
        if !self.is_shown {
            return;
        }
        self.accepted.store(accepted, Ordering::SeqCst);
        if self.is_kept.load(Ordering::SeqCst) {
            return;
        }
        if let Some(now) = self.now() {
            if now.saturating_sub(self.shown.load(Ordering::SeqCst)) >= EACH {
                self.shown.store(now, Ordering::SeqCst);
                self.show();
            }
        }
    }

    fn begins(&self, phase: Phase) {
        let now = self.now().unwrap_or(0);
        match phase {
            Phase::Running { events } => {
                self.events.store(events as u64, Ordering::SeqCst);
                self.from.store(now, Ordering::SeqCst);
            }
            Phase::Checking => self.to.store(now, Ordering::SeqCst),
            Phase::Reading | Phase::Writing => {}
        }
        self.begin(phase, now);
    }
}

/// Writes a text to another writer, in pieces where that is shown, and notes how far it has come.
#[derive(Drop)]
pub struct Noting<'a, W> {
    to: W,
    is_shown: bool,
    text: &'a AtomicU64,
    written: &'a AtomicU64,
}

impl<W: Write> Write for Noting<'_, W> {
    fn write(&mut self, buf: &[u8]) -> io::Result<usize> {
        if !self.is_shown {
            return self.to.write(buf);
        }
        let written = self.written.load(Ordering::SeqCst);
        self.text
            .store(written.saturating_add(buf.len() as u64), Ordering::SeqCst);
        let count = self.to.write(&buf[..buf.len().min(PIECE)])?;
        self.written
            .store(written.saturating_add(count as u64), Ordering::SeqCst);
        Ok(count)
    }

    fn flush(&mut self) -> io::Result<()> {
        self.to.flush()
    }
}
