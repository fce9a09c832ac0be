//! How many transcripts were compared, and how the judge judged them.

use crate::plain_judge::CLAUSES;
use transcript_judge::{Clause, Verdict};

/// How many transcripts there were of each verdict.
#[derive(Clone, Copy)]
pub(crate) struct Tally {
    pub(crate) lawful: u32,
    pub(crate) running: u32,
    /// For each clause how many broke it.
    broken: [u32; 14],
}

impl Tally {
    /// There were none.
    pub(crate) fn none() -> Tally {
        Tally {
            lawful: 0,
            running: 0,
            broken: [0; 14],
        }
    }

    /// Counts a transcript of this verdict.
    pub(crate) fn note(&mut self, verdict: Verdict) {
        match verdict {
            Verdict::Lawful => self.lawful = self.lawful.saturating_add(1),
            Verdict::Running => self.running = self.running.saturating_add(1),
            Verdict::Broken { clause, .. } => self.note_broken(clause),
        }
    }

    /// Counts a transcript that broke the clause.
    fn note_broken(&mut self, clause: Clause) {
        for (count, other) in self.broken.iter_mut().zip(&CLAUSES) {
            if *other == clause {
                *count = count.saturating_add(1);
            }
        }
    }

    /// Counts these too.
    pub(crate) fn add(&mut self, more: &Tally) {
        self.lawful = self.lawful.saturating_add(more.lawful);
        self.running = self.running.saturating_add(more.running);
        for (count, other) in self.broken.iter_mut().zip(&more.broken) {
            *count = count.saturating_add(*other);
        }
    }

    /// How many broke a clause.
    pub(crate) fn broken(&self) -> u32 {
        let mut sum: u32 = 0;
        for count in &self.broken {
            sum = sum.saturating_add(*count);
        }
        sum
    }

    /// How many there were.
    pub(crate) fn all(&self) -> u32 {
        self.lawful
            .saturating_add(self.running)
            .saturating_add(self.broken())
    }

    /// How many broke the clause.
    pub(crate) fn broken_of(&self, clause: Clause) -> u32 {
        let counts = self.broken.iter().zip(&CLAUSES);
        let mut sum: u32 = 0;
        for (count, other) in counts {
            if *other == clause {
                sum = sum.saturating_add(*count);
            }
        }
        sum
    }
}
