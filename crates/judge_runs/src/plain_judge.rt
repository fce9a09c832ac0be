//! A judge that reads every clause off the steps before and with each step.

use crate::words::Words;
use evt_types::{Source, Step};
use std::alloc::AllocError;
use transcript_judge::{Clause, Verdict};

/// What is found of a transcript: as a verdict, but for a broken one with the place alone.
#[derive(Clone, Copy, Debug, PartialEq, Eq)]
pub(crate) enum Found {
    Lawful,
    Running,
    Broken { at: usize },
}

/// What is found of no steps.
pub(crate) const NOTHING: Found = Found::Lawful;

/// Every clause.
pub(crate) static CLAUSES: [Clause; 14] = [
    Clause::Formed,
    Clause::Answers,
    Clause::Extras,
    Clause::Once,
    Clause::Linked,
    Clause::Depth,
    Clause::Places,
    Clause::Limit,
    Clause::Flow,
    Clause::Alone,
    Clause::Order,
    Clause::Origin,
    Clause::Closed,
    Clause::Prompt,
];

/// Whether the step accepts what was passed on.
fn is_passed_on(step: &Step) -> bool {
    match step {
        Step::Accept { source, .. } => matches!(source, Source::Of { .. }),
        _ => false,
    }
}

impl Words<'_> {
    /// Whether the last step is no Accept of what was passed on, and something had to be accepted before it.
    fn breaks_prompt(&self) -> Result<bool, AllocError> {
        match self.steps.split_last() {
            Some((last, _)) if !is_passed_on(last) => {
                let count = self.steps.len().saturating_sub(1);
                let before = self.before(count);
                Ok(!before.is_settled()?)
            }
            _ => Ok(false),
        }
    }

    /// Whether the steps, of which all but the last break nothing, break the clause.
    pub(crate) fn breaks(&self, clause: Clause) -> Result<bool, AllocError> {
        match clause {
            Clause::Formed => Ok(!self.steps.iter().all(|step| self.is_formed(step))),
            Clause::Answers => self.breaks_answers(),
            Clause::Extras => self.breaks_extras(),
            Clause::Once => self.breaks_once(),
            Clause::Linked => self.breaks_linked(),
            Clause::Depth => self.breaks_depth(),
            Clause::Places => self.breaks_places(),
            Clause::Limit => self.breaks_limit(),
            Clause::Flow => self.breaks_flow(),
            Clause::Alone => self.breaks_alone(),
            Clause::Order => self.breaks_order(),
            Clause::Origin => self.breaks_origin(),
            Clause::Closed => Ok(self.breaks_closed()),
            Clause::Prompt => self.breaks_prompt(),
        }
    }

    /// Whether the steps, of which all but the last break nothing, break some clause.
    fn breaks_any(&self) -> Result<bool, AllocError> {
        for clause in &CLAUSES {
            if self.breaks(*clause)? {
                return Ok(true);
            }
        }
        Ok(false)
    }

    /// What is found of the steps, where this was found of all but the last.
    pub(crate) fn found_after(&self, before: Found) -> Result<Found, AllocError> {
        if let Found::Broken { .. } = before {
            return Ok(before);
        }
        let at = self.steps.len().saturating_sub(1);
        if self.breaks_any()? {
            Ok(Found::Broken { at })
        } else if self.is_settled()? {
            Ok(Found::Lawful)
        } else {
            Ok(Found::Running)
        }
    }

    /// What is found of the steps.
    pub(crate) fn found(&self) -> Result<Found, AllocError> {
        let mut found = NOTHING;
        for at in 0..self.steps.len() {
            let front = self.before(at.saturating_add(1));
            found = front.found_after(found)?;
        }
        Ok(found)
    }

    /// Whether the verdict is what was found of the steps: where one breaks a clause, it breaks the one that is named.
    pub(crate) fn agrees(&self, found: Found, verdict: Verdict) -> Result<bool, AllocError> {
        match verdict {
            Verdict::Lawful => Ok(found == Found::Lawful),
            Verdict::Running => Ok(found == Found::Running),
            Verdict::Broken { at, clause, step } => {
                let is_there = found == (Found::Broken { at }) && self.steps.get(at) == Some(&step);
                let front = self.before(at.saturating_add(1));
                Ok(is_there && front.breaks(clause)?)
            }
        }
    }
}
