//! Goes through a history and finds events of one slot that two ports held at the same time.

ghost use Rattle.std.specs.Prelude.{◌≡◌, ◌+◌, ◌-◌, ◌<◌, ◌^◌, IfNone, IfOk, IfSome, ℕ, length, replicate, slice_index_or, slice_set};
ghost use Rattle.history_judge.specs.Breaches.{IsTogether};
ghost use Rattle.history_judge.specs.Holds as specs;
ghost use Rattle.history_judge.specs.Watching.{IsAt, IsFit, counted, longer, met};

use crate::holds::{Hold, cells, hold_of, port_count};
use crate::seen::{Deed, Seen};
use evt_types::{Memory, Shape};
use std::alloc::Global;

/// What is known of the entries that it went through.
#[derive(Drop)]
pub(crate) struct Watch {
    /// How many events each port got.
    got: Vec<usize>,
    /// For each cell the hold that lasts longest.
    latest: Vec<Option<Hold>>,
}

/// So many counts of nothing.
pub(crate) fn no_counts(alloc: Global, count: usize) -> Result<Vec<usize>, Memory>
    ensures { IfOk result (λ v. v.items ≡ replicate count 0) }
{
    let counts = vec![in alloc; 0; count]?;
    Ok(counts)
}

/// So many places without a hold.
fn no_holds(alloc: Global, count: usize) -> Result<Vec<Option<Hold>>, Memory>
    ensures { IfOk result (λ v. v.items ≡ replicate count (specs.no_hold)) }
{
    let holds = vec![in alloc; None; count]?;
    Ok(holds)
}

/// Whether what ends then, or never, ends after the time.
pub(crate) fn ends_after(time: u64, until: Option<u64>) -> bool
    ensures { result ≡ specs.ends_after time until }
{
    match until {
        Some(end) => time < end,
        None => true,
    }
}

/// Whether what ends at the first of these doesn't end before the second.
fn lasts_as(one: Option<u64>, other: Option<u64>) -> bool
    ensures { result ≡ specs.lasts_as one other }
{
    match (one, other) {
        (None, _) => true,
        (Some(_), None) => false,
        (Some(one), Some(other)) => other <= one,
    }
}

/// The place of the first hold, if both, of two ports, last beyond the start of the second.
fn meeting(kept: &Option<Hold>, hold: &Hold) -> Option<usize>
    ensures { result ≡ met kept.now hold.now }
{
    let Some(kept) = kept else {
        return None;
    };
    let last = ends_after(hold.since, kept.until) && ends_after(hold.since, hold.until);
    if kept.port != hold.port && last {
        Some(kept.at)
    } else {
        None
    }
}

/// The one that lasts longer.
fn longer_of(kept: &Option<Hold>, hold: Hold) -> Hold
    ensures { result ≡ longer kept.now hold }
{
    match kept {
        Some(kept) => {
            if lasts_as(kept.until, hold.until) {
                *kept
            } else {
                hold
            }
        }
        None => hold,
    }
}

/// How many events the entry's port got before it; the entry is counted.
pub(crate) fn count_got(got: &mut Vec<usize>, seen: &Seen) -> usize
    requires port { seen.now.port < length got.old.items }
    requires few { slice_index_or got.old.items seen.now.port 0 < 2 ^ 64 - 1 }
    ensures before { result ≡ slice_index_or got.old.items seen.now.port 0 }
    ensures counted { got.new.items ≡ counted got.old.items seen.now }
{
    let before = got[seen.port];
    let more = usize::from(matches!(seen.deed, Deed::Got(_)));
    got[seen.port] = before + more;
    before
}

impl Watch {
    /// It went through nothing.
    pub(crate) fn new(alloc: Global, shape: &Shape, history: &[Seen]) -> Result<Watch, Memory>
        ensures { IfOk result (λ w. IsAt shape.now history.now 0 w) }
    {
        let got = no_counts(alloc, port_count(shape))?;
        let latest = no_holds(alloc, cells(shape))?;
        Ok(Watch { got, latest })
    }

    /// How many events the entry's port got before it; the entry is counted.
    fn count(&mut self, seen: &Seen) -> usize
        requires port { seen.now.port < length self.old.got.items }
        requires few { slice_index_or self.old.got.items seen.now.port 0 < 2 ^ 64 - 1 }
        ensures before { result ≡ slice_index_or self.old.got.items seen.now.port 0 }
        ensures got { self.new.got.items ≡ counted self.old.got.items seen.now }
        ensures latest { self.new.latest ≡ self.old.latest }
    {
        count_got(&mut self.got, seen)
    }

    /// Goes through the next entry; where its port holds an event together with another port, of one slot, the place of the other's
    /// entry.
    pub(crate) fn follow(
        &mut self,
        shape: &Shape,
        history: &[Seen],
        at: usize,
        times: &[Vec<u64>],
    ) -> Option<usize>
        requires place { at < length history.now }
        requires fit { IsFit shape.now history.now times.now }
        requires so_far { IsAt shape.now history.now at self.old }
        ensures together { IfSome result (λ other. IsTogether shape.now history.now at other) }
        ensures apart { IfNone result (IsAt shape.now history.now (at + 1) self.new) }
    {
        let _count = history.len();
        let seen = &history[at];
        let number = self.count(seen);
        let Some(hold) = hold_of(shape, seen, at, number, times) else {
            return None;
        };
        if let Some(other) = meeting(&self.latest[hold.cell], &hold) {
            return Some(other);
        }
        let kept = longer_of(&self.latest[hold.cell], hold);
        self.latest[hold.cell] = Some(kept);
        None
    }
}

/// The first entry whose port holds an event together with another port, of one slot, and the entry of the other.
pub(crate) fn first_together(
    alloc: Global,
    shape: &Shape,
    history: &[Seen],
    times: &[Vec<u64>],
) -> Result<Option<(usize, usize)>, Memory>
    requires { IsFit shape.now history.now times.now }
    ensures some { IfOk result (λ found. IfSome found (λ x. IsTogether shape.now history.now x.0 x.1)) }
    ensures none { IfOk result (λ found. IfNone found ((i j : ℕ) → ¬ IsTogether shape.now history.now i j)) }
{
    let mut watch = Watch::new(alloc, shape, history)?;
    for at in 0..history.len() {
        if let Some(other) = watch.follow(shape, history, at, times) {
            return Ok(Some((at, other)));
        }
    }
    Ok(None)
}
