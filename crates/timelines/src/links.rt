//! Which steps of a log belong together.

ghost use Rattle.std.specs.Prelude.{◌≡◌, ℕ, ◌+◌, ◌<◌, ◌≤◌, ◌^◌, [], Some, OnOk, IfOk, All, length, map, replicate, slice_get, slice_index};
ghost use Rattle.std.specs.List.{range_with_len};
ghost use Rattle.timelines.specs.Links as links;
ghost use Rattle.timelines.specs.Readings as readings;
ghost use Rattle.timelines.specs.Readings.{HasSizes, IsNew, IsNext};

use evt_types::{Source, Step};
use std::alloc::{AllocError, Global};

/// Where a step belongs: the place of its bar among those of its row (0 if it begins none), and the step that it goes back to.
#[derive(Clone, Copy, Debug, PartialEq, Eq)]
pub(crate) struct Spot {
    pub(crate) place: usize,
    pub(crate) origin: Option<usize>,
}

/// What is known of the steps read so far.
#[derive(Drop)]
pub(crate) struct Links {
    /// For each row the steps that begin a bar there.
    pub(crate) begun: Vec<Vec<usize>>,
    /// For each lane how many answers it gave.
    answered: Vec<usize>,
    pub(crate) spots: Vec<Spot>,
    /// For each step of the whole log the one that ends its bar; how many steps the log has where none does.
    pub(crate) ends: Vec<usize>,
}

/// So many empty lists.
fn empty_lists(alloc: Global, count: usize) -> Result<Vec<Vec<usize>>, AllocError>
    ensures { IfOk result (λ lists. links.rows lists.items ≡ replicate count []) }
{
    let mut lists = Vec::with_capacity(alloc, count)?;
    for _ in 0..count {
        lists.push(Vec::new(alloc))?;
    }
    Ok(lists)
}

/// The row in which the step begins a bar.
fn row_begun(queues: usize, lanes: usize, step: &Step) -> Option<usize>
    requires few { queues + lanes < 2 ^ 32 }
    requires placed { links.IsPlaced queues lanes step.now }
    ensures { result ≡ links.begins queues step.now }
{
    match step {
        Step::Accept { queue, .. } => Some(*queue),
        Step::Give { lane, .. } => Some(queues + *lane),
        Step::Done { .. }
        | Step::More { .. }
        | Step::Turned { .. }
        | Step::Bounced { .. }
        | Step::Shut => None,
    }
}

/// The bar that the step ends, where it goes back to this one.
fn closed_by(origin: Option<usize>, step: &Step) -> Option<usize>
    ensures { result ≡ links.closed_by origin step.now }
{
    match step {
        Step::Give { .. } | Step::Done { .. } => origin,
        Step::Accept { .. }
        | Step::More { .. }
        | Step::Turned { .. }
        | Step::Bounced { .. }
        | Step::Shut => None,
    }
}

/// The step of this place in the row, if it is there.
fn step_at(begun: &[Vec<usize>], row: usize, place: usize) -> Option<usize>
    ensures { result ≡ slice_get (links.row (links.rows begun.now) row) place }
{
    begun.get(row)?.get(place).copied()
}

/// How many steps began a bar in the row.
fn place_in(begun: &[Vec<usize>], row: Option<usize>) -> usize
    ensures { result ≡ links.place_by (links.row (links.rows begun.now)) row }
{
    match row {
        Some(row) => match begun.get(row) {
            Some(steps) => steps.len(),
            None => 0,
        },
        None => 0,
    }
}

/// The step that the step goes back to.
fn origin_of(
    queues: usize,
    lanes: usize,
    begun: &[Vec<usize>],
    answered: &[usize],
    step: &Step,
) -> Option<usize>
    requires few { queues + lanes < 2 ^ 32 }
    requires placed { links.IsPlaced queues lanes step.now }
    requires counted { length answered.now ≡ lanes }
    ensures { result ≡ links.origin_by queues (links.row (links.rows begun.now)) (slice_index answered.now) step.now }
{
    match step {
        Step::Accept { source, .. } => match source {
            Source::New { .. } => None,
            Source::Of { queue, number } => step_at(begun, *queue, *number as usize),
        },
        Step::Give { queue, number, .. } => step_at(begun, *queue, *number as usize),
        Step::Done { lane, .. } | Step::More { lane, .. } => {
            step_at(begun, queues + *lane, answered[*lane])
        }
        Step::Turned { .. } | Step::Bounced { .. } | Step::Shut => None,
    }
}

/// The step begins a bar in this row.
fn begin(begun: &mut Vec<Vec<usize>>, row: Option<usize>, now: usize) -> Result<(), AllocError>
    requires { (r : ℕ) → row ≡ Some r → r < length begun.old.items }
    ensures { OnOk result (links.rows begun.new.items ≡ readings.begin_more now row (links.rows begun.old.items)) }
{
    if let Some(row) = row {
        begun[row].push(now)?;
    }
    Ok(())
}

/// The step ends this bar.
fn close(ends: &mut [usize], bar: Option<usize>, now: usize)
    ensures { ends.new ≡ readings.close_at now bar ends.old }
{
    if let Some(bar) = bar {
        if bar < ends.len() {
            ends[bar] = now;
        }
    }
}

/// Counts an answer, if the step is one.
fn count_answer(answered: &mut [usize], step: &Step)
    requires few { (l : ℕ) → slice_index answered.old l < 2 ^ 63 }
    ensures { answered.new ≡ readings.answer_more step.now answered.old }
{
    if let Step::Done { lane, .. } = step {
        if *lane < answered.len() {
            answered[*lane] += 1;
        }
    }
}

impl Links {
    /// Nothing is read yet, of a log of so many steps.
    fn new(alloc: Global, queues: usize, lanes: usize, steps: usize) -> Result<Links, AllocError>
        requires { queues + lanes < 2 ^ 32 }
        ensures { IfOk result (λ found. IsNew queues lanes steps found) }
    {
        Ok(Links {
            begun: empty_lists(alloc, queues + lanes)?,
            answered: vec![in alloc; 0; lanes]?,
            spots: Vec::with_capacity(alloc, steps)?,
            ends: vec![in alloc; steps; steps]?,
        })
    }

    /// Reads one step more.
    fn follow(&mut self, queues: usize, lanes: usize, step: &Step) -> Result<(), AllocError>
        requires few { queues + lanes < 2 ^ 32 }
        requires placed { links.IsPlaced queues lanes step.now }
        requires sizes { HasSizes queues lanes self.old }
        requires counted { (l : ℕ) → slice_index self.old.answered.items l ≤ length self.old.spots.items }
        ensures { OnOk result (IsNext queues step.now self.old self.new) }
    {
        let now = self.spots.len();
        let row = row_begun(queues, lanes, step);
        let place = place_in(&self.begun, row);
        let origin = origin_of(queues, lanes, &self.begun, &self.answered, step);
        self.spots.push(Spot { place, origin })?;
        close(&mut self.ends, closed_by(origin, step), now);
        begin(&mut self.begun, row, now)?;
        count_answer(&mut self.answered, step);
        Ok(())
    }

    /// Of a whole log, for so many queues and lanes.
    pub(crate) fn of(
        alloc: Global,
        queues: usize,
        lanes: usize,
        log: &[Step],
    ) -> Result<Links, AllocError>
        requires few { queues + lanes < 2 ^ 32 }
        requires placed { All (links.IsPlaced queues lanes) log.now }
        ensures count { IfOk result (λ found. length found.begun.items ≡ queues + lanes) }
        ensures begun { IfOk result (λ found. links.rows found.begun.items ≡ map (links.begun queues log.now) (range_with_len 0 (queues + lanes))) }
        ensures spots { IfOk result (λ found. found.spots.items ≡ links.spots queues log.now) }
        ensures ends { IfOk result (λ found. found.ends.items ≡ links.ends queues log.now) }
    {
        let mut found = Links::new(alloc, queues, lanes, log.len())?;
        for step in log {
            found.follow(queues, lanes, step)?;
        }
        Ok(found)
    }
}
