//! Where a picture's marks stand.

ghost use Rattle.std.specs.Prelude.{◌≡◌, ◌+◌, ◌≤◌, ◌<◌, ◌^◌, IfOk, OnOk, All, length, count_by, nat_lt};
ghost use Rattle.timelines.specs.Layout as layouts;
ghost use Rattle.timelines.specs.Links.{IsPlaced, rows};

use crate::links::{Links, Spot};
use evt_types::Step;
use std::alloc::{AllocError, Global};

/// How many of a row's next bars are looked at, so that no row has more tracks than one more than these.
const NEXT_BARS: usize = 23;
/// How many flows have a colour of their own.
const COLOURS: usize = 7;

/// A row: where it begins, and how many tracks it has beside the first.
#[derive(Clone, Copy, Debug, PartialEq, Eq)]
pub(crate) struct Row {
    pub(crate) top: u32,
    pub(crate) extra: u32,
}

/// What stands where.
#[derive(Drop)]
pub(crate) struct Sheet {
    pub(crate) spots: Vec<Spot>,
    pub(crate) ends: Vec<usize>,
    pub(crate) rows: Vec<Row>,
    pub(crate) bottom: u32,
    pub(crate) flows: Vec<u32>,
    pub(crate) unit: u32,
}

/// The step that ends the bar of a step; of a step that isn't there, how many there are.
pub(crate) fn end_at(ends: &[usize], step: usize) -> usize
    ensures { result ≡ layouts.end_at ends.now step }
{
    match ends.get(step) {
        Some(end) => *end,
        None => ends.len(),
    }
}

/// How many of the steps are before the end.
fn count_before(steps: &[usize], end: usize) -> usize
    ensures value { result ≡ count_by (λ k. nat_lt k end) steps.now }
    ensures few { result ≤ length steps.now }
{
    let mut count = 0;
    for step in steps {
        if *step < end {
            count += 1;
        }
    }
    count
}

/// How many of the row's next bars begin while a bar lasts to this end.
fn meets(end: usize, next: &[usize]) -> usize
    ensures value { result ≡ layouts.meets end next.now }
    ensures few { result ≤ 23 }
{
    if next.len() <= NEXT_BARS {
        count_before(next, end)
    } else {
        count_before(&next[..NEXT_BARS], end)
    }
}

/// The most that any of the row's bars meets.
fn crowd(ends: &[usize], row: &[usize]) -> usize
    ensures value { result ≡ layouts.crowd ends.now row.now }
    ensures few { result ≤ 23 }
{
    let mut most = 0;
    for place in 0..row.len() {
        let met = meets(end_at(ends, row[place]), &row[place + 1..]);
        if met > most {
            most = met;
        }
    }
    most
}

/// The rows, one below the other, and where the last ends.
fn rows_of(
    alloc: Global,
    begun: &[Vec<usize>],
    ends: &[usize],
) -> Result<(Vec<Row>, u32), AllocError>
    requires { length begun.now < 2 ^ 16 }
    ensures rows { IfOk result (λ x. x.0.items ≡ layouts.rows_from ends.now 136 (rows begun.now)) }
    ensures bottom { IfOk result (λ x. x.1 ≡ layouts.bottom_from ends.now 136 (rows begun.now)) }
{
    let mut rows = Vec::new(alloc);
    let mut top = 136;
    for steps in begun {
        let extra = crowd(ends, steps) as u32;
        rows.push(Row { top, extra })?;
        top += 34 + 16 * extra;
    }
    Ok((rows, top))
}

/// The place of a flow; of one that isn't there, how many there are.
pub(crate) fn flow_place(flow: u32, flows: &[u32]) -> usize
    ensures { result ≡ layouts.flow_place flow flows.now }
{
    for place in 0..flows.len() {
        if flows[place] == flow {
            return place;
        }
    }
    flows.len()
}

fn add_flow(flows: &mut Vec<u32>, flow: u32) -> Result<(), AllocError>
    ensures { OnOk result (flows.new.items ≡ layouts.add_flow flows.old.items flow) }
{
    if flow_place(flow, flows) == flows.len() && flows.len() < COLOURS {
        flows.push(flow)?;
    }
    Ok(())
}

/// The flows that have colours of their own.
fn flows_of(alloc: Global, log: &[Step]) -> Result<Vec<u32>, AllocError>
    ensures { IfOk result (λ flows. flows.items ≡ layouts.flows_of log.now) }
{
    let mut flows = Vec::new(alloc);
    for step in log {
        if let Step::Accept { event, .. } = step {
            add_flow(&mut flows, event.flow)?;
        }
    }
    Ok(flows)
}

/// How wide a step is.
fn unit_of(steps: usize) -> u32
    requires { steps < 2 ^ 63 }
    ensures value { result ≡ layouts.unit_of steps }
    ensures range { result ≤ 48 }
{
    let wide = 740 / (steps + 1);
    if wide < 8 {
        8
    } else if wide < 48 {
        wide as u32
    } else {
        48
    }
}

impl Sheet {
    /// Of a log, for so many queues and lanes.
    pub(crate) fn of(
        alloc: Global,
        queues: usize,
        lanes: usize,
        log: &[Step],
    ) -> Result<Sheet, AllocError>
        requires few { queues + lanes < 2 ^ 16 }
        requires placed { All (IsPlaced queues lanes) log.now }
        ensures { IfOk result (λ sheet. layouts.frame_in sheet ≡ layouts.frame_of queues lanes log.now) }
    {
        let links = Links::of(alloc, queues, lanes, log)?;
        let (rows, bottom) = rows_of(alloc, &links.begun, &links.ends)?;
        let flows = flows_of(alloc, log)?;
        Ok(Sheet {
            spots: links.spots,
            ends: links.ends,
            rows,
            bottom,
            flows,
            unit: unit_of(log.len()),
        })
    }
}
