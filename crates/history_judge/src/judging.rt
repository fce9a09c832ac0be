//! The judge.

ghost use Rattle.std.specs.Prelude.{◌≡◌, ◌≢◌, IfErr, IfOk, OnOk};
ghost use Rattle.history_judge.specs.Breaches.{IsAnswer};
ghost use Rattle.history_judge.specs.Entries.{IsRefused};

use crate::arrivals::Tables;
use crate::breach::Breach;
use crate::crowds::first_crowded;
use crate::depths::first_overfull;
use crate::early::first_premature;
use crate::entries::{first_misplaced, first_unknown, first_unsorted};
use crate::fault::HistoryFault;
use crate::holds::{first_unlinked, port_count};
use crate::order::{first_overtaken, first_reordered};
use crate::seen::Seen;
use crate::times::answer_times;
use crate::values::first_excess;
use crate::watch::first_together;
use evt_types::{Serving, Shape};
use std::alloc::Global;

/// Refuses what isn't judged.
fn refuse(alloc: Global, shape: &Shape, history: &[Seen]) -> Result<(), HistoryFault>
    ensures refused { IfErr result (λ f. f ≢ HistoryFault.Memory → IsRefused shape.now history.now f) }
    ensures fit { OnOk result ((f : HistoryFault) → ¬ IsRefused shape.now history.now f) }
{
    if shape.serving() == Serving::Flows {
        return Err(HistoryFault::Flows);
    }
    let ports = port_count(shape);
    if let Some(at) = first_unknown(ports, history) {
        return Err(HistoryFault::Port { at });
    }
    if let Some(at) = first_unsorted(history) {
        return Err(HistoryFault::Unsorted { at });
    }
    if let Some(at) = first_misplaced(alloc, ports, history)? {
        return Err(HistoryFault::Order { at });
    }
    Ok(())
}

/// What no run of a device of the shape can have done, if something that was seen is so. The entries stand in the order of their ends.
/// It goes through them a few times, whatever their number, and finds values in trees.
pub fn judge_history(
    alloc: Global,
    shape: &Shape,
    history: &[Seen],
) -> Result<Option<Breach>, HistoryFault>
    ensures answer { IfOk result (λ found. IsAnswer shape.now history.now found) }
    ensures refused { IfErr result (λ f. f ≢ HistoryFault.Memory → IsRefused shape.now history.now f) }
    ensures fit { OnOk result ((f : HistoryFault) → ¬ IsRefused shape.now history.now f) }
{
    refuse(alloc, shape, history)?;
    if let Some(at) = first_unlinked(shape, history) {
        return Ok(Some(Breach::Unlinked { at }));
    }
    if let Some(at) = first_excess(alloc, history)? {
        return Ok(Some(Breach::Unsent { at }));
    }
    if let Some(at) = first_premature(alloc, history)? {
        return Ok(Some(Breach::Early { at }));
    }
    let tables = Tables::new(alloc, shape, history)?;
    if let Some((at, other)) = first_overtaken(alloc, shape, history, &tables)? {
        return Ok(Some(Breach::Overtaken { at, other }));
    }
    if let Some((at, other)) = first_reordered(alloc, shape, history, &tables)? {
        return Ok(Some(Breach::Reordered { at, other }));
    }
    let _limits = shape.limit();
    let times = answer_times(alloc, port_count(shape), history)?;
    if let Some(at) = first_overfull(alloc, shape, history, &times)? {
        return Ok(Some(Breach::Overfull { at }));
    }
    if let Some(at) = first_crowded(alloc, shape, history, &times)? {
        return Ok(Some(Breach::Crowded { at }));
    }
    let found = first_together(alloc, shape, history, &times)?;
    Ok(found.map(|(at, other)| Breach::Together { at, other }))
}
