//! Flow lanes: with `Serving::Flows` each slot of each atomic queue has a lane of its own.

ghost use Rattle.std.specs.Prelude.{◌≡◌, ◌++◌, map, IfOk, OnOk};
ghost use Rattle.evt_types.specs.Plan as plans;
ghost use Rattle.evt_types.specs.Plan.{flow_lanes, lanes_by_slot, linked_places, plan_of, port_plan, slot_lanes};
ghost use Rattle.evt_types.specs.Shape.{links_of_ports, lists_in};

use crate::check::{atomic_slots, is_linked};
use crate::draft::{Draft, PortDraft, QueueDraft, Serving};
use std::alloc::{AllocError, Global};

/// How many events may be held of a flow lane, and the room of its reply ring.
pub const FLOW_DEPTH: u32 = 16;

/// A lane of an atomic queue's slot: it alone is handed the slot's events.
#[derive(Clone, Copy, Debug, PartialEq, Eq)]
pub struct FlowLane {
    pub queue: usize,
    pub slot: usize,
}

/// Adds a lane for each of the queue's slots.
#[tactic(auto, using(crate::proofs::FlowLanes::slot_lanes_more))]
fn add_slots(flows: &mut Vec<FlowLane>, queue: usize, slots: u32) -> Result<(), AllocError>
    ensures { OnOk result (flows.new.items ≡ flows.old.items ++ slot_lanes queue slots) }
{
    for slot in 0..slots {
        flows.push(FlowLane {
            queue,
            slot: slot as usize,
        })?;
    }
    Ok(())
}

/// A lane for each slot of each atomic queue, by queue, then slot.
#[tactic(auto, using(crate::proofs::FlowLanes::queues_more), unfolding(crate::specs::Plan::lanes_by_slot))]
fn slots_of_queues(alloc: Global, queues: &[QueueDraft]) -> Result<Vec<FlowLane>, AllocError>
    ensures { IfOk result (λ flows. flows.items ≡ lanes_by_slot queues.now) }
{
    let mut flows = Vec::new(alloc);
    for (queue, draft) in queues.iter().enumerate() {
        add_slots(&mut flows, queue, atomic_slots(draft))?;
    }
    Ok(flows)
}

/// The flow lanes of the device.
#[tactic(auto, unfolding(crate::specs::Plan::flow_lanes))]
pub(crate) fn all_flows(alloc: Global, draft: &Draft) -> Result<Vec<FlowLane>, AllocError>
    ensures { IfOk result (λ flows. flows.items ≡ flow_lanes (plan_of draft.now)) }
{
    match draft.serving {
        Serving::Ports => Ok(Vec::new(alloc)),
        Serving::Flows => slots_of_queues(alloc, &draft.queues),
    }
}

/// The places of the flow lanes whose queues are among the links, rising.
#[tactic(auto, unfolding(crate::specs::Plan::linked_places))]
fn linked_flows(alloc: Global, flows: &[FlowLane], links: &[u32]) -> Result<Vec<usize>, AllocError>
    ensures { IfOk result (λ places. places.items ≡ linked_places flows.now links.now) }
{
    let mut places = Vec::new(alloc);
    for (place, flow) in flows.iter().enumerate() {
        if is_linked(links, flow.queue) {
            places.push(place)?;
        }
    }
    Ok(places)
}

/// For each port the flow lanes of its links.
pub(crate) fn all_flow_links(
    alloc: Global,
    flows: &[FlowLane],
    ports: &[PortDraft],
) -> Result<Vec<Vec<usize>>, AllocError>
    ensures { IfOk result (λ lists. lists_in lists.items ≡ links_of_ports flows.now (map port_plan ports.now)) }
{
    let mut lists = Vec::with_capacity(alloc, ports.len())?;
    for port in ports {
        lists.push(linked_flows(alloc, flows, &port.links)?)?;
    }
    Ok(lists)
}
