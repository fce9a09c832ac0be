//! The checked configuration of a device.

ghost use Rattle.std.specs.Prelude.{◌≡◌, ◌<◌, ◌≤◌, length, map, sum_by, IfOk, OnOk, IfErr};
ghost use Rattle.evt_types.specs.Fault.{fault_of, IsWithinLimits};
ghost use Rattle.evt_types.specs.Plan as plans;
ghost use Rattle.evt_types.specs.Plan.{plan_of, port_plan};

use crate::check::{first_fault, is_linked};
use crate::draft::{Draft, PortDraft, QueueDraft, Serving};
use crate::flows::{FLOW_DEPTH, FlowLane, all_flow_links, all_flows};
use std::alloc::{AllocError, Global};
use std::marker::Model;
use thiserror::Error;

/// The most queues of a device.
pub const MAX_QUEUES: usize = 32;
/// The most ports.
pub const MAX_PORTS: usize = 32;
/// The highest limit on the events inside.
pub const MAX_LIMIT: u32 = 16384;
/// The most events that a port holds, and the most room of a reply ring.
pub const MAX_DEPTH: u32 = 64;
/// The most slots of an atomic queue.
pub const MAX_SLOTS: u32 = 64;
/// The most slots of all atomic queues together.
pub const MAX_ALL_SLOTS: u32 = 128;
/// The most events of an ordered queue that are handed out before the first of them is answered.
pub const MAX_ORDER: u32 = 256;
/// The highest sweep quantum.
pub const MAX_SWEEP: u32 = 64;
/// The most lanes: one for each port, and one for each slot of an atomic queue.
pub const MAX_LANES: usize = MAX_PORTS + MAX_ALL_SLOTS as usize;
/// The most room of the ports' reply rings together.
const MAX_PORT_REPLIES: usize = MAX_PORTS * MAX_DEPTH as usize;
/// The most room of all reply rings together.
pub const MAX_ALL_REPLIES: usize = MAX_PORT_REPLIES + MAX_ALL_SLOTS as usize * FLOW_DEPTH as usize;
/// The most events that may be inside for a NEW to be taken.
pub const MAX_BOUND: usize = MAX_LIMIT as usize + MAX_ALL_REPLIES;

/// The configuration of a device, checked against all limits.
#[derive(Debug, Drop)]
pub struct Shape {
    limit: u32,
    quantum: u32,
    sweep: u32,
    serving: Serving,
    queues: Vec<QueueDraft>,
    ports: Vec<PortDraft>,
    flows: Vec<FlowLane>,
    /// For each port the places of the flow lanes of its links.
    flow_links: Vec<Vec<usize>>,
}

impl Model for Shape {
    ghost use Rattle.evt_types.specs.Plan.{Plan};

    ghost Value = { Plan };

    ghost use Rattle.evt_types.specs.Shape.{plan_in, IsChecked};

    ghost view = { plan_in };

    ghost invariant = { IsChecked };
}

/// Why a configuration is refused; of several causes the first in this order.
#[derive(Clone, Copy, Debug, PartialEq, Eq, Error)]
pub enum ShapeFault {
    #[error("the number of queues is not 1 to {}", MAX_QUEUES)]
    QueueCount,
    #[error("the number of ports is not 1 to {}", MAX_PORTS)]
    PortCount,
    #[error("the limit of events is not 1 to {}", MAX_LIMIT)]
    LimitRange,
    #[error("the credit quantum is not 1 to the limit")]
    QuantumRange,
    #[error("a port's new-event threshold is not between the credit quantum and the limit")]
    ThresholdRange,
    #[error("a port's dequeue or enqueue depth is not 1 to {}", MAX_DEPTH)]
    DepthRange,
    #[error("an atomic queue's flow slots are not 1 to {}, or there are more than {} in all", MAX_SLOTS, MAX_ALL_SLOTS)]
    FlowSlots,
    #[error("an ordered queue's order depth is not 1 to {}", MAX_ORDER)]
    OrderDepth,
    #[error("the sweep quantum is not 1 to {}", MAX_SWEEP)]
    SweepRange,
    #[error("a port is linked to a queue that is not there")]
    LinkUnknown,
    #[error("a port is linked to a queue twice")]
    LinkTwice,
    #[error("a queue is linked to no port")]
    QueueUnlinked,
    #[error("a single-link queue is linked to several ports")]
    SingleLinkCount,
    #[error("memory ran out")]
    Memory,
}

fn copied_ports(alloc: Global, ports: &[PortDraft]) -> Result<Vec<PortDraft>, AllocError>
    ensures { IfOk result (λ copies. map port_plan copies.items ≡ map port_plan ports.now) }
{
    let mut copies = Vec::with_capacity(alloc, ports.len())?;
    for port in ports {
        let links = Vec::from_slice(alloc, &port.links)?;
        copies.push(PortDraft {
            threshold: port.threshold,
            depth: port.depth,
            replies: port.replies,
            implicit: port.implicit,
            links,
        })?;
    }
    Ok(copies)
}

/// The replies of all ports.
fn replies_in(ports: &[PortDraft]) -> usize
    requires { sum_by (λ port. port.replies) ports.now ≤ MAX_PORT_REPLIES }
    ensures value { result ≡ sum_by (λ port. port.replies) ports.now }
    ensures few { result ≤ MAX_PORT_REPLIES }
{
    ports.iter().map(|port| port.replies as usize).sum()
}

impl Shape {
    /// Keeps a copy of a configuration in which nothing is refused.
    fn copied(alloc: Global, draft: &Draft) -> Result<Shape, AllocError>
        requires { fault_of (plan_of draft.now) ≡ None }
        ensures { IfOk result (λ s. s ≡ plan_of draft.now) }
    {
        let queues = Vec::from_slice(alloc, &draft.queues)?;
        let ports = copied_ports(alloc, &draft.ports)?;
        let flows = all_flows(alloc, draft)?;
        let flow_links = all_flow_links(alloc, &flows, &draft.ports)?;
        Ok(Shape {
            limit: draft.limit,
            quantum: draft.quantum,
            sweep: draft.sweep,
            serving: draft.serving,
            queues,
            ports,
            flows,
            flow_links,
        })
    }

    /// Checks a configuration, and keeps a copy of it.
    pub fn build(alloc: Global, draft: &Draft) -> Result<Shape, ShapeFault>
        ensures built { IfOk result (λ s. s ≡ plan_of draft.now) }
        ensures sound { OnOk result (fault_of (plan_of draft.now) ≡ None) }
        ensures refused { (f : ShapeFault) → fault_of (plan_of draft.now) ≡ Some f → result ≡ Err f }
        ensures accepted { fault_of (plan_of draft.now) ≡ None → IfErr result (λ e. e ≡ ShapeFault.Memory) }
    {
        if let Some(fault) = first_fault(draft) {
            return Err(fault);
        }
        match Shape::copied(alloc, draft) {
            Ok(shape) => Ok(shape),
            Err(_) => Err(ShapeFault::Memory),
        }
    }

    /// How many events may be inside.
    pub fn limit(&self) -> u32
        ensures value { result ≡ self.now.limit }
        ensures checked { fault_of self.now ≡ None }
        ensures within { IsWithinLimits self.now }
    {
        self.limit
    }

    /// How many credits a port draws at a time.
    pub fn quantum(&self) -> u32
        ensures { result ≡ self.now.quantum }
    {
        self.quantum
    }

    /// How many replies of a lane, and how many events of a queue, one sweep takes and gives.
    pub fn sweep(&self) -> u32
        ensures value { result ≡ self.now.sweep }
        ensures range { (1 ≤ result) × (result ≤ MAX_SWEEP) }
    {
        self.sweep
    }

    /// Who hands the events of atomic queues out.
    pub fn serving(&self) -> Serving
        ensures { result ≡ self.now.serving }
    {
        self.serving
    }

    /// The queues.
    pub fn queues(&self) -> &[QueueDraft]
        ensures value { result.now ≡ self.now.queues }
        ensures few { (1 ≤ length result.now) × (length result.now ≤ MAX_QUEUES) }
    {
        &self.queues
    }

    /// The ports.
    pub fn ports(&self) -> &[PortDraft]
        ensures { map port_plan result.now ≡ self.now.ports }
    {
        &self.ports
    }

    /// The queue and the slot of each flow lane, by queue, then slot; with `Serving::Ports` there are none.
    pub fn flows(&self) -> &[FlowLane]
        ensures value { result.now ≡ plans.flow_lanes self.now }
        ensures few { length result.now ≤ MAX_ALL_SLOTS }
    {
        &self.flows
    }

    /// The flow lanes of the atomic queues that the port is linked to, rising; they are numbered from 0, in the order of `flows`.
    pub fn flow_links(&self, port: usize) -> &[usize]
        requires { port < length self.now.ports }
        ensures { result.now ≡ plans.flow_links self.now port }
    {
        &self.flow_links[port]
    }

    /// How many lanes there are: one for each port, then the flow lanes.
    pub fn lanes(&self) -> usize
        ensures value { result ≡ plans.lanes_of self.now }
        ensures few { (1 ≤ result) × (result ≤ MAX_LANES) }
    {
        self.ports.len() + self.flows.len()
    }

    /// The slot of the queue into which the flow falls.
    pub fn slot_of(&self, queue: usize, flow: u32) -> usize
        requires { queue < length self.now.queues }
        ensures { result ≡ plans.slot_of self.now queue flow }
    {
        let draft = &self.queues[queue];
        if draft.kind.is_atomic() {
            (flow % draft.slots) as usize
        } else {
            0
        }
    }

    /// Whether the queue's events are handed to flow lanes.
    fn has_flow_lanes(&self, queue: usize) -> bool
        requires { queue < length self.now.queues }
        ensures { result ≡ plans.has_flow_lanes self.now queue }
    {
        self.serving == Serving::Flows && self.queues[queue].kind.is_atomic()
    }

    /// Whether the lane is handed events of this slot of the queue.
    pub fn serves(&self, lane: usize, queue: usize, slot: usize) -> bool
        requires lane { lane < plans.lanes_of self.now }
        requires queue { queue < length self.now.queues }
        ensures { result ≡ plans.serves self.now lane queue slot }
    {
        let ports = self.ports.len();
        if lane < ports {
            is_linked(&self.ports[lane].links, queue) && !self.has_flow_lanes(queue)
        } else {
            let flow = self.flows[lane - ports];
            flow.queue == queue && flow.slot == slot
        }
    }

    /// How many events the lane's holder may hold.
    pub fn depth_of(&self, lane: usize) -> usize
        requires { lane < plans.lanes_of self.now }
        ensures value { result ≡ plans.depth_of self.now lane }
        ensures range { (1 ≤ result) × (result ≤ MAX_DEPTH) }
    {
        if lane < self.ports.len() {
            self.ports[lane].depth as usize
        } else {
            FLOW_DEPTH as usize
        }
    }

    /// The room of the lane's reply ring.
    pub fn replies_of(&self, lane: usize) -> usize
        requires { lane < plans.lanes_of self.now }
        ensures value { result ≡ plans.replies_of self.now lane }
        ensures range { (1 ≤ result) × (result ≤ MAX_DEPTH) }
    {
        if lane < self.ports.len() {
            self.ports[lane].replies as usize
        } else {
            FLOW_DEPTH as usize
        }
    }

    /// How many events may be inside for a NEW to be taken: the limit, and the replies of all lanes.
    pub fn bound(&self) -> usize
        ensures value { result ≡ plans.bound_of self.now }
        ensures small { result ≤ MAX_BOUND }
    {
        self.limit as usize + replies_in(&self.ports) + FLOW_DEPTH as usize * self.flows.len()
    }
}
