//! The configuration of a device, as C gives it.

ghost use Rattle.std.specs.Prelude.{◌≡◌};
ghost use Rattle.std.specs.List.{list_any};
ghost use Rattle.event_handles.specs.Config.{early_fault, has_unknown_port_flag, has_unknown_queue_flag, has_unknown_type, number_of_fault};

use evt_types::{MAX_PORTS, MAX_QUEUES, ShapeFault};

/// A queue of a device (`struct rte_event_queue_conf`).
#[repr(C)]
#[derive(Clone, Copy)]
pub struct QueueConf {
    pub nb_atomic_flows: u32,
    pub nb_atomic_order_sequences: u32,
    /// `SINGLE_LINK`, or 0.
    pub event_queue_cfg: u32,
    /// 0 for ordered, 1 for atomic, 2 for parallel, as `RTE_SCHED_TYPE_*`.
    pub schedule_type: u8,
    pub priority: u8,
    pub rsvd: u16,
}

/// A port of a device (`struct rte_event_port_conf`), with the queues to which it is linked, a bit for each.
#[repr(C)]
#[derive(Clone, Copy)]
pub struct PortConf {
    pub new_event_threshold: u32,
    pub dequeue_depth: u16,
    pub enqueue_depth: u16,
    /// `NO_IMPLICIT_RELEASE`, or 0.
    pub event_port_cfg: u32,
    pub links: u32,
}

/// A device (`struct rte_event_dev_config`), with its first queues and its first ports.
#[repr(C)]
#[derive(Clone, Copy)]
pub struct Config {
    pub nb_events_limit: u32,
    pub nb_event_queues: u32,
    pub nb_event_ports: u32,
    /// How many credits a port draws at a time.
    pub credit_quanta: u32,
    /// How many events of a port are taken, and of a queue given, in one sweep.
    pub sched_quanta: u32,
    /// `FLOW_LANES`, or 0.
    pub flags: u32,
    pub queue: [QueueConf; 32],
    pub port: [PortConf; 32],
}

/// The flag of a device whose atomic queues' events go to a lane for each slot, which the ports claim.
pub const FLOW_LANES: u32 = 1 << 0;
/// The flag of a queue to which one port alone is linked, as `RTE_EVENT_QUEUE_CFG_SINGLE_LINK`.
pub const SINGLE_LINK: u32 = 1 << 1;
/// The flag of a port whose dequeues don't release, as `RTE_EVENT_PORT_CFG_DISABLE_IMPL_REL`.
pub const NO_IMPLICIT_RELEASE: u32 = 1 << 0;

/// The number of scheduling types.
const SCHEDULE_TYPES: u8 = 3;

/// A queue's scheduling type is none.
const UNKNOWN_TYPE: i64 = -1013;
/// A flag is set that isn't known.
const UNKNOWN_FLAG: i64 = -1014;

/// The number of a fault.
pub(crate) fn number_of_fault(fault: ShapeFault) -> i64
    ensures { result ≡ number_of_fault fault }
{
    match fault {
        ShapeFault::QueueCount => -1000,
        ShapeFault::PortCount => -1001,
        ShapeFault::LimitRange => -1002,
        ShapeFault::QuantumRange => -1003,
        ShapeFault::ThresholdRange => -1004,
        ShapeFault::DepthRange => -1005,
        ShapeFault::FlowSlots => -1006,
        ShapeFault::OrderDepth => -1007,
        ShapeFault::SweepRange => -1008,
        ShapeFault::LinkUnknown => -1009,
        ShapeFault::LinkTwice => -1010,
        ShapeFault::QueueUnlinked => -1011,
        ShapeFault::SingleLinkCount => -1012,
        ShapeFault::Memory => -12,
    }
}

/// Whether a queue's scheduling type is none.
fn has_unknown_type(queues: &[QueueConf]) -> bool
    ensures { result ≡ list_any has_unknown_type queues.now }
{
    queues
        .iter()
        .any(|queue| queue.schedule_type >= SCHEDULE_TYPES)
}

/// Whether a queue has a flag that isn't known.
fn has_unknown_queue_flag(queues: &[QueueConf]) -> bool
    ensures { result ≡ list_any has_unknown_queue_flag queues.now }
{
    queues.iter().any(|queue| queue.event_queue_cfg != 0 && queue.event_queue_cfg != SINGLE_LINK)
}

/// Whether a port has a flag that isn't known.
fn has_unknown_port_flag(ports: &[PortConf]) -> bool
    ensures { result ≡ list_any has_unknown_port_flag ports.now }
{
    ports
        .iter()
        .any(|port| port.event_port_cfg > NO_IMPLICIT_RELEASE)
}

/// The number of the first fault that can be seen before there is a plan.
pub(crate) fn early_fault(config: &Config) -> Option<i64>
    ensures { result ≡ early_fault config.now }
{
    if config.nb_event_queues as usize > MAX_QUEUES {
        return Some(number_of_fault(ShapeFault::QueueCount));
    }
    if config.nb_event_ports as usize > MAX_PORTS {
        return Some(number_of_fault(ShapeFault::PortCount));
    }
    let queues = &config.queue[..config.nb_event_queues as usize];
    let ports = &config.port[..config.nb_event_ports as usize];
    if has_unknown_type(queues) {
        return Some(UNKNOWN_TYPE);
    }
    if config.flags > FLOW_LANES || has_unknown_queue_flag(queues) || has_unknown_port_flag(ports) {
        return Some(UNKNOWN_FLAG);
    }
    None
}
