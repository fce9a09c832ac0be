//! A configuration of C's as the device's own.

ghost use Rattle.std.specs.Prelude.{◌≡◌, ◌≤◌, None, length, map, IfOk, IfErr};
ghost use Rattle.evt_types.specs.Plan.{bound_of, lanes_of, plan_of, port_plan};
ghost use Rattle.event_handles.specs.Config.{bits_of, early_fault, fault_in, kind_of_type, kinds_in, plan_of_config, port_draft, queue_draft, serving_of};
ghost use Rattle.event_handles.specs.Start.{IsRefusal};

use crate::config::{
    Config, FLOW_LANES, PortConf, QueueConf, SINGLE_LINK, early_fault, number_of_fault,
};
use crate::errno::ENOMEM;
use evt_types::{Draft, Kind, MAX_QUEUES, PortDraft, QueueDraft, Serving, Shape};
use std::alloc::{AllocError, Global};

/// The scheduling type of this number.
fn kind_of_type(number: u8) -> Kind
    ensures { result ≡ kind_of_type number }
{
    match number {
        0 => Kind::Ordered,
        1 => Kind::Atomic,
        _ => Kind::Parallel,
    }
}

fn queue_draft(conf: &QueueConf) -> QueueDraft
    ensures { result ≡ queue_draft conf.now }
{
    QueueDraft {
        kind: kind_of_type(conf.schedule_type),
        priority: conf.priority,
        slots: conf.nb_atomic_flows,
        order: conf.nb_atomic_order_sequences,
        single: conf.event_queue_cfg == SINGLE_LINK,
    }
}

fn queue_drafts(alloc: Global, confs: &[QueueConf]) -> Result<Vec<QueueDraft>, AllocError>
    ensures { IfOk result (λ drafts. drafts.items ≡ map queue_draft confs.now) }
{
    confs.iter().map(queue_draft).collect(alloc)
}

/// The numbers of the bits that are set.
#[tactic(auto, unfolding(crate::specs::Config::bits_of))]
fn bits_of(alloc: Global, bits: u32) -> Result<Vec<u32>, AllocError>
    ensures { IfOk result (λ numbers. numbers.items ≡ bits_of bits) }
{
    (0..u32::BITS)
        .filter(|number| (bits >> *number) % 2 == 1)
        .collect(alloc)
}

fn port_draft(alloc: Global, conf: &PortConf) -> Result<PortDraft, AllocError>
    ensures { IfOk result (λ draft. port_plan draft ≡ port_draft conf.now) }
{
    let links = bits_of(alloc, conf.links)?;
    Ok(PortDraft {
        threshold: conf.new_event_threshold,
        depth: u32::from(conf.dequeue_depth),
        replies: u32::from(conf.enqueue_depth),
        implicit: conf.event_port_cfg == 0,
        links,
    })
}

fn port_drafts(alloc: Global, confs: &[PortConf]) -> Result<Vec<PortDraft>, AllocError>
    ensures { IfOk result (λ drafts. map port_plan drafts.items ≡ map port_draft confs.now) }
{
    let mut drafts = Vec::with_capacity(alloc, confs.len())?;
    for conf in confs {
        let draft = port_draft(alloc, conf)?;
        drafts.push_reserved(draft);
    }
    Ok(drafts)
}

fn draft_of(alloc: Global, config: &Config) -> Result<Draft, AllocError>
    requires { early_fault config.now ≡ None }
    ensures { IfOk result (λ draft. plan_of draft ≡ plan_of_config config.now) }
{
    let queues = queue_drafts(alloc, &config.queue[..config.nb_event_queues as usize])?;
    let ports = port_drafts(alloc, &config.port[..config.nb_event_ports as usize])?;
    let serving = if config.flags == FLOW_LANES {
        Serving::Flows
    } else {
        Serving::Ports
    };
    Ok(Draft {
        limit: config.nb_events_limit,
        quantum: config.credit_quanta,
        sweep: config.sched_quanta,
        serving,
        queues,
        ports,
    })
}

/// The device that is asked for, checked.
pub(crate) fn shape_of(alloc: Global, config: &Config) -> Result<Shape, i64>
    ensures shape { IfOk result (λ shape. shape ≡ plan_of_config config.now) }
    ensures sound { IfOk result (λ _. fault_in config.now ≡ None) }
    ensures refused { IfErr result (IsRefusal config.now) }
{
    if let Some(fault) = early_fault(config) {
        return Err(fault);
    }
    let Ok(draft) = draft_of(alloc, config) else {
        return Err(ENOMEM);
    };
    match Shape::build(alloc, &draft) {
        Ok(shape) => Ok(shape),
        Err(fault) => Err(number_of_fault(fault)),
    }
}

/// The scheduling types of the queues.
pub(crate) fn kinds_of(queues: &[QueueDraft]) -> [Kind; MAX_QUEUES]
    requires { length queues.now ≤ MAX_QUEUES }
    ensures { result ≡ kinds_in queues.now }
{
    let mut kinds = [Kind::Parallel; MAX_QUEUES];
    for (number, queue) in queues.iter().enumerate() {
        kinds[number] = queue.kind;
    }
    kinds
}
