//! Configurations, with both kinds of serving: known refusals, and each call once. A list and a shape are made again where memory was
//! refused, and serve then as ever.

use evt_types::{Draft, FlowLane, Kind, PortDraft, QueueDraft, Serving, Shape, ShapeFault};
use std::alloc::{AllocError, Global};
use std::test::Fail;

pub(crate) const ATOMIC: QueueDraft = QueueDraft {
    kind: Kind::Atomic,
    priority: 128,
    slots: 4,
    order: 0,
    single: false,
};

const PARALLEL: QueueDraft = QueueDraft {
    kind: Kind::Parallel,
    slots: 0,
    ..ATOMIC
};

/// What a configuration is made of: a port for each list of links.
#[derive(Clone, Copy)]
pub(crate) struct Parts {
    pub(crate) limit: u32,
    pub(crate) queues: &'static [QueueDraft],
    pub(crate) links: &'static [&'static [u32]],
}

/// An atomic queue, a port that brings events in, and one that handles them.
const SMALL: Parts = Parts {
    limit: 4,
    queues: &[ATOMIC],
    links: &[&[], &[0]],
};

/// Two atomic queues, of two and of three slots, and a parallel one between them. A port brings events in, one handles those of the
/// first two queues, and one those of all.
const THREE_QUEUES: Parts = Parts {
    limit: 4,
    queues: &[
        QueueDraft { slots: 2, ..ATOMIC },
        PARALLEL,
        QueueDraft { slots: 3, ..ATOMIC },
    ],
    links: &[&[], &[1, 0], &[2, 1, 0]],
};

const NO_LINKS: &[u32] = &[];

/// Parts, and why a configuration of them is refused, with either kind of serving.
static ROWS: [(Parts, Option<ShapeFault>); 13] = [
    (SMALL, None),
    (Parts { limit: 0, ..SMALL }, Some(ShapeFault::LimitRange)),
    (
        Parts {
            limit: 16384,
            ..SMALL
        },
        None,
    ),
    (
        Parts {
            limit: 16385,
            ..SMALL
        },
        Some(ShapeFault::LimitRange),
    ),
    (
        Parts {
            queues: &[QueueDraft {
                slots: 64,
                ..ATOMIC
            }],
            ..SMALL
        },
        None,
    ),
    (
        Parts {
            queues: &[QueueDraft {
                slots: 65,
                ..ATOMIC
            }],
            ..SMALL
        },
        Some(ShapeFault::FlowSlots),
    ),
    (
        Parts {
            queues: &[QueueDraft {
                slots: 43,
                ..ATOMIC
            }; 3],
            ..SMALL
        },
        Some(ShapeFault::FlowSlots),
    ),
    (
        Parts {
            queues: &[QueueDraft {
                single: true,
                ..ATOMIC
            }],
            links: &[&[0], &[0]],
            ..SMALL
        },
        Some(ShapeFault::SingleLinkCount),
    ),
    (
        Parts {
            links: &[&[0], &[0]],
            ..SMALL
        },
        None,
    ),
    (
        Parts {
            links: &[&[0, 0]],
            ..SMALL
        },
        Some(ShapeFault::LinkTwice),
    ),
    (
        Parts {
            links: &[&[1]],
            ..SMALL
        },
        Some(ShapeFault::LinkUnknown),
    ),
    (
        Parts {
            links: &[&[]],
            ..SMALL
        },
        Some(ShapeFault::QueueUnlinked),
    ),
    (
        Parts {
            links: &[NO_LINKS; 33],
            ..SMALL
        },
        Some(ShapeFault::PortCount),
    ),
];

/// A list of these items.
fn list_of<T: Copy>(alloc: Global, items: &[T]) -> Result<Vec<T>, AllocError> {
    match Vec::from_slice(alloc, items) {
        Ok(list) => Ok(list),
        Err(_) => Vec::from_slice(alloc, items),
    }
}

/// A list in which so many ports fit.
fn ports_of(alloc: Global, count: usize) -> Result<Vec<PortDraft>, AllocError> {
    match Vec::with_capacity(alloc, count) {
        Ok(ports) => Ok(ports),
        Err(_) => Vec::with_capacity(alloc, count),
    }
}

/// The checked configuration, or why it is refused.
fn shape_of(alloc: Global, draft: &Draft) -> Result<Shape, ShapeFault> {
    match Shape::build(alloc, draft) {
        Err(ShapeFault::Memory) => Shape::build(alloc, draft),
        built => built,
    }
}

fn draft_of(alloc: Global, parts: &Parts, serving: Serving) -> Result<Draft, AllocError> {
    let mut ports = ports_of(alloc, parts.links.len())?;
    for list in parts.links {
        ports.push(PortDraft {
            threshold: parts.limit,
            depth: 4,
            replies: 4,
            implicit: false,
            links: list_of(alloc, list)?,
        })?;
    }
    Ok(Draft {
        limit: parts.limit,
        quantum: 2,
        sweep: 8,
        serving,
        queues: list_of(alloc, parts.queues)?,
        ports,
    })
}

/// The shape of these parts, or why there is none.
pub(crate) fn made_of(alloc: Global, parts: &Parts, serving: Serving) -> Result<Shape, ShapeFault> {
    match draft_of(alloc, parts, serving) {
        Ok(draft) => shape_of(alloc, &draft),
        Err(_) => Err(ShapeFault::Memory),
    }
}

#[test]
fn refused_shapes(rt: HostRuntime) {
    for (place, (parts, fault)) in ROWS.iter().enumerate() {
        let by_ports = made_of(rt.alloc(), parts, Serving::Ports).err();
        let by_flows = made_of(rt.alloc(), parts, Serving::Flows).err();
        assert_eq!(rt; [by_ports, by_flows], [*fault, *fault], "row {place}");
    }
}

/// A shape's numbers.
fn numbers_of(shape: &Shape) -> (u32, u32, u32, Serving, usize) {
    let serving = shape.serving();
    (
        shape.limit(),
        shape.quantum(),
        shape.sweep(),
        serving,
        shape.bound(),
    )
}

/// How many ports, lanes and queues there are.
fn counts_of(shape: &Shape) -> (usize, usize, usize) {
    (shape.ports().len(), shape.lanes(), shape.queues().len())
}

/// Whether the lane serves the slot of the queue; none where there is no such lane or queue.
fn serves(shape: &Shape, lane: usize, queue: usize, slot: usize) -> Option<bool> {
    if lane < shape.lanes() && queue < shape.queues().len() {
        Some(shape.serves(lane, queue, slot))
    } else {
        None
    }
}

#[test]
fn parts_of_a_shape(rt: HostRuntime) -> Result<(), Fail> {
    let shape = made_of(rt.alloc(), &SMALL, Serving::Ports)?;
    assert_eq!(rt; numbers_of(&shape), (4, 2, 8, Serving::Ports, 12));
    assert_eq!(rt; counts_of(&shape), (2, 2, 1));
    assert!(rt; shape.queues() == SMALL.queues && shape.flows().is_empty());
    Ok(())
}

#[test]
fn answers_of_a_shape(rt: HostRuntime) -> Result<(), Fail> {
    let shape = made_of(rt.alloc(), &SMALL, Serving::Ports)?;
    assert!(rt; shape.queues().len() == 1 && shape.lanes() == 2);
    let rooms = (shape.depth_of(1), shape.replies_of(1));
    assert_eq!(rt; (shape.slot_of(0, 7), rooms), (3, (4, 4)));
    let served = [serves(&shape, 0, 0, 3), serves(&shape, 1, 0, 3)];
    assert_eq!(rt; served, [Some(false), Some(true)]);
    Ok(())
}

static FLOWS: [FlowLane; 5] = [
    FlowLane { queue: 0, slot: 0 },
    FlowLane { queue: 0, slot: 1 },
    FlowLane { queue: 2, slot: 0 },
    FlowLane { queue: 2, slot: 1 },
    FlowLane { queue: 2, slot: 2 },
];

/// Whether the port serves these flow lanes.
fn has_links(shape: &Shape, port: usize, links: &[usize]) -> bool {
    port < shape.ports().len() && shape.flow_links(port) == links
}

#[test]
fn flow_lanes_of_a_shape(rt: HostRuntime) -> Result<(), Fail> {
    let shape = made_of(rt.alloc(), &THREE_QUEUES, Serving::Flows)?;
    assert_eq!(rt; numbers_of(&shape), (4, 2, 8, Serving::Flows, 96));
    assert_eq!(rt; counts_of(&shape), (3, 8, 3));
    assert!(rt; shape.flows() == FLOWS.as_slice());
    assert!(rt; has_links(&shape, 1, &[0, 1]) && has_links(&shape, 2, &[0, 1, 2, 3, 4]));
    Ok(())
}

/// Lanes, queues and slots, and whether the lane serves the slot.
static SERVED: [(usize, usize, usize, bool); 5] = [
    (1, 1, 0, true),
    (1, 0, 0, false),
    (6, 2, 1, true),
    (6, 2, 0, false),
    (6, 0, 1, false),
];

#[test]
fn answers_with_flow_lanes(rt: HostRuntime) -> Result<(), Fail> {
    let shape = made_of(rt.alloc(), &THREE_QUEUES, Serving::Flows)?;
    for (lane, queue, slot, wanted) in &SERVED {
        let served = serves(&shape, *lane, *queue, *slot);
        assert_eq!(rt;
            served,
            Some(*wanted),
            "lane {lane}, queue {queue}, slot {slot}"
        );
    }
    assert!(rt; shape.lanes() == 8);
    let port = (shape.depth_of(1), shape.replies_of(1));
    let flow = (shape.depth_of(6), shape.replies_of(6));
    assert_eq!(rt; [port, flow], [(4, 4), (16, 16)]);
    Ok(())
}
