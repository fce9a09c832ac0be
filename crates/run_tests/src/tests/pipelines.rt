//! The reading of a pipeline's document, for numbers of workers that no command line has too.

use super::documents::PIPELINE;
use evt_types::{Kind, PortDraft, QueueDraft, Serving, Shape, ShapeFault};
use pipeline_laws::{Action, Entry};
use play_documents::{DocFault, ReadFault};
use run_documents::{Pipeline, read_pipeline};
use std::alloc::Global;
use std::test::Fail;

/// The stages' queues.
const QUEUES: [QueueDraft; 3] = [
    QueueDraft {
        kind: Kind::Ordered,
        priority: 128,
        slots: 0,
        order: 8,
        single: false,
    },
    QueueDraft {
        kind: Kind::Atomic,
        priority: 128,
        slots: 4,
        order: 0,
        single: false,
    },
    QueueDraft {
        kind: Kind::Parallel,
        priority: 128,
        slots: 0,
        order: 0,
        single: false,
    },
];

/// The events of the trace.
const ENTRIES: [Entry; 5] = [
    Entry {
        flow: 7,
        priority: 128,
        payload: 1,
    },
    Entry {
        flow: 7,
        priority: 128,
        payload: 2,
    },
    Entry {
        flow: 9,
        priority: 0,
        payload: 3,
    },
    Entry {
        flow: 7,
        priority: 255,
        payload: 4,
    },
    Entry {
        flow: 9,
        priority: 0,
        payload: 6,
    },
];

/// A limit and a count of workers, with the fault of the document.
static WORKERS: [(u32, usize, Option<DocFault>); 7] = [
    (32, 1, None),
    (32, 15, None),
    (32, 16, Some(DocFault::LimitTight)),
    (64, 31, None),
    (64, 32, Some(DocFault::Shape(ShapeFault::PortCount))),
    (64, usize::MAX, Some(DocFault::Shape(ShapeFault::PortCount))),
    (32, 0, Some(DocFault::Shape(ShapeFault::QueueUnlinked))),
];

/// A document without stages.
const NO_STAGES: &str =
    "stage = []\nlimit = 32\nquantum = 1\nsweep = 8\ndepth = 4\nreplies = 8\ntrace = \"\"\n";

/// The fault of a document for so many workers, where it has one.
fn fault_of(alloc: Global, document: &str, workers: usize) -> Option<ReadFault> {
    read_pipeline(alloc, document.as_bytes(), workers).err()
}

/// Whether a port of the document has these links.
fn is_linked(port: &PortDraft, links: &[u32]) -> bool {
    let numbers = (port.threshold, port.depth, port.replies);
    numbers == (32, 4, 8) && !port.implicit && port.links.as_slice() == links
}

/// Whether the document's ports are the producer and two workers.
fn are_ports(ports: &[PortDraft]) -> bool {
    match ports {
        [producer, first, second] => {
            is_linked(producer, &[])
                && is_linked(first, &[0, 1, 2])
                && is_linked(second, &[0, 1, 2])
        }
        _ => false,
    }
}

/// The part of the configuration that is not as the document says.
fn other_in_shape(shape: &Shape) -> Option<&'static str> {
    if (shape.limit(), shape.quantum(), shape.sweep()) != (32, 1, 8) {
        Some("limit, quantum or sweep")
    } else if shape.serving() != Serving::Ports {
        Some("serving")
    } else if shape.queues() != QUEUES.as_slice() {
        Some("queues")
    } else if !are_ports(shape.ports()) {
        Some("ports")
    } else {
        None
    }
}

/// The part of the pipeline that is not as the document says.
fn other_in(pipeline: &Pipeline) -> Option<&'static str> {
    let actions = [Action::Add(1), Action::DropMultiples(2), Action::Pass];
    if pipeline.actions.as_slice() != actions.as_slice() {
        Some("actions")
    } else if pipeline.trace.as_slice() != ENTRIES.as_slice() {
        Some("trace")
    } else {
        other_in_shape(&pipeline.shape)
    }
}

#[test]
fn reads_a_whole_document(rt: HostRuntime) -> Result<(), Fail> {
    let pipeline = read_pipeline(rt.alloc(), PIPELINE.as_bytes(), 2).map_err(|_| "a pipeline")?;
    let other = other_in(&pipeline);
    drop(pipeline);
    assert_eq!(rt; other, None);
    Ok(())
}

#[test]
fn reads_how_it_is_served(rt: HostRuntime) -> Result<(), Fail> {
    let alloc = rt.alloc();
    let text = format!(in alloc; "serving = \"flows\"\n{PIPELINE}")?;
    let pipeline = read_pipeline(alloc, text.as_bytes(), 2).map_err(|_| "a pipeline")?;
    assert_eq!(rt; pipeline.shape.serving(), Serving::Flows);
    // The three ports' lanes, and one for each slot of the atomic queue.
    assert_eq!(rt; pipeline.shape.lanes(), 7);
    Ok(())
}

#[test]
fn counts_the_workers(rt: HostRuntime) -> Result<(), Fail> {
    let alloc = rt.alloc();
    let (_, rest) = PIPELINE.split_once('\n').ok_or("the limit's line")?;
    for (limit, workers, fault) in &WORKERS {
        let text = format!(in alloc; "limit = {limit}\n{rest}")?;
        let named = fault.map(ReadFault::Document);
        assert_eq!(rt; fault_of(alloc, &text, *workers), named, "{workers}");
    }
    Ok(())
}

#[test]
fn counts_the_stages_before_the_workers(rt: HostRuntime) {
    let refused = DocFault::Shape(ShapeFault::QueueCount);
    let named = Some(ReadFault::Document(refused));
    assert_eq!(rt; fault_of(rt.alloc(), NO_STAGES, 99), named);
}
