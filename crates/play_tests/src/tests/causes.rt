//! What a fault says of its cause.

use evt_types::{EventFault, ShapeFault, WordFault};
use play_documents::DocFault;
use std::alloc::Global;
use std::fmt::Display;
use std::process::Abort;
use std::test::Fail;

/// The fault's text is this.
fn says<T: Display>(rt: &impl Abort, alloc: Global, fault: &T, text: &str) -> Result<(), Fail> {
    let said = format!(in alloc; "{fault}")?;
    assert_eq!(rt; said.as_str(), text);
    Ok(())
}

/// Faults of documents, with their texts.
static FAULTS: [(DocFault, &str); 4] = [
    (DocFault::NotToml, "the document is not TOML"),
    (
        DocFault::BadCommand(5),
        "line 5 of the script is no command",
    ),
    (
        DocFault::Shape(ShapeFault::QueueCount),
        "the configuration is refused: the number of queues is not 1 to 32",
    ),
    (
        DocFault::Shape(ShapeFault::FlowSlots),
        "the configuration is refused: an atomic queue's flow slots are not 1 to 64, or there are more than 128 in all",
    ),
];

#[test]
fn documents_say_their_causes(rt: HostRuntime) -> Result<(), Fail> {
    for (fault, text) in &FAULTS {
        says(&rt, rt.alloc(), fault, text)?;
    }
    Ok(())
}

#[test]
fn events_say_their_causes(rt: HostRuntime) -> Result<(), Fail> {
    let (flow, kind) = (EventFault::FlowTooLarge, WordFault::UnknownKind);
    says(&rt, rt.alloc(), &flow, "the flow has more than 20 bits")?;
    says(
        &rt,
        rt.alloc(),
        &kind,
        "the event word's scheduling type is unknown",
    )
}
