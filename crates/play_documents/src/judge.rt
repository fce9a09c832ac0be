//! The faults that a document's rows show.

ghost use Rattle.std.specs.Prelude.{◌≡◌, map};
ghost use Rattle.std.specs.List.{list_any};
ghost use Rattle.play_documents.specs.Judge.{is_unknown_queue, is_unknown_port, lacks_slots, misses_queue, misses_port, has_bad_queue, has_bad_port, misses_device, has_bad_device, has_unknown, has_missing, has_bad, rows_fault, first_fault};
ghost use Rattle.play_documents.specs.Survey.{port_seen, ports_seen, survey_seen};
ghost use Rattle.play_documents.specs.Field.{field_map, rows};

use crate::fault::DocFault;
use crate::field::Field;
use crate::survey::{DeviceRow, PortRow, QueueRow, Survey};
use evt_types::Kind;

/// The ports' rows.
pub fn port_rows<'a>(survey: &'a Survey) -> &'a [PortRow]
    ensures { map port_seen result.now ≡ rows (survey_seen survey.now).ports }
{
    survey.ports.rows()
}

fn lacks_slots(queue: &QueueRow) -> bool
    ensures { result ≡ lacks_slots queue.now }
{
    match queue.kind {
        Field::Good(Kind::Atomic) => queue.slots.is_absent(),
        Field::Good(Kind::Ordered) => queue.order.is_absent(),
        Field::Good(Kind::Parallel) | Field::Absent | Field::Bad => false,
    }
}

/// Whether a queue's table lacks a key that it needs.
pub fn misses_queue(queue: &QueueRow) -> bool
    ensures { result ≡ misses_queue queue.now }
{
    queue.kind.is_absent() || lacks_slots(queue)
}

fn misses_port(port: &PortRow) -> bool
    ensures { result ≡ misses_port (port_seen port.now) }
{
    port.threshold.is_absent()
        || port.depth.is_absent()
        || port.replies.is_absent()
        || port.links.is_absent()
}

/// Whether a queue's table has a refused value.
pub fn has_bad_queue(queue: &QueueRow) -> bool
    ensures { result ≡ has_bad_queue queue.now }
{
    queue.kind.is_bad()
        || queue.priority.is_bad()
        || queue.slots.is_bad()
        || queue.order.is_bad()
        || queue.single.is_bad()
}

fn has_bad_port(port: &PortRow) -> bool
    ensures { result ≡ has_bad_port (port_seen port.now) }
{
    port.threshold.is_bad()
        || port.depth.is_bad()
        || port.replies.is_bad()
        || port.implicit.is_bad()
        || port.links.is_bad()
}

fn any_unknown_queue(queues: &[QueueRow]) -> bool
    ensures { result ≡ list_any is_unknown_queue queues.now }
{
    queues.iter().any(|queue| !queue.known)
}

fn any_unknown_port(ports: &[PortRow]) -> bool
    ensures { result ≡ list_any is_unknown_port (map port_seen ports.now) }
{
    ports.iter().any(|port| !port.known)
}

fn any_misses_queue(queues: &[QueueRow]) -> bool
    ensures { result ≡ list_any misses_queue queues.now }
{
    queues.iter().any(misses_queue)
}

fn any_misses_port(ports: &[PortRow]) -> bool
    ensures { result ≡ list_any misses_port (map port_seen ports.now) }
{
    ports.iter().any(misses_port)
}

fn any_bad_queue(queues: &[QueueRow]) -> bool
    ensures { result ≡ list_any has_bad_queue queues.now }
{
    queues.iter().any(has_bad_queue)
}

fn any_bad_port(ports: &[PortRow]) -> bool
    ensures { result ≡ list_any has_bad_port (map port_seen ports.now) }
{
    ports.iter().any(has_bad_port)
}

/// Whether a document's table lacks a key of its device that it needs.
pub fn misses_device(device: &DeviceRow) -> bool
    ensures { result ≡ misses_device device.now }
{
    device.limit.is_absent() || device.quantum.is_absent() || device.sweep.is_absent()
}

/// Whether a value of a document's device is refused.
pub fn has_bad_device(device: &DeviceRow) -> bool
    ensures { result ≡ has_bad_device device.now }
{
    device.limit.is_bad()
        || device.quantum.is_bad()
        || device.sweep.is_bad()
        || device.serving.is_bad()
}

/// Whether some table has an unknown key.
#[tactic(auto, unfolding(crate::specs::Judge::has_unknown))]
fn has_unknown(survey: &Survey) -> bool
    ensures { result ≡ has_unknown (survey_seen survey.now) }
{
    !survey.known || any_unknown_queue(survey.queues.rows()) || any_unknown_port(port_rows(survey))
}

/// Whether some table lacks a key.
#[tactic(auto, unfolding(crate::specs::Judge::has_missing))]
fn has_missing(survey: &Survey) -> bool
    ensures { result ≡ has_missing (survey_seen survey.now) }
{
    misses_device(&survey.device)
        || survey.script.is_absent()
        || survey.queues.is_absent()
        || survey.ports.is_absent()
        || any_misses_queue(survey.queues.rows())
        || any_misses_port(port_rows(survey))
}

/// Whether some value is refused.
#[tactic(auto, unfolding(crate::specs::Judge::has_bad))]
fn has_bad(survey: &Survey) -> bool
    ensures { result ≡ has_bad (survey_seen survey.now) }
{
    has_bad_device(&survey.device)
        || survey.script.is_bad()
        || survey.queues.is_bad()
        || survey.ports.is_bad()
        || any_bad_queue(survey.queues.rows())
        || any_bad_port(port_rows(survey))
}

/// The first fault by the three tests. Each is looked for in the whole document before the next.
pub fn rows_fault(unknown: bool, missing: bool, bad: bool) -> Option<DocFault>
    ensures { result ≡ rows_fault unknown missing bad }
{
    if unknown {
        Some(DocFault::UnknownKey)
    } else if missing {
        Some(DocFault::MissingKey)
    } else if bad {
        Some(DocFault::BadValue)
    } else {
        None
    }
}

/// The first fault.
#[tactic(auto, unfolding(crate::specs::Judge::first_fault))]
pub fn first_fault(survey: &Survey) -> Option<DocFault>
    ensures { result ≡ first_fault (survey_seen survey.now) }
{
    rows_fault(has_unknown(survey), has_missing(survey), has_bad(survey))
}
