//! A configuration that a device refuses.

use crate::places::TableName;
use crate::tables::{Reading, Source, tables_of, write_number};
use evt_types::{
    Kind, MAX_ALL_SLOTS, MAX_DEPTH, MAX_LIMIT, MAX_ORDER, MAX_PORTS, MAX_QUEUES, MAX_SLOTS,
    MAX_SWEEP, ShapeFault,
};
use play_documents::field::{flag_at, number_at, numbers_at};
use play_documents::{queue_draft, queue_row};
use std::alloc::{AllocError, Global};
use toml::Table;

/// The number at a key.
fn number(table: &Table, key: &str) -> u32 {
    number_at(table, key).value_or(0)
}

/// The key of the queues' tables.
fn queue_key(source: &Source<'_>) -> &'static str {
    match source.reading {
        Reading::Play => "queue",
        Reading::Run { .. } => "stage",
    }
}

/// The table of the queue of this number.
fn queue_name(source: &Source<'_>, number: usize) -> TableName {
    match source.reading {
        Reading::Play => TableName::Queue(number),
        Reading::Run { .. } => TableName::Stage(number),
    }
}

/// Writes that a number at a key isn't from the least to the most.
fn write_outside(
    source: &Source<'_>,
    name: TableName,
    table: &Table,
    key: &str,
    most: u32,
    out: &mut String,
) -> Result<(), AllocError> {
    let value = number(table, key);
    source.begin_at_value(name, key, out)?;
    write_number(name, out)?;
    write!(out, "{key} {value} isn't from 1 to {most}\n")
}

/// Writes how many tables an array has, and how many it may have.
fn write_count(
    source: &Source<'_>,
    key: &str,
    most: usize,
    out: &mut String,
) -> Result<(), AllocError> {
    let count = tables_of(source.alloc, source.table, key)?.len();
    source.begin_at_key(TableName::Top, key, out)?;
    write!(
        out,
        "there are {count} tables [[{key}]], and not 1 to {most}\n"
    )
}

fn write_quantum(source: &Source<'_>, out: &mut String) -> Result<(), AllocError> {
    let quantum = number(source.table, "quantum");
    let limit = number(source.table, "limit");
    source.begin_at_value(TableName::Top, "quantum", out)?;
    if quantum > limit {
        write!(out, "quantum {quantum} is above the limit {limit}\n")
    } else {
        write!(out, "quantum {quantum} isn't from 1 to the limit {limit}\n")
    }
}

/// Writes the first port whose threshold isn't from the quantum to the limit.
fn write_threshold(source: &Source<'_>, out: &mut String) -> Result<(), AllocError> {
    let quantum = number(source.table, "quantum");
    let limit = number(source.table, "limit");
    let mut found = false;
    for (port, table) in tables_of(source.alloc, source.table, "port")?
        .iter()
        .enumerate()
    {
        let threshold = number(table, "threshold");
        if (threshold < quantum || threshold > limit) && !found {
            found = true;
            source.begin_at_value(TableName::Port(port), "threshold", out)?;
            if threshold > limit {
                write!(
                    out,
                    "port {port}: threshold {threshold} is above the limit {limit}\n"
                )?;
            } else {
                write!(
                    out,
                    "port {port}: threshold {threshold} is below the quantum {quantum}\n"
                )?;
            }
        }
    }
    Ok(())
}

/// Writes which of a table's depth and replies isn't in its range, where one isn't.
fn write_depth_of(
    source: &Source<'_>,
    name: TableName,
    table: &Table,
    out: &mut String,
) -> Result<bool, AllocError> {
    for key in ["depth", "replies"] {
        let value = number(table, key);
        if value < 1 || value > MAX_DEPTH {
            write_outside(source, name, table, key, MAX_DEPTH, out)?;
            return Ok(true);
        }
    }
    Ok(false)
}

fn write_depth(source: &Source<'_>, out: &mut String) -> Result<(), AllocError> {
    if let Reading::Run { .. } = source.reading {
        write_depth_of(source, TableName::Top, source.table, out)?;
        return Ok(());
    }
    for (port, table) in tables_of(source.alloc, source.table, "port")?
        .iter()
        .enumerate()
    {
        if write_depth_of(source, TableName::Port(port), table, out)? {
            return Ok(());
        }
    }
    Ok(())
}

/// Writes the first queue of this kind whose number at a key isn't from 1 to the most, or nothing.
fn write_size(
    source: &Source<'_>,
    kind: Kind,
    key: &str,
    most: u32,
    out: &mut String,
) -> Result<bool, AllocError> {
    for (queue, table) in tables_of(source.alloc, source.table, queue_key(source))?
        .iter()
        .enumerate()
    {
        let value = number(table, key);
        let is_of_kind = queue_draft(&queue_row(table)).kind == kind;
        if is_of_kind && (value < 1 || value > most) {
            write_outside(source, queue_name(source, queue), table, key, most, out)?;
            return Ok(true);
        }
    }
    Ok(false)
}

/// The slots of all atomic queues.
fn all_slots(source: &Source<'_>) -> Result<u64, AllocError> {
    let mut slots = 0u64;
    for table in &tables_of(source.alloc, source.table, queue_key(source))? {
        let draft = queue_draft(&queue_row(table));
        if draft.kind == Kind::Atomic {
            slots = slots.saturating_add(u64::from(draft.slots));
        }
    }
    Ok(slots)
}

fn write_slots(source: &Source<'_>, out: &mut String) -> Result<(), AllocError> {
    if write_size(source, Kind::Atomic, "slots", MAX_SLOTS, out)? {
        return Ok(());
    }
    let slots = all_slots(source)?;
    write!(
        out,
        "  the atomic queues have {slots} slots in all, and may have at most {MAX_ALL_SLOTS}\n"
    )
}

/// Writes the first link to a queue that isn't there.
fn write_link_unknown(source: &Source<'_>, out: &mut String) -> Result<(), AllocError> {
    let queues = tables_of(source.alloc, source.table, "queue")?.len();
    let last = queues.saturating_sub(1);
    for (port, table) in tables_of(source.alloc, source.table, "port")?
        .iter()
        .enumerate()
    {
        for link in numbers_at(source.alloc, table, "links")?.rows() {
            if *link as usize >= queues {
                source.begin_at_value(TableName::Port(port), "links", out)?;
                return write!(
                    out,
                    "port {port}: it is linked to queue {link}, and the queues are 0 to {last}\n"
                );
            }
        }
    }
    Ok(())
}

/// The first number that stands twice.
fn twice(links: &[u32]) -> Option<u32> {
    let mut found = None;
    for (place, link) in links.iter().enumerate() {
        let before = links.get(..place).unwrap_or(&[]);
        if found.is_none() && before.contains(link) {
            found = Some(*link);
        }
    }
    found
}

fn write_link_twice(source: &Source<'_>, out: &mut String) -> Result<(), AllocError> {
    for (port, table) in tables_of(source.alloc, source.table, "port")?
        .iter()
        .enumerate()
    {
        if let Some(queue) = twice(numbers_at(source.alloc, table, "links")?.rows()) {
            source.begin_at_value(TableName::Port(port), "links", out)?;
            return write!(out, "port {port}: its links name queue {queue} twice\n");
        }
    }
    Ok(())
}

/// The ports that are linked to a queue.
fn ports_of(source: &Source<'_>, queue: usize) -> Result<Vec<usize>, AllocError> {
    let mut ports = Vec::new(source.alloc);
    for (port, table) in tables_of(source.alloc, source.table, "port")?
        .iter()
        .enumerate()
    {
        let links = numbers_at(source.alloc, table, "links")?;
        if links.rows().iter().any(|link| *link as usize == queue) {
            ports.push(port)?;
        }
    }
    Ok(ports)
}

/// Writes the first queue that no port is linked to.
fn write_unlinked(source: &Source<'_>, out: &mut String) -> Result<(), AllocError> {
    for (queue, _) in tables_of(source.alloc, source.table, "queue")?
        .iter()
        .enumerate()
    {
        if ports_of(source, queue)?.is_empty() {
            source.begin_at_key(TableName::Queue(queue), "", out)?;
            return write!(out, "queue {queue} is in the links of no port\n");
        }
    }
    Ok(())
}

/// Writes the first single-link queue that several ports are linked to.
fn write_single(source: &Source<'_>, out: &mut String) -> Result<(), AllocError> {
    for (queue, table) in tables_of(source.alloc, source.table, "queue")?
        .iter()
        .enumerate()
    {
        let ports = ports_of(source, queue)?;
        if flag_at(table, "single").value_or(false) && ports.len() > 1 {
            source.begin_at_key(TableName::Queue(queue), "single", out)?;
            write!(
                out,
                "queue {queue} is a single-link queue, and several ports are linked to it:"
            )?;
            for port in &ports {
                write!(out, " {port}")?;
            }
            return out.push_str("\n");
        }
    }
    Ok(())
}

/// Writes what of the configuration is refused, with its numbers.
pub(crate) fn write_shape(
    source: &Source<'_>,
    fault: ShapeFault,
    out: &mut String,
) -> Result<(), AllocError> {
    let (top, table) = (TableName::Top, source.table);
    match fault {
        ShapeFault::QueueCount => write_count(source, queue_key(source), MAX_QUEUES, out),
        ShapeFault::PortCount => write_count(source, "port", MAX_PORTS, out),
        ShapeFault::LimitRange => write_outside(source, top, table, "limit", MAX_LIMIT, out),
        ShapeFault::QuantumRange => write_quantum(source, out),
        ShapeFault::ThresholdRange => write_threshold(source, out),
        ShapeFault::DepthRange => write_depth(source, out),
        ShapeFault::FlowSlots => write_slots(source, out),
        ShapeFault::OrderDepth => {
            write_size(source, Kind::Ordered, "order", MAX_ORDER, out)?;
            Ok(())
        }
        ShapeFault::SweepRange => write_outside(source, top, table, "sweep", MAX_SWEEP, out),
        ShapeFault::LinkUnknown => write_link_unknown(source, out),
        ShapeFault::LinkTwice => write_link_twice(source, out),
        ShapeFault::QueueUnlinked => write_unlinked(source, out),
        ShapeFault::SingleLinkCount => write_single(source, out),
        ShapeFault::Memory => Ok(()),
    }
}
