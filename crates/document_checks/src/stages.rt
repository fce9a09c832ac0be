//! A pipeline's stages that are in the wrong order, or do what they may not; and a limit that is too tight.

use crate::bad::write_value;
use crate::places::TableName;
use crate::tables::{Reading, Source, tables_of};
use evt_types::Kind;
use play_documents::field::{Field, number_at};
use play_documents::queue_row;
use std::alloc::AllocError;

/// Writes which stage is parallel and isn't the last.
pub(crate) fn write_parallel_inside(
    source: &Source<'_>,
    out: &mut String,
) -> Result<(), AllocError> {
    let stages = tables_of(source.alloc, source.table, "stage")?;
    let last = stages.len().saturating_sub(1);
    let mut found = false;
    for (number, table) in stages.iter().enumerate() {
        let is_parallel = matches!(queue_row(table).kind, Field::Good(Kind::Parallel));
        if is_parallel && number < last && !found {
            found = true;
            source.begin_at_value(TableName::Stage(number), "kind", out)?;
            write!(
                out,
                "[[stage]] {number} is parallel; only the last stage, {last}, may be\n"
            )?;
        }
    }
    Ok(())
}

/// Writes what the last stage does.
pub(crate) fn write_last_action(source: &Source<'_>, out: &mut String) -> Result<(), AllocError> {
    let stages = tables_of(source.alloc, source.table, "stage")?;
    let number = stages.len().saturating_sub(1);
    source.begin_at_value(TableName::Stage(number), "action", out)?;
    write!(out, "the action of [[stage]] {number}, the last, is ")?;
    if let Some(table) = stages.last() {
        if let Some(value) = table.get("action") {
            write_value(value, out)?;
        }
    }
    out.push_str("; it must be \"pass\"\n")
}

/// Writes the least limit that would do.
pub(crate) fn write_limit_tight(source: &Source<'_>, out: &mut String) -> Result<(), AllocError> {
    let limit = number_at(source.table, "limit").value_or(0);
    let quantum = number_at(source.table, "quantum").value_or(0);
    let workers = match source.reading {
        Reading::Play => 0,
        Reading::Run { workers } => workers as u64,
    };
    let ports = workers.saturating_add(1);
    let least = u64::from(quantum).saturating_mul(2).saturating_mul(ports);
    let noun = if workers == 1 { "worker" } else { "workers" };
    source.begin_at_value(TableName::Top, "limit", out)?;
    write!(
        out,
        "`limit` is {limit}, and must be at least {least} with the quantum {quantum} and {workers} {noun}: 2 * {quantum} * ({workers} + 1)\n"
    )?;
    if workers > 1 {
        out.push_str("  A lower quantum or fewer workers would do too\n")
    } else {
        out.push_str("  A lower quantum would do too\n")
    }
}
