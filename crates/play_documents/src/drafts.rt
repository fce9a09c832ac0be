//! The configuration that a document's rows ask for.

ghost use Rattle.std.specs.Prelude.{◌≡◌, map, IfOk};
ghost use Rattle.evt_types.specs.Plan.{port_plan};
ghost use Rattle.evt_types.specs.Plan as plans;
ghost use Rattle.play_documents.specs.Drafts.{queue_asked, port_asked, device_asked, plan_asked};
ghost use Rattle.play_documents.specs.Field.{rows, field_map};
ghost use Rattle.play_documents.specs.Survey.{port_seen, survey_seen};

use crate::field::Field;
use crate::judge::port_rows;
use crate::survey::{DeviceRow, PortRow, QueueRow, Survey};
use evt_types::{Draft, Kind, PortDraft, QueueDraft, Serving};
use std::alloc::{AllocError, Global};

/// The priority of a queue that names none.
pub(crate) const NORMAL_PRIORITY: u8 = 128;

/// What a queue's row asks for.
pub fn queue_draft(row: &QueueRow) -> QueueDraft
    ensures { result ≡ queue_asked row.now }
{
    QueueDraft {
        kind: row.kind.value_or(Kind::Atomic),
        priority: row.priority.value_or(NORMAL_PRIORITY),
        slots: row.slots.value_or(0),
        order: row.order.value_or(0),
        single: row.single.value_or(false),
    }
}

/// A copy of a port's links.
fn copied_links(alloc: Global, links: &Field<Vec<u32>>) -> Result<Vec<u32>, AllocError>
    ensures { IfOk result (λ v. v.items ≡ rows (field_map (λ w. w.items) links.now)) }
{
    match links {
        Field::Good(links) => Vec::from_slice(alloc, links),
        Field::Absent | Field::Bad => Ok(Vec::new(alloc)),
    }
}

/// What a port's row asks for.
fn port_draft(alloc: Global, row: &PortRow) -> Result<PortDraft, AllocError>
    ensures { IfOk result (λ p. port_plan p ≡ port_asked (port_seen row.now)) }
{
    Ok(PortDraft {
        threshold: row.threshold.value_or(0),
        depth: row.depth.value_or(0),
        replies: row.replies.value_or(0),
        implicit: row.implicit.value_or(true),
        links: copied_links(alloc, &row.links)?,
    })
}

fn queue_drafts(alloc: Global, rows: &[QueueRow]) -> Result<Vec<QueueDraft>, AllocError>
    ensures { IfOk result (λ v. v.items ≡ map queue_asked rows.now) }
{
    let mut drafts = Vec::new(alloc);
    for row in rows {
        drafts.push(queue_draft(row))?;
    }
    Ok(drafts)
}

fn port_drafts(alloc: Global, rows: &[PortRow]) -> Result<Vec<PortDraft>, AllocError>
    ensures { IfOk result (λ v. map port_plan v.items ≡ map port_asked (map port_seen rows.now)) }
{
    let mut drafts = Vec::new(alloc);
    for row in rows {
        drafts.push(port_draft(alloc, row)?)?;
    }
    Ok(drafts)
}

/// The device that a row asks for, of these queues and ports.
pub fn device_draft(row: &DeviceRow, queues: Vec<QueueDraft>, ports: Vec<PortDraft>) -> Draft
    ensures { plans.plan_of result ≡ device_asked row.now queues.items (map port_plan ports.items) }
{
    Draft {
        limit: row.limit.value_or(0),
        quantum: row.quantum.value_or(0),
        sweep: row.sweep.value_or(0),
        serving: row.serving.value_or(Serving::Ports),
        queues,
        ports,
    }
}

/// What a document's rows ask for.
#[tactic(auto, unfolding(crate::specs::Drafts::plan_asked))]
pub fn draft_of(alloc: Global, survey: &Survey) -> Result<Draft, AllocError>
    ensures { IfOk result (λ d. plans.plan_of d ≡ plan_asked (survey_seen survey.now)) }
{
    let queues = queue_drafts(alloc, survey.queues.rows())?;
    let ports = port_drafts(alloc, port_rows(survey))?;
    Ok(device_draft(&survey.device, queues, ports))
}
