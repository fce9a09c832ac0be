//! A core is made again of the configuration that came back where memory was refused, and serves then as ever.

ghost use Rattle.std.specs.Prelude.{◌≡◌, vec_len, vec_capacity, IfOk};

use super::shapes::{ATOMIC, Parts, made_of};
use evt_types::{Event, Op, PackedEvent, Reply, Serving, Step};
use sched_core::{Core, Skips};
use std::alloc::{AllocError, Global};
use std::test::Fail;

/// An atomic queue of four slots, a port that brings events in, and two that are linked to the queue.
const TWO_WORKERS: Parts = Parts {
    limit: 4,
    queues: &[ATOMIC],
    links: &[&[], &[0], &[0]],
};

/// A core in which nothing has happened.
fn core_of(alloc: Global, serving: Serving) -> Result<Core, Fail> {
    match Core::new(alloc, made_of(alloc, &TWO_WORKERS, serving)?) {
        Ok(core) => Ok(core),
        Err((_, shape)) => match Core::new(alloc, shape) {
            Ok(core) => Ok(core),
            Err((memory, _)) => Err(Fail::from(memory)),
        },
    }
}

/// A log with room for so many steps.
fn log_of(alloc: Global, room: usize) -> Result<Vec<Step>, AllocError>
    ensures { IfOk result (λ v. (vec_len v ≡ 0) × (vec_capacity v ≡ room)) }
{
    match Vec::with_capacity(alloc, room) {
        Ok(log) => Ok(log),
        Err(_) => Vec::with_capacity(alloc, room),
    }
}

/// The lane to which an event of flow 7 may be given that the first port brings in.
fn lane_of_seven(alloc: Global, serving: Serving) -> Result<Option<usize>, Fail> {
    let mut core = core_of(alloc, serving)?;
    let reply = Reply {
        event: PackedEvent::of(&event_of!(New, 7, 128, 1)),
    };
    // What is enough for a sweep is enough for a reply.
    let mut log = log_of(alloc, core.log_room())?;
    if 0 < core.shape().lanes() && core.takes(0, &reply) {
        let _ = core.take(0, reply, &mut log);
    }
    Ok(match core.propose(&Skips::none()) {
        Some(offer) => Some(offer.lane),
        None => None,
    })
}

/// The flow has slot 3. The lanes 1 and 2 are those of the linked ports, and 3 to 6 the flow lanes, one for each slot.
#[test]
fn a_core_made_again_serves(rt: HostRuntime) -> Result<(), Fail> {
    let by_ports = lane_of_seven(rt.alloc(), Serving::Ports)?;
    let by_flows = lane_of_seven(rt.alloc(), Serving::Flows)?;
    assert_eq!(rt; [by_ports, by_flows], [Some(1), Some(6)]);
    Ok(())
}
