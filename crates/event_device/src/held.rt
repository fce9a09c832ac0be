//! What the ports hold, for the report.

ghost use Rattle.std.specs.Prelude.{◌≡◌, ◌+◌, ◌≤◌, [], ◌++◌, length, map, flat_map, sum_by, vec_len, vec_capacity};
ghost use Rattle.event_device.specs.Held.{held_in, held_entry};

use event_answers::Held;
use event_ports::{HeldRing, Holding, Rest};
use lane_rings::Far;

/// Lists what a port holds, oldest first.
fn list_held(port: usize, mut holding: HeldRing, held: &mut Vec<Held>)
    requires { vec_len held.old + length holding.items ≤ vec_capacity held.old }
    ensures listed { held.new.items ≡ held.old.items ++ map (held_entry port) holding.items }
    ensures room { vec_capacity held.new ≡ vec_capacity held.old }
{
    while let Some(Holding { queue, number, .. }) = holding.pop_front() {
        held.push_reserved(Held {
            port,
            queue,
            number,
        });
    }
}

/// Lists what each port holds, and its pocket, and gathers the ends of the ports' own lanes.
pub(crate) fn list_ports(
    rests: Vec<Rest>,
    held: &mut Vec<Held>,
    pockets: &mut Vec<u64>,
    fars: &mut Vec<Far>,
)
    requires held { (held.old.items ≡ []) × (sum_by (λ r. length r.held.items) rests.items ≤ vec_capacity held.old) }
    requires pockets { (pockets.old.items ≡ []) × (length rests.items ≤ vec_capacity pockets.old) }
    requires fars { (fars.old.items ≡ []) × (length rests.items ≤ vec_capacity fars.old) }
    ensures held { held.new.items ≡ flat_map held_in rests.items }
    ensures pockets { pockets.new.items ≡ map (λ r. r.pocket) rests.items }
    ensures fars { fars.new.items ≡ map (λ r. r.own) rests.items }
    ensures room { vec_capacity fars.new ≡ vec_capacity fars.old }
{
    for rest in rests {
        let Rest {
            number: port,
            own,
            held: holding,
            pocket,
        } = rest;
        list_held(port, holding, held);
        pockets.push_reserved(pocket);
        fars.push_reserved(own);
    }
}

/// Adds the ends of the flow lanes.
pub(crate) fn add_ends(ends: Vec<Far>, fars: &mut Vec<Far>)
    requires { vec_len fars.old + length ends.items ≤ vec_capacity fars.old }
    ensures { fars.new.items ≡ fars.old.items ++ ends.items }
{
    for end in ends {
        fars.push_reserved(end);
    }
}
