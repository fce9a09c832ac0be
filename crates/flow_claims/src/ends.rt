//! Ends in slots, and out of them again.

ghost use Rattle.std.specs.Prelude.{◌≡◌, ◌+◌, ◌≤◌, List, [], ◌++◌, map, reverse, length, vec_capacity, IfOk, IfErr};
ghost use Rattle.lane_rings.specs.declared.far.Far.{Far};

use crate::boxed::BoxedFar;
use lane_rings::Far;
use std::alloc::Global;

/// Puts each end into a slot, in a block of its own, in their order. The vector that they came in comes back empty. After want of
/// memory the ends come back in their order.
pub(crate) fn wrapped(
    alloc: Global,
    mut ends: Vec<Far>,
    mut slots: Vec<Option<BoxedFar>>,
) -> Result<(Vec<Option<BoxedFar>>, Vec<Far>), Vec<Far>>
    requires { (slots.items ≡ []) × (length ends.items ≤ vec_capacity slots) }
    ensures slots { IfOk result (λ r. r.0.items ≡ map Some ends.items) }
    ensures rest { IfOk result (λ r. (r.1.items ≡ []) × (length ends.items ≤ vec_capacity r.1)) }
    ensures back { IfErr result (λ e. e.items ≡ ends.items) }
{
    while let Some(far) = ends.pop() {
        match BoxedFar::new(alloc, far) {
            Ok(far) => slots.push_reserved(Some(far)),
            Err(far) => {
                ends.push_reserved(far);
                return Err(put_back(slots, ends));
            }
        }
    }
    slots.reverse();
    Ok((slots, ends))
}

/// Takes the ends out of their slots again, in their order.
pub(crate) fn unwrapped(mut slots: Vec<Option<BoxedFar>>, rest: Vec<Far>) -> Vec<Far>
    requires full { (ends : List Far) × (slots.items ≡ map Some ends) }
    requires room { (rest.items ≡ []) × (length slots.items ≤ vec_capacity rest) }
    ensures { map Some result.items ≡ slots.items }
{
    slots.reverse();
    put_back(slots, rest)
}

// Takes the ends out of their slots, from the last one on, and puts them behind those that are there.
fn put_back(mut slots: Vec<Option<BoxedFar>>, mut ends: Vec<Far>) -> Vec<Far>
    requires full { (more : List Far) × (slots.items ≡ map Some more) }
    requires room { length ends.items + length slots.items ≤ vec_capacity ends }
    ensures { map Some result.items ≡ map Some ends.items ++ reverse slots.items }
{
    while let Some(slot) = slots.pop() {
        if let Some(far) = slot {
            ends.push_reserved(far.into_far());
        }
    }
    ends
}
