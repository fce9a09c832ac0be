//! The slot of a flow, and the list of a slot's parked events.

ghost use Rattle.std.specs.Prelude.{◌≡◌, ◌%◌, ◌<◌, ◌≤◌};
ghost use Rattle.parked_queue.specs.Marks.{IsMasked, mask_of};
ghost use Rattle.parked_queue.specs.Parted.{list_of_slot};

use crate::level::{LEVELS, Level};

/// In place of a mask, and above each, where the slots are no power of two.
const NO_MASK: usize = 64;

/// The mask for so many slots: one less, where they are a power of two.
pub(crate) fn mask_for(slots: usize) -> usize
    requires { 0 < slots }
    ensures { result ≡ mask_of slots }
{
    let mask = slots - 1;
    if slots & mask == 0 { mask } else { NO_MASK }
}

/// What a division by the slots leaves of the flow.
#[cold]
fn remainder(flow: usize, slots: usize) -> usize
    requires { 0 < slots }
    ensures { result ≡ flow % slots }
{
    flow % slots
}

/// The flow's slot, of so many with this mask. A power of two needs no division.
#[inline(always)]
pub(crate) fn slot_in(slots: usize, mask: usize, flow: u32) -> usize
    requires { IsMasked slots mask }
    ensures value { result ≡ flow % slots }
    ensures within { result < slots }
{
    let flow = flow as usize;
    if mask < NO_MASK {
        flow & mask
    } else {
        remainder(flow, slots)
    }
}

/// The list of the slot's parked events of the level.
pub(crate) fn parked_list(level: Level, slot: usize) -> usize
    requires { slot < 64 }
    ensures { result ≡ list_of_slot slot level.number }
{
    LEVELS * (slot + 1) + level.number
}

/// The slots of a queue, by which the slot of a flow is found without the queue.
#[derive(Clone, Copy)]
pub struct QueueSlots {
    pub count: usize,
    pub(crate) mask: usize,
    pub ghost masked: { IsMasked count mask },
}

impl QueueSlots {
    ghost use Rattle.std.specs.Prelude.{◌≡◌, ◌%◌, ◌<◌};

    /// The flow's slot.
    #[inline(always)]
    pub fn of(self, flow: u32) -> usize
        ensures value { result ≡ flow % self.count }
        ensures within { result < self.count }
    {
        slot_in(self.count, self.mask, flow)
    }
}
