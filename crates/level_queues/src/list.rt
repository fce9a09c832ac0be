//! A list of waiting events.

ghost use Rattle.std.specs.Prelude.{◌≡◌, ◌<◌, length, drop, slice_get};
ghost use Rattle.std.specs.List.{remove};
ghost use Rattle.circular_buffer.specs.Buffer.{buffer};

use circular_buffer::HeapCircularBuffer;
use evt_types::Numbered;

/// Brings the event at this place to the front. The others keep their order.
fn bring_forward(events: &mut [Numbered], place: usize)
    requires { place < length events.old }
    ensures len { length events.new ≡ length events.old }
    ensures first { slice_get events.new 0 ≡ slice_get events.old place }
    ensures rest { drop 1 events.new ≡ remove events.old place }
{
    events[..place + 1].rotate_right(1);
}

/// Takes the event at this place out. The others keep their order. The oldest one leaves without any of them being moved.
pub(crate) fn take_out(list: &mut HeapCircularBuffer<Numbered>, place: usize) -> Option<Numbered>
    ensures value { result ≡ slice_get list.old.items place }
    ensures rest { list.new ≡ buffer (remove list.old.items place) list.old.capacity }
{
    if place == 0 {
        return list.pop_front();
    }
    if place >= list.len() {
        return None;
    }
    bring_forward(list.make_contiguous(), place);
    list.pop_front()
}
