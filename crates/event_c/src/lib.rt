//! The device behind opaque handles that lie in memory of C's: each export calls the library's function and states its clause again.
#![tactic(auto)]

ghost use Rattle.std.specs.Prelude.{◌≡◌};
ghost use Rattle.std.specs.Ptr.{points_to, uninit_at};
ghost use denote.Memory.{lone};
ghost use prog.Memory.{size};
ghost use types.Logic.{sem};
ghost use Rattle.event_c.specs.Exports.{changes};
ghost use Rattle.event_handles.specs.contracts.control.ControlHandle.{the_row as control_row};
ghost use Rattle.event_handles.specs.contracts.hub.Hub.{the_row as hub_row};
ghost use Rattle.event_handles.specs.contracts.port.PortHandle.{the_row as port_row};
ghost use Rattle.event_handles.specs.declared.control.ControlHandle.{ControlHandle as ControlValue};
ghost use Rattle.event_handles.specs.declared.hub.Hub.{Hub as HubValue};
ghost use Rattle.event_handles.specs.declared.port.PortHandle.{PortHandle as PortValue};
ghost use Rattle.event_handles.specs.Counts as tallies;
ghost use Rattle.event_handles.specs.Hands.{Hands, HandsControl, IsControlOf, IsOf, IsShut, IsSweep, Joins, JoinsControl};
ghost use Rattle.event_handles.specs.Hub.{inside_in};
ghost use Rattle.event_handles.specs.Now.{IsNow, IsShared};
ghost use Rattle.event_handles.specs.Ports as ports;
ghost use Rattle.event_handles.specs.Pulls.{IsLeft};
ghost use Rattle.event_handles.specs.Report.{IsReported};
ghost use Rattle.event_handles.specs.Start.{IsNew};
ghost use Rattle.event_handles.specs.Stop.{IsStop};

use event_handles::{CEvent, CLeft, Config, ControlHandle, Hub, PortHandle};
use std::alloc::Global;

/// How many bytes a hub's room has.
#[unsafe(no_mangle)]
pub extern "C" fn evsched_hub_size() -> usize
    ensures { result ≡ size (lone hub_row.mir) }
{
    std::mem::size_of::<Hub>()
}

/// How many bytes a port's room has.
#[unsafe(no_mangle)]
pub extern "C" fn evsched_port_size() -> usize
    ensures { result ≡ size (lone port_row.mir) }
{
    std::mem::size_of::<PortHandle>()
}

/// How many bytes a control's room has.
#[unsafe(no_mangle)]
pub extern "C" fn evsched_control_size() -> usize
    ensures { result ≡ size (lone control_row.mir) }
{
    std::mem::size_of::<ControlHandle>()
}

/// Fills a hub's room with a device of this configuration, or with why there is none.
#[unsafe(no_mangle)]
pub unsafe extern "C" fn evsched_hub_init(alloc: Global, at: *mut u8, config: &Config)
    requires* { sem 𝓛 (uninit_at hub_row at) }
    ensures* { changes 𝓛 hub_row at (λ new. IsNew new config.now) }
{
    (at as *mut Hub).write(Hub::new(alloc, config));
}

/// Fills a port's room with the hub's port of this number.
#[unsafe(no_mangle)]
pub unsafe extern "C" fn evsched_hub_port(at: *mut u8, number: usize, port: *mut u8)
    ghost value: { HubValue }
    requires* { sem 𝓛 (points_to hub_row at value) ∗ sem 𝓛 (uninit_at port_row port) }
    ensures* { ∃ₛ (λ (new : HubValue). ∃ₛ (λ (made : PortValue). (sem 𝓛 (points_to hub_row at new) ∗ sem 𝓛 (points_to port_row port made)) ∗ ⌜ Hands value number new made ⌝)) }
{
    let hub = &mut *(at as *mut Hub);
    (port as *mut PortHandle).write(hub.hand_out(number));
}

/// Fills a control's room with the hub's control.
#[unsafe(no_mangle)]
pub unsafe extern "C" fn evsched_hub_control(at: *mut u8, control: *mut u8)
    ghost value: { HubValue }
    requires* { sem 𝓛 (points_to hub_row at value) ∗ sem 𝓛 (uninit_at control_row control) }
    ensures* { ∃ₛ (λ (new : HubValue). ∃ₛ (λ (made : ControlValue). (sem 𝓛 (points_to hub_row at new) ∗ sem 𝓛 (points_to control_row control made)) ∗ ⌜ HandsControl value new made ⌝)) }
{
    let hub = &mut *(at as *mut Hub);
    (control as *mut ControlHandle).write(hub.hand_control());
}

/// Takes a port of this hub back, and empties its room.
#[unsafe(no_mangle)]
pub unsafe extern "C" fn evsched_hub_join(at: *mut u8, port: *mut u8) -> i64
    ghost value: { HubValue × PortValue }
    requires* { (sem 𝓛 (points_to hub_row at value.0) ∗ sem 𝓛 (points_to port_row port value.1)) ∗ ⌜ IsOf value.0 value.1 ⌝ }
    ensures* { changes 𝓛 hub_row at (λ new. Joins value.0 value.1 new result) ∗ sem 𝓛 (uninit_at port_row port) }
{
    let hub = &mut *(at as *mut Hub);
    hub.join((port as *mut PortHandle).read())
}

/// Takes the control of this hub back, and empties its room.
#[unsafe(no_mangle)]
pub unsafe extern "C" fn evsched_hub_join_control(at: *mut u8, control: *mut u8) -> i64
    ghost value: { HubValue × ControlValue }
    requires* { (sem 𝓛 (points_to hub_row at value.0) ∗ sem 𝓛 (points_to control_row control value.1)) ∗ ⌜ IsControlOf value.0 value.1 ⌝ }
    ensures* { changes 𝓛 hub_row at (λ new. JoinsControl value.0 value.1 new result) ∗ sem 𝓛 (uninit_at control_row control) }
{
    let hub = &mut *(at as *mut Hub);
    hub.join_control((control as *mut ControlHandle).read())
}

/// One sweep.
#[unsafe(no_mangle)]
pub unsafe extern "C" fn evsched_hub_sweep(at: *mut u8) -> i64
    ghost value: { HubValue }
    requires* { sem 𝓛 (points_to hub_row at value) }
    ensures* { changes 𝓛 hub_row at (λ new. IsSweep value new result) }
{
    (*(at as *mut Hub)).sweep()
}

/// Takes the device apart.
#[unsafe(no_mangle)]
pub unsafe extern "C" fn evsched_hub_stop(at: *mut u8) -> i64
    ghost value: { HubValue }
    requires* { sem 𝓛 (points_to hub_row at value) }
    ensures* { changes 𝓛 hub_row at (λ new. IsStop value new result) }
{
    (*(at as *mut Hub)).stop()
}

/// How many events are inside.
#[unsafe(no_mangle)]
pub unsafe extern "C" fn evsched_hub_inside(at: *mut u8) -> i64
    ghost value: { HubValue }
    requires* { sem 𝓛 (points_to hub_row at value) }
    ensures* { sem 𝓛 (points_to hub_row at value) ∗ ⌜ result ≡ inside_in value.device value.stopped value.why ⌝ }
{
    (*(at as *mut Hub)).inside()
}

/// Why there is no device.
#[unsafe(no_mangle)]
pub unsafe extern "C" fn evsched_hub_why(at: *mut u8) -> i64
    ghost value: { HubValue }
    requires* { sem 𝓛 (points_to hub_row at value) }
    ensures* { sem 𝓛 (points_to hub_row at value) ∗ ⌜ result ≡ value.why ⌝ }
{
    (*(at as *mut Hub)).why()
}

/// Writes what was counted.
#[unsafe(no_mangle)]
pub unsafe extern "C" fn evsched_hub_counts(at: *mut u8, what: usize, counts: &mut [u64]) -> i64
    ghost value: { HubValue }
    requires* { sem 𝓛 (points_to hub_row at value) }
    ensures* { sem 𝓛 (points_to hub_row at value) ∗ ⌜ tallies.IsCounted value what counts.old counts.new result ⌝ }
{
    (*(at as *mut Hub)).counts(what, counts)
}

/// Writes what is so now.
#[unsafe(no_mangle)]
pub unsafe extern "C" fn evsched_hub_now(at: *mut u8, what: usize, counts: &mut [u64]) -> i64
    ghost value: { HubValue }
    requires* { sem 𝓛 (points_to hub_row at value) }
    ensures* { changes 𝓛 hub_row at (λ new. IsNow value what new counts.old counts.new result) }
{
    (*(at as *mut Hub)).now(what, counts)
}

/// Writes what a port's lane has of a queue.
#[unsafe(no_mangle)]
pub unsafe extern "C" fn evsched_hub_shares(
    at: *mut u8,
    queue: usize,
    port: usize,
    counts: &mut [u64],
) -> i64
    ghost value: { HubValue }
    requires* { sem 𝓛 (points_to hub_row at value) }
    ensures* { sem 𝓛 (points_to hub_row at value) ∗ ⌜ IsShared value queue port counts.old counts.new result ⌝ }
{
    (*(at as *mut Hub)).shares(queue, port, counts)
}

/// Writes the numbers of the report.
#[unsafe(no_mangle)]
pub unsafe extern "C" fn evsched_hub_report(at: *mut u8, counts: &mut [u64]) -> i64
    ghost value: { HubValue }
    requires* { sem 𝓛 (points_to hub_row at value) }
    ensures* { sem 𝓛 (points_to hub_row at value) ∗ ⌜ IsReported value counts.old counts.new result ⌝ }
{
    (*(at as *mut Hub)).report(counts)
}

/// Writes the events that were left at the stop.
#[unsafe(no_mangle)]
pub unsafe extern "C" fn evsched_hub_left(at: *mut u8, left: &mut [CLeft]) -> i64
    ghost value: { HubValue }
    requires* { sem 𝓛 (points_to hub_row at value) }
    ensures* { changes 𝓛 hub_row at (λ new. IsLeft value new left.old left.new result) }
{
    (*(at as *mut Hub)).left(left)
}

/// Empties a hub's room.
#[unsafe(no_mangle)]
pub unsafe extern "C" fn evsched_hub_clear(at: *mut u8)
    ghost value: { HubValue }
    requires* { sem 𝓛 (points_to hub_row at value) }
    ensures* { sem 𝓛 (uninit_at hub_row at) }
{
    (at as *mut Hub).read().close();
}

/// Why the last burst ended early.
#[unsafe(no_mangle)]
pub unsafe extern "C" fn evsched_port_why(at: *mut u8) -> i64
    ghost value: { PortValue }
    requires* { sem 𝓛 (points_to port_row at value) }
    ensures* { sem 𝓛 (points_to port_row at value) ∗ ⌜ result ≡ ports.why_in value.seat ⌝ }
{
    (*(at as *mut PortHandle)).why()
}

/// How many deliveries the port holds.
#[unsafe(no_mangle)]
pub unsafe extern "C" fn evsched_port_held(at: *mut u8) -> i64
    ghost value: { PortValue }
    requires* { sem 𝓛 (points_to port_row at value) }
    ensures* { sem 𝓛 (points_to port_row at value) ∗ ⌜ result ≡ ports.held_in value.seat ⌝ }
{
    (*(at as *mut PortHandle)).held()
}

/// How many credits are in the port's pocket.
#[unsafe(no_mangle)]
pub unsafe extern "C" fn evsched_port_pocket(at: *mut u8) -> i64
    ghost value: { PortValue }
    requires* { sem 𝓛 (points_to port_row at value) }
    ensures* { sem 𝓛 (points_to port_row at value) ∗ ⌜ result ≡ ports.pocket_in value.seat ⌝ }
{
    (*(at as *mut PortHandle)).pocket()
}

/// Writes what the port counted.
#[unsafe(no_mangle)]
pub unsafe extern "C" fn evsched_port_counts(at: *mut u8, counts: &mut [u64]) -> i64
    ghost value: { PortValue }
    requires* { sem 𝓛 (points_to port_row at value) }
    ensures* { sem 𝓛 (points_to port_row at value) ∗ ⌜ ports.IsCounted value.seat counts.old counts.new result ⌝ }
{
    (*(at as *mut PortHandle)).counts(counts)
}

/// Enqueues events.
#[unsafe(no_mangle)]
pub unsafe extern "C" fn evsched_port_enqueue(at: *mut u8, events: &[CEvent]) -> i64
    ghost value: { PortValue }
    requires* { sem 𝓛 (points_to port_row at value) }
    ensures* { changes 𝓛 port_row at (λ new. ports.IsEnqueue value.seat new.seat events.now result) }
{
    (*(at as *mut PortHandle)).enqueue(events)
}

/// Dequeues events.
#[unsafe(no_mangle)]
pub unsafe extern "C" fn evsched_port_dequeue(at: *mut u8, events: &mut [CEvent]) -> i64
    ghost value: { PortValue }
    requires* { sem 𝓛 (points_to port_row at value) }
    ensures* { changes 𝓛 port_row at (λ new. ports.IsDequeue value.seat new.seat events.old events.new result) }
{
    (*(at as *mut PortHandle)).dequeue(events)
}

/// Empties a port's room.
#[unsafe(no_mangle)]
pub unsafe extern "C" fn evsched_port_clear(at: *mut u8)
    ghost value: { PortValue }
    requires* { sem 𝓛 (points_to port_row at value) }
    ensures* { sem 𝓛 (uninit_at port_row at) }
{
    (at as *mut PortHandle).read().close();
}

/// Shuts the device.
#[unsafe(no_mangle)]
pub unsafe extern "C" fn evsched_control_shut(at: *mut u8) -> i64
    ghost value: { ControlValue }
    requires* { sem 𝓛 (points_to control_row at value) }
    ensures* { changes 𝓛 control_row at (λ new. IsShut value new result) }
{
    (*(at as *mut ControlHandle)).shut()
}

/// Empties a control's room.
#[unsafe(no_mangle)]
pub unsafe extern "C" fn evsched_control_clear(at: *mut u8)
    ghost value: { ControlValue }
    requires* { sem 𝓛 (points_to control_row at value) }
    ensures* { sem 𝓛 (uninit_at control_row at) }
{
    (at as *mut ControlHandle).read().close();
}
