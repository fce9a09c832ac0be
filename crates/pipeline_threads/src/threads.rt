//! The threads of a pipeline.

ghost use Rattle.std.specs.Prelude.{◌≡◌, ◌≤◌, [], All, IfOk, OnOk, Some, None, length, slice_get};
ghost use Rattle.pipeline_laws.specs.Pipeline.{IsProper};
ghost use Rattle.event_device.specs.Device.{IsPortOf, number_of};
ghost use Rattle.event_device.specs.Lent.{ComesBack};
ghost use Rattle.event_ports.specs.Ports.{counts_of};
ghost use Rattle.evt_types.specs.declared.shape.TheConstants.{MAX_PORTS};
ghost use Rattle.event_device.specs.Parts.{device_of};
ghost use Rattle.pipeline_threads.specs.Ports.{IsIdle, Returns};
ghost use Rattle.pipeline_threads.specs.Run.{AreIdle, ArePortWorks, HasRun};

use crate::gate::Gate;
use crate::producer::produce;
use crate::promise::{Returned, Worked};
use crate::sweeps::sweep_all;
use crate::worker::work;
use arrayvec::ArrayVec;
use event_device::{Device, Memory, Port, StepLog};
use evt_types::MAX_PORTS;
use pipeline_laws::{Action, Entry};
use run_counts::{Looks, PortWork, ThreadWork};
use std::alloc::AllocError;
use std::snapshot::Snapshot;
use std::sync::Wait;
use std::thread;
use std::thread::{Scope, Threads};

/// What a port's thread does: port 0's is the producer, each other's a worker, which dequeues at most so many events at once.
fn run_port<R: Wait, G: Gate>(
    rt: &R,
    gate: &G,
    actions: &[Action],
    trace: &[Entry],
    most: usize,
    port: Port,
) -> Worked
    requires actions { All IsProper actions.now }
    requires few { length actions.now ≤ 255 }
    requires idle { IsIdle port }
    ensures { Returns actions.now trace.now port result }
{
    if port.number() == 0 {
        let port = produce(rt, trace, port);
        Worked {
            port,
            looks: Looks::none(),
        }
    } else {
        work(rt, gate, actions, most, port)
    }
}

/// Puts a port into its home, which is empty.
fn put_home<L: StepLog>(device: &mut Device<L>, port: Port)
    requires port { IsPortOf (device_of device.old) port }
    requires empty { slice_get device.old.ports (number_of port) ≡ Some None }
    ensures back { ComesBack port device.old device.new }
    ensures device { device_of device.new ≡ device_of device.old }
{
    let Ok(()) = device.put_back(port) else {
        unreachable!()
    };
}

/// What was counted of a port and of its thread.
fn work_of(back: &Worked) -> PortWork
    ensures port { result.port ≡ number_of back.now.port }
    ensures counts { result.counts ≡ counts_of back.now.port }
    ensures looks { result.looks ≡ back.now.looks }
{
    PortWork {
        port: back.port.number(),
        counts: back.port.counts(),
        looks: back.looks,
    }
}

/// Starts a thread for the last of so many ports, runs the ports before it and joins that thread; adds what was counted of each, by
/// number, and answers how often the scheduler swept. Once all have a thread this one sweeps, and shuts the device at the end. Where a
/// thread can't be started or memory runs out the device is shut and the threads are joined.
fn run_ports<'s, E, R: Threads + Wait + Sync, G: Gate, L: StepLog>(
    rt: &'s R,
    scope: &Scope<'s, E>,
    gate: &'s G,
    actions: &'s [Action],
    trace: &'s [Entry],
    most: usize,
    device: &mut Device<L>,
    works: &mut ArrayVec<PortWork, MAX_PORTS>,
    count: usize,
) -> Result<u64, Memory>
    requires actions { All IsProper actions.now }
    requires few { length actions.now ≤ 255 }
    requires idle { AreIdle count device.old }
    requires fits { count ≤ MAX_PORTS }
    requires none { works.old.items ≡ [] }
    ensures ran { OnOk result (HasRun actions.now trace.now count device.old device.new) }
    ensures works { OnOk result (ArePortWorks count device.new works.new.items) }
{
    if count == 0 {
        let swept = sweep_all(rt, gate, device, trace);
        device.shut();
        return swept;
    }
    let Some(port) = device.take_port(count - 1) else {
        unreachable!()
    };
    let promise = Returned {
        start: Snapshot::of(&port),
        actions,
        trace,
    };
    let job = move || -> Worked
        requires { (All IsProper actions.now) × (length actions.now ≤ 255) × IsIdle port }
        ensures { Returns actions.entry.now trace.entry.now port result }
    { run_port(rt, gate, actions, trace, most, port) };
    let thread = match scope.spawn_with(promise, job) {
        Ok(thread) => thread,
        // `drop` ends the job and its port in a call: else this body would, part by part, for the proof to follow.
        Err(refused) => {
            drop(refused.value);
            device.shut();
            return Err(AllocError);
        }
    };
    let ran = run_ports(
        rt,
        scope,
        gate,
        actions,
        trace,
        most,
        device,
        works,
        count - 1,
    );
    let back = thread.join(rt);
    let Ok(sweeps) = ran else {
        drop(back);
        return Err(AllocError);
    };
    works.push(work_of(&back));
    put_home(device, back.port);
    Ok(sweeps)
}

/// Runs the trace through the pipeline: each of so many ports in a thread of its own, the scheduler in this one; and what was counted of
/// them. A worker dequeues at most `most` events at once.
pub(crate) fn run_threads<R: Threads + Wait + Sync, G: Gate, L: StepLog>(
    rt: &R,
    gate: &G,
    actions: &[Action],
    trace: &[Entry],
    most: usize,
    device: Device<L>,
    count: usize,
) -> Result<(Device<L>, ThreadWork), Memory>
    requires actions { All IsProper actions.now }
    requires few { length actions.now ≤ 255 }
    requires idle { AreIdle count device }
    requires fits { count ≤ MAX_PORTS }
    ensures ran { IfOk result (λ r. HasRun actions.now trace.now count device r.0) }
    ensures works { IfOk result (λ r. ArePortWorks count r.0 r.1.ports.items) }
{
    thread::scope(
        thread::scope_env(),
        rt,
        |scope| -> Result<(Device<L>, ThreadWork), Memory>
            requires { (All IsProper actions.now) × (length actions.now ≤ 255) × AreIdle count device × (count ≤ MAX_PORTS) }
            ensures { IfOk result (λ r. HasRun actions.entry.now trace.entry.now count device r.0 × ArePortWorks count r.0 r.1.ports.items) }
        {
            let mut device = device;
            let mut ports = ArrayVec::new();
            let ran = run_ports(
                rt,
                scope,
                gate,
                actions,
                trace,
                most,
                &mut device,
                &mut ports,
                count,
            );
            match ran {
                Ok(sweeps) => Ok((device, ThreadWork { ports, sweeps })),
                Err(memory) => {
                    drop(device);
                    Err(memory)
                }
            }
        },
    )
}
