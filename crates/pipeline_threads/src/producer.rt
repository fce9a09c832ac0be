//! The producer: it brings the trace in.

ghost use Rattle.std.specs.Prelude.{◌≡◌};
ghost use Rattle.pipeline_laws.specs.Worked as worked;
ghost use Rattle.pipeline_laws.specs.Promises.{IsProducer};
ghost use Rattle.event_device.specs.Device.{site_of};
ghost use Rattle.event_ports.specs.Ports.{counts_of};
ghost use Rattle.pipeline_threads.specs.Ports.{IsIdle, lists_of};

use crate::submit::submit_all;
use event_device::Port;
use evt_types::{Event, Op};
use pipeline_laws::Entry;
use std::sync::Wait;

/// The NEW by which an event of the trace is brought to the first queue.
fn new_event(entry: &Entry) -> Event
    ensures { result ≡ worked.new_event entry.now }
{
    Event {
        flow: entry.flow,
        sub_type: 0,
        event_type: 0,
        op: Op::New,
        queue: 0,
        priority: entry.priority,
        impl_opaque: 0,
        payload: entry.payload,
    }
}

/// Enqueues the events of the trace, one after the other, until all are taken or the device is shut.
pub(crate) fn produce<R: Wait>(rt: &R, trace: &[Entry], port: Port) -> Port
    requires { IsIdle port }
    ensures site { site_of result ≡ site_of port }
    ensures dequeued { (counts_of result).dequeued ≡ (counts_of port).dequeued }
    ensures producer { IsProducer trace.now (lists_of result) }
{
    let mut port = port;
    for entry in trace {
        if !submit_all(rt, &mut port, &[new_event(entry)]) {
            return port;
        }
    }
    port
}
