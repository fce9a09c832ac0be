//! A device is stopped, and each of its events accounted for.

use crate::apart::{Apart, Still};
use crate::books::Books;
use crate::control::Control;
use crate::held::{add_ends, list_ports};
use crate::list_events::{list_kept, list_waiting};
use crate::list_lanes::list_lanes;
use crate::port_order::{by_number, missing};
use crate::recorder::Recorder;
use crate::room::Room;
use event_answers::{Report, StopFault};
use event_ports::Port;
use std::alloc::Global;
use step_log::StepLog;

impl<L: StepLog> Recorder<L> {
    ghost use Rattle.std.specs.Prelude.{◌≡◌, ◌<◌, ◌≤◌, ℕ, [], length, vec_capacity, IfOk, IfErr};
    ghost use Rattle.event_scheduler.specs.Parts.{sight_in};
    ghost use Rattle.event_scheduler.specs.Scheduler.{Serves};
    ghost use Rattle.evt_types.specs.Fault.{IsWithinLimits};
    ghost use Rattle.event_device.specs.Apart.{IsApart};
    ghost use Rattle.event_device.specs.Ports.{AreByNumber, IsThere, Refuses};
    ghost use Rattle.event_device.specs.Room.{HasRoom};
    ghost use Rattle.event_device.specs.Stop.{AreOf, IsReport};

    /// Stops the device, with its control and all its ports, in any order, and reports what its scheduler did and where each event and
    /// each credit is that is left. It doesn't sweep. Where a port isn't there or memory runs out all comes back.
    pub fn stop(
        self,
        alloc: Global,
        control: Control,
        ports: Vec<Port>,
    ) -> Result<Report<L>, (StopFault, Recorder<L>, Control, Vec<Port>)>
        requires { AreOf self control ports.items }
        ensures report { IfOk result (IsReport L.steps self control ports.items) }
        ensures refused { IfErr result (λ e. Refuses (length self.sight.core.shape.ports) ports.items e.0) }
        ensures back { IfErr result (λ e. (e.1 ≡ self) × (e.2 ≡ control) × (e.3 ≡ ports)) }
    {
        let count = self.port_count();
        if let Some(port) = missing(&ports, count) {
            return Err((StopFault::Missing { port }, self, control, ports));
        }
        match Room::reserve(alloc, self.scheduler.core()) {
            Ok(room) => {
                let report = self.close(control, ports, room);
                Ok(report)
            }
            Err(_) => Err((StopFault::Memory, self, control, ports)),
        }
    }

    fn close(self, control: Control, ports: Vec<Port>, room: Room) -> Report<L>
        requires of { AreOf self control ports.items }
        requires there { (n : ℕ) → n < length self.sight.core.shape.ports → IsThere ports.items n }
        requires room { HasRoom self.sight.core room }
        ensures { IsReport L.steps self control ports.items result }
    {
        let Room {
            ports: sorted,
            mut rests,
            mut ends,
            mut fars,
            report: Report {
                log: (),
                mut waiting,
                mut kept,
                mut undelivered,
                mut held,
                mut untaken,
                turned: _,
                free: _,
                mut pockets,
                own: _,
            },
        } = room;
        let (Books { log, turned }, apart) = self.take_apart(control, ports, sorted);
        let Still {
            free,
            own,
            core,
            nears,
        } = apart.join_seats(&mut rests, &mut ends);
        list_waiting(&core, &mut waiting);
        list_kept(&core, &mut kept);
        drop(core);
        list_ports(rests, &mut held, &mut pockets, &mut fars);
        add_ends(ends, &mut fars);
        list_lanes(nears, fars, &mut undelivered, &mut untaken);
        Report {
            log,
            waiting,
            kept,
            undelivered,
            held,
            untaken,
            turned,
            free,
            pockets,
            own,
        }
    }

    /// The device's parts, its ports by number in `sorted`, which has room for them.
    fn take_apart(self, control: Control, ports: Vec<Port>, sorted: Vec<Port>) -> (Books<L>, Apart)
        requires of { AreOf self control ports.items }
        requires there { (n : ℕ) → n < length self.sight.core.shape.ports → IsThere ports.items n }
        requires room { (sorted.items ≡ []) × (length self.sight.core.shape.ports ≤ vec_capacity sorted) }
        ensures books { L.steps result.0.log ≡ self.log }
        ensures apart { IsApart result.1 }
        ensures scheduler { sight_in result.1.parts self.sight.accepted_new ≡ self.sight }
        ensures control { result.1.control ≡ control }
        ensures ports { AreByNumber (length self.sight.core.shape.ports) ports.items result.1.ports.items }
        ensures serves { Serves self.log self.sight }
    {
        let count = self.port_count();
        let Recorder { scheduler, books } = self;
        let apart = Apart {
            parts: scheduler.into_parts(),
            control,
            ports: by_number(ports, sorted, count),
        };
        (books, apart)
    }

    fn port_count(&self) -> usize
        ensures value { result ≡ length self.now.sight.core.shape.ports }
        ensures within { IsWithinLimits self.now.sight.core.shape }
    {
        let shape = self.scheduler.core().shape();
        let _ = shape.limit();
        shape.ports().len()
    }
}
