//! The commands of a script are carried out on a device, of which each port stays at home between two calls.

ghost use Rattle.std.specs.Prelude.{◌≡◌, ◌<◌, All, IfOk, Some, None, length, map, slice_get};
ghost use Rattle.event_device.specs.Device.{IsPortOf, number_of};
ghost use Rattle.event_device.specs.Lent.{ComesBack, Leaves};
ghost use Rattle.event_device.specs.Parts.{device_of};
ghost use Rattle.play_documents.specs.Command.{IsPortThere, fields_of, line_of};
ghost use Rattle.pipeline_app.specs.Commands.{AreAllHome, ArePlayed, IsAnswerTo, PortDequeues, PortEnqueues, outcome_of};

use event_device::{Device, Port};
use evt_types::{Delivery, Event, Step};
use play_documents::Command;
use play_text::{Answer, Behind, Refused};
use std::alloc::{AllocError, Global};

/// Takes the port of this number, which is at home.
fn take_port(device: &mut Device<Vec<Step>>, number: usize) -> Port
    requires home { AreAllHome device.old }
    requires there { number < length (device_of device.old).plan.ports }
    ensures left { Leaves number result device.old device.new }
    ensures device { device_of device.new ≡ device_of device.old }
{
    match device.take_port(number) {
        Some(port) => port,
        None => unreachable!(),
    }
}

/// Puts a port back, whose home is empty.
fn put_back(device: &mut Device<Vec<Step>>, port: Port)
    requires port { IsPortOf (device_of device.old) port }
    requires away { slice_get device.old.ports (number_of port) ≡ Some None }
    ensures back { ComesBack port device.old device.new }
    ensures device { device_of device.new ≡ device_of device.old }
{
    let Ok(()) = device.put_back(port) else {
        unreachable!()
    };
}

/// The port of this number enqueues an event.
fn enqueue(device: &mut Device<Vec<Step>>, number: usize, event: Event) -> Result<(), Refused>
    requires home { AreAllHome device.old }
    requires there { number < length (device_of device.old).plan.ports }
    ensures call { PortEnqueues number (fields_of event) result device.old device.new }
    ensures home { AreAllHome device.new }
    ensures device { device_of device.new ≡ device_of device.old }
{
    let mut port = take_port(device, number);
    let outcome = port.enqueue(event);
    put_back(device, port);
    outcome
}

/// The port of this number dequeues, at most so many events.
fn dequeue(
    device: &mut Device<Vec<Step>>,
    alloc: Global,
    number: usize,
    max: usize,
) -> Result<Result<Vec<Delivery>, Behind>, AllocError>
    requires home { AreAllHome device.old }
    requires there { number < length (device_of device.old).plan.ports }
    ensures call { IfOk result (λ outcome. PortDequeues number max (outcome_of outcome) device.old device.new) }
    ensures home { AreAllHome device.new }
    ensures device { device_of device.new ≡ device_of device.old }
{
    let mut port = take_port(device, number);
    let outcome = port.dequeue(max);
    put_back(device, port);
    match outcome {
        Ok(deliveries) => Ok(Ok(Vec::from_slice(alloc, &deliveries)?)),
        Err(behind) => Ok(Err(behind)),
    }
}

/// Carries a command out.
fn obey(
    device: &mut Device<Vec<Step>>,
    alloc: Global,
    command: &Command,
) -> Result<Answer, AllocError>
    requires home { AreAllHome device.old }
    requires there { IsPortThere (length (device_of device.old).plan.ports) command.now }
    ensures answer { IfOk result (λ a. IsAnswerTo (line_of command.now) a device.old device.new) }
    ensures home { AreAllHome device.new }
    ensures device { device_of device.new ≡ device_of device.old }
{
    match *command {
        Command::Enqueue { port, event } => {
            let outcome = enqueue(device, port, event);
            Ok(Answer::Enqueued {
                port,
                op: event.op,
                outcome,
            })
        }
        Command::Dequeue { port, max } => {
            let outcome = dequeue(device, alloc, port, max)?;
            Ok(Answer::Dequeued { port, outcome })
        }
        Command::Sweep => {
            let swept = device.sweep()?;
            Ok(Answer::Swept(swept))
        }
        Command::Shut => {
            device.shut();
            Ok(Answer::Shut)
        }
    }
}

/// Carries the commands out, one after the other.
pub fn obey_all(
    device: &mut Device<Vec<Step>>,
    alloc: Global,
    commands: &[Command],
) -> Result<Vec<Answer>, AllocError>
    requires home { AreAllHome device.old }
    requires there { All (IsPortThere (length (device_of device.old).plan.ports)) commands.now }
    ensures answers { IfOk result (λ v. ArePlayed device.old (map line_of commands.now) v.items device.new) }
    ensures device { device_of device.new ≡ device_of device.old }
{
    let mut answers = Vec::new(alloc);
    for command in commands {
        let answer = obey(device, alloc, command)?;
        answers.push(answer)?;
    }
    Ok(answers)
}
