//! The reading of a script.

ghost use Rattle.std.specs.Prelude.{◌≡◌, map, IfOk, option_map};
ghost use Rattle.play_documents.specs.Command.{line_of};
ghost use Rattle.play_documents.specs.Document.{Gives};
ghost use Rattle.play_documents.specs.Script.{command_of, entry_op, line_command, event_line, release_line, dequeue_line, script_of};

use crate::command::Command;
use crate::fault::{DocFault, ReadFault};
use crate::words::{lines, next_line, number, port_number, without_carriage_return, words};
use evt_types::{Event, MAX_FLOWS, Op};
use std::alloc::{AllocError, Global};

/// The most events that a dequeue may ask for.
pub(crate) const MAX_DEQUEUE: u64 = 64;
/// The highest number of a queue, and the lowest priority.
pub(crate) const MAX_BYTE: u64 = 255;

/// The operation of a command that brings an event.
fn entry_op(name: &str) -> Option<Op>
    ensures { result ≡ entry_op name.now }
{
    if name == "new" {
        Some(Op::New)
    } else if name == "fwd" {
        Some(Op::Forward)
    } else if name == "more" {
        Some(Op::ForwardMore)
    } else {
        None
    }
}

/// A NEW, a FORWARD or a FORWARD_MORE by the port, of these words.
#[tactic(auto, unfolding(crate::specs::Script::event_line))]
fn event_command(
    op: Op,
    ports: usize,
    port: &str,
    queue: &str,
    flow: &str,
    priority: &str,
    payload: &str,
) -> Option<Command>
    ensures { option_map line_of result ≡ event_line op ports port.now queue.now flow.now priority.now payload.now }
{
    let port = port_number(port, ports)?;
    let queue = number(queue, MAX_BYTE)? as u8;
    let flow = number(flow, u64::from(MAX_FLOWS) - 1)? as u32;
    let priority = number(priority, MAX_BYTE)? as u8;
    let payload = number(payload, u64::MAX)?;
    match Event::new(flow, 0, 0, op, queue, priority, payload) {
        Ok(event) => Some(Command::Enqueue { port, event }),
        Err(_) => None,
    }
}

/// A RELEASE by the port.
#[tactic(auto, unfolding(crate::specs::Script::release_line))]
fn release_command(ports: usize, port: &str) -> Option<Command>
    ensures { option_map line_of result ≡ release_line ports port.now }
{
    let port = port_number(port, ports)?;
    let event = Event::release();
    Some(Command::Enqueue { port, event })
}

/// A dequeue by the port.
#[tactic(auto, unfolding(crate::specs::Script::dequeue_line))]
fn dequeue_command(ports: usize, port: &str, max: &str) -> Option<Command>
    ensures { option_map line_of result ≡ dequeue_line ports port.now max.now }
{
    let port = port_number(port, ports)?;
    let max = number(max, MAX_DEQUEUE)? as usize;
    Some(Command::Dequeue { port, max })
}

/// The command of a line's words.
fn command_of(ports: usize, words: &[&str]) -> Option<Command>
    ensures { option_map line_of result ≡ command_of ports (map (λ s. s.now) words.now) }
{
    match words {
        [name] => {
            if *name == "sweep" {
                Some(Command::Sweep)
            } else if *name == "shut" {
                Some(Command::Shut)
            } else {
                None
            }
        }
        [name, port] => {
            if *name == "rel" {
                release_command(ports, port)
            } else {
                None
            }
        }
        [name, port, max] => {
            if *name == "deq" {
                dequeue_command(ports, port, max)
            } else {
                None
            }
        }
        [name, port, queue, flow, priority, payload] => match entry_op(name) {
            Some(op) => event_command(op, ports, port, queue, flow, priority, payload),
            None => None,
        },
        _ => None,
    }
}

/// The command of a line.
#[tactic(auto, unfolding(crate::specs::Script::line_command))]
fn line_command(alloc: Global, ports: usize, line: &str) -> Result<Option<Command>, AllocError>
    ensures { IfOk result (λ c. option_map line_of c ≡ line_command ports line.now) }
{
    let words = words(alloc, line)?;
    Ok(command_of(ports, &words))
}

/// The commands of a script, for so many ports.
pub fn read_script(alloc: Global, ports: usize, script: &str) -> Result<Vec<Command>, ReadFault>
    ensures { Gives (λ v. map line_of v.items) result (script_of ports script.now) }
{
    let lines = lines(alloc, script)?;
    let mut commands = Vec::new(alloc);
    let mut number = 0u32;
    for line in &lines {
        number = next_line(number)?;
        let line = without_carriage_return(line);
        if line.is_empty() {
            continue;
        }
        match line_command(alloc, ports, line)? {
            Some(command) => commands.push(command)?,
            None => return Err(ReadFault::Document(DocFault::BadCommand(number))),
        }
    }
    Ok(commands)
}
