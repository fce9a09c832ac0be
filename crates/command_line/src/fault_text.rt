//! What the program prints for a fault, and the status that it ends with.

ghost use Rattle.std.specs.Prelude.{◌≡◌, ◌≤◌, ◌++◌, length, IfSome, option_map};
ghost use Rattle.command_line.specs.FaultText.{status_of, line_of_fault, shape_fault_name, doc_fault_name, line_number};

use crate::fault::AppFault;
use arrayvec::ArrayString;
use evt_types::ShapeFault;
use itoa::Buffer;
use play_documents::DocFault;

/// What is printed where memory ran out.
const NO_MEMORY: &str = "evsched: out of memory or seats";

/// The name of a configuration's refusal, which want of memory isn't.
fn shape_fault_name(fault: ShapeFault) -> Option<&'static str>
    ensures name { option_map (λ s. s.now) result ≡ shape_fault_name fault }
    ensures short { IfSome result (λ s. length s.now ≤ 15) }
{
    match fault {
        ShapeFault::QueueCount => Some("QueueCount"),
        ShapeFault::PortCount => Some("PortCount"),
        ShapeFault::LimitRange => Some("LimitRange"),
        ShapeFault::QuantumRange => Some("QuantumRange"),
        ShapeFault::ThresholdRange => Some("ThresholdRange"),
        ShapeFault::DepthRange => Some("DepthRange"),
        ShapeFault::FlowSlots => Some("FlowSlots"),
        ShapeFault::OrderDepth => Some("OrderDepth"),
        ShapeFault::SweepRange => Some("SweepRange"),
        ShapeFault::LinkUnknown => Some("LinkUnknown"),
        ShapeFault::LinkTwice => Some("LinkTwice"),
        ShapeFault::QueueUnlinked => Some("QueueUnlinked"),
        ShapeFault::SingleLinkCount => Some("SingleLinkCount"),
        ShapeFault::Memory => None,
    }
}

/// The name of a document's fault.
fn doc_fault_name(fault: DocFault) -> Option<&'static str>
    ensures name { option_map (λ s. s.now) result ≡ doc_fault_name fault }
    ensures short { IfSome result (λ s. length s.now ≤ 15) }
{
    match fault {
        DocFault::TooLong => Some("TooLong"),
        DocFault::NotToml => Some("NotToml"),
        DocFault::UnknownKey => Some("UnknownKey"),
        DocFault::MissingKey => Some("MissingKey"),
        DocFault::BadValue => Some("BadValue"),
        DocFault::ParallelInside => Some("ParallelInside"),
        DocFault::LastAction => Some("LastAction"),
        DocFault::Shape(fault) => shape_fault_name(fault),
        DocFault::LimitTight => Some("LimitTight"),
        DocFault::BadCommand(_) => Some("BadCommand"),
        DocFault::BadTrace(_) => Some("BadTrace"),
    }
}

/// Adds the number of the line that a fault names.
fn push_line_number(fault: DocFault, out: &mut ArrayString<64>)
    requires { length out.old.bytes ≤ 40 }
    ensures { out.new.bytes ≡ out.old.bytes ++ line_number fault }
{
    match fault {
        DocFault::BadCommand(line) | DocFault::BadTrace(line) => {
            out.push_str(" ");
            out.push_str(Buffer::new().format(line));
        }
        DocFault::TooLong
        | DocFault::NotToml
        | DocFault::UnknownKey
        | DocFault::MissingKey
        | DocFault::BadValue
        | DocFault::ParallelInside
        | DocFault::LastAction
        | DocFault::Shape(_)
        | DocFault::LimitTight => {}
    }
}

/// Writes the line of a fault, without a line end, in place of what `out` holds, and gives the status.
pub fn fault_line(fault: &AppFault, out: &mut ArrayString<64>) -> u8
    ensures status { result ≡ status_of fault.now }
    ensures line { out.new.bytes ≡ line_of_fault fault.now }
{
    out.clear();
    match fault {
        AppFault::Read => {
            out.push_str("evsched: read failed");
            3
        }
        AppFault::Write => {
            out.push_str("evsched: write failed");
            3
        }
        AppFault::Document(fault) => match doc_fault_name(*fault) {
            Some(name) => {
                out.push_str("evsched: document: ");
                out.push_str(name);
                push_line_number(*fault, out);
                4
            }
            None => {
                out.push_str(NO_MEMORY);
                5
            }
        },
        AppFault::Memory | AppFault::NoSeat => {
            out.push_str(NO_MEMORY);
            5
        }
        AppFault::Strayed(_) => {
            out.push_str("evsched: a worker strayed");
            6
        }
    }
}
