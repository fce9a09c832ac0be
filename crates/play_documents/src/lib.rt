//! What a document says: the configuration of a device and the commands of a script, or its first fault.
#![tactic(auto)]

mod command;
mod document;
mod drafts;
mod fault;
pub mod field;
mod judge;
mod numbers;
mod script;
mod survey;
pub mod words;

pub use command::Command;
pub use document::{Document, MAX_INPUT, checked, read_document, shape_fault, table_of};
pub use drafts::{device_draft, queue_draft};
pub use fault::{DocFault, ReadFault};
pub use judge::{has_bad_device, has_bad_queue, misses_device, misses_queue, rows_fault};
pub use numbers::numbers_are_defined;
pub use survey::{DeviceRow, QueueRow, device_row, queue_row};
