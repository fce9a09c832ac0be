//! The program's edges: the words of its command line, the document that it reads, the text that it writes, and the line of a
//! fault.
#![tactic(auto)]

mod fault;
mod fault_text;
mod help_texts;
mod input;
mod numbers;
mod options;
mod output;
mod words;

pub use fault::AppFault;
pub use fault_text::fault_line;
pub use input::read_all;
pub use numbers::numbers_are_defined;
pub use options::{Choice, Task};
pub use output::write_text;
pub use words::choice;
