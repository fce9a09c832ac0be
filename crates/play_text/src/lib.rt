//! The text of a played script: what its calls answered, the transcript, and the report of what is left in the device.
#![tactic(auto)]

mod answer;
mod answer_lines;
mod log_lines;
mod report_lines;
mod text;
mod words;

pub use answer::Answer;
pub use event_answers::{Behind, Held, Refused, Report, Swept, Undelivered, Untaken};
pub use log_lines::{Counts, write_step};
pub use text::text_of;
