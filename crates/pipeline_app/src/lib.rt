//! The program's work: a document's script is played on a device, and the answers, the transcript and the report are printed, or the
//! picture of the transcript; a pipeline's document is run by threads, and what its stages accepted is printed.
#![tactic(auto)]

mod checking;
mod counted;
mod drive;
mod form;
mod obey;
mod run;

pub use checking::check;
pub use command_line::{AppFault, Choice, Task, choice, fault_line};
pub use counted::{RunStats, StatsForm, run_with_counts};
pub use drive::{play, play_as};
pub use form::Form;
pub use pipeline_threads::{Gate, OpenGate, Phase};
pub use run::{pipeline_text, run_explained, run_trace};
