//! The law of pipelines: a pipeline whose stages are queues, run by any threads in whatever order, leaves what one thread would
//! compute from its trace. Definitions, in `specs`; the laws, each the contract of a function that does nothing; a stage's answer; the
//! check and the text of a finished log; and a log that keeps what the text says.
#![tactic(auto)]

mod accepted;
mod accepted_log;
mod answers;
mod check;
mod example;
mod laws;
mod past;
mod stage;
mod text;

pub use accepted_log::AcceptedLog;
pub use answers::answer;
pub use check::answers_are_due;
pub use example::worked_run_is_finished;
pub use laws::{
    finished_run_is_plain, finished_text_is_plain, promised_log_is_worked, promised_news_are_first,
};
pub use stage::{Action, Entry};
pub use text::{write_accepted, write_run};
