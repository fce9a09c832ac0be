//! The picture of a log that stands in a text, by the configuration of a document.
#![tactic(auto)]

mod drawn;
mod fault;

pub use drawn::picture_of_log;
pub use fault::PictureFault;
