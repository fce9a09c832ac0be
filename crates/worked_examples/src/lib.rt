//! Worked examples: small devices with what they have to write, which is lawful, and what they must not write, which is not; the moves
//! by which these logs came about, another order of moves, and moves that can't be made.
#![tactic(auto)]

mod logs;
mod worlds;

pub use logs::{worked_logs_are_lawful, wrong_logs_are_refused};
pub use worlds::{
    added_moves_lead_to_the_log, other_moves_lead_there_too, worked_moves_lead_to_the_log,
    wrong_moves_are_refused,
};
