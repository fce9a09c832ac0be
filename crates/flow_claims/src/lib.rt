//! Lanes that the ports hold by turns: a port claims a lane by one atomic exchange, without a lock and without a pin.
//!
//! Each lane has a word, which says how many stints it has had and which port has it now, and a slot with the lane's end.
//! A thread steps with a seat, which knows its open and its finished stints. Between any two steps of any seats, a lane's end
//! is in its slot or in just one seat's open stint, and the finished stints of all seats are each lane's record.
#![tactic(auto)]

mod boxed;
mod claim;
mod claims;
mod ends;
mod laws;
mod rule;
mod seating;

pub use boxed::BoxedFar;
pub use claim::{Claim, Stint};
pub use claims::{ClaimSeat, Claims, MAX_STINTS, NO_PORT};
pub use evt_types::Memory;
pub use laws::{
    a_lane_at_home_is_settled, a_lane_has_one_holder, a_step_changes_one_seat, new_claims_are_free,
    open_stints_keep_their_weight, parts_add_up, stints_add_up_by_lane, stints_are_numbered,
    stints_go_on,
};
pub use rule::ClaimRule;
pub use seating::{Begun, LaneLists, Past, Reading, Seating};
