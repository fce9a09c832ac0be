//! What is left in a lane. Deliveries are known by their numbers, and replies by their operation and number.

use super::made::{delivery, pair, reply};
use evt_types::Op;
use lane_rings::Beside;

/// Whether these deliveries were offered and not received.
fn leaves_undelivered(rests: &mut Beside, numbers: &[u64]) -> bool {
    for number in numbers {
        if rests.next_undelivered() != Some(delivery(*number)) {
            return false;
        }
    }
    rests.next_undelivered() == None
}

/// Whether these replies were given and not taken.
fn leaves_untaken(rests: &mut Beside, replies: &[(Op, u64)]) -> bool {
    for (op, number) in replies {
        if rests.next_untaken() != Some(reply(*op, *number)) {
            return false;
        }
    }
    rests.next_untaken() == None
}

/// Whether these deliveries are the oldest that were received and not answered; they leave.
pub(crate) fn leaves_held(rests: &mut Beside, numbers: &[u64]) -> bool {
    for number in numbers {
        if rests.next_held() != Some(pair(*number)) {
            return false;
        }
    }
    true
}

/// Whether these deliveries were offered and not received, and these replies given and not taken, and no others.
pub(crate) fn leaves(rests: &mut Beside, undelivered: &[u64], untaken: &[(Op, u64)]) -> bool {
    leaves_undelivered(rests, undelivered) && leaves_untaken(rests, untaken)
}
