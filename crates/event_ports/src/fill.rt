//! Draws of a quantum.

ghost use Rattle.std.specs.Prelude.{◌≡◌, ◌<◌, ◌≤◌, true};
ghost use Rattle.credit_pool.specs.Accounts.{Stays};
ghost use Rattle.credit_pool.specs.Pool.{account, limit_of, IsSeatOf};
ghost use Rattle.event_ports.specs.Draws.{Fills, FillsWithin};

use credit_pool::{CreditSeat, Credits, Draw};

/// How often a quantum is asked for where other ports change the credits meanwhile.
pub(crate) const DRAWS: usize = 3;

/// Draws a quantum, by at most so many tries, one or more, as long as they race with other ports.
pub(crate) fn fill(
    tries: usize,
    pool: &Credits,
    seat: &mut CreditSeat,
    quantum: u64,
    ceiling: u64,
) -> Draw
    requires tries { 0 < tries }
    requires seat { IsSeatOf pool.now seat.old }
    requires some { 0 < quantum }
    requires ceiling { ceiling ≤ limit_of pool.now }
    ensures seat { IsSeatOf pool.now seat.new }
    ensures stays { Stays (account seat.old) (account seat.new) }
    ensures answer { Fills quantum ceiling (account seat.old) result (account seat.new) }
    ensures draws { FillsWithin tries quantum ceiling (account seat.old) result (account seat.new) }
{
    match pool.draw(seat, quantum, ceiling) {
        Draw::Raced { .. } if tries > 1 => fill(tries - 1, pool, seat, quantum, ceiling),
        answer => answer,
    }
}
