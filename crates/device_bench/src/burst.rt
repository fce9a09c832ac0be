//! Bursts, which the worker gets in portions.

ghost use Rattle.std.specs.Prelude.{◌≡◌, ◌*◌, IfOk};

use crate::fault::BenchFault;

/// So many events, which the worker gets in portions of one length.
#[derive(Clone, Copy)]
pub struct Burst {
    pub length: u64,
    pub portions: u64,
    pub portion: u64,
    pub ghost divided: { length ≡ portions * portion },
}

impl Burst {
    /// A burst of this length, of which the worker may hold so many events.
    pub fn new(length: usize, room: u32) -> Result<Burst, BenchFault>
        ensures { IfOk result (λ b. b.length ≡ length) }
    {
        let length = length as u64;
        let portion = length.min(u64::from(room));
        let portions = length.checked_div(portion).unwrap_or(0);
        if portions.checked_mul(portion) == Some(length) {
            Ok(Burst {
                length,
                portions,
                portion,
            })
        } else {
            Err(BenchFault::Stuck)
        }
    }
}
