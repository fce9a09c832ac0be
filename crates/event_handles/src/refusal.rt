//! The numbers of refusals.

ghost use Rattle.std.specs.Prelude.{◌≡◌};
ghost use Rattle.event_handles.specs.Refusals.{errno_of, errno_of_end};

use crate::errno::{E2BIG, EAGAIN, EINVAL, ENOBUFS, ENOENT, ENOSPC, ESHUTDOWN};
use event_answers::Refused;

/// The number of a refusal.
pub(crate) fn number_of_refusal(refused: &Refused) -> i64
    ensures { result ≡ errno_of refused.now }
{
    match refused {
        Refused::Stopped => ESHUTDOWN,
        Refused::BadQueue => EINVAL,
        Refused::NothingHeld => ENOENT,
        Refused::Backpressure { .. } => ENOSPC,
        Refused::Raced { .. } => EAGAIN,
        Refused::Full => ENOBUFS,
        Refused::TooMany => E2BIG,
    }
}

/// Why a burst ended: 0 where none of its events was refused.
pub(crate) fn number_of_end(end: &Option<Refused>) -> i64
    ensures { result ≡ errno_of_end end.now }
{
    match end {
        Some(refused) => number_of_refusal(refused),
        None => 0,
    }
}
