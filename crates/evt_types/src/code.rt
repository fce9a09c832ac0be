//! The codes of operations and scheduling types in the event word.

ghost use Rattle.std.specs.Prelude.{◌≡◌, ◌<◌};
ghost use Rattle.evt_types.specs.Word as words;

use crate::event::{Kind, Op};

/// The code of an operation.
#[inline(always)]
pub(crate) fn op_code(op: Op) -> u8
    ensures value { result ≡ words.op_code op }
    ensures small { result < 4 }
{
    match op {
        Op::New => 0,
        Op::Forward => 1,
        Op::Release => 2,
        Op::ForwardMore => 3,
    }
}

/// The code of a scheduling type.
#[inline(always)]
pub(crate) fn kind_code(kind: Kind) -> u8
    ensures value { result ≡ words.kind_code kind }
    ensures small { result < 3 }
{
    match kind {
        Kind::Ordered => 0,
        Kind::Atomic => 1,
        Kind::Parallel => 2,
    }
}
