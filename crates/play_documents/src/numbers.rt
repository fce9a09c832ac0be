//! The numbers of the code are those of the definitions.

ghost use Rattle.std.specs.Prelude.{◌≡◌};
ghost use Rattle.play_documents.specs.Numbers.{flows, most_byte, most_dequeue, most_input, normal_priority};

use crate::document::MAX_INPUT;
use crate::drafts::NORMAL_PRIORITY;
use crate::script::{MAX_BYTE, MAX_DEQUEUE};
use evt_types::MAX_FLOWS;

/// Each number of a document that the code has as a constant is the one that the definitions have. The function does nothing: its
/// contract is the law.
pub fn numbers_are_defined()
    ensures input { MAX_INPUT ≡ most_input }
    ensures byte { MAX_BYTE ≡ most_byte }
    ensures priority { NORMAL_PRIORITY ≡ normal_priority }
    ensures flows { MAX_FLOWS ≡ flows }
    ensures dequeue { MAX_DEQUEUE ≡ most_dequeue }
{}
