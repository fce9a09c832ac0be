//! The numbers of the code are those of the definitions.

ghost use Rattle.std.specs.Prelude.{◌≡◌};
ghost use Rattle.command_line.specs.CommandLine.{helped, no_memory, refused};
ghost use Rattle.play_documents.specs.Numbers.{fewest_workers, most_workers};

use crate::words::{HELP, MAX_WORKERS, MIN_WORKERS, NO_MEMORY, REFUSED};

/// Each number of the command line that the code has as a constant is the one that the definitions have. The function does nothing:
/// its contract is the law.
pub fn numbers_are_defined()
    ensures fewest_workers { MIN_WORKERS ≡ fewest_workers }
    ensures most_workers { MAX_WORKERS ≡ most_workers }
    ensures help { HELP ≡ helped }
    ensures refused { REFUSED ≡ refused }
    ensures memory { NO_MEMORY ≡ no_memory }
{}
