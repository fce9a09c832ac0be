//! The one rule of the credit word, and the six kinds of step under it.
ghost use Rattle.credit_pool.specs.Accounts.{after_join, first_account, part_of, rest_of, spent_account};
ghost use Rattle.credit_pool.specs.Rule.{Balanced};
ghost use Rattle.credit_pool.specs.Steps.{Draws, FetchesOr, Gives, Loads};

use crate::account::Account;
use atomic_table::{Join, Play, Split, TableRule};

/// The words of a pool's table, of which one counts. The others are never used: they keep it in a cache line of its own, since each step
/// on it takes its line from all other threads. A line has 64 bytes, and memory is aligned to 16: the word's line begins at most 48 bytes
/// before it, and ends at most 64 after its start.
pub(crate) const WORDS: usize = 16;

/// Which of them is the credit word.
pub(crate) const WORD: usize = 8;

/// The rule of a pool's table: `Balanced` at the pool's limit, between any two steps of any seats.
pub struct CreditRule;

impl TableRule<(), Account, u64> for CreditRule {
    ghost holds = { Balanced };

    ghost first = { first_account };
}

pub struct Load;

impl Play<(), Account> for Load {
    ghost then = { Loads };
}

pub struct DrawExchange;

impl Play<(), Account> for DrawExchange {
    ghost then = { Draws };
}

pub struct GiveExchange;

impl Play<(), Account> for GiveExchange {
    ghost then = { Gives };
}

pub struct FetchOr;

impl Play<(), Account> for FetchOr {
    ghost then = { FetchesOr };
}

pub struct OnePart;

impl Split<Account> for OnePart {
    ghost left = { rest_of };

    ghost right = { part_of };
}

pub struct Both;

impl Join<Account> for Both {
    ghost both = { after_join };

    ghost spent = { spent_account };
}
