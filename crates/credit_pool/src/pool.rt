//! The pool, and the seats that step on its word.
ghost use Rattle.std.specs.Prelude.{◌≡◌, ◌≢◌, ◌+◌, ◌*◌, ◌^◌, ◌<◌, ◌≤◌, ◌↔◌, [], IsTrue, IsOk, IfOk};
ghost use Rattle.credit_pool.specs.declared.rule.TheConstants.{WORDS};

use crate::account::Account;
use crate::answer::{Draw, Give};
use crate::rule::{
    Both, CreditRule, DrawExchange, FetchOr, GiveExchange, Load, OnePart, WORD, WORDS,
};
use atomic_table::{Seat, Table};
use std::alloc::{AllocError, Global};

/// A pool of credits. Threads share it by reference.
#[derive(Drop)]
pub struct Credits {
    table: Table<(), Account, u64, CreditRule, Global>,
    limit: u64,
    ghost words: { table.shared.table_id.words ≡ WORDS },
    ghost limited: { limit ≡ table.shared.key },
    ghost small: { limit ≤ 2 ^ 32 },
}

/// A seat of a pool: an account, which only the calls that are given the seat change. It has no bytes.
#[derive(Drop)]
pub struct CreditSeat {
    seat: Seat<(), Account>,
    ghost no_slot: { seat.me.1 ≡ [] },
    ghost has_part: { 0 < seat.me.0.parts },
    ghost knows_what_it_set: { IsTrue seat.me.0.set_shut → IsTrue seat.me.0.saw_shut },
}

impl Credits {
    ghost use Rattle.credit_pool.specs.Accounts.{after_draw, after_give, after_join, after_look, after_shut, first_account, free_of, part_of, rest_of, IsOpen, IsShut, Stays};
    ghost use Rattle.credit_pool.specs.Answers.{AnswersDraw, AnswersGive};
    ghost use Rattle.credit_pool.specs.Rule.{Reads};
    ghost use Rattle.credit_pool.specs.Pool.{account, limit_of, pool_id, IsSeatOf};

    /// A pool of `limit` credits, at most 2^32, all free, and its first seat, which has all 64 parts.
    pub fn new(alloc: Global, limit: u64) -> Result<(Credits, CreditSeat), AllocError>
        requires { limit ≤ 2 ^ 32 }
        ensures limit { IfOk result (λ r. limit_of r.0 ≡ limit) }
        ensures seat { IfOk result (λ r. IsSeatOf r.0 r.1) }
        ensures account { IfOk result (λ r. account r.1 ≡ first_account limit) }
    {
        let mut words = [0; WORDS];
        words[WORD] = 2 * limit;
        let (table, seat) = Table::of_words(alloc, &words, &limit)?;
        Ok((Credits { table, limit }, CreditSeat { seat }))
    }

    /// The table of the pool's word, with all seats' accounts. Its rule is `CreditRule`, whose fact holds between any two steps of any
    /// seats and is `Balanced` at the pool's limit. So the laws, `credits_add_up` and the others, are of this pool at every moment.
    pub fn table(&self) -> &Table<(), Account, u64, CreditRule, Global>
        ensures table { result.now.shared.table_id ≡ pool_id self.now }
        ensures limit { result.now.shared.key ≡ limit_of self.now }
    {
        &self.table
    }

    /// Gives one of the seat's parts, of which it has two or more, to a new seat with an account of its own. It never refuses.
    pub fn split(&self, mut seat: CreditSeat) -> Result<(CreditSeat, CreditSeat), CreditSeat>
        requires seat { IsSeatOf self.now seat }
        requires parts { 1 < (account seat).parts }
        ensures granted { IsOk result }
        ensures first { IfOk result (λ r. IsSeatOf self.now r.0 × (account r.0 ≡ rest_of (account seat))) }
        ensures second { IfOk result (λ r. IsSeatOf self.now r.1 × (account r.1 ≡ part_of (account seat))) }
    {
        let other = self.split_one(&mut seat);
        Ok((seat, other))
    }

    /// Makes one seat of two, with the accounts and the parts of both.
    pub fn join(&self, mut a: CreditSeat, b: CreditSeat) -> CreditSeat
        requires first { IsSeatOf self.now a }
        requires second { IsSeatOf self.now b }
        ensures seat { IsSeatOf self.now result }
        ensures account { account result ≡ after_join (account a) (account b) }
    {
        self.take_in(&mut a, b);
        a
    }

    /// Draws `n` credits, one or more, where with them at most `ceiling` are in use, itself at most the limit.
    /// One load, and at most one exchange.
    pub fn draw(&self, seat: &mut CreditSeat, n: u64, ceiling: u64) -> Draw
        requires seat { IsSeatOf self.now seat.old }
        requires some { 0 < n }
        requires ceiling { ceiling ≤ limit_of self.now }
        ensures seat { IsSeatOf self.now seat.new }
        ensures answer { AnswersDraw n ceiling (account seat.old) result (account seat.new) }
        ensures shut { IsTrue (account seat.old).saw_shut → result ≡ Draw.Shut }
        ensures read { Reads (account seat.old) (account seat.new).last }
        ensures stays { Stays (account seat.old) (account seat.new) }
    {
        let word = self.load(seat);
        if word % 2 == 1 {
            return Draw::Shut;
        }
        let free = word / 2;
        if ceiling < n || self.limit - free > ceiling - n {
            return Draw::Short { free };
        }
        let found = self.exchange_to_draw(seat, word, n);
        if found == word {
            Draw::Drawn
        } else {
            Draw::Raced {
                first: word,
                second: found,
            }
        }
    }

    /// Gives `n` credits back, also to a pool that is shut, where no more than the limit are free then.
    /// One load, and at most one exchange.
    pub fn give(&self, seat: &mut CreditSeat, n: u64) -> Give
        requires { IsSeatOf self.now seat.old }
        ensures seat { IsSeatOf self.now seat.new }
        ensures answer { AnswersGive n (account seat.old) result (account seat.new) }
        ensures read { Reads (account seat.old) (account seat.new).last }
        ensures stays { Stays (account seat.old) (account seat.new) }
    {
        let word = self.load(seat);
        let free = word / 2;
        if n > self.limit - free {
            return Give::Over { free };
        }
        let found = self.exchange_to_give(seat, word, n);
        if found == word {
            Give::Given
        } else {
            Give::Raced {
                first: word,
                second: found,
            }
        }
    }

    /// Shuts the pool for good. One step, which always succeeds.
    pub fn shut(&self, seat: &mut CreditSeat)
        requires { IsSeatOf self.now seat.old }
        ensures seat { IsSeatOf self.now seat.new }
        ensures account { account seat.new ≡ after_shut (account seat.old) }
        ensures stays { Stays (after_shut (account seat.old)) (account seat.new) }
    {
        self.set_bit(seat);
    }

    /// The free credits, and whether the pool is shut. One load.
    pub fn look(&self, seat: &mut CreditSeat) -> (u64, bool)
        requires { IsSeatOf self.now seat.old }
        ensures seat { IsSeatOf self.now seat.new }
        ensures account { account seat.new ≡ after_look (account seat.new).last (account seat.old) }
        ensures free { result.0 ≡ free_of (account seat.new).last }
        ensures bit { IsTrue result.1 ↔ IsShut (account seat.new).last }
        ensures shut { IsTrue (account seat.old).saw_shut → IsTrue result.1 }
        ensures read { Reads (account seat.old) (account seat.new).last }
        ensures stays { Stays (account seat.old) (account seat.new) }
    {
        let word = self.load(seat);
        (word / 2, word % 2 == 1)
    }

    /// The free credits, once all seats were joined into this one, which has all 64 parts. One load, and no other step: the pool is
    /// left as it was found, open or shut.
    pub fn close(&self, seat: &mut CreditSeat) -> u64
        requires seat { IsSeatOf self.now seat.old }
        requires whole { (account seat.old).parts ≡ 64 }
        ensures seat { IsSeatOf self.now seat.new }
        ensures account { account seat.new ≡ after_look (account seat.new).last (account seat.old) }
        ensures word { result ≡ free_of (account seat.new).last }
        ensures free { result + (account seat.old).drawn ≡ limit_of self.now + (account seat.old).returned }
        ensures shut { IsTrue (account seat.old).saw_shut → IsTrue (account seat.old).set_shut }
    {
        self.load(seat) / 2
    }

    // The kinds of step, a function for each.

    fn load(&self, seat: &mut CreditSeat) -> u64
        requires { IsSeatOf self.now seat.old }
        ensures seat { IsSeatOf self.now seat.new }
        ensures account { account seat.new ≡ after_look result (account seat.old) }
        ensures read { Reads (account seat.old) result }
    {
        self.table.shared.load::<Load>(&mut seat.seat, WORD)
    }

    // It draws where it finds `word`.
    fn exchange_to_draw(&self, seat: &mut CreditSeat, word: u64, n: u64) -> u64
        requires seat { IsSeatOf self.now seat.old }
        requires open { IsOpen word }
        requires free { n ≤ free_of word }
        ensures seat { IsSeatOf self.now seat.new }
        ensures drawn { result ≡ word → account seat.new ≡ after_draw n (after_look word (account seat.old)) }
        ensures missed { result ≢ word → account seat.new ≡ after_look result (account seat.old) }
        ensures read { Reads (account seat.old) result }
    {
        self.table
            .shared
            .compare_exchange::<DrawExchange>(&mut seat.seat, WORD, word, word - 2 * n)
    }

    // It gives back where it finds `word`.
    fn exchange_to_give(&self, seat: &mut CreditSeat, word: u64, n: u64) -> u64
        requires seat { IsSeatOf self.now seat.old }
        requires room { free_of word + n ≤ limit_of self.now }
        ensures seat { IsSeatOf self.now seat.new }
        ensures given { result ≡ word → account seat.new ≡ after_give n (after_look word (account seat.old)) }
        ensures missed { result ≢ word → account seat.new ≡ after_look result (account seat.old) }
        ensures read { Reads (account seat.old) result }
    {
        self.table
            .shared
            .compare_exchange::<GiveExchange>(&mut seat.seat, WORD, word, word + 2 * n)
    }

    fn set_bit(&self, seat: &mut CreditSeat)
        requires { IsSeatOf self.now seat.old }
        ensures seat { IsSeatOf self.now seat.new }
        ensures account { account seat.new ≡ after_shut (account seat.old) }
    {
        self.table
            .shared
            .fetch_or::<FetchOr>(&mut seat.seat, WORD, 1);
    }

    fn split_one(&self, seat: &mut CreditSeat) -> CreditSeat
        requires seat { IsSeatOf self.now seat.old }
        requires parts { 1 < (account seat.old).parts }
        ensures seat { IsSeatOf self.now seat.new }
        ensures other { IsSeatOf self.now result }
        ensures rest { account seat.new ≡ rest_of (account seat.old) }
        ensures part { account result ≡ part_of (account seat.old) }
    {
        let other = self.table.shared.split_seat::<OnePart>(&mut seat.seat);
        CreditSeat { seat: other }
    }

    fn take_in(&self, seat: &mut CreditSeat, other: CreditSeat)
        requires seat { IsSeatOf self.now seat.old }
        requires other { IsSeatOf self.now other }
        ensures seat { IsSeatOf self.now seat.new }
        ensures account { account seat.new ≡ after_join (account seat.old) (account other) }
    {
        let CreditSeat { seat: other } = other;
        self.table.shared.join_seat::<Both>(&mut seat.seat, other);
    }
}
