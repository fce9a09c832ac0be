//! The credit pool: the calls of two seats in one thread, where the pool is made again if memory was refused and serves then as ever,
//! and four threads that draw and give back at once.
ghost use Rattle.std.specs.Prelude.{◌≡◌, ◌+◌, ◌≤◌, ◌^◌, IfOk};
ghost use Rattle.credit_pool.specs.Accounts.{first_account, Stays};
ghost use Rattle.credit_pool.specs.Pool.{account, limit_of, IsSeatOf};

use credit_pool::{CreditSeat, Credits, Draw, Give};
use evt_types::Memory;
use std::alloc::Global;
use std::test::Fail;
use std::thread::{Threads, join};

/// How many credits there are.
const LIMIT: u64 = 4;

const ROUNDS: u32 = 100_000;

// How often a call is tried again after another seat came between.
const TRIES: u32 = 1_000_000;

/// Which of two seats calls.
#[derive(Clone, Copy)]
enum By {
    First,
    Second,
}

/// A call, with what it must answer.
#[derive(Clone, Copy)]
enum Call {
    /// Draws so many credits up to this ceiling.
    Draw(u64, u64, Draw),
    Give(u64, Give),
    Shut,
    Look(u64, bool),
}

static CALLS: [(By, Call); 14] = [
    (By::First, Call::Draw(2, 2, Draw::Drawn)),
    (By::First, Call::Draw(2, 2, Draw::Short { free: 2 })),
    (By::Second, Call::Draw(1, 4, Draw::Drawn)),
    (By::First, Call::Draw(1, 4, Draw::Drawn)),
    (By::Second, Call::Draw(1, 4, Draw::Short { free: 0 })),
    (By::Second, Call::Give(1, Give::Given)),
    (By::First, Call::Give(1, Give::Given)),
    (By::First, Call::Give(1, Give::Given)),
    (By::First, Call::Give(4, Give::Over { free: 3 })),
    (By::Second, Call::Look(3, false)),
    (By::First, Call::Shut),
    (By::First, Call::Draw(1, 4, Draw::Shut)),
    (By::Second, Call::Draw(1, 4, Draw::Shut)),
    (By::Second, Call::Look(3, true)),
];

fn pool_again(alloc: Global, limit: u64) -> Result<(Credits, CreditSeat), Memory>
    requires { limit ≤ 2 ^ 32 }
    ensures limit { IfOk result (λ r. limit_of r.0 ≡ limit) }
    ensures seat { IfOk result (λ r. IsSeatOf r.0 r.1) }
    ensures account { IfOk result (λ r. account r.1 ≡ first_account limit) }
{
    match Credits::new(alloc, limit) {
        Ok(made) => Ok(made),
        Err(_) => Credits::new(alloc, limit),
    }
}

/// Makes the call; whether it answered what it must.
fn make(pool: &Credits, seat: &mut CreditSeat, call: Call) -> bool
    requires seat { IsSeatOf pool.now seat.old }
    requires limit { limit_of pool.now ≡ 4 }
    ensures seat { IsSeatOf pool.now seat.new }
    ensures parts { (account seat.new).parts ≡ (account seat.old).parts }
{
    match call {
        Call::Draw(count, ceiling, answer) => {
            count > 0 && ceiling <= LIMIT && pool.draw(seat, count, ceiling) == answer
        }
        Call::Give(count, answer) => pool.give(seat, count) == answer,
        Call::Shut => {
            pool.shut(seat);
            true
        }
        Call::Look(free, is_shut) => pool.look(seat) == (free, is_shut),
    }
}

/// The place of the first call that answered otherwise than it must.
fn play(pool: &Credits, first: &mut CreditSeat, second: &mut CreditSeat) -> Option<usize>
    requires seats { IsSeatOf pool.now first.old × IsSeatOf pool.now second.old }
    requires limit { limit_of pool.now ≡ 4 }
    ensures seats { IsSeatOf pool.now first.new × IsSeatOf pool.now second.new }
    ensures parts { ((account first.new).parts ≡ (account first.old).parts) × ((account second.new).parts ≡ (account second.old).parts) }
{
    for (place, (by, call)) in CALLS.iter().enumerate() {
        let answered = match by {
            By::First => make(pool, first, *call),
            By::Second => make(pool, second, *call),
        };
        if !answered {
            return Some(place);
        }
    }
    None
}

#[test]
fn credit_calls(rt: HostRuntime) -> Result<(), Fail> {
    let (pool, seat) = pool_again(rt.alloc(), LIMIT)?;
    let (mut first, mut second) = pool.split(seat).unwrap();
    let other = play(&pool, &mut first, &mut second);
    let mut seat = pool.join(first, second);
    assert_eq!(rt; (other, pool.close(&mut seat)), (None, 3));
    Ok(())
}

fn draw_one(pool: &Credits, seat: &mut CreditSeat) -> bool
    requires seat { IsSeatOf pool.now seat.old }
    requires limit { 4 ≤ limit_of pool.now }
    ensures seat { IsSeatOf pool.now seat.new }
    ensures stays { Stays (account seat.old) (account seat.new) }
{
    for _ in 0..TRIES {
        match pool.draw(seat, 1, LIMIT) {
            Draw::Drawn => return true,
            Draw::Shut | Draw::Short { free: _ } => return false,
            Draw::Raced {
                first: _,
                second: _,
            } => {}
        }
    }
    false
}

fn give_one(pool: &Credits, seat: &mut CreditSeat) -> bool
    requires { IsSeatOf pool.now seat.old }
    ensures seat { IsSeatOf pool.now seat.new }
    ensures stays { Stays (account seat.old) (account seat.new) }
{
    for _ in 0..TRIES {
        match pool.give(seat, 1) {
            Give::Given => return true,
            Give::Over { free: _ } => return false,
            Give::Raced {
                first: _,
                second: _,
            } => {}
        }
    }
    false
}

// How many of the rounds drew a credit and gave it back.
fn trade(pool: &Credits, mut seat: CreditSeat) -> (CreditSeat, u32)
    requires seat { IsSeatOf pool.now seat }
    requires limit { 4 ≤ limit_of pool.now }
    ensures seat { IsSeatOf pool.now result.0 }
    ensures parts { (account result.0).parts ≡ (account seat).parts }
    ensures rounds { result.1 ≤ 100000 }
{
    let mut traded = 0;
    for _round in 0..ROUNDS {
        if draw_one(pool, &mut seat) && give_one(pool, &mut seat) {
            traded += 1;
        }
    }
    (seat, traded)
}

fn trade_two<R: Threads + Sync>(
    rt: &R,
    pool: &Credits,
    a: CreditSeat,
    b: CreditSeat,
) -> (CreditSeat, u32)
    requires first { IsSeatOf pool.now a }
    requires second { IsSeatOf pool.now b }
    requires limit { 4 ≤ limit_of pool.now }
    ensures seat { IsSeatOf pool.now result.0 }
    ensures parts { (account result.0).parts ≡ (account a).parts + (account b).parts }
    ensures rounds { result.1 ≤ 200000 }
{
    let ((a, here), (b, there)) = join(rt, move || trade(pool, a), move || trade(pool, b));
    (pool.join(a, b), here + there)
}

#[test]
fn four_threads_return_all(rt: HostRuntime) -> Result<(), Fail> {
    let (pool, first) = Credits::new(rt.alloc(), LIMIT)?;
    let (first, second) = pool.split(first).unwrap();
    let (first, third) = pool.split(first).unwrap();
    let (first, fourth) = pool.split(first).unwrap();
    let pool = &pool;
    let ((a, here), (b, there)) = join(
        &rt,
        || trade_two(&rt, pool, first, second),
        || trade_two(&rt, pool, third, fourth),
    );
    assert_eq!(rt; here + there, 4 * ROUNDS);
    let mut seat = pool.join(a, b);
    assert_eq!(rt; pool.close(&mut seat), LIMIT);
    Ok(())
}
