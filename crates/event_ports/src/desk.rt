//! The desk of a port: all that it has, but for what it counts.

ghost use Rattle.std.specs.Prelude.{◌≡◌, ◌+◌, ◌<◌, ◌≤◌, false};
ghost use Rattle.std.specs.Arc.{arc_value};
ghost use Rattle.credit_pool.specs.Pool.{account, limit_of, IsSeatOf};
ghost use Rattle.event_ports.specs.Handed.{lanes_site, mores_of, news_of, releases_of};
ghost use Rattle.credit_pool.specs.Pockets.{IsPocket};
ghost use Rattle.event_ports.specs.Lanes.{refused_by};

use crate::fill::{DRAWS, fill};
use crate::lanes::Lanes;
use credit_pool::{CreditSeat, Credits, Draw, Give};
use event_answers::Refused;
use evt_types::{MAX_EXTRAS, Op, PackedEvent};
use lane_rings::Refusal;
use std::alloc::Global;
use std::sync::Arc;

/// What a port has.
#[derive(Drop)]
pub(crate) struct Desk {
    pub(crate) pool: Arc<Credits, Global>,
    pub(crate) seat: CreditSeat,
    pub(crate) lanes: Lanes,
    pub(crate) number: usize,
    pub(crate) queues: usize,
    pub(crate) implicit: bool,
    pub(crate) quantum: u64,
    pub(crate) threshold: u64,
    pub(crate) pocket: u64,
    ghost seat_of: { IsSeatOf (arc_value pool) seat },
    ghost unset: { (account seat).set_shut ≡ false },
    ghost quantum_fits: { (0 < quantum) × (quantum ≤ threshold) × (threshold ≤ limit_of (arc_value pool)) },
    ghost numbered: { (lanes_site lanes).flows.port ≡ number },
    ghost paid: { IsPocket pocket ((account seat).drawn + releases_of lanes) ((account seat).returned + news_of lanes + mores_of lanes) },
}

impl Desk {
    ghost use Rattle.std.specs.Prelude.{◌≡◌, ◌≢◌, ◌+◌, ◌%◌, ◌^◌, ◌<◌, ◌≤◌, ◌↔◌, true, IsTrue, IsFalse, IfErr, OnOk, MatchResult};
    ghost use Rattle.evt_types.specs.Operation.{costs_credit};
    ghost use Rattle.evt_types.specs.declared.event.Op.{Op};
    ghost use Rattle.evt_types.specs.declared.event.Op.TheVariants as ops;
    ghost use Rattle.credit_pool.specs.Accounts.{IsOpen, IsShut, Stays};
    ghost use Rattle.event_answers.specs.declared.answer.Refused.TheVariants as refusals;
    ghost use Rattle.event_ports.specs.Lanes.{Rests, SubmitsTo, TakesMore, lane_for, reply_of};
    ghost use Rattle.event_ports.specs.Draws.{HasLooked, ReturnsSpare};
    ghost use Rattle.event_ports.specs.Queues.{NamesQueue};
    ghost use Rattle.event_ports.specs.Desks.{own_site, account_of, claim_seating, pocket_of, hand, was_filled, SameCredits, MaySpendMore, Pays, Refuses, SpendsNone};

    // Whether the device is shut, by one look at the credits.
    pub(crate) fn shut_seen(&mut self) -> bool
        ensures site { own_site self.new ≡ own_site self.old }
        ensures credit { Stays (account_of self.old) (account_of self.new) }
        ensures same { Rests (hand self.old) (hand self.new) × SameCredits self.old self.new }
        ensures seen { IsTrue result ↔ IsTrue (account_of self.new).saw_shut }
        ensures read { IsFalse result → IsOpen (account_of self.new).last }
        ensures looked { HasLooked (account_of self.old) (account_of self.new) × (IsTrue result → IsShut (account_of self.new).last) }
        ensures lanes { self.new.lanes ≡ self.old.lanes }
    {
        let (_, shut) = self.pool.look(&mut self.seat);
        shut
    }

    // Enqueues an event.
    #[inline(always)]
    pub(crate) fn submit(&mut self, event: &PackedEvent) -> Result<(), Refused>
        ensures site { own_site self.new ≡ own_site self.old }
        ensures credit { Stays (account_of self.old) (account_of self.new) }
        ensures submitted { MatchResult result (λ _. SubmitsTo (lane_for event.now.op (hand self.old).holding) (reply_of event.now) (hand self.old) (hand self.new)) (λ _. Rests (hand self.old) (hand self.new)) }
        ensures pays { OnOk result (Pays event.now.op self.old self.new) }
        ensures there { OnOk result (NamesQueue (own_site self.old).queues event.now) }
        ensures refused { IfErr result (λ e. Refuses self.old event.now e self.new) }
        ensures stopped { IsTrue (account_of self.old).saw_shut → event.now.op ≡ ops.New → result ≡ Err refusals.Stopped }
    {
        if event.is_new() {
            if self.shut_seen() {
                return Err(Refused::Stopped);
            }
            if usize::from(event.queue()) >= self.queues {
                return Err(Refused::BadQueue);
            }
            return self.spend(event);
        }
        match event.op() {
            Op::Forward => {
                if usize::from(event.queue()) >= self.queues {
                    return Err(Refused::BadQueue);
                }
                match self.lanes.answer(event) {
                    Ok(()) => Ok(()),
                    Err(refusal) => Err(refused_by(refusal)),
                }
            }
            Op::Release => match self.lanes.answer(event) {
                Ok(()) => {
                    self.pocket = self.pocket.wrapping_add(1);
                    self.return_spare();
                    Ok(())
                }
                Err(refusal) => Err(refused_by(refusal)),
            },
            Op::New | Op::ForwardMore => self.enqueue_more(event),
        }
    }

    // Draws a quantum where the pocket is empty.
    fn stock(&mut self) -> Result<(), Refused>
        ensures site { own_site self.new ≡ own_site self.old }
        ensures credit { Stays (account_of self.old) (account_of self.new) }
        ensures same { Rests (hand self.old) (hand self.new) }
        ensures stocked { OnOk result (MaySpendMore self.old (pocket_of self.new) self.new × (0 < pocket_of self.new)) }
        ensures refused { IfErr result (λ e. (o : Op) → SpendsNone self.old o e self.new) }
    {
        if self.pocket > 0 {
            return Ok(());
        }
        match fill(
            DRAWS,
            &self.pool,
            &mut self.seat,
            self.quantum,
            self.threshold,
        ) {
            Draw::Drawn => {
                self.pocket = self.quantum;
                Ok(())
            }
            Draw::Shut => Err(Refused::Stopped),
            Draw::Short { free } => Err(Refused::Backpressure { free }),
            Draw::Raced { first, second } => Err(Refused::Raced { first, second }),
        }
    }

    // Submits a NEW or FORWARD_MORE for a credit of the pocket, into which a quantum is drawn first where it is empty.
    #[inline(always)]
    fn spend(&mut self, event: &PackedEvent) -> Result<(), Refused>
        requires costs { costs_credit event.now.op ≡ true }
        requires takes { event.now.op ≡ ops.ForwardMore → TakesMore (hand self.old) }
        ensures site { own_site self.new ≡ own_site self.old }
        ensures credit { Stays (account_of self.old) (account_of self.new) }
        ensures submitted { MatchResult result (λ _. SubmitsTo (lane_for event.now.op (hand self.old).holding) (reply_of event.now) (hand self.old) (hand self.new)) (λ _. Rests (hand self.old) (hand self.new)) }
        ensures pays { OnOk result (MaySpendMore self.old (pocket_of self.new + 1) self.new) }
        ensures refused { IfErr result (λ e. SpendsNone self.old event.now.op e self.new) }
    {
        self.stock()?;
        match self.lanes.submit(event) {
            Ok(()) => {
                self.pocket -= 1;
                Ok(())
            }
            Err(_) => Err(Refused::Full),
        }
    }

    // The credit is there before the event is submitted, and is drawn only where the event may be added.
    fn enqueue_more(&mut self, event: &PackedEvent) -> Result<(), Refused>
        requires { event.now.op ≡ ops.ForwardMore }
        ensures site { own_site self.new ≡ own_site self.old }
        ensures credit { Stays (account_of self.old) (account_of self.new) }
        ensures submitted { MatchResult result (λ _. SubmitsTo (lane_for event.now.op (hand self.old).holding) (reply_of event.now) (hand self.old) (hand self.new)) (λ _. Rests (hand self.old) (hand self.new)) }
        ensures pays { OnOk result (Pays event.now.op self.old self.new) }
        ensures there { OnOk result (NamesQueue (own_site self.old).queues event.now) }
        ensures refused { IfErr result (λ e. Refuses self.old event.now e self.new) }
    {
        if usize::from(event.queue()) >= self.queues {
            return Err(Refused::BadQueue);
        }
        let Some(extras) = self.lanes.extras() else {
            return Err(Refused::NothingHeld);
        };
        if extras >= MAX_EXTRAS {
            return Err(Refused::TooMany);
        }
        self.spend(event)
    }

    // The return rule: of two quanta or more in the pocket, all but one are given back, by one try.
    pub(crate) fn return_spare(&mut self)
        ensures site { own_site self.new ≡ own_site self.old }
        ensures credit { Stays (account_of self.old) (account_of self.new) }
        ensures lanes { self.new.lanes ≡ self.old.lanes }
        ensures returned_spare { ReturnsSpare (own_site self.old).quantum (pocket_of self.old) (account_of self.old) (pocket_of self.new) (account_of self.new) }
    {
        if self.pocket / 2 < self.quantum {
            return;
        }
        let rest = self.pocket - self.quantum;
        if self.pool.give(&mut self.seat, rest) == Give::Given {
            self.pocket = self.quantum;
        }
    }
}

// Why an answer is refused, in the words of a port.
fn refused_by(refusal: Refusal) -> Refused
    ensures { result ≡ refused_by refusal }
{
    match refusal {
        Refusal::NothingHeld => Refused::NothingHeld,
        Refusal::TooMany => Refused::TooMany,
        Refusal::Full => Refused::Full,
    }
}
