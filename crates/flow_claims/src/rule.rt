//! The one rule of the claim words, and the kinds of step under it.
ghost use Rattle.flow_claims.specs.Seats.{after_join, first_seating, part_of, rest_of, spent_seating};
ghost use Rattle.flow_claims.specs.Rule.{Claimed};
ghost use Rattle.flow_claims.specs.Steps.{Probes, Begins, Fronts, Finishes, Closes};

use crate::boxed::BoxedFar;
use crate::seating::Seating;
use atomic_table::{Join, Play, Split, TableRule};
use lane_rings::Far;
use std::snapshot::Snapshot;

/// The rule of the claims' table: `Claimed` of the lanes' ends as they were handed over, between any two steps of any seats.
pub struct ClaimRule;

impl TableRule<Option<BoxedFar>, Seating, Snapshot<Vec<Far>>> for ClaimRule {
    ghost holds = { λ key. Claimed key.value.items };

    ghost first = { λ key. first_seating key.value.items };
}

pub struct Probe;

impl Play<Option<BoxedFar>, Seating> for Probe {
    ghost then = { Probes };
}

pub struct ClaimExchange;

impl Play<Option<BoxedFar>, Seating> for ClaimExchange {
    ghost then = { Begins };
}

pub struct Front;

impl Play<Option<BoxedFar>, Seating> for Front {
    ghost then = { Fronts };
}

pub struct Return;

impl Play<Option<BoxedFar>, Seating> for Return {
    ghost then = { Finishes };
}

pub struct ClosingSwap;

impl Play<Option<BoxedFar>, Seating> for ClosingSwap {
    ghost then = { Closes };
}

pub struct OnePart;

impl Split<Seating> for OnePart {
    ghost left = { rest_of };

    ghost right = { part_of };
}

pub struct Both;

impl Join<Seating> for Both {
    ghost both = { after_join };

    ghost spent = { spent_seating };
}
