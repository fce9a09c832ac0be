//! Steps that only proofs read.

ghost use Rattle.std.specs.Prelude.{◌≡◌, List, [], ◌∷◌, ◌++◌};
ghost use Rattle.std.specs.Borrow.{ftrue};
ghost use Rattle.evt_types.specs.declared.step.Step.{Step as StepValue};

use evt_types::Step;
use std::marker::Model;

/// Steps that were pushed and are not kept: it takes no bytes. Nothing but `then` makes one longer, and only this crate can call that.
#[derive(Drop)]
pub(crate) struct Unkept {
    pub ghost seen: { List StepValue },
}

impl Model for Unkept {
    ghost also_owns = { λ _. ftrue };
}

// It owns nothing.
unsafe impl Send for Unkept {}

impl Unkept {
    /// No step.
    pub(crate) fn new() -> Unkept
        ensures { result.seen ≡ [] }
    {
        Unkept {}
    }

    /// These steps, and then this one.
    #[inline(always)]
    pub(crate) fn then(_before: &Unkept, _step: &Step) -> Unkept
        ensures { result.seen ≡ _before.now.seen ++ _step.now ∷ [] }
    {
        Unkept {}
    }
}
