//! Laws of breaches. Each function does nothing: its contract is the law.

ghost use Rattle.std.specs.Prelude.{List};
ghost use Rattle.evt_types.specs.Plan.{Plan};
ghost use Rattle.history_judge.specs.Breaches.{IsBreach};
ghost use Rattle.history_judge.specs.Histories.{IsImpossible};
ghost use Rattle.history_judge.specs.declared.breach.Breach.{Breach};
ghost use Rattle.history_judge.specs.declared.seen.Seen.{Seen};

/// What has a breach fits no run of any device of the shape, whatever its threads do and whenever.
pub fn breaches_are_impossible()
    ensures { (p : Plan) (hs : List Seen) (b : Breach) → IsBreach p hs b → IsImpossible p hs }
{}
