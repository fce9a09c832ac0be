//! A law of what a sweep gives. The function does nothing: its contract is the law.

ghost use Rattle.std.specs.Prelude.{List, [], AllPairs};
ghost use Rattle.event_scheduler.specs.Giving.{AreGifts, MayFollow};
ghost use Rattle.event_scheduler.specs.Scheduler.{Sight};
ghost use Rattle.evt_types.specs.Fault.{IsWithinLimits};
ghost use Rattle.evt_types.specs.declared.step.Step.{Step};

/// A lane whose ring had no room for an event is offered nothing more in that sweep.
pub fn a_full_ring_ends_a_lane()
    ensures { (s : Sight) (steps : List Step) → IsWithinLimits s.core.shape → AreGifts s [] steps → AllPairs MayFollow steps }
{}
