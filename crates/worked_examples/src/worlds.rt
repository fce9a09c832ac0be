//! Laws on worked worlds: how they came about, and what can't be.

ghost use Rattle.std.specs.Prelude.{◌≡◌, ◌≢◌, ℕ, List, [], ◌∷◌};
ghost use Rattle.worked_examples.specs.Logs.{atomic_stages, one_worker, two_workers};
ghost use Rattle.world_laws.specs.Logged.{as_logged};
ghost use Rattle.world_laws.specs.World.{IsConsistent, LeadsTo, World, empty, in_hand, received_by_all};
ghost use Rattle.worked_examples.specs.Worlds.{added_moves, added_world, adds_too_many, adds_unreceived, answers_unreceived, early_moves, early_world, receives_twice, slot_moves, slot_world, takes_unsubmitted};

/// The moves of a worked log, written out, lead to the world that is found after it. Three of the four events that were given were
/// received, and port 1, which released them all, has none of them in its hand.
pub fn worked_moves_lead_to_the_log()
    ensures found { IsConsistent two_workers slot_world }
    ensures moves { as_logged two_workers slot_world ≡ slot_moves }
    ensures run { LeadsTo two_workers empty slot_moves slot_world }
    ensures received { received_by_all slot_moves ≡ (0, 0) ∷ (0, 1) ∷ (0, 2) ∷ [] }
    ensures hand { in_hand slot_world 1 ≡ [] }
{}

/// Another order of moves than the log's leads to the same world as the log's.
pub fn other_moves_lead_there_too()
    ensures run { LeadsTo one_worker empty early_moves early_world }
    ensures other { as_logged one_worker early_world ≢ early_moves }
{}

/// An event is added beside the one that port 1 holds: the scheduler takes the addition by its More and the Accept that follows it at
/// once, and the held event stays in the hand.
pub fn added_moves_lead_to_the_log()
    ensures moves { as_logged atomic_stages added_world ≡ added_moves }
    ensures run { LeadsTo atomic_stages empty added_moves added_world }
    ensures hand { in_hand added_world 1 ≡ (0, 0) ∷ [] }
{}

/// Moves that can't be made lead nowhere.
pub fn wrong_moves_are_refused()
    ensures unreceived { (v : World) → ¬ LeadsTo one_worker empty answers_unreceived v }
    ensures added { (v : World) → ¬ LeadsTo atomic_stages empty adds_unreceived v }
    ensures many { (v : World) → ¬ LeadsTo atomic_stages empty adds_too_many v }
    ensures twice { (v : World) → ¬ LeadsTo one_worker empty receives_twice v }
    ensures unsubmitted { (v : World) → ¬ LeadsTo one_worker empty takes_unsubmitted v }
{}
