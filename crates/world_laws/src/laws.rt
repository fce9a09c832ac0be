//! Laws of the running world. Each function does nothing: its contract is the law.

ghost use Rattle.std.specs.Prelude.{◌≡◌, ℕ, ◌+◌, ◌<◌, ◌^◌, List, length, take};
ghost use Rattle.evt_types.specs.Plan.{Plan};
ghost use Rattle.evt_types.specs.declared.step.Step.{Step};
ghost use Rattle.transcripts.specs.Replies.{turned_count};
ghost use Rattle.transcripts.specs.Transcript.{accepted, out};
ghost use Rattle.world_laws.specs.Account.{events_left, mores_submitted, news_submitted, releases_submitted};
ghost use Rattle.world_laws.specs.Logged.{as_logged};
ghost use Rattle.world_laws.specs.Order.{AreReceivedAsAccepted, AreReceivedAsGiven, IsHeldAlone};
ghost use Rattle.world_laws.specs.Places.{times_answered, times_held, times_taken, times_undelivered, times_untaken, times_waiting};
ghost use Rattle.world_laws.specs.Rest.{AreRests, Rest, found_in, still_held};
ghost use Rattle.world_laws.specs.World.{IsConsistent, LeadsTo, Move, World, after_moves, empty, in_hand, received_by, received_by_all};

/// What stop finds came about by a run: the moves of the log, in its order, with each taken reply's Submit just before its Take, each
/// received delivery's Receive just after its Give, and the Submits of the untaken replies last. It suffices that the lists fit.
pub fn stop_is_a_run()
    ensures world { (p : Plan) (v : World) → IsConsistent p v → length v.log < 2 ^ 63 → LeadsTo p empty (as_logged p v) v }
    ensures rests { (p : Plan) (T : List Step) (rest : ℕ → Rest) → AreRests p T rest → LeadsTo p empty (as_logged p (found_in T rest)) (found_in T rest) }
{}

/// At stop the hand of a lane is what its holder received and didn't answer.
pub fn hands_at_stop()
    ensures { (p : Plan) (T : List Step) (rest : ℕ → Rest) (l : ℕ) → AreRests p T rest → in_hand (found_in T rest) l ≡ still_held (rest l) }
{}

/// Whatever the order of the moves: each moment of a run is the end of a run, and there the log is lawful and the lists fit together;
/// the events of one slot of an atomic queue that are in hands are in one lane's hand; what each lane received is the front of what
/// it was given; over all lanes the events of one flow and level of an atomic queue were received in accepted order, and those of
/// one of its slots in the order in which they were given.
pub fn every_run_keeps()
    ensures moments { (p : Plan) (moves : List Move) (v : World) → LeadsTo p empty moves v → (k : ℕ) → LeadsTo p empty (take k moves) (after_moves moves k) }
    ensures consistent { (p : Plan) (moves : List Move) (v : World) → LeadsTo p empty moves v → (k : ℕ) → IsConsistent p (after_moves moves k) }
    ensures alone { (p : Plan) (moves : List Move) (v : World) → LeadsTo p empty moves v → (k : ℕ) → IsHeldAlone p (after_moves moves k) }
    ensures received { (p : Plan) (moves : List Move) (v : World) (l : ℕ) → LeadsTo p empty moves v → received_by l moves ≡ take (v.received l) (out v.log l) }
    ensures order { (p : Plan) (moves : List Move) (v : World) → LeadsTo p empty moves v → AreReceivedAsAccepted p v.log (received_by_all moves) }
    ensures given { (p : Plan) (moves : List Move) (v : World) → LeadsTo p empty moves v → AreReceivedAsGiven p v.log (received_by_all moves) }
{}

/// The account at stop: where the free credits and the NEWs and FORWARD_MOREs that were submitted make up the limit, the RELEASEs that
/// were submitted and the NEWs that were turned away, the free credits and the events that are left in the device are the limit. An
/// event that is left waits, is kept, is undelivered or held, or came in a reply that wasn't taken.
pub fn account_at_stop()
    ensures { (p : Plan) (T : List Step) (rest : ℕ → Rest) (free limit : ℕ) → AreRests p T rest
        → free + news_submitted p rest + mores_submitted p rest ≡ limit + releases_submitted p rest + turned_count T → free + events_left p T rest ≡ limit }
{}

/// At stop each accepted event, by its queue and number, is in one place, and there once: it waits, or it was given to a lane and not
/// received, or it was received and not answered, or it was answered. The answer of one that was answered was taken by the
/// scheduler, or it wasn't.
pub fn each_event_is_in_one_place()
    ensures one { (p : Plan) (T : List Step) (rest : ℕ → Rest) (q n : ℕ) → AreRests p T rest → n < length (accepted T q)
        → times_waiting T q n + times_undelivered p rest q n + times_held p rest q n + times_answered p rest q n ≡ 1 }
    ensures answered { (p : Plan) (rest : ℕ → Rest) (q n : ℕ) → times_answered p rest q n ≡ times_taken p rest q n + times_untaken p rest q n }
{}
