//! Laws of lawful transcripts. Each function does nothing: its contract is the law.

ghost use Rattle.std.specs.Prelude.{◌≡◌, ℕ, ◌+◌, ◌*◌, ◌<◌, ◌≤◌, ◌==◌, true, false, List, [], ◌∷◌, length, map, sum_by, if◌then◌else◌, All, Contains};
ghost use Rattle.transcripts.specs.Allowed.{StepsLawful};
ghost use Rattle.transcripts.specs.Choice.{HasNoOther};
ghost use Rattle.transcripts.specs.Lawful.{Lawful};
ghost use Rattle.evt_types.specs.declared.event.TheConstants.{MAX_FORWARDS};
ghost use Rattle.transcripts.specs.Laws.{AddsNone, IsAcceptedOnce, IsAnsweredTo, IsStrictlyRising, IsSublist, KeepsNoneTo, NeverStepsBack, StepsForward};
ghost use Rattle.evt_types.specs.Plan.{Plan, has_flow_lanes, is_atomic, is_ordered, kept_room, lanes_of, queue_of, serves};
ghost use Rattle.transcripts.specs.Replies.{more_count, new_count, release_count, replies_in, said};
ghost use Rattle.transcripts.specs.Standing.{AreStepsOf, Stands, View, after, entries_of, inside_of, kept_at, kept_in, kept_under, may_be_taken, may_take, steps_of};
ghost use Rattle.transcripts.specs.Sweep.{IsSweep, Sweeping, sweep_room, sweep_steps};
ghost use Rattle.transcripts.specs.Transcript.{entries, is_give, hand, inside, kept, sources, taken};
ghost use Rattle.evt_types.specs.declared.event.Event.{Event};
ghost use Rattle.evt_types.specs.declared.event.Reply.{Reply};
ghost use Rattle.evt_types.specs.declared.step.Step.{Step};

/// A transcript of which each step was allowed, and that is settled at its end, is lawful.
pub fn lawful_by_steps()
    ensures { (p : Plan) (T : List Step) → StepsLawful p T → Lawful p T }
{}

/// Each step of a lawful transcript was allowed after the steps before it.
pub fn steps_of_lawful()
    ensures { (p : Plan) (T : List Step) → Lawful p T → StepsLawful p T }
{}

/// From each number at most five events are accepted: four that were added beside its event, and its FORWARD.
pub fn sources_are_few()
    ensures { (p : Plan) (T : List Step) (q n : ℕ) → Lawful p T → length (taken T q n) ≤ MAX_FORWARDS }
{}

/// Where no event was added beside another, at most one event is accepted from each number. So the numbers with an Accept are a
/// sublist of an ordered queue's hand-out, and those of one flow and level of an atomic queue rise.
pub fn sources_once()
    ensures once { (p : Plan) (T : List Step) (q : ℕ) → AddsNone T → Lawful p T → IsAcceptedOnce T q }
    ensures one { (p : Plan) (T : List Step) (q n : ℕ) → AddsNone T → Lawful p T → length (taken T q n) ≤ 1 }
    ensures ordered { (p : Plan) (T : List Step) (q : ℕ) → is_ordered (queue_of p q).kind ≡ true → AddsNone T → Lawful p T → IsSublist (sources T q) (hand T q) }
    ensures atomic { (p : Plan) (T : List Step) (q : ℕ) → is_atomic (queue_of p q).kind ≡ true → AddsNone T → Lawful p T → IsStrictlyRising p T q }
{}

/// Events are accepted from numbers that were handed out. An ordered queue restores the order of its hand-out: taken by their
/// numbers' places in it, the events that they were passed on as never step back, and where no event was added beside another they
/// step forward. And once a front of the hand-out is answered, nothing of it is kept: all that it was passed on as is accepted.
pub fn hand_order_is_restored()
    ensures handed { (p : Plan) (T : List Step) (q : ℕ) → Lawful p T → All (Contains (hand T q)) (sources T q) }
    ensures order { (p : Plan) (T : List Step) (q : ℕ) → is_ordered (queue_of p q).kind ≡ true → Lawful p T → NeverStepsBack T q }
    ensures forward { (p : Plan) (T : List Step) (q : ℕ) → is_ordered (queue_of p q).kind ≡ true → AddsNone T → Lawful p T → StepsForward T q }
    ensures kept { (p : Plan) (T : List Step) (q k : ℕ) → Lawful p T → IsAnsweredTo T q k → KeepsNoneTo T q k }
{}

/// What is inside (the events that wait, are kept or are unanswered, whatever the kinds of the queues) and what was released make
/// up what was accepted as new and what was added.
pub fn inside_settles()
    ensures { (p : Plan) (T : List Step) → Lawful p T → inside p T + release_count T ≡ new_count T + more_count T }
{}

/// By the steps of a reply no event is given, and its lane alone says something: the reply. And a reply has one list of steps alone:
/// of an answer these are the answer and then, in one order, the Accepts of the kept events that wait for no other.
pub fn steps_of_a_reply()
    ensures given { (v : View) (l : ℕ) (r : Reply) → All (λ s. is_give s ≡ false) (steps_of v l r.event) }
    ensures said { (v : View) (l m : ℕ) (r : Reply) → replies_in (steps_of v l r.event) m ≡ (if m == l then said r ∷ [] else []) }
    ensures unique { (p : Plan) (T : List Step) (l : ℕ) (e : Event) (xs ys : List Step) → Lawful p T → AreStepsOf p T l e xs → AreStepsOf p T l e ys → xs ≡ ys }
{}

/// The steps of a reply are two at most beside the kept events that it lets go, and no more events are kept than five for each place
/// of the ordered queues. So a row of replies takes two steps each, and one for each event that was kept before.
pub fn steps_of_a_reply_are_few()
    ensures steps { (v : View) (T : List Step) (l : ℕ) (e : Event) → Stands T v → l < lanes_of v.shape → length (steps_of v l e) + kept_in (after v (steps_of v l e)) ≤ kept_in v + 2 }
    ensures kept { (v : View) (T : List Step) → Stands T v → kept_in v ≤ MAX_FORWARDS * sum_by kept_room v.shape.queues }
{}

/// Each step adds one at most to what was accepted or is kept. So that is never more than the steps, by the transcript and by what
/// a core holds of it.
pub fn entries_are_few()
    ensures steps { (p : Plan) (T : List Step) → Lawful p T → entries p T ≤ length T }
    ensures held { (v : View) (T : List Step) → Stands T v → entries_of v ≤ length T }
{}

/// What a core holds that stands at a transcript tells how many events are inside, how many were accepted or are kept, which
/// replies may be taken, and what is kept.
pub fn a_view_tells()
    ensures inside { (v : View) (T : List Step) → Stands T v → inside_of v ≡ inside v.shape T }
    ensures entries { (v : View) (T : List Step) → Stands T v → entries_of v ≡ entries v.shape T }
    ensures takes { (v : View) (T : List Step) (l : ℕ) (e : Event) → Stands T v → l < lanes_of v.shape → may_take v l e ≡ may_be_taken v.shape T l e }
    ensures kept { (v : View) (T : List Step) (q : ℕ) → Stands T v → q < length v.shape.queues → kept_at v q ≡ map kept_under (kept T q) }
{}

/// The steps of a sweep (it sees that the device is shut, takes replies of each lane and gives events of each queue up to the sweep
/// quantum, and finds each lane's ring full once at most) are no more than there is room for.
pub fn a_sweep_fits()
    ensures { (v : View) (T : List Step) (s : Sweeping) → Stands T v → IsSweep v s → length (sweep_steps v s) ≤ sweep_room v.shape }
{}

/// Where flows have lanes of their own, each slot of an atomic queue is served by one lane alone. So no other lane ever has an
/// unanswered event of the slot, and the scheduler need not look for one.
pub fn flow_lanes_stand_alone()
    ensures lane { (p : Plan) (l m q s : ℕ) → has_flow_lanes p q ≡ true → serves p l q s ≡ true → serves p m q s ≡ true → l ≡ m }
    ensures alone { (v : View) (T : List Step) (l q s : ℕ) → Stands T v → has_flow_lanes v.shape q ≡ true → serves v.shape l q s ≡ true → HasNoOther v l q s }
{}
