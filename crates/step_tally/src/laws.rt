//! Laws of what is counted. Each function does nothing: its contract is the law.

ghost use Rattle.std.specs.Prelude.{◌≡◌, ℕ, ◌+◌, List, length, sum_by};
ghost use Rattle.evt_types.specs.Plan.{Plan, lanes};
ghost use Rattle.transcripts.specs.Lawful.{Lawful};
ghost use Rattle.transcripts.specs.Transcript.{accepted, answers, hand, out, unanswered, waiting};
ghost use Rattle.step_tally.specs.Counts.{forwarded_by, given_to, new_to, passed_to, released_by};
ghost use Rattle.evt_types.specs.declared.step.Step.{Step};

/// What a queue accepted is what it accepted as NEW and what it accepted as what others were passed on as.
pub fn accepted_are_new_or_forwarded()
    ensures { (T : List Step) (q : ℕ) → new_to T q + passed_to T q ≡ length (accepted T q) }
{}

/// What a queue accepted was given or waits: so how many of its events wait is what was accepted less what was given.
pub fn accepted_are_given_or_wait()
    ensures { (p : Plan) (T : List Step) (q : ℕ) → Lawful p T → length (accepted T q) ≡ length (hand T q) + length (waiting T q) }
{}

/// Each event of a queue that was given was given to one lane: so how many were given is the sum over all lanes.
pub fn given_are_given_to_lanes()
    ensures { (p : Plan) (T : List Step) (q : ℕ) → Lawful p T → length (hand T q) ≡ sum_by (given_to T q) (lanes p) }
{}

/// A lane's answers are the events that it released and those that it forwarded.
pub fn answers_are_released_or_forwarded()
    ensures { (T : List Step) (l : ℕ) → released_by T l + forwarded_by T l ≡ length (answers T l) }
{}

/// What a lane was given is answered or unanswered: so how many of its events are unanswered is what was given less what was
/// released and forwarded.
pub fn given_are_answered_or_unanswered()
    ensures { (p : Plan) (T : List Step) (l : ℕ) → Lawful p T → length (out T l) ≡ length (answers T l) + length (unanswered T l) }
{}
