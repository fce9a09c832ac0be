//! Laws of verdicts. Each function does nothing: its contract is the law.

ghost use Rattle.std.specs.Prelude.{ℕ, List, take};
ghost use Rattle.evt_types.specs.Plan.{Plan};
ghost use Rattle.evt_types.specs.declared.step.Step.{Step};
ghost use Rattle.transcripts.specs.Lawful.{Lawful};
ghost use Rattle.transcript_judge.specs.Fronts.{Breaks, IsFront};
ghost use Rattle.transcript_judge.specs.Verdicts.{IsSameFinding, IsVerdict};
ghost use Rattle.transcript_judge.specs.declared.verdict.Clause.{Clause};
ghost use Rattle.transcript_judge.specs.declared.verdict.Verdict.{Verdict};

/// A lawful transcript is a front of one, and so are the first steps of a front.
pub fn fronts_are_closed()
    ensures lawful { (p : Plan) (T : List Step) → Lawful p T → IsFront p T }
    ensures shorter { (p : Plan) (T : List Step) (k : ℕ) → IsFront p T → IsFront p (take k T) }
{}

/// Once a clause is broken no steps that follow make the transcript lawful.
pub fn broken_clauses_stay_broken()
    ensures { (p : Plan) (T : List Step) (c : Clause) → Breaks c p T → ¬ IsFront p T }
{}

/// A transcript has one verdict: lawful, running, or broken at one step. Of the clauses that this step breaks any may be named.
pub fn verdicts_are_one()
    ensures { (p : Plan) (T : List Step) (v w : Verdict) → IsVerdict p T v → IsVerdict p T w → IsSameFinding v w }
{}
