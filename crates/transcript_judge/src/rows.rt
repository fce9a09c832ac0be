//! Verdicts on worked logs.

ghost use Rattle.std.specs.Prelude.{[], ◌∷◌};
ghost use Rattle.evt_types.specs.declared.step.Source.TheVariants.{New, Of};
ghost use Rattle.evt_types.specs.declared.step.Outcome.TheVariants.{Released};
ghost use Rattle.evt_types.specs.declared.step.Step.TheVariants.{Accept, Bounced, Done, Give, More};
ghost use Rattle.worked_examples.specs.Logs.{added, added_too_many, accepted_early, answered_early, atomic_stages, beyond_depth, brought, exchanged, event_with, entry, first_event, given_twice, kept_for_good, new_after_shut, no_such_queue, not_linked, one_worker, overtaken, passed_on, second_forwarded_first, split_slot, two_stages, two_workers};
ghost use Rattle.transcript_judge.specs.Rows.{gone_on, passed_over};
ghost use Rattle.transcript_judge.specs.Verdicts.{IsVerdict};
ghost use Rattle.transcript_judge.specs.declared.verdict.Clause.TheVariants as clauses;
ghost use Rattle.transcript_judge.specs.declared.verdict.Verdict.TheVariants as verdicts;

/// Logs that break nothing: lawful ones, and one that has still something to accept.
pub fn unbroken_rows()
    ensures first_event { IsVerdict one_worker first_event verdicts.Lawful }
    ensures second_forwarded_first { IsVerdict two_stages second_forwarded_first verdicts.Lawful }
    ensures kept_for_good { IsVerdict two_stages kept_for_good verdicts.Running }
{}

/// Logs that break a clause, each with the step that broke it first.
pub fn broken_rows()
    ensures given_twice { IsVerdict two_workers given_twice (verdicts.Broken 2 clauses.Once (Give 1 0 0)) }
    ensures overtaken { IsVerdict two_workers overtaken (verdicts.Broken 2 clauses.Flow (Give 1 0 1)) }
    ensures split_slot { IsVerdict two_workers split_slot (verdicts.Broken 6 clauses.Alone (Give 2 0 2)) }
    ensures accepted_early { IsVerdict two_stages accepted_early (verdicts.Broken 5 clauses.Order (Accept 1 (passed_on 20) (Of 0 1))) }
    ensures passed_over { IsVerdict two_stages passed_over (verdicts.Broken 6 clauses.Order (Accept 1 (passed_on 20) (Of 0 1))) }
    ensures exchanged { IsVerdict two_stages exchanged (verdicts.Broken 3 clauses.Origin (Accept 1 (passed_on 11) (Of 0 0))) }
    ensures new_after_shut { IsVerdict one_worker new_after_shut (verdicts.Broken 1 clauses.Closed (entry (brought 1))) }
    ensures not_linked { IsVerdict one_worker not_linked (verdicts.Broken 1 clauses.Linked (Give 0 0 0)) }
    ensures answered_early { IsVerdict one_worker answered_early (verdicts.Broken 1 clauses.Answers (Done 1 Released)) }
    ensures beyond_depth { IsVerdict one_worker beyond_depth (verdicts.Broken 9 clauses.Depth (Give 1 0 4)) }
    ensures added_too_many { IsVerdict two_stages added_too_many (verdicts.Broken 6 clauses.Extras (More 1 (added 50))) }
    ensures gone_on { IsVerdict two_stages gone_on (verdicts.Broken 6 clauses.Prompt (Bounced 1)) }
{}
