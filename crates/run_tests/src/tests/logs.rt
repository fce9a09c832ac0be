//! The check of a finished log: it finds an answer that isn't its stage's action.

ghost use Rattle.std.specs.Prelude.{◌≡◌};
ghost use Rattle.run_tests.specs.Logs.{log_with};

use evt_types::{Outcome, Source, Step};
use pipeline_laws::{Action, Entry, answers_are_due};
use std::alloc::{AllocError, Global};
use std::test::Fail;

/// Two stages, of which the first adds 1.
const ACTIONS: [Action; 2] = [Action::Add(1), Action::Pass];

/// The log of an event of payload 1 that the first stage forwards with this payload.
fn log_with(payload: u64) -> [Step; 6]
    ensures { result ≡ log_with payload }
{
    let entry = Entry {
        flow: 7,
        priority: 128,
        payload: 1,
    };
    let event = entry.event();
    let sum = event.forwarded(1, payload);
    [
        Step::Accept {
            queue: 0,
            event,
            source: Source::New { lane: 0 },
        },
        Step::Give {
            lane: 1,
            queue: 0,
            number: 0,
        },
        Step::Done {
            lane: 1,
            outcome: Outcome::Forwarded(sum),
        },
        Step::Accept {
            queue: 1,
            event: sum,
            source: Source::Of {
                queue: 0,
                number: 0,
            },
        },
        Step::Give {
            lane: 1,
            queue: 1,
            number: 0,
        },
        Step::Done {
            lane: 1,
            outcome: Outcome::Released,
        },
    ]
}

/// Whether the first stage may forward the event with this payload.
#[tactic(auto, using(crate::proofs::LawfulLogs::is_log))]
fn is_due(alloc: Global, payload: u64) -> Result<bool, AllocError> {
    let log = log_with(payload);
    answers_are_due(alloc, 2, 2, &ACTIONS, &log)
}

#[test]
fn finds_an_answer_that_is_not_due(rt: HostRuntime) -> Result<(), Fail> {
    for (payload, due) in [(2, true), (3, false), (1, false), (0, false)] {
        assert_eq!(rt; is_due(rt.alloc(), payload)?, due, "{payload}");
    }
    Ok(())
}
