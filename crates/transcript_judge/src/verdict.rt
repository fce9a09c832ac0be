//! What the judge tells of a transcript.

use evt_types::Step;

/// A promise that a transcript can break: a clause of what is lawful.
#[derive(Clone, Copy, Debug, PartialEq, Eq)]
pub enum Clause {
    /// A step names queues and lanes that are there, and has the operation that fits.
    Formed,
    /// A lane answers no more than it was given.
    Answers,
    /// Events are added beside an unanswered event alone, and no more than a few.
    Extras,
    /// What is given was accepted before, and is given once.
    Once,
    /// A lane is given events of queues and slots that it serves.
    Linked,
    /// No lane has more unanswered events than its depth.
    Depth,
    /// No ordered queue has more open numbers than its order.
    Places,
    /// No more events are inside than there is room for.
    Limit,
    /// The events of one flow and level of an atomic queue, and those of one level of an ordered queue, are given in order.
    Flow,
    /// The unanswered events of one slot of an atomic queue stand on one lane.
    Alone,
    /// What an ordered queue's events are passed on as is accepted in hand-out order, and what one flow and level of an atomic
    /// queue's are, by rising number.
    Order,
    /// What is accepted from a number is what that was passed on as, in order.
    Origin,
    /// After Shut nothing new is accepted, before it nothing is turned away, and it stands once.
    Closed,
    /// What was passed on and waits for no other event is accepted before anything else is done.
    Prompt,
}

/// What is found of a transcript.
#[derive(Clone, Copy, Debug, PartialEq, Eq)]
pub enum Verdict {
    /// It is lawful.
    Lawful,
    /// It is not lawful yet: events that wait for no other are still to be accepted.
    Running,
    /// The steps before the one at `at` can be gone on with lawfully; with that step they break the clause, whatever follows.
    Broken {
        at: usize,
        clause: Clause,
        step: Step,
    },
}
