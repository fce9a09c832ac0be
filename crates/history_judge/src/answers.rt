//! For each event that was got the entry that answers it.

ghost use Rattle.std.specs.Prelude.{◌≡◌, ℕ, ◌<◌, [], IfOk, OnOk, length};
ghost use Rattle.history_judge.specs.Answers as specs;
ghost use Rattle.history_judge.specs.Answers.{AreAnswers, ArePlaces};
ghost use Rattle.history_judge.specs.Entries.{IsUnknown};
ghost use Rattle.history_judge.specs.Holds.{AreTimes, rows};

use crate::seen::{Deed, Seen};
use crate::times::is_answer;
use crate::watch::{count_got, no_counts};
use evt_types::Memory;
use std::alloc::Global;

/// So many empty lists.
fn empty_places(alloc: Global, count: usize) -> Result<Vec<Vec<usize>>, Memory>
    ensures { IfOk result (λ lists. AreTimes count [] lists.items) }
{
    let mut lists = Vec::with_capacity(alloc, count)?;
    for _ in 0..count {
        lists.push(Vec::new(alloc))?;
    }
    Ok(lists)
}

/// Notes where an answer stands, at its port.
fn note_place(places: &mut Vec<Vec<usize>>, seen: &Seen, at: usize) -> Result<(), Memory>
    requires { seen.now.port < length places.old.items }
    ensures { OnOk result (rows places.new.items ≡ specs.noted_at (rows places.old.items) seen.now at) }
{
    if is_answer(seen) {
        places[seen.port].push(at)?;
    }
    Ok(())
}

/// For each port where its answers stand.
fn answer_places(alloc: Global, ports: usize, history: &[Seen]) -> Result<Vec<Vec<usize>>, Memory>
    requires { (i : ℕ) → ¬ IsUnknown ports history.now i }
    ensures { IfOk result (λ places. ArePlaces ports history.now (length history.now) places.items) }
{
    let mut places = empty_places(alloc, ports)?;
    for (at, seen) in history.iter().enumerate() {
        note_place(&mut places, seen, at)?;
    }
    Ok(places)
}

/// The entry that answers what the entry got, if it got an event; so many its port got before it.
fn answer_of(places: &[Vec<usize>], seen: &Seen, number: usize) -> Option<usize>
    requires { seen.now.port < length places.now }
    ensures { result ≡ specs.answer_of places.now seen.now number }
{
    match &seen.deed {
        Deed::Got(_) => places[seen.port].get(number).copied(),
        Deed::Sent(_) => None,
    }
}

/// For each entry the entry that answers what it got, if there is one.
pub(crate) fn all_answers(
    alloc: Global,
    ports: usize,
    history: &[Seen],
) -> Result<Vec<Option<usize>>, Memory>
    requires { (i : ℕ) → ¬ IsUnknown ports history.now i }
    ensures { IfOk result (λ list. AreAnswers history.now list.items) }
{
    let places = answer_places(alloc, ports, history)?;
    let mut got = no_counts(alloc, ports)?;
    let mut answers = Vec::with_capacity(alloc, history.len())?;
    for seen in history {
        let number = count_got(&mut got, seen);
        answers.push(answer_of(&places, seen, number))?;
    }
    Ok(answers)
}
