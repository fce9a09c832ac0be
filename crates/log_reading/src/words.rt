//! What the words of a line say.

ghost use Rattle.std.specs.Prelude.{◌≡◌, ◌<◌, ◌^◌, ℕ, List, [], ◌∷◌, ◌++◌, Some, codes, decimal, map};
ghost use Rattle.evt_types.specs.Word.{word_of};
ghost use Rattle.evt_types.specs.declared.draft.QueueDraft.{QueueDraft as Row};
ghost use Rattle.evt_types.specs.declared.event.Event.{Event as EventValue};
ghost use Rattle.evt_types.specs.declared.event.Kind.{Kind as KindValue};
ghost use Rattle.evt_types.specs.declared.step.Source.TheVariants.{New, Of};
ghost use Rattle.evt_types.specs.declared.step.Outcome.TheVariants.{Forwarded};
ghost use Rattle.evt_types.specs.declared.step.Step.{Step as StepValue};
ghost use Rattle.evt_types.specs.declared.step.Step.TheVariants.{Accept, Give, Done, More, Turned};
ghost use Rattle.play_text.specs.Text.{hex_word};
ghost use Rattle.log_reading.specs.Logs.{IsEvent, IsStep};
ghost use Rattle.log_reading.specs.Words.{step_words};

use evt_types::{Event, Outcome, Source, Step};
use play_documents::words::number;

/// The number behind a sign, as in `#5`.
fn signed(word: &str, sign: char) -> Option<u64>
    requires { sign < 128 }
    ensures { (k : ℕ) → k < 2 ^ 64 → word.now ≡ sign ∷ decimal k → result ≡ Some k }
{
    number(word.strip_prefix(sign)?, u64::MAX)
}

/// The lane of a word as `l1`.
fn lane_of(word: &str) -> Option<usize>
    ensures { (k : ℕ) → k < 2 ^ 64 → word.now ≡ codes "l" ++ decimal k → result ≡ Some k }
{
    Some(signed(word, 'l')? as usize)
}

/// The queue of a word as `q0`.
fn queue_of(word: &str) -> Option<usize>
    ensures { (k : ℕ) → k < 2 ^ 64 → word.now ≡ codes "q" ++ decimal k → result ≡ Some k }
{
    Some(signed(word, 'q')? as usize)
}

/// The number of a word in hexadecimal digits.
fn word_said(word: &str) -> Option<u64>
    ensures { (n : ℕ) → n < 2 ^ 64 → word.now ≡ hex_word n → result ≡ Some n }
{
    u64::from_str_radix(word, 16).ok()
}

/// The event of a word in hexadecimal digits and a payload.
fn event_of(word: &str, payload: &str) -> Option<Event>
    ensures { (e : EventValue) (k : KindValue) → IsEvent e → word.now ≡ hex_word (word_of e k) → payload.now ≡ decimal e.payload → result ≡ Some e }
{
    let (word, payload) = (word_said(word)?, number(payload, u64::MAX)?);
    let (event, _) = Event::from_word(word, payload).ok()?;
    Some(event)
}

/// What a lane answered to an event.
fn done_step(lane: &str, outcome: Outcome) -> Option<Step>
    ensures { (l : ℕ) → l < 2 ^ 64 → lane.now ≡ codes "l" ++ decimal l → result ≡ Some (Done l outcome) }
{
    let lane = lane_of(lane)?;
    Some(Step::Done { lane, outcome })
}

/// That a lane forwarded an event as this one.
fn forward_step(lane: &str, word: &str, payload: &str) -> Option<Step>
    ensures { (l : ℕ) (e : EventValue) (k : KindValue) → l < 2 ^ 64 → IsEvent e → lane.now ≡ codes "l" ++ decimal l → word.now ≡ hex_word (word_of e k) → payload.now ≡ decimal e.payload → result ≡ Some (Done l (Forwarded e)) }
{
    done_step(lane, Outcome::Forwarded(event_of(word, payload)?))
}

/// An event that was given to a lane.
fn give_step(lane: &str, queue: &str, number: &str) -> Option<Step>
    ensures { (l q n : ℕ) → l < 2 ^ 64 → q < 2 ^ 64 → n < 2 ^ 64 → lane.now ≡ codes "l" ++ decimal l → queue.now ≡ codes "q" ++ decimal q → number.now ≡ codes "#" ++ decimal n → result ≡ Some (Give l q n) }
{
    Some(Step::Give {
        lane: lane_of(lane)?,
        queue: queue_of(queue)?,
        number: signed(number, '#')?,
    })
}

/// An event that a lane added, or a NEW of it that was turned away.
fn lane_step(name: &str, lane: &str, word: &str, payload: &str) -> Option<Step>
    ensures more { (l : ℕ) (e : EventValue) (k : KindValue) → l < 2 ^ 64 → IsEvent e → name.now ≡ codes "more" → lane.now ≡ codes "l" ++ decimal l → word.now ≡ hex_word (word_of e k) → payload.now ≡ decimal e.payload → result ≡ Some (More l e) }
    ensures turned { (l : ℕ) (e : EventValue) (k : KindValue) → l < 2 ^ 64 → IsEvent e → name.now ≡ codes "turned" → lane.now ≡ codes "l" ++ decimal l → word.now ≡ hex_word (word_of e k) → payload.now ≡ decimal e.payload → result ≡ Some (Turned l e) }
{
    let lane = lane_of(lane)?;
    let event = event_of(word, payload)?;
    if name == "more" {
        Some(Step::More { lane, event })
    } else {
        Some(Step::Turned { lane, event })
    }
}

/// An event that a queue accepted from there.
fn accept_step(queue: &str, source: Source, word: &str, payload: &str) -> Option<Step>
    ensures { (q : ℕ) (e : EventValue) (k : KindValue) → q < 2 ^ 64 → IsEvent e → queue.now ≡ codes "q" ++ decimal q → word.now ≡ hex_word (word_of e k) → payload.now ≡ decimal e.payload → result ≡ Some (Accept q e source) }
{
    Some(Step::Accept {
        queue: queue_of(queue)?,
        event: event_of(word, payload)?,
        source,
    })
}

/// A NEW of a lane that a queue accepted.
fn new_step(queue: &str, lane: &str, word: &str, payload: &str) -> Option<Step>
    ensures { (q l : ℕ) (e : EventValue) (k : KindValue) → q < 2 ^ 64 → l < 2 ^ 64 → IsEvent e → queue.now ≡ codes "q" ++ decimal q → lane.now ≡ codes "l" ++ decimal l → word.now ≡ hex_word (word_of e k) → payload.now ≡ decimal e.payload → result ≡ Some (Accept q e (New l)) }
{
    let lane = lane_of(lane)?;
    accept_step(queue, Source::New { lane }, word, payload)
}

/// That an event was passed on from this queue's event of this number.
fn passed_from(queue: &str, number: &str) -> Option<Source>
    ensures { (q n : ℕ) → q < 2 ^ 64 → n < 2 ^ 64 → queue.now ≡ codes "q" ++ decimal q → number.now ≡ codes "#" ++ decimal n → result ≡ Some (Of q n) }
{
    Some(Source::Of {
        queue: queue_of(queue)?,
        number: signed(number, '#')?,
    })
}

/// What another event was passed on as, and a queue accepted.
fn of_step(queue: &str, from: &str, number: &str, word: &str, payload: &str) -> Option<Step>
    ensures { (q f m : ℕ) (e : EventValue) (k : KindValue) → q < 2 ^ 64 → f < 2 ^ 64 → m < 2 ^ 64 → IsEvent e → queue.now ≡ codes "q" ++ decimal q → from.now ≡ codes "q" ++ decimal f → number.now ≡ codes "#" ++ decimal m → word.now ≡ hex_word (word_of e k) → payload.now ≡ decimal e.payload → result ≡ Some (Accept q e (Of f m)) }
{
    accept_step(queue, passed_from(from, number)?, word, payload)
}

/// The step that these four words say.
fn step_of_four(name: &str, lane: &str, second: &str, third: &str) -> Option<Step>
    ensures { (qs : List Row) (n : ℕ) (s : StepValue) → IsStep s → name.now ∷ lane.now ∷ second.now ∷ third.now ∷ [] ≡ step_words qs n s → result ≡ Some s }
{
    if name == "give" {
        give_step(lane, second, third)
    } else {
        lane_step(name, lane, second, third)
    }
}

/// The step that these words say, if they say one. The number that they give an accepted event isn't looked at.
pub(crate) fn step_of(words: &[&str]) -> Option<Step>
    ensures { (qs : List Row) (n : ℕ) (s : StepValue) → IsStep s → map (λ w. w.now) words.now ≡ step_words qs n s → result ≡ Some s }
{
    match words {
        [_] => Some(Step::Shut),
        [_, lane] => Some(Step::Bounced {
            lane: lane_of(lane)?,
        }),
        [_, lane, _] => done_step(lane, Outcome::Released),
        [name, lane, second, third] => step_of_four(name, lane, second, third),
        [_, lane, _, word, payload] => forward_step(lane, word, payload),
        [_, queue, _, _, lane, word, payload] => new_step(queue, lane, word, payload),
        [_, queue, _, _, from, number, word, payload] => {
            of_step(queue, from, number, word, payload)
        }
        _ => None,
    }
}
