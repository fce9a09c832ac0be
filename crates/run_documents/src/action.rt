//! The reading of a stage's action.

ghost use Rattle.std.specs.Prelude.{◌≡◌, map, IfOk};
ghost use Rattle.toml.specs.View.{table_view};
ghost use Rattle.run_documents.specs.Actions.{action_at, action_in, action_of, adds, drops};

use pipeline_laws::Action;
use play_documents::field::{Field, good_or_bad, text_at};
use play_documents::words::{number, words};
use std::alloc::{AllocError, Global};
use toml::Table;

/// The action that adds what the word says.
fn adds(word: &str) -> Option<Action>
    ensures { result ≡ adds word.now }
{
    match number(word, u64::MAX) {
        Some(more) => Some(Action::Add(more)),
        None => None,
    }
}

/// The action that drops the multiples of what the word says, which isn't 0.
fn drops(word: &str) -> Option<Action>
    ensures { result ≡ drops word.now }
{
    match number(word, u64::MAX) {
        Some(0) => None,
        Some(divisor) => Some(Action::DropMultiples(divisor)),
        None => None,
    }
}

/// The action of some words.
fn action_of(words: &[&str]) -> Option<Action>
    ensures { result ≡ action_of (map (λ s. s.now) words.now) }
{
    match words {
        [name] => {
            if *name == "pass" {
                Some(Action::Pass)
            } else {
                None
            }
        }
        [name, number] => {
            if *name == "add" {
                adds(number)
            } else if *name == "drop" {
                drops(number)
            } else {
                None
            }
        }
        _ => None,
    }
}

/// The action of a text.
#[tactic(auto, unfolding(crate::specs::Actions::action_in))]
fn action_in(alloc: Global, text: &str) -> Result<Option<Action>, AllocError>
    ensures { IfOk result (λ a. a ≡ action_in text.now) }
{
    let words = words(alloc, text)?;
    Ok(action_of(&words))
}

/// The action at a key.
pub fn action_at(alloc: Global, table: &Table, key: &str) -> Result<Field<Action>, AllocError>
    ensures { IfOk result (λ a. a ≡ action_at key.now (table_view table.now)) }
{
    match text_at(table, key) {
        Field::Absent => Ok(Field::Absent),
        Field::Bad => Ok(Field::Bad),
        Field::Good(text) => Ok(good_or_bad(action_in(alloc, text)?)),
    }
}
