//! Laws of the pool, of every state that meets its rule and of any step of any seat. Each function does nothing: its contract
//! is the law.

ghost use Rattle.std.specs.Prelude.{◌≡◌, ◌≢◌, ℕ, ◌+◌, ◌<◌, ◌≤◌, ◌↔◌, length, IsTrue};
ghost use lib.ListN.{get_elem?};
ghost use Rattle.credit_pool.specs.Accounts.{after_join, in_use, part_of, rest_of, spent_account, IsShut, Stays};
ghost use Rattle.credit_pool.specs.Rule.{Balanced, HasSeat, HasSetter, IsEmpty, Pool, drawn_in, first_pool, free_in, parts_in, returned_in, word_of};
ghost use Rattle.credit_pool.specs.Steps.{Kind, MayStep, account_after, after_joined, after_split, after_step, drawn_by, given_by, shuts};
ghost use Rattle.credit_pool.specs.declared.account.Account.{Account};

/// The free credits and all that was drawn are the limit and all that was returned, and no more than the limit are free. So what
/// was drawn and not returned, through all seats, is what is in use.
pub fn credits_add_up()
    ensures sum { (limit : ℕ) (s : Pool) → Balanced limit s → free_in s + drawn_in s ≡ limit + returned_in s }
    ensures free { (limit : ℕ) (s : Pool) → Balanced limit s → free_in s ≤ limit }
    ensures used { (limit : ℕ) (s : Pool) → Balanced limit s → drawn_in s ≡ returned_in s + in_use limit (word_of s) }
{}

/// The word has the shut bit exactly where a seat that has parts set it, and a seat that saw the bit finds it.
pub fn the_bit_has_its_cause()
    ensures set { (limit : ℕ) (s : Pool) → Balanced limit s → IsShut (word_of s) ↔ HasSetter s }
    ensures seen { (limit : ℕ) (s : Pool) (id : ℕ) (v : Account) → Balanced limit s → HasSeat s id v → IsTrue v.saw_shut → IsShut (word_of s) }
{}

/// All seats together have 64 parts. A seat without parts drew and returned nothing, and set no bit. So a seat with all parts drew
/// and returned what all seats did, and set the bit where it is set.
pub fn parts_add_up()
    ensures sum { (limit : ℕ) (s : Pool) → Balanced limit s → parts_in s ≡ 64 }
    ensures none { (limit : ℕ) (s : Pool) (id : ℕ) (v : Account) → Balanced limit s → HasSeat s id v → v.parts ≡ 0 → IsEmpty v }
    ensures all { (limit : ℕ) (s : Pool) (id : ℕ) (v : Account) → Balanced limit s → HasSeat s id v → v.parts ≡ 64 → (v.drawn ≡ drawn_in s) × (v.returned ≡ returned_in s) }
    ensures bit { (limit : ℕ) (s : Pool) (id : ℕ) (v : Account) → Balanced limit s → HasSeat s id v → v.parts ≡ 64 → IsShut (word_of s) ↔ IsTrue v.set_shut }
{}

/// The rule holds of a pool that was made, and after each step: one on the word by a seat that has parts, a split, and a join.
pub fn every_step_keeps_the_rule()
    ensures made { (limit : ℕ) → Balanced limit (first_pool limit) }
    ensures step { (limit : ℕ) (s : Pool) (id : ℕ) (v : Account) (kind : Kind) → Balanced limit s → HasSeat s id v → 0 < v.parts → MayStep limit kind (word_of s) → Balanced limit (after_step kind id v s) }
    ensures split { (limit : ℕ) (s : Pool) (id : ℕ) (v : Account) → Balanced limit s → HasSeat s id v → 1 < v.parts → Balanced limit (after_split id v s) }
    ensures join { (limit : ℕ) (s : Pool) (id other : ℕ) (v w : Account) → Balanced limit s → HasSeat s id v → HasSeat s other w → other ≢ id → 0 < v.parts → Balanced limit (after_joined id v other w s) }
{}

/// A step on the word changes the account of the seat that steps and no other. What it draws or gives back goes from or to the free
/// credits, and what all drew and returned grows by as much; the parts stay. The shut bit stays once it is set, and nothing is
/// drawn then. Only the step that sets the bit makes a seat one that set it.
pub fn a_step_changes_one_account()
    ensures own { (s : Pool) (id : ℕ) (v : Account) (kind : Kind) → HasSeat s id v → HasSeat (after_step kind id v s) id (account_after kind (word_of s) v) }
    ensures others { (s : Pool) (id other : ℕ) (v : Account) (kind : Kind) → other ≢ id → get_elem? (after_step kind id v s).views other ≡ get_elem? s.views other }
    ensures free { (limit : ℕ) (s : Pool) (id : ℕ) (v : Account) (kind : Kind) → Balanced limit s → MayStep limit kind (word_of s) → free_in (after_step kind id v s) + drawn_by kind ≡ free_in s + given_by kind }
    ensures drawn { (s : Pool) (id : ℕ) (v : Account) (kind : Kind) → HasSeat s id v → drawn_in (after_step kind id v s) ≡ drawn_in s + drawn_by kind }
    ensures returned { (s : Pool) (id : ℕ) (v : Account) (kind : Kind) → HasSeat s id v → returned_in (after_step kind id v s) ≡ returned_in s + given_by kind }
    ensures parts { (s : Pool) (id : ℕ) (v : Account) (kind : Kind) → HasSeat s id v → parts_in (after_step kind id v s) ≡ parts_in s }
    ensures bit { (limit : ℕ) (s : Pool) (id : ℕ) (v : Account) (kind : Kind) → Balanced limit s → MayStep limit kind (word_of s) → IsShut (word_of s) → IsShut (word_of (after_step kind id v s)) × (drawn_by kind ≡ 0) }
    ensures stays { (word : ℕ) (v : Account) (kind : Kind) → kind ≢ shuts → Stays v (account_after kind word v) }
{}

/// A split gives one part of a seat to a new one, which has an account of zero, and a join gives the parts and the account of one seat
/// to another. Neither changes the word, any other account, or what all seats drew, returned and have of parts.
pub fn a_split_and_a_join_change_no_sum()
    ensures split { (s : Pool) (id : ℕ) (v : Account) → HasSeat s id v → 1 < v.parts → HasSeat (after_split id v s) id (rest_of v) × HasSeat (after_split id v s) (length s.views) (part_of v) }
    ensures split_others { (s : Pool) (id other : ℕ) (v w : Account) → other ≢ id → HasSeat s other w → HasSeat (after_split id v s) other w }
    ensures split_sums { (s : Pool) (id : ℕ) (v : Account) → HasSeat s id v → 1 < v.parts → (drawn_in (after_split id v s) ≡ drawn_in s) × (returned_in (after_split id v s) ≡ returned_in s) × (parts_in (after_split id v s) ≡ parts_in s) }
    ensures join { (s : Pool) (id other : ℕ) (v w : Account) → HasSeat s id v → HasSeat s other w → other ≢ id → HasSeat (after_joined id v other w s) id (after_join v w) × HasSeat (after_joined id v other w s) other spent_account }
    ensures join_others { (s : Pool) (id other third : ℕ) (v w : Account) → third ≢ id → third ≢ other → get_elem? (after_joined id v other w s).views third ≡ get_elem? s.views third }
    ensures join_sums { (s : Pool) (id other : ℕ) (v w : Account) → HasSeat s id v → HasSeat s other w → other ≢ id → (drawn_in (after_joined id v other w s) ≡ drawn_in s) × (returned_in (after_joined id v other w s) ≡ returned_in s) × (parts_in (after_joined id v other w s) ≡ parts_in s) }
{}
