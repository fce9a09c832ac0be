//! Numbers as a set, and how often each of them comes.

ghost use Rattle.std.specs.Prelude.{◌≡◌, ℕ, ◌+◌, ◌<◌, ◌^◌, ◌||◌, ◌==◌, IfOk, OnOk, count_by, if◌then◌else◌, length, slice_index};
ghost use Rattle.std.specs.BTreeSet.{contains};
ghost use Rattle.std.specs.Ordering.{nat_cmp};
ghost use Rattle.lists.specs.Lists.{has};

use std::alloc::{AllocError, Global};
use std::collections::BTreeSet;

/// One number more.
fn add(set: &mut BTreeSet<u64>, number: u64) -> Result<(), AllocError>
    ensures { OnOk result ((n : ℕ) → contains nat_cmp set.new n ≡ (contains nat_cmp set.old n || (number == n))) }
{
    set.insert(number)?;
    Ok(())
}

/// The numbers as a set.
pub(crate) fn set_of(alloc: Global, numbers: &[u64]) -> Result<BTreeSet<u64>, AllocError>
    ensures { IfOk result (λ set. (n : ℕ) → contains nat_cmp set n ≡ has n numbers.now) }
{
    let mut set = BTreeSet::new(alloc);
    for number in numbers {
        add(&mut set, *number)?;
    }
    Ok(set)
}

/// Whether the set has the number.
pub(crate) fn has(set: &BTreeSet<u64>, number: u64) -> bool
    ensures { result ≡ contains nat_cmp set.now number }
{
    set.contains(&number)
}

/// Counts the number, if the tally has it.
fn count(tally: &mut Vec<usize>, number: usize)
    requires { (n : ℕ) → slice_index tally.old.items n < 2 ^ 63 }
    ensures size { length tally.new.items ≡ length tally.old.items }
    ensures counts { (n : ℕ) → n < length tally.old.items → slice_index tally.new.items n ≡ slice_index tally.old.items n + (if number == n then 1 else 0) }
{
    if number < tally.len() {
        tally[number] += 1;
    }
}

/// How often each number below the size comes.
pub(crate) fn tally_of(
    alloc: Global,
    size: usize,
    numbers: &[u64],
) -> Result<Vec<usize>, AllocError>
    ensures size { IfOk result (λ tally. length tally.items ≡ size) }
    ensures counts { IfOk result (λ tally. (n : ℕ) → n < size → slice_index tally.items n ≡ count_by (λ m. m == n) numbers.now) }
{
    let mut tally = vec![in alloc; 0; size]?;
    for number in numbers {
        count(&mut tally, *number as usize);
    }
    Ok(tally)
}
