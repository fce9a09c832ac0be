//! Lists that stand in a list.

ghost use Rattle.std.specs.Prelude.{◌≡◌, ◌<◌, [], ◌∷◌, ◌++◌, IfOk, OnOk, drop, length, replicate, slice_set};
ghost use Rattle.transcript_judge.specs.Ledger.{row, rows};

use std::alloc::{AllocError, Global};

/// So many empty lists.
pub(crate) fn empty_lists<T: Drop>(alloc: Global, count: usize) -> Result<Vec<Vec<T>>, AllocError>
    ensures { IfOk result (λ lists. rows lists.items ≡ replicate count []) }
{
    let mut lists = Vec::with_capacity(alloc, count)?;
    for _ in 0..count {
        lists.push(Vec::new(alloc))?;
    }
    Ok(lists)
}

/// One item more at the end of one of the lists.
pub(crate) fn push_to<T: Drop>(
    lists: &mut Vec<Vec<T>>,
    place: usize,
    item: T,
) -> Result<(), AllocError>
    requires { place < length lists.old.items }
    ensures { OnOk result (rows lists.new.items ≡ slice_set (rows lists.old.items) place (row (rows lists.old.items) place ++ item ∷ [])) }
{
    lists[place].push(item)?;
    Ok(())
}

/// One of the lists, which has something, loses its first item.
pub(crate) fn drop_first<T: Drop>(lists: &mut Vec<Vec<T>>, place: usize)
    requires place { place < length lists.old.items }
    requires some { 0 < length (row (rows lists.old.items) place) }
    ensures { rows lists.new.items ≡ slice_set (rows lists.old.items) place (drop 1 (row (rows lists.old.items) place)) }
{
    lists[place].remove(0);
}
