//! Copies of the first pairs of leaves.
ghost use Rattle.std.specs.Prelude.{◌≡◌, take, IfOk};

use crate::look_up::leaves::Leaves;
use prolly_entry::Pair;
use prolly_look_up::copy_pairs;
use std::alloc::{AllocError, Global};

/// The first pairs of leaves, at most `limit` of them. Reads no leaf behind the one that has the last
/// of them.
pub(crate) fn scan_pairs(
    alloc: Global,
    mut leaves: Leaves,
    limit: usize,
) -> Result<Vec<Pair>, AllocError>
    ensures { IfOk result (λ pairs. pairs.items ≡ take limit leaves.entry) }
{
    let mut found = Vec::new(alloc);
    while let Some(leaf) = leaves.next() {
        copy_pairs(alloc, leaf, limit, &mut found)?;
        if found.len() == limit {
            return Ok(found);
        }
    }
    Ok(found)
}
