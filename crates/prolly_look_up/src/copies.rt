//! Copies of pairs of a leaf.
ghost use Rattle.std.specs.Prelude.{◌≡◌, ◌++◌, ◌≤◌, length, take, OnOk, IfOk};

use crate::entries::Pairs;
use prolly_entry::Pair;
use std::alloc::{AllocError, Global};

/// Copies of the first pairs of a leaf, at most `limit` of them. Takes memory for them, and time
/// linear in them.
pub fn first_pairs(alloc: Global, leaf: Pairs, limit: usize) -> Result<Vec<Pair>, AllocError>
    ensures { IfOk result (λ pairs. pairs.items ≡ take limit leaf.entry) }
{
    let mut pairs = Vec::new(alloc);
    copy_pairs(alloc, leaf, limit, &mut pairs)?;
    Ok(pairs)
}

/// Adds copies of the pairs of a leaf, until there are `limit` pairs. Takes memory for the copies, and
/// time linear in them. After an `Err` some may have been added.
pub fn copy_pairs(
    alloc: Global,
    mut leaf: Pairs,
    limit: usize,
    pairs: &mut Vec<Pair>,
) -> Result<(), AllocError>
    requires { length pairs.old.items ≤ limit }
    ensures within { OnOk result (length pairs.new.items ≤ limit) }
    ensures added { OnOk result
        (pairs.new.items ≡ take limit (pairs.old.items ++ leaf.entry)) }
{
    while let Some((key, value)) = leaf.next() {
        if pairs.len() == limit {
            return Ok(());
        }
        pairs.push(Pair::copy_of(alloc, key, value)?)?;
    }
    Ok(())
}
