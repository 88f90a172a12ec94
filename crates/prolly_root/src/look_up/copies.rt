//! Copies of what a look-up found.
ghost use Rattle.std.specs.Prelude.{◌≡◌, ◌≤◌, length, option_map, IfOk, IfSome, take};
ghost use Rattle.prolly_look_up.specs.FoundPairs.{pair_found};
ghost use Rattle.prolly_tree.specs.LookUp.{find};

use prolly_entry::{Pair, key_order};
use prolly_look_up::Pairs;
use std::alloc::{AllocError, Global};

/// A copy of the value of the key, where the first of these pairs has it.
pub(crate) fn first_value(
    alloc: Global,
    pairs: &Pairs<'_>,
    key: &[u8],
) -> Result<Option<Vec<u8>>, AllocError>
    ensures { IfOk result (λ value.
        option_map (λ v. v.items) value ≡ find (take 1 pairs.now) key.now) }
{
    match pairs.first() {
        Some((found, value)) if key_order(found, key).is_eq() => {
            Ok(Some(Vec::from_slice(alloc, value)?))
        }
        _ => Ok(None),
    }
}

/// A copy of the pair.
pub(crate) fn copy_of(
    alloc: Global,
    pair: Option<(&[u8], &[u8])>,
) -> Result<Option<Pair>, AllocError>
    requires { IfSome pair (λ pair. (length pair.0.now ≤ 1024) ×
        (length pair.1.now ≤ 65536)) }
    ensures { IfOk result (λ copy. copy ≡ pair_found pair.entry) }
{
    match pair {
        None => Ok(None),
        Some((key, value)) => Ok(Some(Pair::copy_of(alloc, key, value)?)),
    }
}
