//! What is found among the pairs of a run. Of the bytes nothing is believed.
ghost use Rattle.std.specs.Prelude.{◌≡◌, List, IfOk};
ghost use Rattle.std.specs.Option.{option_copied};
ghost use Rattle.prolly_entry.specs.Pair.{Pair};
ghost use Rattle.prolly_tree.specs.LookUp.{find, nth};
ghost use Rattle.prolly_tree.specs.lemmas.Maps.{Rises};
ghost use Rattle.prolly_look_up.specs.Entries.{IsLeaf};
ghost use Rattle.prolly_look_up.specs.FoundPairs.{pair_found};
ghost use Rattle.prolly_look_up.specs.PairsFrom.{pairs_from};
ghost use Rattle.prolly_c.specs.Runs.{Answers, IsEnd};

use crate::status::WrongIndex;
use prolly_entry::{key_order, split_pair};

/// A key and its value.
pub(crate) type Entry<'a> = (&'a [u8], &'a [u8]);

/// The value of the key. Takes time linear in the entries.
pub(crate) fn value_in<'a>(entries: &'a [u8], key: &[u8]) -> Result<Option<&'a [u8]>, WrongIndex>
    ensures { (pairs : List Pair) → IsLeaf entries.now pairs →
        Answers (λ value. option_copied value ≡ find pairs key.now) result }
{
    let mut left = entries;
    while !left.is_empty() {
        let Some((found, value, rest)) = split_pair(left) else {
            return Err(WrongIndex);
        };
        if key_order(found, key).is_eq() {
            return Ok(Some(value));
        }
        left = rest;
    }
    Ok(None)
}

/// The pair of this number, counted from 0. Takes time linear in the number.
pub(crate) fn pair_in(entries: &[u8], number: u64) -> Result<Option<Entry<'_>>, WrongIndex>
    ensures { (pairs : List Pair) → IsLeaf entries.now pairs →
        Answers (λ pair. pair_found pair ≡ nth pairs number) result }
{
    let mut left = entries;
    let mut ahead = number;
    while !left.is_empty() {
        let Some((key, value, rest)) = split_pair(left) else {
            return Err(WrongIndex);
        };
        if ahead == 0 {
            return Ok(Some((key, value)));
        }
        ahead -= 1;
        left = rest;
    }
    Ok(None)
}

/// The entries of the pairs whose key is not less than `from`. Takes time linear in those before
/// them.
pub(crate) fn entries_from<'a>(entries: &'a [u8], from: &[u8]) -> Result<&'a [u8], WrongIndex>
    ensures leaf { (pairs : List Pair) → IsLeaf entries.now pairs → Rises pairs →
        Answers (λ rest. IsLeaf rest.now (pairs_from from.now pairs)) result }
    ensures end { IfOk result (λ rest. IsEnd entries.now rest.now) }
{
    let mut left = entries;
    while !left.is_empty() {
        let Some((key, _, rest)) = split_pair(left) else {
            return Err(WrongIndex);
        };
        if !key_order(key, from).is_lt() {
            return Ok(left);
        }
        left = rest;
    }
    Ok(left)
}
