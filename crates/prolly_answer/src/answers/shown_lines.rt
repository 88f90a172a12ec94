//! The lines of what a chunk of a proof shows.
ghost use Rattle.std.specs.Prelude.{◌≡◌, ◌++◌, ◌∷◌, [], true, map, IfOk, OnOk};
ghost use Rattle.prolly_entry.specs.Keys.{Rising};
ghost use Rattle.prolly_range.specs.Found.{AreSomeOf};
ghost use Rattle.prolly_range.specs.KeySet.{set_of};
ghost use Rattle.prolly_range.specs.SortedKeys.{is_one_of, keys_above, keys_up_to};
ghost use Rattle.prolly_answer.specs.KeyLookUps.{found_at, found_lines};
ghost use Rattle.prolly_answer.specs.LookUps.{pair_lines};
ghost use Rattle.prolly_answer.specs.SetLines.{FitsLeft, alone_lines, keys_left, keys_past};
ghost use Rattle.prolly_answer.specs.SetLines.{left_behind, more_lines};

use crate::answers::get_keys::append_found;
use prolly_entry::key_order;
use prolly_range::{KeySet, PairsWanted};
use prolly_text::{Notation, append_line};
use std::alloc::{AllocError, Global};

/// Appends the lines that are told of these pairs, where these keys of a list are left: of a range one
/// for each of them, of a list one for each key up to the last of them. Answers the keys that are left
/// behind them.
pub(crate) fn append_shown<'k>(
    lines: &mut Vec<u8>,
    notation: Notation,
    set: KeySet<'_>,
    left: &'k [Vec<u8>],
    pairs: PairsWanted<'_>,
) -> Result<&'k [Vec<u8>], AllocError>
    requires { FitsLeft (set_of set) (map (λ k. k.items) left.now) pairs }
    ensures left { IfOk result (λ rest. map (λ k. k.items) rest.now ≡
        left_behind (set_of set.entry) (map (λ k. k.items) left.now) pairs.entry) }
    ensures lines { OnOk result (lines.new.items ≡ lines.old.items ++
        more_lines notation (set_of set.entry) (map (λ k. k.items) left.now) pairs.entry) }
{
    match set {
        KeySet::Range { .. } => {
            append_wanted(lines, notation, pairs)?;
            Ok(left)
        }
        KeySet::Keys(_) => append_past(lines, notation, left, pairs),
    }
}

/// Appends a line for each of the pairs.
fn append_wanted(
    lines: &mut Vec<u8>,
    notation: Notation,
    mut pairs: PairsWanted<'_>,
) -> Result<(), AllocError>
    ensures { OnOk result (lines.new.items ≡ lines.old.items ++ pair_lines notation pairs.entry) }
{
    while let Some((key, value)) = pairs.next() {
        append_line(lines, notation, key, Some(value))?;
    }
    Ok(())
}

/// Appends a line for each of the keys up to the last one of the pairs, which are of some of them.
/// Answers the keys behind.
fn append_past<'k>(
    lines: &mut Vec<u8>,
    notation: Notation,
    keys: &'k [Vec<u8>],
    mut pairs: PairsWanted<'_>,
) -> Result<&'k [Vec<u8>], AllocError>
    requires rising { Rising (map (λ k. k.items) keys.now) }
    requires some { AreSomeOf pairs (map (λ k. k.items) keys.now) }
    ensures left { IfOk result (λ left. map (λ k. k.items) left.now ≡
        keys_left pairs.entry (map (λ k. k.items) keys.now)) }
    ensures lines { OnOk result (lines.new.items ≡ lines.old.items ++ found_lines notation
        (found_at pairs.entry (keys_past pairs.entry (map (λ k. k.items) keys.now)))) }
{
    let mut left = keys;
    while let Some((key, value)) = pairs.next() {
        left = append_up_to(lines, notation, left, key, value)?;
    }
    Ok(left)
}

/// Appends a line for each of the keys up to this one, which is one of them: it alone has a value.
/// Answers the keys behind.
fn append_up_to<'k>(
    lines: &mut Vec<u8>,
    notation: Notation,
    keys: &'k [Vec<u8>],
    key: &[u8],
    value: &[u8],
) -> Result<&'k [Vec<u8>], AllocError>
    requires rising { Rising (map (λ k. k.items) keys.now) }
    requires one { is_one_of (map (λ k. k.items) keys.now) key.now ≡ true }
    ensures left { IfOk result (λ left. map (λ k. k.items) left.now ≡
        keys_above key.now (map (λ k. k.items) keys.now)) }
    ensures lines { OnOk result (lines.new.items ≡ lines.old.items ++ found_lines notation
        (found_at (record { key = key.now; value = value.now } ∷ [])
        (keys_up_to key.now (map (λ k. k.items) keys.now)))) }
{
    let mut left = keys;
    while let Some((first, rest)) = left.split_first() {
        if key_order(first, key).is_eq() {
            append_found(lines, notation, first, Some(value))?;
            return Ok(rest);
        }
        append_found(lines, notation, first, None)?;
        left = rest;
    }
    Ok(left)
}

/// Appends a line for each of the keys alone.
pub(crate) fn append_alone(
    lines: &mut Vec<u8>,
    notation: Notation,
    keys: &[Vec<u8>],
) -> Result<(), AllocError>
    ensures { OnOk result (lines.new.items ≡ lines.old.items ++
        alone_lines notation (map (λ k. k.items) keys.now)) }
{
    for key in keys {
        append_found(lines, notation, key, None)?;
    }
    Ok(())
}
