//! A run of pairs, and which one of many leads to what is sought.
ghost use Rattle.std.specs.Prelude.{◌≡◌, ◌≤◌, ◌-◌, length, IfOk, MatchBool};
ghost use Rattle.prolly_look_up.specs.Sought.{sought_of};
ghost use Rattle.prolly_look_up.specs.Sought.Sought.{Key};
ghost use Rattle.prolly_c.specs.Runs.{Answers, AreUpTo, StartsBehind, StartsUpTo, part};

use crate::status::WrongIndex;
use prolly_entry::{key_order, split_pair};
use prolly_look_up::Sought;

/// Some pairs of a leaf, one behind another: their entries are the bytes from `start` to `end` of a
/// chunk file. The first of them has the number `first` among the pairs of the file, counted from
/// 0.
#[repr(C)]
#[derive(Clone, Copy)]
pub struct Run {
    pub start: usize,
    pub end: usize,
    pub first: u64,
}

/// The bytes from one place to another, where they are there.
pub(crate) fn bytes_between(bytes: &[u8], start: usize, end: usize) -> Result<&[u8], WrongIndex>
    ensures there { start ≤ end → end ≤ length bytes.now →
        Answers (λ found. found.now ≡ part bytes.now start end) result }
    ensures len { IfOk result (λ found. (start ≤ end) × (length found.now ≡ end - start)) }
{
    match bytes.get(start..end) {
        Some(found) => Ok(found),
        None => Err(WrongIndex),
    }
}

/// How many of the runs of an index begin before what is sought, or at it.
pub(crate) fn count_up_to(bytes: &[u8], runs: &[Run], sought: Sought<'_>) -> usize
    ensures { AreUpTo bytes.now runs.now (sought_of sought.entry) result }
{
    let mut low = 0;
    let mut high = runs.len();
    while low < high {
        let middle = low + (high - low) / 2;
        if starts_up_to(bytes, &runs[middle], sought) {
            low = middle + 1;
        } else {
            high = middle;
        }
    }
    low
}

/// Whether a run begins before what is sought, or at it.
fn starts_up_to(bytes: &[u8], run: &Run, sought: Sought<'_>) -> bool
    ensures { MatchBool result (StartsUpTo bytes.now (sought_of sought.entry) run.now)
        (StartsBehind bytes.now (sought_of sought.entry) run.now) }
{
    match sought {
        Sought::Key(key) => starts_up_to_key(bytes, run, key),
        Sought::Number(n) => run.first <= n,
    }
}

/// Whether the first key of a run is not greater than the key.
fn starts_up_to_key(bytes: &[u8], run: &Run, key: &[u8]) -> bool
    ensures { MatchBool result (StartsUpTo bytes.now (Key key.now) run.now)
        (StartsBehind bytes.now (Key key.now) run.now) }
{
    let Ok(entries) = bytes_between(bytes, run.start, run.end) else {
        return false;
    };
    match split_pair(entries) {
        Some((first, _, _)) => !key_order(key, first).is_lt(),
        None => false,
    }
}
