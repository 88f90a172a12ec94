//! Keys that rise.
ghost use Rattle.std.specs.Prelude.{◌≡◌, IfErr, IfOk, map};
ghost use Rattle.prolly_entry.specs.Keys.{Rising};
ghost use Rattle.prolly_range.specs.SortedKeys.{FallsFirst, Rising-prop, is_one_of, keys_above};
ghost use Rattle.prolly_range.specs.SortedKeys.{keys_up_to};

use prolly_entry::key_order;
use std::error::Error;
use std::fmt;
use std::fmt::{Display, Formatter};

/// The first key that is not greater than the one before it.
#[derive(Clone, Copy, Debug, PartialEq, Eq)]
pub struct NotRising {
    /// How many keys stand before it.
    pub place: usize,
}

impl Display for NotRising {
    ghost use Rattle.std.specs.Prelude.{Some};
    ghost use Rattle.prolly_range.specs.FaultTexts.{not_rising_text};

    ghost output = { λ _. Some not_rising_text };

    fn fmt<W: fmt::Write>(&self, f: &mut Formatter<W>) -> fmt::Result {
        f.write_str("key not greater than the one before it")
    }
}

impl Error for NotRising {}

/// Keys of which each is greater than the one before it. They are borrowed, and a part of them is,
/// too.
#[derive(Clone, Copy)]
pub struct SortedKeys<'a> {
    keys: &'a [Vec<u8>],
    ghost rising: { Rising (map (λ k. k.items) keys.now) } by { Rising-prop (map (λ k. k.items) keys.now) },
}

impl<'a> SortedKeys<'a> {
    ghost use Rattle.prolly_range.specs.KeySet.{keys_in};

    /// These keys, if they rise. Compares each with the one before it, and takes no memory.
    pub fn new(keys: &'a [Vec<u8>]) -> Result<SortedKeys<'a>, NotRising>
        ensures ok { IfOk result (λ sorted. keys_in sorted ≡ map (λ k. k.items) keys.now) }
        ensures err { IfErr result (λ fault.
            FallsFirst (map (λ k. k.items) keys.now) fault.place) }
    {
        for place in 1..keys.len() {
            if !key_order(&keys[place - 1], &keys[place]).is_lt() {
                return Err(NotRising { place });
            }
        }
        Ok(SortedKeys { keys })
    }

    /// The keys, in their order.
    pub fn keys(self) -> &'a [Vec<u8>]
        ensures keys { map (λ k. k.items) result.now ≡ keys_in self.entry }
        ensures rising { Rising (keys_in self.entry) }
    {
        self.keys
    }

    /// Whether the key is one of these. Takes O(log n) comparisons.
    pub(crate) fn has(self, key: &[u8]) -> bool
        ensures { result ≡ is_one_of (keys_in self.entry) key.now }
    {
        let (up_to, _) = self.split(key);
        match up_to.keys.last() {
            None => false,
            Some(last) => key_order(last, key).is_eq(),
        }
    }

    /// Those that are not greater than the key, and those that are. Takes O(log n) comparisons.
    pub(crate) fn split(self, key: &[u8]) -> (SortedKeys<'a>, SortedKeys<'a>)
        ensures up_to { keys_in result.0 ≡ keys_up_to key.now (keys_in self.entry) }
        ensures above { keys_in result.1 ≡ keys_above key.now (keys_in self.entry) }
    {
        let count = self.keys.partition_point(|k| !key_order(key, k).is_lt());
        let (up_to, above) = self.keys.split_at(count);
        (SortedKeys { keys: up_to }, SortedKeys { keys: above })
    }
}
