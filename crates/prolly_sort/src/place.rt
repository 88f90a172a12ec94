//! Where a record lies among the bytes of a run.
ghost use Rattle.std.specs.Prelude.{◌≡◌, slice_range};
ghost use Rattle.std.specs.Option.{option_copied};
ghost use Rattle.prolly_sort.specs.Place.{StandsIn, have_one_key, key_in, place_order, prefix_of, value_in};

use prolly_entry::{KEY_START, LENGTHS_SIZE, key_order};
use std::cmp::Ordering;

/// How many bytes of a key its place has.
const PREFIX_SIZE: usize = 8;

/// Where a record lies among the bytes of a run.
#[derive(Clone, Copy)]
pub(crate) struct Place {
    /// Bytes of its key as a number ([`prefix_of`]), by which most places are compared without a
    /// look at the bytes. It is 0 until a sort fills it (`rank_places`). Where it differs behind a
    /// sort, keys differ.
    pub(crate) prefix: u64,
    /// How many records came before it.
    pub(crate) number: u32,
    /// Where its spelling begins.
    pub(crate) start: u32,
    /// Where its spelling ends.
    pub(crate) end: u32,
    /// How many bytes its key has.
    pub(crate) key_len: u16,
    /// Whether it puts a value.
    pub(crate) is_put: bool,
}

impl Place {
    /// The key of the record that lies there. It is empty where the bytes end before it does.
    pub(crate) fn key(self, bytes: &[u8]) -> &[u8]
        ensures { result.now ≡ key_in bytes.now self }
    {
        let start = self.start as usize + KEY_START;
        let end = start + self.key_len as usize;
        if bytes.len() < end {
            return &[];
        }
        &bytes[start..end]
    }

    /// The value that the record puts which lies there; none where it removes its key.
    pub(crate) fn value(self, bytes: &[u8]) -> Option<&[u8]>
        requires { StandsIn bytes.now self }
        ensures { option_copied result ≡ value_in bytes.now self }
    {
        if !self.is_put {
            return None;
        }
        let start = self.start as usize + LENGTHS_SIZE + self.key_len as usize;
        Some(&bytes[start..self.end as usize])
    }

    /// The spelling of the record that lies there.
    pub(crate) fn spelling(self, bytes: &[u8]) -> &[u8]
        requires { StandsIn bytes.now self }
        ensures { result.now ≡ slice_range bytes.now self.start self.end }
    {
        &bytes[self.start as usize..self.end as usize]
    }
}

/// The first eight of these bytes as one number, the first byte the weightiest. Fewer of them count
/// as if zeros stood behind them.
pub(crate) fn prefix_of(bytes: &[u8]) -> u64
    ensures { result ≡ prefix_of 8 bytes.now }
{
    let mut prefix = 0;
    for at in 0..PREFIX_SIZE {
        let byte = bytes.get(at).copied().unwrap_or(0);
        prefix = prefix * 256 + u64::from(byte);
    }
    prefix
}

/// Compares two places by their keys, and by their numbers where these are equal.
pub(crate) fn place_order(bytes: &[u8], one: Place, other: Place) -> Ordering
    ensures { result ≡ place_order bytes.now one other }
{
    key_order(one.key(bytes), other.key(bytes)).then(one.number.cmp(&other.number))
}

/// Whether two places have one key. Behind a sort such places are ranked alike, so keys are compared
/// only where the places are.
pub(crate) fn have_one_key(bytes: &[u8], one: Place, other: Place) -> bool
    ensures { result ≡ have_one_key bytes.now one other }
{
    one.prefix == other.prefix && key_order(one.key(bytes), other.key(bytes)).is_eq()
}
