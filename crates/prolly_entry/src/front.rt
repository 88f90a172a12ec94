//! What bytes begin with.
ghost use Rattle.std.specs.Prelude.{◌≡◌, ◌+◌, ◌≤◌, length, take, drop, IfSome, IfNone};
ghost use Rattle.std.specs.Int.{w16, w32, from_be_bytes};
ghost use Rattle.prolly_entry.specs.Front.{IsFrontRecord, IsFrontPair, NoPairAt, front_of, as_pair};
ghost use Rattle.prolly_entry.specs.Pair.{IsPair};
ghost use Rattle.prolly_entry.specs.Spelling.{BeginsWith, pair_spelling};

use crate::pair::{KEY_LIMIT, VALUE_LIMIT};
use crate::spelling::{KEY_START, REMOVAL, VALUE_LENGTH_SIZE, number_of_four, number_of_two};

/// The record that bytes begin with. Its key is the bytes `2..key_end`, the value of a put is
/// `value_start..len`, and its spelling is `0..len`.
#[derive(Clone, Copy)]
pub enum FrontRecord {
    /// A pair is put.
    Put {
        key_end: usize,
        value_start: usize,
        len: usize,
    },
    /// A key is removed.
    Remove {
        key_end: usize,
        len: usize,
    },
    /// A field is cut, and no length that is whole is over its limit.
    More,
    /// The key's length is over 1,024.
    KeyTooLong,
    /// The key is whole, and the value's length is over 65,536 and marks no removal.
    ValueTooLong,
}

/// The pair that bytes begin with. Its key is the bytes `2..key_end`, its value `value_start..len`,
/// and its spelling `0..len`.
#[derive(Clone, Copy)]
pub enum Front {
    /// A whole pair.
    Pair {
        key_end: usize,
        value_start: usize,
        len: usize,
    },
    /// A field is cut, and no length that is whole is over its limit.
    More,
    /// The key's length is over 1,024.
    KeyTooLong,
    /// The key is whole, and the value's length is over 65,536. A removal is such a pair.
    ValueTooLong,
}

/// The record that the bytes begin with. Reads the two lengths, and no byte of key or value.
pub fn front_record(bytes: &[u8]) -> FrontRecord
    ensures is { IsFrontRecord bytes.now result }
    ensures exact { result ≡ front_of bytes.now }
{
    front_at(bytes)
}

/// The pair that the bytes begin with. Reads the two lengths, and no byte of key or value.
pub fn front_pair(bytes: &[u8]) -> Front
    ensures is { IsFrontPair bytes.now result }
    ensures exact { result ≡ as_pair (front_of bytes.now) }
{
    front_record(bytes).as_pair()
}

/// The key and the value of the pair that begins the bytes, and what stands behind it; none where
/// [`front_pair`] finds none.
pub fn split_pair(bytes: &[u8]) -> Option<(&[u8], &[u8], &[u8])>
    ensures some { IfSome result (λ r. BeginsWith pair_spelling IsPair bytes.now
        (record { key = r.0.now; value = r.1.now }) r.2.now) }
    ensures none { IfNone result (NoPairAt bytes.now) }
{
    match front_pair(bytes) {
        Front::Pair {
            key_end,
            value_start,
            len,
        } => Some((
            &bytes[KEY_START..key_end],
            &bytes[value_start..len],
            &bytes[len..],
        )),
        _ => None,
    }
}

impl FrontRecord {
    /// What bytes begin with where only a put is a pair.
    fn as_pair(self) -> Front
        ensures { result ≡ as_pair self }
    {
        match self {
            FrontRecord::Put {
                key_end,
                value_start,
                len,
            } => Front::Pair {
                key_end,
                value_start,
                len,
            },
            FrontRecord::Remove { .. } => Front::ValueTooLong,
            FrontRecord::More => Front::More,
            FrontRecord::KeyTooLong => Front::KeyTooLong,
            FrontRecord::ValueTooLong => Front::ValueTooLong,
        }
    }
}

fn front_at(bytes: &[u8]) -> FrontRecord
    ensures { result ≡ front_of bytes.now }
{
    if bytes.len() < KEY_START {
        return FrontRecord::More;
    }
    let key_length = number_of_two(bytes) as usize;
    if key_length > KEY_LIMIT {
        return FrontRecord::KeyTooLong;
    }
    let key_end = KEY_START + key_length;
    let value_start = key_end + VALUE_LENGTH_SIZE;
    if bytes.len() < value_start {
        return FrontRecord::More;
    }
    let value_length = number_of_four(bytes, key_end);
    if value_length == REMOVAL {
        return FrontRecord::Remove {
            key_end,
            len: value_start,
        };
    }
    if value_length as usize > VALUE_LIMIT {
        return FrontRecord::ValueTooLong;
    }
    let len = value_start + value_length as usize;
    if bytes.len() < len {
        return FrontRecord::More;
    }
    FrontRecord::Put {
        key_end,
        value_start,
        len,
    }
}
