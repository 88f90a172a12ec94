//! How a pair is kept.
ghost use Rattle.std.specs.Prelude.{◌≡◌, ◌≤◌, length, IfOk, IfSome};
ghost use Rattle.prolly_entry.specs.Spelling.{pair_spelling};
ghost use Rattle.prolly_entry.specs.Storage.{pair_in, IsStored};

use crate::spelling::{
    KEY_START, VALUE_LENGTH_SIZE, append_parts, four_bytes, joined_parts, two_bytes,
};
use std::alloc::{AllocError, Global};

/// The longest spelling that is kept in place. Up to it a pair is no larger than two vectors make
/// it.
const IN_PLACE_LIMIT: usize = 46;

/// How a pair is kept.
///
/// In a spelling the key is the bytes `2..key_end`, and the value begins four bytes behind it.
#[derive(Drop)]
pub(crate) enum Storage {
    /// As it was given.
    Apart {
        key: Vec<u8>,
        value: Vec<u8>,
    },
    /// As its spelling, in one block of memory.
    Block {
        spelling: Vec<u8>,
        key_end: usize,
    },
    /// As its spelling, which is the first `len` bytes. Short pairs are many, and a block of memory
    /// for each, which one thread takes and another gives back, costs more than the bytes.
    InPlace {
        bytes: [u8; IN_PLACE_LIMIT],
        key_end: u8,
        len: u8,
    },
}

impl Storage {
    /// Copies of these bytes. Takes one block of memory, or none for a short pair.
    pub(crate) fn copy_of(alloc: Global, key: &[u8], value: &[u8]) -> Result<Storage, AllocError>
        requires key { length key.now ≤ 1024 }
        requires value { length value.now ≤ 65536 }
        ensures stored { IfOk result IsStored }
        ensures pair { IfOk result (λ storage. pair_in storage ≡
            record { key = key.now; value = value.now }) }
    {
        let key_length = two_bytes(key.len() as u16);
        let value_length = four_bytes(value.len() as u32);
        let key_end = KEY_START + key.len();
        let len = key_end + VALUE_LENGTH_SIZE + value.len();
        if len <= IN_PLACE_LIMIT {
            return Ok(Storage::InPlace {
                bytes: joined_parts(&key_length, key, &value_length, value),
                key_end: key_end as u8,
                len: len as u8,
            });
        }
        let mut spelling = Vec::new(alloc);
        append_parts(&mut spelling, &key_length, key, &value_length, value)?;
        Ok(Storage::Block { spelling, key_end })
    }

    /// The pair's spelling, where it is at hand.
    pub(crate) fn spelling(&self) -> Option<&[u8]>
        requires { IsStored self.now }
        ensures { IfSome result (λ spelling. spelling.now ≡ pair_spelling (pair_in self.now)) }
    {
        match self {
            Storage::Apart { .. } => None,
            Storage::Block { spelling, .. } => Some(spelling),
            Storage::InPlace { bytes, len, .. } => Some(&bytes[..*len as usize]),
        }
    }

    /// The pair's key.
    pub(crate) fn key(&self) -> &[u8]
        requires { IsStored self.now }
        ensures key { result.now ≡ (pair_in self.now).key }
        ensures short { length (pair_in self.now).key ≤ 1024 }
    {
        match self {
            Storage::Apart { key, .. } => key,
            Storage::Block { spelling, key_end } => &spelling[KEY_START..*key_end],
            Storage::InPlace {
                bytes,
                key_end,
                len,
            } => &bytes[..*len as usize][KEY_START..*key_end as usize],
        }
    }

    /// The pair's value.
    pub(crate) fn value(&self) -> &[u8]
        requires { IsStored self.now }
        ensures value { result.now ≡ (pair_in self.now).value }
        ensures short { length (pair_in self.now).value ≤ 65536 }
    {
        match self {
            Storage::Apart { value, .. } => value,
            Storage::Block { spelling, key_end } => &spelling[*key_end + VALUE_LENGTH_SIZE..],
            Storage::InPlace {
                bytes,
                key_end,
                len,
            } => &bytes[..*len as usize][*key_end as usize + VALUE_LENGTH_SIZE..],
        }
    }
}
