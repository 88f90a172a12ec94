//! Keys and values: their limits, their order, and pairs of them.
ghost use Rattle.std.specs.Prelude.{◌≡◌, Some};
ghost use Rattle.std.specs.Option.{option_copied};
ghost use Rattle.prolly_entry.specs.Keys.{key_order};
ghost use Rattle.prolly_entry.specs.Position.{is_before};

use crate::cut::boundary_number;
use crate::storage::Storage;
use std::alloc::{AllocError, Global};
use std::cmp::Ordering;
use std::error::Error;
use std::fmt;
use std::fmt::{Display, Formatter};
use std::marker::Model;

/// Why there is no such pair or record.
#[derive(Clone, Copy, Debug, PartialEq, Eq)]
pub enum EntryFault {
    /// The key has more than 1,024 bytes.
    KeyTooLong,
    /// The value has more than 65,536 bytes.
    ValueTooLong,
}

impl Display for EntryFault {
    ghost use Rattle.std.specs.Prelude.{Some};
    ghost use Rattle.prolly_entry.specs.FaultTexts.{entry_fault_text};

    ghost output = { λ fault. Some (entry_fault_text fault) };

    fn fmt<W: fmt::Write>(&self, f: &mut Formatter<W>) -> fmt::Result {
        match self {
            EntryFault::KeyTooLong => f.write_str("key too long"),
            EntryFault::ValueTooLong => f.write_str("value too long"),
        }
    }
}

impl Error for EntryFault {}

/// A key of at most 1,024 bytes and the value at it, of at most 65,536 bytes. Either may be empty.
///
/// It may carry its boundary number, by which a [`Sha512Cut`](crate::Sha512Cut) decides whether it
/// ends a chunk. So that hash can be taken by a thread that has time for it. Nothing tells such a
/// pair from one that carries none.
#[derive(Drop)]
pub struct Pair {
    storage: Storage,
    boundary_number: Option<u32>,
}

impl Model for Pair {
    ghost use Rattle.prolly_entry.specs.Pair.{Pair as PairValue};
    ghost use Rattle.prolly_entry.specs.Storage.{pair_in, IsStored, IsCarried};

    ghost Value = { PairValue };

    ghost view = { λ p. pair_in p.storage };

    ghost invariant = { λ p. IsStored p.storage × IsCarried (pair_in p.storage) p.boundary_number };
}

impl Pair {
    ghost use Rattle.std.specs.Prelude.{◌≤◌, ◌<◌, ◌+◌, ◌↔◌, length, vec_len, Err, IfOk, IfSome};
    ghost use Rattle.prolly_entry.specs.Spelling.{pair_spelling};
    ghost use Rattle.prolly_entry.specs.Storage.{IsCarried};

    /// A pair of these bytes. A key that is too long is told before a value that is.
    pub fn new(key: Vec<u8>, value: Vec<u8>) -> Result<Pair, EntryFault>
        ensures ok { IfOk result (λ p. p ≡ record { key = key.items; value = value.items }) }
        ensures key { (result ≡ Err EntryFault.KeyTooLong) ↔ (1024 < vec_len key) }
        ensures value { (result ≡ Err EntryFault.ValueTooLong) ↔
            ((vec_len key ≤ 1024) × (65536 < vec_len value)) }
    {
        if key.len() > KEY_LIMIT {
            return Err(EntryFault::KeyTooLong);
        }
        if value.len() > VALUE_LIMIT {
            return Err(EntryFault::ValueTooLong);
        }
        Ok(Pair {
            storage: Storage::Apart { key, value },
            boundary_number: None,
        })
    }

    /// A pair of copies of these bytes. Takes one block of memory, or none where key and value have
    /// at most 40 bytes together.
    pub fn copy_of(alloc: Global, key: &[u8], value: &[u8]) -> Result<Pair, AllocError>
        requires key { length key.now ≤ 1024 }
        requires value { length value.now ≤ 65536 }
        ensures { IfOk result (λ p. p ≡ record { key = key.now; value = value.now }) }
    {
        Ok(Pair {
            storage: Storage::copy_of(alloc, key, value)?,
            boundary_number: None,
        })
    }

    /// The same pair, which carries its boundary number from now on if it is a copy
    /// ([`Pair::copy_of`]). Takes one hash of its spelling where it carried none, and no memory.
    pub fn with_boundary_number(self) -> Pair
        ensures { result ≡ self }
    {
        if self.boundary_number.is_some() {
            return self;
        }
        let boundary_number = self.storage.spelling().map(boundary_number);
        Pair {
            boundary_number,
            ..self
        }
    }

    // The boundary number, where it is carried.
    pub(crate) fn boundary_number(&self) -> Option<u32>
        ensures { IsCarried self.now result }
    {
        self.boundary_number
    }

    // The spelling, where it is at hand.
    pub(crate) fn spelling(&self) -> Option<&[u8]>
        ensures { IfSome result (λ spelling. spelling.now ≡ pair_spelling self.now) }
    {
        self.storage.spelling()
    }

    /// How many bytes key and value have together.
    pub fn size(&self) -> usize
        ensures { result ≡ length self.now.key + length self.now.value }
    {
        self.key().len() + self.value().len()
    }

    /// The key.
    pub fn key(&self) -> &[u8]
        ensures key { result.now ≡ self.now.key }
        ensures short { length self.now.key ≤ 1024 }
    {
        self.storage.key()
    }

    /// The value.
    pub fn value(&self) -> &[u8]
        ensures value { result.now ≡ self.now.value }
        ensures short { length self.now.value ≤ 65536 }
    {
        self.storage.value()
    }
}

/// Compares two keys: byte by byte, unsigned, and a prefix comes before what it begins.
///
/// Takes time in the length of the prefix that the two share.
pub fn key_order(a: &[u8], b: &[u8]) -> Ordering
    ensures { result ≡ key_order a.now b.now }
{
    a.cmp(b)
}

/// Whether a key is greater than the one before it; the first one, which has none before it, is.
pub fn key_rises(last_key: Option<&[u8]>, key: &[u8]) -> bool
    ensures { result ≡ is_before (option_copied last_key.entry) (Some key.now) }
{
    match last_key {
        None => true,
        Some(last_key) => key_order(last_key, key).is_lt(),
    }
}

/// The greatest number of bytes of a key.
pub const KEY_LIMIT: usize = 1_024;

/// The greatest number of bytes of a value.
pub const VALUE_LIMIT: usize = 65_536;
