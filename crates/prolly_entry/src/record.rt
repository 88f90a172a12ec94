//! Records: what a record file says of its keys.
ghost use Rattle.std.specs.Prelude.{◌≡◌};

use crate::pair::{EntryFault, KEY_LIMIT, Pair};
use std::alloc::{AllocError, Global};
use std::marker::Model;

/// A record puts a value at its key, or removes the key.
#[derive(Drop)]
pub struct Record {
    change: Change,
}

#[derive(Drop)]
enum Change {
    Put(Pair),
    // The key, of at most 1,024 bytes.
    Remove(Vec<u8>),
}

impl Model for Record {
    ghost use Rattle.prolly_entry.specs.Record.{Record as RecordValue};
    ghost use Rattle.prolly_entry.specs.Change.{record_of, HasShortKey};

    ghost Value = { RecordValue };

    ghost view = { λ r. record_of r.change };

    ghost invariant = { λ r. HasShortKey r.change };
}

impl Record {
    ghost use Rattle.std.specs.Prelude.{◌≤◌, ◌<◌, ◌+◌, ◌↔◌, [], length, vec_len, None, Some, Err};
    ghost use Rattle.std.specs.Prelude.{IfOk, IfSome, IfNone};
    ghost use Rattle.std.specs.Option.{option_copied, option_map, unwrap_or};
    ghost use Rattle.prolly_entry.specs.Record.{IsChange};

    /// The record that puts a pair.
    pub fn put(pair: Pair) -> Record
        ensures { result ≡ record { key = pair.key; value = Some pair.value } }
    {
        Record {
            change: Change::Put(pair),
        }
    }

    /// The record that removes a key. The only fault is a key that is too long.
    pub fn remove(key: Vec<u8>) -> Result<Record, EntryFault>
        ensures ok { IfOk result (λ r. r ≡ record { key = key.items; value = None }) }
        ensures key { (result ≡ Err EntryFault.KeyTooLong) ↔ (1024 < vec_len key) }
        ensures no_other { result ≡ Err EntryFault.ValueTooLong → ⊥ }
    {
        if key.len() > KEY_LIMIT {
            return Err(EntryFault::KeyTooLong);
        }
        Ok(Record {
            change: Change::Remove(key),
        })
    }

    /// The record that removes a copy of this key. Takes memory for the copy.
    pub fn removal_of(alloc: Global, key: &[u8]) -> Result<Record, AllocError>
        requires { length key.now ≤ 1024 }
        ensures { IfOk result (λ r. r ≡ record { key = key.now; value = None }) }
    {
        let key = Vec::from_slice(alloc, key)?;
        Ok(Record {
            change: Change::Remove(key),
        })
    }

    /// The same record, whose pair carries its boundary number from now on
    /// ([`Pair::with_boundary_number`]). A removal has none.
    pub fn with_boundary_number(self) -> Record
        ensures { result ≡ self }
    {
        match self.change {
            Change::Put(pair) => Record::put(pair.with_boundary_number()),
            Change::Remove(key) => Record {
                change: Change::Remove(key),
            },
        }
    }

    /// How many bytes the key has, together with the value that is put.
    pub fn size(&self) -> usize
        ensures { result ≡ length self.now.key + length (unwrap_or self.now.value []) }
    {
        match &self.change {
            Change::Put(pair) => pair.size(),
            Change::Remove(key) => key.len(),
        }
    }

    /// The key.
    pub fn key(&self) -> &[u8]
        ensures key { result.now ≡ self.now.key }
        ensures short { length self.now.key ≤ 1024 }
    {
        match &self.change {
            Change::Put(pair) => pair.key(),
            Change::Remove(key) => key,
        }
    }

    /// The value that is put; none where the key is removed.
    pub fn value(&self) -> Option<&[u8]>
        ensures value { option_copied result ≡ self.now.value }
        ensures short { IsChange self.now.value }
    {
        match &self.change {
            Change::Put(pair) => Some(pair.value()),
            Change::Remove(_) => None,
        }
    }

    /// The pair that is put; none where the key is removed.
    pub(crate) fn pair(&self) -> Option<&Pair>
        ensures some { IfSome result (λ pair. self.now ≡
            record { key = pair.now.key; value = Some pair.now.value }) }
        ensures none { IfNone result (self.now.value ≡ None) }
    {
        match &self.change {
            Change::Put(pair) => Some(pair),
            Change::Remove(_) => None,
        }
    }

    /// The pair that is put; none where the key is removed. Takes no memory.
    pub fn into_pair(self) -> Option<Pair>
        ensures { result ≡
            option_map (λ value. record { key = self.key; value = value }) self.value }
    {
        match self.change {
            Change::Put(pair) => Some(pair),
            Change::Remove(_) => None,
        }
    }
}
