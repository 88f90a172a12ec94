//! What a survey says, and the counts that it takes on its way.
ghost use Rattle.std.specs.Prelude.{◌≡◌, ◌+◌, ◌^◌, ◌<◌, cond, IfOk, OnOk};
ghost use Rattle.std.specs.Option.{option_copied, option_or};
ghost use Rattle.prolly_load.specs.Survey.{key_bytes};
ghost use Rattle.prolly_load.specs.Tally.{HasToldKey, TellsFlawed};

use prolly_entry::{Flaw, split_key};
use std::alloc::{AllocError, Global};

/// The numbers of the records that were passed, and the key of the first of them.
#[derive(Drop)]
pub(crate) struct Tally {
    pub(crate) records: u32,
    pub(crate) removals: u32,
    pub(crate) bytes: u64,
    pub(crate) first_key: Option<Vec<u8>>,
}

impl Tally {
    /// Counts a record of `len` bytes with this key. The key of the first one is copied, and no
    /// other.
    pub(crate) fn count(
        &mut self,
        alloc: Global,
        removes: bool,
        len: usize,
        key: Option<&[u8]>,
    ) -> Result<(), AllocError>
        requires records { self.old.records + 1 < 2 ^ 32 }
        requires removals { self.old.removals + 1 < 2 ^ 32 }
        requires bytes { self.old.bytes + len < 2 ^ 64 }
        ensures records { OnOk result (self.new.records ≡ self.old.records + 1) }
        ensures removals { OnOk result (self.new.removals ≡ self.old.removals + cond removes 1 0) }
        ensures bytes { OnOk result (self.new.bytes ≡ self.old.bytes + len) }
        ensures first_key { OnOk result (key_bytes self.new.first_key ≡ option_or
            (key_bytes self.old.first_key) (option_copied key.entry)) }
    {
        if self.first_key.is_none() {
            self.first_key = copied(alloc, key)?;
        }
        self.records += 1;
        self.removals += u32::from(removes);
        self.bytes += len as u64;
        Ok(())
    }
}

/// A copy of the key.
pub(crate) fn copied(alloc: Global, key: Option<&[u8]>) -> Result<Option<Vec<u8>>, AllocError>
    ensures { IfOk result (λ copy. key_bytes copy ≡ option_copied key.entry) }
{
    match key {
        None => Ok(None),
        Some(key) => Ok(Some(Vec::from_slice(alloc, key)?)),
    }
}

/// What a record file holds, as far as it is good.
#[derive(Drop)]
pub struct Survey {
    /// How many records are good.
    pub records: u32,
    /// How many of them remove a key.
    pub removals: u32,
    /// How many bytes they take. Where a record behind them is flawed, this is the offset at which
    /// it begins.
    pub bytes: u64,
    /// The key of the first of them.
    pub first_key: Option<Vec<u8>>,
    /// The key of the last of them.
    pub last_key: Option<Vec<u8>>,
    /// The record behind them, where it is flawed.
    pub flawed: Option<FlawedRecord>,
}

/// A record that is not good.
#[derive(Drop)]
pub struct FlawedRecord {
    /// What is wrong with it.
    pub flaw: Flaw,
    /// Its key, where the flaw lies behind it: of a value that is too long and of a key out of
    /// order.
    pub key: Option<Vec<u8>>,
}

/// The record that the bytes begin with, which has this flaw.
pub(crate) fn flawed_record(
    alloc: Global,
    flaw: Flaw,
    bytes: &[u8],
) -> Result<FlawedRecord, AllocError>
    requires { HasToldKey flaw bytes.now }
    ensures { IfOk result (TellsFlawed flaw bytes.now) }
{
    let key = match flaw {
        Flaw::ValueTooLong | Flaw::OutOfOrder => {
            let (key, _) = split_key(bytes).unwrap();
            Some(Vec::from_slice(alloc, key)?)
        }
        Flaw::Truncated | Flaw::KeyTooLong | Flaw::TooManyRecords => None,
    };
    Ok(FlawedRecord { flaw, key })
}
