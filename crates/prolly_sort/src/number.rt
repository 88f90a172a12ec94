//! Records that carry a number at a key.
ghost use Rattle.std.specs.Prelude.{◌≡◌, ◌≤◌, IfOk, length};
ghost use Rattle.prolly_sort.specs.Told.{number_in, number_record};

use byteorder::{BigEndian, ByteOrder};
use prolly_entry::{Pair, Record};
use std::alloc::{AllocError, Global};

/// How many bytes a number takes.
const NUMBER_SIZE: usize = 8;

/// The record that puts a number at a key.
pub(crate) fn number_record(alloc: Global, number: u64, key: &[u8]) -> Result<Record, AllocError>
    requires { length key.now ≤ 1024 }
    ensures { IfOk result (λ r. r ≡ number_record number key.now) }
{
    let mut bytes = [0; NUMBER_SIZE];
    BigEndian::write_u64(&mut bytes, number);
    Ok(Record::put(Pair::copy_of(alloc, key, &bytes)?))
}

/// The number that a record puts at its key, or 0 where it puts none.
pub(crate) fn number_of(record: &Record) -> u64
    ensures { result ≡ number_in «record».now.value }
{
    match record.value() {
        Some(value) if value.len() >= NUMBER_SIZE => BigEndian::read_u64(value),
        _ => 0,
    }
}
