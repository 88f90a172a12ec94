//! Spelling numbers, pairs and records as bytes.
ghost use Rattle.std.specs.Prelude.{◌≡◌, ◌++◌, OnOk, OnErr, ◌+◌, ◌^◌, ◌<◌, ◌≤◌, length, take, drop};
ghost use Rattle.std.specs.Int.{w16, w32, w64, to_be_bytes, from_be_bytes};
ghost use Rattle.std.specs.Prelude.{IfSome, IfNone};
ghost use Rattle.std.specs.Option.{option_copied};
ghost use Rattle.prolly_entry.specs.Reading.{key_length};
ghost use Rattle.prolly_entry.specs.Record.{IsRecord};
ghost use Rattle.prolly_entry.specs.Spelling.{pair_spelling, record_spelling};

use crate::pair::Pair;
use crate::record::Record;
use byteorder::{BigEndian, ByteOrder};
use std::alloc::AllocError;

/// Where the key begins in a pair, a record or a child entry: behind its length.
pub const KEY_START: usize = 2;

/// How many bytes of a pair lie between the key and the value: the value's length.
pub(crate) const VALUE_LENGTH_SIZE: usize = 4;

/// How many bytes the two lengths of a pair or a record take.
pub const LENGTHS_SIZE: usize = KEY_START + VALUE_LENGTH_SIZE;

/// What stands in a removal where a value's length stands in a put.
pub(crate) const REMOVAL: u32 = 0xFFFF_FFFF;

/// Appends the spelling of a pair. An `Err` leaves `out` as it was.
///
/// Takes time in the pair's size, and makes room at most once.
pub fn append_pair(out: &mut Vec<u8>, pair: &Pair) -> Result<(), AllocError>
    ensures ok { OnOk result (out.new.items ≡ out.old.items ++ pair_spelling pair.now) }
    ensures err { OnErr result (out.new.items ≡ out.old.items) }
{
    if let Some(spelling) = pair.spelling() {
        return out.extend_from_slice(spelling);
    }
    let key = pair.key();
    let value = pair.value();
    let key_length = two_bytes(key.len() as u16);
    let value_length = four_bytes(value.len() as u32);
    append_parts(out, &key_length, key, &value_length, value)
}

/// Appends the spelling of a record. An `Err` leaves `out` as it was.
///
/// Takes time in the record's size, and makes room at most once.
pub fn append_record(out: &mut Vec<u8>, record: &Record) -> Result<(), AllocError>
    ensures ok { OnOk result (out.new.items ≡ out.old.items ++ record_spelling «record».now) }
    ensures err { OnErr result (out.new.items ≡ out.old.items) }
{
    match record.pair() {
        Some(pair) => append_pair(out, pair),
        None => append_record_of(out, record.key(), None),
    }
}

/// Appends the spelling of the record that puts this value at the key, or that removes the key. An
/// `Err` leaves `out` as it was.
///
/// Takes time in the record's size, and makes room at most once.
pub fn append_record_of(
    out: &mut Vec<u8>,
    key: &[u8],
    value: Option<&[u8]>,
) -> Result<(), AllocError>
    requires { IsRecord (record { key = key.now; value = option_copied value }) }
    ensures ok { OnOk result (out.new.items ≡ out.old.items ++ record_spelling
        (record { key = key.now; value = option_copied value.entry })) }
    ensures err { OnErr result (out.new.items ≡ out.old.items) }
{
    let key_length = two_bytes(key.len() as u16);
    match value {
        Some(value) => append_parts(
            out,
            &key_length,
            key,
            &four_bytes(value.len() as u32),
            value,
        ),
        None => append_parts(out, &key_length, key, &four_bytes(REMOVAL), &[]),
    }
}

/// The key of the pair, the record or the child entry that the bytes begin with, and what stands
/// behind the key; none where the bytes end before the key does. The key may be longer than any
/// that is lawful.
pub fn split_key(bytes: &[u8]) -> Option<(&[u8], &[u8])>
    ensures key { IfSome result (λ r. r.0.now ≡ take (key_length bytes.now) (drop 2 bytes.now)) }
    ensures key_len { IfSome result (λ r. length r.0.now ≡ key_length bytes.now) }
    ensures rest { IfSome result (λ r. r.1.now ≡ drop (2 + key_length bytes.now) bytes.now) }
    ensures len { IfSome result (λ r. length bytes.now ≡ 2 + length r.0.now + length r.1.now) }
    ensures none { IfNone result (length bytes.now < 2 + key_length bytes.now) }
{
    if bytes.len() < KEY_START {
        return None;
    }
    let key_end = KEY_START + usize::from(number_of_two(bytes));
    if bytes.len() < key_end {
        return None;
    }
    Some((&bytes[KEY_START..key_end], &bytes[key_end..]))
}

/// Appends four parts, or none of them: the room for all is made first.
pub(crate) fn append_parts(
    out: &mut Vec<u8>,
    a: &[u8],
    b: &[u8],
    c: &[u8],
    d: &[u8],
) -> Result<(), AllocError>
    requires { length a.now + length b.now + length c.now + length d.now < 2 ^ 64 }
    ensures ok { OnOk result (out.new.items ≡ out.old.items ++
        ((a.now ++ b.now) ++ (c.now ++ d.now))) }
    ensures err { OnErr result (out.new.items ≡ out.old.items) }
{
    out.reserve(a.len() + b.len() + c.len() + d.len())?;
    out.extend_from_slice(a)?;
    out.extend_from_slice(b)?;
    out.extend_from_slice(c)?;
    out.extend_from_slice(d)
}

/// An array that begins with four parts.
pub(crate) fn joined_parts<const N: usize>(a: &[u8], b: &[u8], c: &[u8], d: &[u8]) -> [u8; N]
    requires { length a.now + length b.now + length c.now + length d.now ≤ N }
    ensures { take (length a.now + length b.now + length c.now + length d.now) result ≡
        (a.now ++ b.now) ++ (c.now ++ d.now) }
{
    let mut bytes = [0; N];
    let b_start = a.len();
    let c_start = b_start + b.len();
    let d_start = c_start + c.len();
    write_at(&mut bytes, 0, a);
    write_at(&mut bytes, b_start, b);
    write_at(&mut bytes, c_start, c);
    write_at(&mut bytes, d_start, d);
    bytes
}

/// Writes a part behind the first bytes.
fn write_at(bytes: &mut [u8], start: usize, part: &[u8])
    requires { start + length part.now ≤ length bytes.old }
    ensures front { take (start + length part.now) bytes.new ≡ take start bytes.old ++ part.now }
    ensures len { length bytes.new ≡ length bytes.old }
{
    bytes[start..start + part.len()].copy_from_slice(part);
}

pub(crate) fn two_bytes(number: u16) -> [u8; 2]
    ensures { result ≡ to_be_bytes w16 number }
{
    let mut bytes = [0; 2];
    BigEndian::write_u16(&mut bytes, number);
    bytes
}

pub(crate) fn four_bytes(number: u32) -> [u8; 4]
    ensures { result ≡ to_be_bytes w32 number }
{
    let mut bytes = [0; 4];
    BigEndian::write_u32(&mut bytes, number);
    bytes
}

pub(crate) fn eight_bytes(number: u64) -> [u8; 8]
    ensures { result ≡ to_be_bytes w64 number }
{
    let mut bytes = [0; 8];
    BigEndian::write_u64(&mut bytes, number);
    bytes
}

/// The number in the first two bytes.
pub(crate) fn number_of_two(bytes: &[u8]) -> u16
    requires { 2 ≤ length bytes.now }
    ensures { result ≡ from_be_bytes w16 (take 2 bytes.now) }
{
    BigEndian::read_u16(bytes)
}

/// The number in the four bytes from an offset on.
pub(crate) fn number_of_four(bytes: &[u8], offset: usize) -> u32
    requires { offset + 4 ≤ length bytes.now }
    ensures { result ≡ from_be_bytes w32 (take 4 (drop offset bytes.now)) }
{
    BigEndian::read_u32(&bytes[offset..offset + 4])
}
