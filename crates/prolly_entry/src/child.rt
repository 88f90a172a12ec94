//! Child entries of the chunk file, as they are appended and found at the front of bytes.
ghost use Rattle.std.specs.Prelude.{◌≡◌, ◌≤◌, ◌++◌, length, take, drop, OnOk, OnErr, IfSome};
ghost use Rattle.std.specs.Prelude.{IfNone};
ghost use Rattle.std.specs.Int.{w16, w64, from_be_bytes};
ghost use Rattle.prolly_entry.specs.declared.version.Version.TheVariants.{One};
ghost use Rattle.prolly_entry.specs.Child.{IsChild, entry_of, first_count, value_of};
ghost use Rattle.prolly_entry.specs.ChildAt.{tail_length, IsChildAt, NoChildAt};
ghost use Rattle.prolly_entry.specs.Spelling.{BeginsWith, child_spelling, count_spelling};

use crate::pair::KEY_LIMIT;
use crate::reference::{REFERENCE_SIZE, Ref};
use crate::spelling::{KEY_START, append_parts, eight_bytes, split_key, two_bytes};
use crate::version::Version;
use std::alloc::AllocError;

/// The size of the count of the pairs below a child.
const COUNT_SIZE: usize = 8;

/// A child of a node: its greatest key, its reference, and the number of pairs below it, which is 0
/// in version One, where no entry says it.
#[derive(Clone, Copy)]
pub struct Child<'a> {
    /// The greatest key below it.
    pub key: &'a [u8],
    /// The reference of its chunk.
    pub reference: Ref,
    /// The number of pairs below it.
    pub count: u64,
}

/// Where the parts of a child entry lie that begins bytes: its key is the bytes `2..key_end`, its
/// reference the 20 bytes behind it, and the whole entry `0..len`. In version Two the last eight
/// bytes before `len` are the count.
#[derive(Clone, Copy)]
pub struct ChildAt {
    /// Where the key ends and the reference begins.
    pub key_end: usize,
    /// How many bytes the whole entry has.
    pub len: usize,
}

/// Appends the spelling of a child entry of version One. An `Err` leaves `out` as it was.
pub fn append_child(out: &mut Vec<u8>, key: &[u8], reference: &Ref) -> Result<(), AllocError>
    requires { length key.now ≤ 1024 }
    ensures ok { OnOk result (out.new.items ≡ out.old.items ++
        child_spelling One key.now reference.now.0 0) }
    ensures err { OnErr result (out.new.items ≡ out.old.items) }
{
    append_child_as(out, Version::One, key, reference, 0)
}

/// Appends the spelling of a child entry: the greatest key below the child, the child's reference
/// and, in version Two, the number of pairs below it. An `Err` leaves `out` as it was.
pub fn append_child_as(
    out: &mut Vec<u8>,
    version: Version,
    key: &[u8],
    reference: &Ref,
    count: u64,
) -> Result<(), AllocError>
    requires { length key.now ≤ 1024 }
    ensures ok { OnOk result (out.new.items ≡ out.old.items ++
        child_spelling version key.now reference.now.0 count) }
    ensures err { OnErr result (out.new.items ≡ out.old.items) }
{
    let key_length = two_bytes(key.len() as u16);
    match version {
        Version::One => append_parts(out, &key_length, key, &reference.0, &[]),
        Version::Two => append_parts(out, &key_length, key, &reference.0, &eight_bytes(count)),
    }
}

/// The child entry of version One that the bytes begin with, whatever follows it. It is None where
/// the bytes end inside the entry, and where its key would be longer than 1,024 bytes.
pub fn front_child(bytes: &[u8]) -> Option<ChildAt>
    ensures some { IfSome result (λ at. IsChildAt One bytes.now at) }
    ensures none { IfNone result (NoChildAt One bytes.now) }
{
    front_child_as(Version::One, bytes)
}

/// The child entry of a version that the bytes begin with, whatever follows it. It is None where
/// the bytes end inside the entry, and where its key would be longer than 1,024 bytes.
pub fn front_child_as(version: Version, bytes: &[u8]) -> Option<ChildAt>
    ensures some { IfSome result (λ at. IsChildAt version bytes.now at) }
    ensures none { IfNone result (NoChildAt version bytes.now) }
{
    let (key, tail) = split_key(bytes)?;
    if key.len() > KEY_LIMIT {
        return None;
    }
    let key_end = KEY_START + key.len();
    let tail_len = tail_length(version);
    if tail.len() < tail_len {
        return None;
    }
    Some(ChildAt {
        key_end,
        len: key_end + tail_len,
    })
}

impl<'a> Child<'a> {
    /// The child whose entry begins the bytes, and what stands behind the entry; none where
    /// [`front_child_as`] finds none. Takes no memory.
    pub fn split(version: Version, bytes: &'a [u8]) -> Option<(Child<'a>, &'a [u8])>
        ensures some { IfSome result (λ r.
            BeginsWith (entry_of version) IsChild bytes.now (value_of r.0) r.1.now) }
        ensures counted { IfSome result (λ r.
            first_count version (count_spelling version r.0.count) ≡ r.0.count) }
        ensures none { IfNone result (NoChildAt version bytes.now) }
    {
        let at = front_child_as(version, bytes)?;
        let tail = &bytes[at.key_end..];
        let child = Child {
            key: &bytes[KEY_START..at.key_end],
            reference: reference_in(tail),
            count: count_in(version, tail),
        };
        Some((child, &bytes[at.len..]))
    }
}

/// The reference behind a key.
fn reference_in(tail: &[u8]) -> Ref
    requires { REFERENCE_SIZE ≤ length tail.now }
    ensures { result.0 ≡ take REFERENCE_SIZE tail.now }
{
    let mut reference = [0; REFERENCE_SIZE];
    reference.copy_from_slice(&tail[..REFERENCE_SIZE]);
    Ref(reference)
}

/// The count behind a reference.
fn count_in(version: Version, tail: &[u8]) -> u64
    requires { tail_length version ≤ length tail.now }
    ensures { result ≡ first_count version (drop REFERENCE_SIZE tail.now) }
{
    match version {
        Version::One => 0,
        Version::Two => {
            let mut count = [0; COUNT_SIZE];
            count.copy_from_slice(&tail[REFERENCE_SIZE..REFERENCE_SIZE + COUNT_SIZE]);
            u64::from_be_bytes(count)
        }
    }
}

/// How many bytes of a child entry follow its key.
fn tail_length(version: Version) -> usize
    ensures { result ≡ tail_length version }
{
    match version {
        Version::One => REFERENCE_SIZE,
        Version::Two => REFERENCE_SIZE + COUNT_SIZE,
    }
}
