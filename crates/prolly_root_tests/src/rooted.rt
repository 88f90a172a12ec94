//! Look-ups by the root, over a device that is honest and one of whose calls fails.
ghost use Rattle.std.specs.Prelude.{◌≡◌, IfOk};

use crate::expect::{expect_bytes, expect_eq};
use crate::tree_file::{Chunks, TreeFile};
use prolly_check::check;
use prolly_entry::{Pair, Version};
use prolly_io::FromRead;
use prolly_range::prove_checked_key;
use prolly_root::{FileChunks, Reader, RootFault, Subtree};
use prolly_test_parts::joined;
use std::alloc::Global;
use std::process::Abort;
use std::test::Fail;

/// More calls than any of these look-ups makes.
const MOST_CALLS: u64 = 100;

/// How many pairs of a leaf are asked for: more than any has.
const MOST_PAIRS: usize = 100;

/// What is looked up.
#[derive(Clone, Copy)]
pub(crate) enum Sought {
    Key(&'static [u8]),
    Number(u64),
}

/// How many chunks show what was found, and what was: a value, or a key and its value, joined.
pub(crate) type Shown = (usize, Option<Vec<u8>>);

/// The key and the value of a pair, joined.
fn joined_pair(alloc: Global, pair: Option<Pair>) -> Result<Option<Vec<u8>>, RootFault> {
    match pair {
        Some(pair) => Ok(Some(joined(alloc, &[pair.key(), pair.value()])?)),
        None => Ok(None),
    }
}

/// Looks up. A number is sought only in a file of version Two.
pub(crate) fn look_up(
    rt: &impl Abort,
    alloc: Global,
    chunks: &mut Chunks,
    file: &TreeFile,
    sought: Sought,
) -> Result<Shown, RootFault> {
    let mut reader = open(alloc, chunks, file)?;
    let found = match sought {
        Sought::Key(key) => reader.get(alloc, chunks, key)?,
        Sought::Number(n) => {
            assert!(rt; file.version == Version::Two);
            joined_pair(alloc, reader.nth(alloc, chunks, n)?)?
        }
    };
    Ok((reader.chunks(), found))
}

/// Fails unless this was found.
pub(crate) fn expect_shown(rt: &impl Abort, shown: &Shown, expected: (usize, Option<&[u8]>)) {
    expect_eq(rt, &(shown.0, shown.1.as_deref()), &expected);
}

/// Looks up over devices whose first call fails, whose second does, and so on to one none of whose
/// calls does, and compares what is found. Where a call fails the answer says so, and the next
/// look-up over the device that is given back finds what is there.
fn expect_found(
    rt: &impl Abort,
    alloc: Global,
    file: &TreeFile,
    sought: Sought,
    expected: (usize, Option<&[u8]>),
) -> Result<(), Fail> {
    for fail_at in 1..=MOST_CALLS {
        let mut chunks = file.chunks(alloc, fail_at)?;
        match look_up(rt, alloc, &mut chunks, file, sought) {
            Err(fault) => expect_eq(rt, &fault, &RootFault::Read),
            Ok(shown) => {
                expect_shown(rt, &shown, expected);
                assert!(rt; fail_at > 1);
                return Ok(());
            }
        }
        let mut again = FileChunks::new(chunks.into_device());
        let shown = look_up(rt, alloc, &mut again, file, sought)?;
        expect_shown(rt, &shown, expected);
    }
    Err("too many calls".into())
}

/// The keys of a file, what is looked up in it, how many chunks show it, and what is there. A key
/// behind all others is shown to be missing by the root alone.
const SOUGHT: &[(&[&[u8]], Sought, usize, Option<&[u8]>)] = &[
    (&[b"a"], Sought::Key(b"a"), 1, Some(b"1")),
    (&[b"a"], Sought::Key(b"b"), 1, None),
    (&[b"a", b"b"], Sought::Key(b"b"), 2, Some(b"1")),
    (&[b"a", b"b"], Sought::Key(b"aa"), 2, None),
    (&[b"a", b"b"], Sought::Key(b"c"), 1, None),
    (&[b"a", b"b", b"c"], Sought::Key(b"c"), 3, Some(b"1")),
    (&[b"a"], Sought::Number(0), 1, Some(b"a1")),
    (&[b"a", b"b"], Sought::Number(1), 2, Some(b"b1")),
    (&[b"a", b"b"], Sought::Number(2), 1, None),
    (&[b"a", b"b", b"c"], Sought::Number(0), 3, Some(b"a1")),
];

#[test]
fn finds_keys_and_numbers_also_behind_a_failed_call(rt: HostRuntime) -> Result<(), Fail> {
    let alloc = rt.alloc();
    for &(keys, sought, chunks, found) in SOUGHT {
        let file = TreeFile::of_keys(alloc, Version::Two, keys)?;
        expect_found(&rt, alloc, &file, sought, (chunks, found))?;
    }
    Ok(())
}

/// Keys from which on the pairs of a leaf are asked for, and the keys of the leaf, of a byte each.
const LEAVES: [(&[u8], &[u8]); 4] = [(b"", b"a"), (b"a\0", b"b"), (b"b\0", b"c"), (b"c\0", b"")];

/// A reader of the file.
pub(crate) fn open(
    alloc: Global,
    chunks: &mut Chunks,
    file: &TreeFile,
) -> Result<Reader<Subtree>, RootFault>
    ensures { IfOk result (λ reader. reader.version ≡ file.now.version) }
{
    Reader::open(alloc, chunks, file.version, &file.root)
}

/// The keys of the pairs of a leaf, from a key on, joined.
pub(crate) fn keys_from(
    alloc: Global,
    chunks: &mut Chunks,
    reader: &mut Reader<Subtree>,
    from: &[u8],
) -> Result<Vec<u8>, RootFault> {
    let mut keys = Vec::new(alloc);
    for pair in &reader.pairs_from(alloc, chunks, from, MOST_PAIRS)? {
        keys.extend_from_slice(pair.key())?;
    }
    Ok(keys)
}

/// Fails unless these are the keys of a leaf, and tells whether a call failed, behind which they
/// are asked for again.
fn expect_leaf(
    rt: &impl Abort,
    alloc: Global,
    chunks: &mut Chunks,
    reader: &mut Reader<Subtree>,
    from: &[u8],
    keys: &[u8],
) -> Result<bool, Fail> {
    match keys_from(alloc, chunks, reader, from) {
        Ok(found) => {
            expect_bytes(rt, &found, keys);
            Ok(false)
        }
        Err(fault) => {
            expect_eq(rt, &fault, &RootFault::Read);
            expect_bytes(rt, &keys_from(alloc, chunks, reader, from)?, keys);
            Ok(true)
        }
    }
}

/// Opens a reader, a second time where a call failed, and tells whether one did.
fn opened(
    rt: &impl Abort,
    alloc: Global,
    chunks: &mut Chunks,
    file: &TreeFile,
) -> Result<(Reader<Subtree>, bool), Fail> {
    match open(alloc, chunks, file) {
        Ok(reader) => Ok((reader, false)),
        Err(fault) => {
            expect_eq(rt, &fault, &RootFault::Read);
            Ok((open(alloc, chunks, file)?, true))
        }
    }
}

/// Fails unless a scan finds the leaves, and tells whether a call failed.
fn expect_leaves(
    rt: &impl Abort,
    alloc: Global,
    chunks: &mut Chunks,
    file: &TreeFile,
) -> Result<bool, Fail> {
    let (mut reader, mut has_failed) = opened(rt, alloc, chunks, file)?;
    for (from, keys) in &LEAVES {
        has_failed |= expect_leaf(rt, alloc, chunks, &mut reader, from, keys)?;
    }
    Ok(has_failed)
}

/// Scans over devices whose first call fails, whose second does, and so on to one none of whose
/// calls does.
fn expect_scans(rt: &impl Abort, alloc: Global, file: &TreeFile) -> Result<(), Fail> {
    for fail_at in 1..=MOST_CALLS {
        let mut chunks = file.chunks(alloc, fail_at)?;
        if !expect_leaves(rt, alloc, &mut chunks, file)? {
            assert!(rt; fail_at > 1);
            return Ok(());
        }
    }
    Err("too many calls".into())
}

#[test]
fn a_scan_finds_each_leaf_also_behind_a_failed_call(rt: HostRuntime) -> Result<(), Fail> {
    let alloc = rt.alloc();
    for version in [Version::One, Version::Two] {
        let file = TreeFile::of_keys(alloc, version, &[b"a", b"b", b"c"])?;
        expect_scans(&rt, alloc, &file)?;
    }
    Ok(())
}

/// The pairs from a key on of the leaf at which its look-up ends, as a record file has them, and the
/// proof of the key.
fn leaf_and_proof(
    alloc: Global,
    chunks: &mut Chunks,
    reader: &mut Reader<Subtree>,
    key: &[u8],
) -> Result<(Vec<u8>, Vec<u8>), RootFault> {
    reader.seek(alloc, chunks, key)?;
    let leaf = reader.leaf_from(key).spellings().to_vec(alloc)?;
    Ok((leaf, reader.prove(alloc, chunks, key)?))
}

/// Fails unless these are the leaf and the proof of a key, and tells whether a call failed, behind
/// which they are asked for again.
fn expect_leaf_and_proof(
    rt: &impl Abort,
    alloc: Global,
    chunks: &mut Chunks,
    file: &TreeFile,
    key: &[u8],
    (leaf, proof): (&[u8], &[u8]),
) -> Result<bool, Fail> {
    let (mut reader, mut has_failed) = opened(rt, alloc, chunks, file)?;
    let (found, made) = match leaf_and_proof(alloc, chunks, &mut reader, key) {
        Ok(both) => both,
        Err(fault) => {
            expect_eq(rt, &fault, &RootFault::Read);
            has_failed = true;
            leaf_and_proof(alloc, chunks, &mut reader, key)?
        }
    };
    expect_bytes(rt, &found, leaf);
    expect_bytes(rt, &made, proof);
    Ok(has_failed)
}

/// Asks for a leaf and a proof over devices whose first call fails, whose second does, and so on to
/// one none of whose calls does. The proof is to be that of the checked file.
fn expect_proved(
    rt: &impl Abort,
    alloc: Global,
    file: &TreeFile,
    key: &[u8],
    leaf: &[u8],
) -> Result<(), Fail> {
    let tree = check(alloc, &mut FromRead::new(file.bytes.as_slice()), 10_000)?;
    let proof = prove_checked_key(alloc, &tree, key)?;
    for fail_at in 1..=MOST_CALLS {
        let mut chunks = file.chunks(alloc, fail_at)?;
        let wanted = (leaf, proof.as_slice());
        if !expect_leaf_and_proof(rt, alloc, &mut chunks, file, key, wanted)? {
            assert!(rt; fail_at > 1);
            return Ok(());
        }
    }
    Err("too many calls".into())
}

/// Keys, and the leaf from each on, as a record file has it.
const SPELLED: [(&[u8], &[u8]); 3] = [
    (b"b", b"\0\x01b\0\0\0\x011"),
    (b"bb", b"\0\x01c\0\0\0\x011"),
    (b"d", b""),
];

#[test]
fn a_leaf_and_a_proof_are_found_also_behind_a_failed_call(rt: HostRuntime) -> Result<(), Fail> {
    let alloc = rt.alloc();
    for version in [Version::One, Version::Two] {
        let file = TreeFile::of_keys(alloc, version, &[b"a", b"b", b"c"])?;
        for (key, leaf) in &SPELLED {
            expect_proved(&rt, alloc, &file, key, leaf)?;
        }
    }
    Ok(())
}
