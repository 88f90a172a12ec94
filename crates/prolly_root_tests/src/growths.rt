//! Calls that are refused memory: they say so, and what they were given is as it was.
//!
//! `tests/growths_of_calls.py` refuses these tests each growth in turn. Where it is one for a
//! test's own values, the test ends in want of memory; where it is one of the calls that are
//! tested, the test goes on.
use crate::expect::{expect_bytes, expect_eq};
use crate::rooted::{Shown, Sought, expect_shown, keys_from, look_up, open};
use crate::rooted_differences::changes_between;
use crate::set_proofs::range;
use crate::tree_file::{Chunks, TreeFile};
use prolly_entry::Version;
use prolly_look_up::ManyThreads;
use prolly_range::{ProveFault, SetFault};
use prolly_root::{Reader, RootFault, Subtree};
use prolly_root_diff::RootDiffFault;
use std::alloc::Global;
use std::num::NonZeroUsize;
use std::process::Abort;
use std::test::Fail;
use std::thread::Threads;

/// What a look-up finds, the second time where the first one was refused memory.
fn found(
    rt: &impl Abort,
    alloc: Global,
    chunks: &mut Chunks,
    file: &TreeFile,
    sought: Sought,
) -> Result<Shown, RootFault> {
    match look_up(rt, alloc, chunks, file, sought) {
        Ok(shown) => Ok(shown),
        Err(fault) => {
            expect_eq(rt, &fault, &RootFault::Memory);
            look_up(rt, alloc, chunks, file, sought)
        }
    }
}

/// Looks up in the tree of a=1 and b=1.
fn expect_found(
    rt: &impl Abort,
    alloc: Global,
    sought: Sought,
    expected: (usize, Option<&[u8]>),
) -> Result<(), Fail> {
    let file = TreeFile::of_keys(alloc, Version::Two, &[b"a", b"b"])?;
    let mut chunks = file.chunks(alloc, 0)?;
    match found(rt, alloc, &mut chunks, &file, sought) {
        Ok(shown) => expect_shown(rt, &shown, expected),
        Err(fault) => expect_eq(rt, &Some(fault), &None),
    }
    Ok(())
}

#[test]
fn a_look_up_wants_memory_and_finds_what_is_there_later(rt: HostRuntime) -> Result<(), Fail> {
    expect_found(&rt, rt.alloc(), Sought::Key(b"b"), (2, Some(b"1")))?;
    expect_found(&rt, rt.alloc(), Sought::Number(1), (2, Some(b"b1")))
}

/// The keys of a leaf, at the second time where the first was refused memory.
fn leaf(
    rt: &impl Abort,
    alloc: Global,
    chunks: &mut Chunks,
    reader: &mut Reader<Subtree>,
    from: &[u8],
) -> Result<Vec<u8>, RootFault> {
    match keys_from(alloc, chunks, reader, from) {
        Ok(keys) => Ok(keys),
        Err(fault) => {
            expect_eq(rt, &fault, &RootFault::Memory);
            keys_from(alloc, chunks, reader, from)
        }
    }
}

/// Scans the tree of a=1 and b=1.
fn expect_scan(rt: &impl Abort, alloc: Global) -> Result<(), Fail> {
    let file = TreeFile::of_keys(alloc, Version::One, &[b"a", b"b"])?;
    let mut chunks = file.chunks(alloc, 0)?;
    let mut reader = open(alloc, &mut chunks, &file)?;
    for (from, keys) in [
        (b"".as_slice(), b"a".as_slice()),
        (b"a\0", b"b"),
        (b"b\0", b""),
    ] {
        let found = leaf(rt, alloc, &mut chunks, &mut reader, from);
        expect_eq(rt, &found.as_deref(), &Ok(keys));
    }
    Ok(())
}

#[test]
fn a_scan_wants_memory_and_goes_on_later(rt: HostRuntime) -> Result<(), Fail> {
    expect_scan(&rt, rt.alloc())
}

/// Goes over the leaves of a, b, c and d, which are read ahead. Where memory is refused for one of
/// them there, it is read when it is due.
fn expect_read_ahead<T: Threads + Sync>(
    rt: &impl Abort,
    threads: &T,
    alloc: Global,
) -> Result<(), Fail> {
    let file = TreeFile::of_keys(alloc, Version::One, &[b"a", b"b", b"c", b"d"])?;
    let hasher = ManyThreads::new(threads, NonZeroUsize::MIN);
    let mut chunks = file.chunks(alloc, 0)?;
    let mut reader = open(alloc, &mut chunks, &file)?;
    for (from, spelled) in [
        (b"".as_slice(), b"\0\x01a\0\0\0\x011".as_slice()),
        (b"a\0", b"\0\x01b\0\0\0\x011"),
        (b"b\0", b"\0\x01c\0\0\0\x011"),
        (b"c\0", b"\0\x01d\0\0\0\x011"),
    ] {
        if let Err(fault) = reader.seek_on(&hasher, alloc, &mut chunks, from) {
            expect_eq(rt, &fault, &RootFault::Memory);
            reader.seek_on(&hasher, alloc, &mut chunks, from)?;
        }
        expect_bytes(rt, reader.leaf_from(from).spellings(), spelled);
    }
    Ok(())
}

#[test]
fn leaves_are_read_ahead_or_when_they_are_due(rt: HostRuntime) -> Result<(), Fail> {
    expect_read_ahead(&rt, &rt, rt.alloc())
}

#[test]
fn a_difference_by_the_roots_wants_memory_and_gives_no_more(rt: HostRuntime) -> Result<(), Fail> {
    let alloc = rt.alloc();
    let before = TreeFile::of_keys(alloc, Version::Two, &[b"a", b"b"])?;
    let after = TreeFile::of_keys(alloc, Version::Two, &[b"b", b"c"])?;
    let mut old = before.chunks(alloc, 0)?;
    let mut new = after.chunks(alloc, 0)?;
    let (changes, fault) = changes_between(&rt, alloc, (&before, &after), &mut old, &mut new)?;
    let whole: &[u8] = b"-a1+c1";
    expect_eq(&rt, &whole.starts_with(&changes), &true);
    match fault {
        None => expect_bytes(&rt, &changes, whole),
        Some(RootDiffFault::Old(fault) | RootDiffFault::New(fault)) => {
            expect_eq(&rt, &fault, &RootFault::Memory);
        }
        Some(fault) => expect_eq(&rt, &fault, &RootDiffFault::Memory),
    }
    Ok(())
}

/// Writes the proof of a range and reads it. A sink whose memory is refused has failed.
fn expect_set_proof(rt: &impl Abort, alloc: Global) -> Result<(), Fail> {
    let tree = TreeFile::of_bytes(alloc, Version::Two, 0, b"abc")?;
    let set = range(b"b", None);
    let (proof, fault) = tree.proof_at(alloc, set, (0, 0))?;
    if let Some(fault) = fault {
        let is_memory = fault == ProveFault::Chunks(RootFault::Memory);
        expect_eq(rt, &(is_memory || fault == ProveFault::Write), &true);
        return Ok(());
    }
    let (shown, fault) = tree.shown(rt, alloc, set, proof, 0)?;
    match fault {
        None => expect_bytes(rt, &shown, b"bbcc"),
        Some(fault) => expect_eq(rt, &fault, &SetFault::Memory),
    }
    Ok(())
}

#[test]
fn a_proof_of_a_range_wants_memory(rt: HostRuntime) -> Result<(), Fail> {
    expect_set_proof(&rt, rt.alloc())
}
