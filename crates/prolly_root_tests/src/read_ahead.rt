//! Leaves that are read ahead and tested in threads: what is found is what is found without.
ghost use Rattle.std.specs.Prelude.{◌<◌, length, OnOk};
ghost use Rattle.prolly_root.specs.Reader.{way_of};

use crate::expect::{expect_bytes, expect_eq};
use crate::rooted::open;
use crate::tree_file::{Chunks, TreeFile};
use prolly_entry::{Pair, Version};
use prolly_look_up::ManyThreads;
use prolly_root::{ReadAhead, Reader, RootFault, Subtree};
use prolly_test_parts::{flip, joined};
use std::alloc::Global;
use std::num::NonZeroUsize;
use std::process::Abort;
use std::test::Fail;
use std::thread::Threads;

/// The keys of the file. Each has a value so long that leaves of some of them take more than one
/// thread.
const KEYS: &[u8] = b"abcdefghijklmnopqr";

/// How many bytes a value has: the most that it may.
const VALUE_BYTES: usize = 65_536;

/// How many bytes of a pair are compared: its lengths, its key, and the first of its value.
const SHOWN_BYTES: usize = 8;

/// How many bytes a file begins with before its first frame.
const HEADER_BYTES: usize = 6;

/// How many bytes lie between two of those that are damaged, one by one.
const DAMAGE_STEP: usize = 40_009;

/// More calls of a device than a scan makes.
const MOST_CALLS: u64 = 500;

/// A value of this byte.
fn value_of(alloc: Global, byte: u8) -> Result<Vec<u8>, Fail> {
    let mut value = Vec::new(alloc);
    value.resize(VALUE_BYTES, byte)?;
    Ok(value)
}

/// The file of the keys, each of whose pairs is a leaf.
fn long_leaves(alloc: Global, version: Version) -> Result<TreeFile, Fail> {
    let mut pairs = Vec::new(alloc);
    for key in KEYS {
        let key = Vec::from_slice(alloc, &[*key])?;
        let value = value_of(alloc, key[0])?;
        pairs.push(Pair::new(key, value)?)?;
    }
    TreeFile::new(alloc, version, 0, &pairs)
}

/// The first bytes of each pair that a scan finds, leaf by leaf, and the fault that stopped it.
#[derive(Drop)]
struct Scanned {
    found: Vec<u8>,
    fault: Option<RootFault>,
}

/// Scans all leaves by so many threads, or without reading ahead, where it is none.
fn scan<T: Threads + Sync>(
    threads: &T,
    count: usize,
    alloc: Global,
    chunks: &mut Chunks,
    file: &TreeFile,
) -> Scanned {
    let hasher = match NonZeroUsize::new(count) {
        Some(count) => Some(ManyThreads::new(threads, count)),
        None => None,
    };
    let mut found = Vec::new(alloc);
    let fault = scan_into(hasher.as_ref(), alloc, chunks, file, &mut found).err();
    Scanned { found, fault }
}

/// Goes to where a look-up of the key ends, and reads ahead where there are threads for that.
fn go_to<T: Threads + Sync>(
    hasher: Option<&ManyThreads<'_, T>>,
    alloc: Global,
    chunks: &mut Chunks,
    reader: &mut Reader<Subtree>,
    key: &[u8],
) -> Result<(), RootFault>
    ensures { OnOk result (0 < length (way_of reader.new)) }
{
    match hasher {
        Some(hasher) => reader.seek_on(hasher, alloc, chunks, key),
        None => reader.seek(alloc, chunks, key),
    }
}

/// Scans all leaves, and appends the first bytes of each, as a record file has them.
fn scan_into<T: Threads + Sync>(
    hasher: Option<&ManyThreads<'_, T>>,
    alloc: Global,
    chunks: &mut Chunks,
    file: &TreeFile,
    found: &mut Vec<u8>,
) -> Result<(), RootFault> {
    let mut reader = open(alloc, chunks, file)?;
    let mut next = Vec::new(alloc);
    for _ in 0..=KEYS.len() {
        go_to(hasher, alloc, chunks, &mut reader, &next)?;
        let leaf = reader.leaf_from(&next);
        let Some(key) = leaf.last_key() else {
            return Ok(());
        };
        let spelled = leaf.spellings();
        found.extend_from_slice(&spelled[..spelled.len().min(SHOWN_BYTES)])?;
        next = joined(alloc, &[key, b"\0"])?;
    }
    Ok(())
}

/// Fails unless both found the same, and were stopped by the same fault.
fn expect_same(rt: &impl Abort, scanned: &Scanned, expected: &Scanned) {
    expect_bytes(rt, &scanned.found, &expected.found);
    expect_eq(rt, &scanned.fault, &expected.fault);
}

/// Fails unless a scan finds the same where leaves are read ahead, by one thread, two, and five.
fn expect_scanned<T: Threads + Sync>(
    rt: &impl Abort,
    threads: &T,
    alloc: Global,
    file: &TreeFile,
) -> Result<Scanned, Fail> {
    let expected = scan(threads, 0, alloc, &mut file.chunks(alloc, 0)?, file);
    for count in [1, 2, 5] {
        let scanned = scan(threads, count, alloc, &mut file.chunks(alloc, 0)?, file);
        expect_same(rt, &scanned, &expected);
    }
    Ok(expected)
}

#[test]
fn a_scan_of_leaves_that_are_read_ahead_finds_all(rt: HostRuntime) -> Result<(), Fail> {
    let alloc = rt.alloc();
    for version in [Version::One, Version::Two] {
        let file = long_leaves(alloc, version)?;
        let scanned = expect_scanned(&rt, &rt, alloc, &file)?;
        let mut all = Vec::new(alloc);
        for key in KEYS {
            all.extend_from_slice(&[0, 1, *key, 0, 1, 0, 0, *key])?;
        }
        expect_bytes(&rt, &scanned.found, &all);
        expect_eq(&rt, &scanned.fault, &None);
    }
    Ok(())
}

#[test]
fn a_damaged_file_is_told_as_where_none_is_read_ahead(rt: HostRuntime) -> Result<(), Fail> {
    let alloc = rt.alloc();
    let mut file = long_leaves(alloc, Version::Two)?;
    let mut damaged: usize = 0;
    for place in (HEADER_BYTES..file.bytes.len()).step_by(DAMAGE_STEP) {
        flip(&mut file.bytes, place);
        let scanned = expect_scanned(&rt, &rt, alloc, &file)?;
        flip(&mut file.bytes, place);
        if scanned.fault.is_some() {
            damaged = damaged.saturating_add(1);
        }
    }
    assert!(rt; damaged > 20);
    Ok(())
}

#[test]
fn a_failed_read_is_told_and_the_next_scan_finds_all(rt: HostRuntime) -> Result<(), Fail> {
    let alloc = rt.alloc();
    let file = long_leaves(alloc, Version::One)?;
    let expected = scan(&rt, 0, alloc, &mut file.chunks(alloc, 0)?, &file);
    for fail_at in 1..=MOST_CALLS {
        let mut chunks = file.chunks(alloc, fail_at)?;
        let scanned = scan(&rt, 2, alloc, &mut chunks, &file);
        if scanned.fault.is_none() {
            expect_same(&rt, &scanned, &expected);
            assert!(rt; fail_at > 1);
            return Ok(());
        }
        expect_eq(&rt, &scanned.fault, &Some(RootFault::Read));
        assert!(rt; expected.found.starts_with(&scanned.found));
        expect_same(&rt, &scan(&rt, 2, alloc, &mut chunks, &file), &expected);
    }
    Err("too many calls".into())
}

/// Reads leaves ahead as chunks of this version, from behind the first one.
fn read_behind_first<T: Threads + Sync>(
    threads: &T,
    alloc: Global,
    chunks: &mut Chunks,
    file: &TreeFile,
    version: Version,
) -> Result<Reader<Subtree>, RootFault> {
    let hasher = ManyThreads::new(threads, NonZeroUsize::MIN);
    let mut reader = open(alloc, chunks, file)?;
    reader.seek(alloc, chunks, &KEYS[..1])?;
    // So many times that most leaves are among them.
    for key in KEYS {
        chunks.read_ahead(&hasher, alloc, version)?;
        reader.seek(alloc, chunks, &[*key])?;
    }
    Ok(reader)
}

#[test]
fn leaves_are_found_that_do_not_stand_behind_one_another(rt: HostRuntime) -> Result<(), Fail> {
    let alloc = rt.alloc();
    let file = long_leaves(alloc, Version::Two)?;
    for version in [Version::One, Version::Two] {
        let mut chunks = file.chunks(alloc, 0)?;
        let mut reader = read_behind_first(&rt, alloc, &mut chunks, &file, version)?;
        for key in b"hacefgbqrdaap" {
            let value = reader.get(alloc, &mut chunks, &[*key])?.ok_or("no value")?;
            expect_bytes(&rt, &value, &value_of(alloc, *key)?);
        }
    }
    Ok(())
}
