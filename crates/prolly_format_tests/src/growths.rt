//! Calls that are refused memory: they say so, and what they were given is as it was.
//!
//! `tests/growths_of_calls.py` refuses these tests each growth in turn. Where it is one for a
//! test's own values, the test ends in want of memory; where it is one of the calls that are
//! tested, the test goes on.
use crate::expect::{expect_bytes, expect_eq};
use prolly_check::{CheckFault, OneThread, StreamFault, check, check_by_root};
use prolly_entry::{
    Pair, Record, RecordFault, Ref, Sha512Cut, Version, append_child, append_child_as, append_pair,
    append_record, records,
};
use prolly_file::{ScratchFault, scratch_as};
use prolly_io::{FromRead, ScriptSink, Sink, SinkFault, WholeFault, read_whole};
use prolly_test_parts::{joined, pairs_of};
use std::alloc::{AllocError, Global};
use std::process::Abort;
use std::test::Fail;

/// What is appended to bytes.
#[derive(Clone, Copy)]
enum Entry {
    Pair,
    Put,
    Removal,
    Child,
    CountedChild,
}

/// Entries of the key a, value 1, a reference of zeros and count 1, and how they are spelled.
const SPELLINGS: [(Entry, &[u8]); 5] = [
    (Entry::Pair, b"\0\x01a\0\0\0\x011"),
    (Entry::Put, b"\0\x01a\0\0\0\x011"),
    (Entry::Removal, b"\0\x01a\xFF\xFF\xFF\xFF"),
    (
        Entry::Child,
        b"\0\x01a\0\0\0\0\0\0\0\0\0\0\0\0\0\0\0\0\0\0\0\0",
    ),
    (
        Entry::CountedChild,
        b"\0\x01a\0\0\0\0\0\0\0\0\0\0\0\0\0\0\0\0\0\0\0\0\0\0\0\0\0\0\0\x01",
    ),
];

/// Appends an entry, and tells whether that was refused. An `Err` is a refusal of the entry itself.
fn append(
    alloc: Global,
    out: &mut Vec<u8>,
    entry: Entry,
) -> Result<Result<(), AllocError>, AllocError> {
    let root = Ref([0; 20]);
    Ok(match entry {
        Entry::Pair => append_pair(out, &Pair::copy_of(alloc, b"a", b"1")?),
        Entry::Put => append_record(out, &Record::put(Pair::copy_of(alloc, b"a", b"1")?)),
        Entry::Removal => append_record(out, &Record::removal_of(alloc, b"a")?),
        Entry::Child => append_child(out, b"a", &root),
        Entry::CountedChild => append_child_as(out, Version::Two, b"a", &root, 1),
    })
}

/// Appends an entry to bytes that have no more room, which are as they were where that is refused.
fn expect_appended(
    rt: &impl Abort,
    alloc: Global,
    entry: Entry,
    spelled: &[u8],
) -> Result<(), AllocError> {
    let whole = joined(alloc, &[b"kept", spelled])?;
    let mut out = b"kept".to_vec(alloc)?;
    let expected = match append(alloc, &mut out, entry)? {
        Ok(()) => whole.as_slice(),
        Err(_) => b"kept",
    };
    expect_bytes(rt, &out, expected);
    Ok(())
}

#[test]
fn an_entry_is_appended_whole_or_not_at_all(rt: HostRuntime) -> Result<(), Fail> {
    for (entry, spelled) in &SPELLINGS {
        expect_appended(&rt, rt.alloc(), *entry, spelled)?;
    }
    Ok(())
}

/// The record file of a=1 and b=1.
const RECORDS: &[u8] = b"\0\x01a\0\0\0\x011\0\x01b\0\0\0\x011";

/// Fails unless so many values came, or memory was refused.
fn expect_many<T: Drop>(rt: &impl Abort, values: Result<Vec<T>, bool>, count: usize) {
    match values {
        Ok(values) => expect_eq(rt, &values.len(), &count),
        Err(is_memory) => expect_eq(rt, &is_memory, &true),
    }
}

#[test]
fn reading_wants_memory(rt: HostRuntime) {
    let alloc = rt.alloc();
    let pairs = records(alloc, RECORDS, 2);
    expect_many(&rt, pairs.map_err(|fault| fault == RecordFault::Memory), 2);
    let whole = read_whole(alloc, &mut FromRead::new(RECORDS), 16);
    expect_many(&rt, whole.map_err(|fault| fault == WholeFault::Memory), 16);
}

/// Builds a file behind bytes, which are as they were where that is refused.
fn expect_scratch(rt: &impl Abort, alloc: Global, version: Version) -> Result<(), Fail> {
    let cut = Sha512Cut::new(0).ok_or("bits")?;
    let pairs = pairs_of(alloc, &[b"a", b"b", b"c"])?;
    let mut out = b"kept".to_vec(alloc)?;
    match scratch_as(alloc, cut, version, &pairs, 12, &mut out) {
        Ok(_) => expect_eq(rt, &out.starts_with(b"keptPRLY"), &true),
        Err(fault) => {
            expect_eq(rt, &fault, &ScratchFault::Memory);
            expect_bytes(rt, &out, b"kept");
        }
    }
    Ok(())
}

#[test]
fn a_file_is_built_whole_or_not_at_all(rt: HostRuntime) -> Result<(), Fail> {
    expect_scratch(&rt, rt.alloc(), Version::One)?;
    expect_scratch(&rt, rt.alloc(), Version::Two)
}

/// The file of a=1, b=1 and c=1, of 0 bits and version Two, and the reference of its root.
fn file_of_three(alloc: Global) -> Result<(Vec<u8>, Ref), Fail> {
    let cut = Sha512Cut::new(0).ok_or("bits")?;
    let pairs = pairs_of(alloc, &[b"a", b"b", b"c"])?;
    let mut file = Vec::new(alloc);
    let root = scratch_as(alloc, cut, Version::Two, &pairs, 12, &mut file)?;
    Ok((file, root))
}

/// Checks a file, and fails unless it is accepted or memory was refused.
fn expect_checked(rt: &impl Abort, alloc: Global) -> Result<(), Fail> {
    let (file, root) = file_of_three(alloc)?;
    match check(alloc, &mut FromRead::new(file.as_slice()), 1_000) {
        Ok(tree) => expect_eq(rt, &tree.root(), &root),
        Err(fault) => expect_eq(rt, &fault, &CheckFault::Memory),
    }
    Ok(())
}

#[test]
fn a_check_wants_memory(rt: HostRuntime) -> Result<(), Fail> {
    expect_checked(&rt, rt.alloc())
}

/// Checks a file by its root, and fails unless it is accepted or memory was refused.
fn expect_checked_by_root(rt: &impl Abort, alloc: Global) -> Result<(), Fail> {
    let (file, root) = file_of_three(alloc)?;
    let mut source = FromRead::new(file.as_slice());
    match check_by_root(&OneThread, alloc, &mut source, Version::Two, &root) {
        Ok(report) => expect_eq(rt, &(report.bits, report.chunks), &(0, 6)),
        Err(fault) => expect_eq(rt, &fault, &StreamFault::Check(CheckFault::Memory)),
    }
    Ok(())
}

#[test]
fn a_check_by_the_root_wants_memory(rt: HostRuntime) -> Result<(), Fail> {
    expect_checked_by_root(&rt, rt.alloc())
}

/// A sink whose memory is refused has failed, and takes the bytes the next time.
fn expect_taken(rt: &impl Abort, alloc: Global) {
    let mut sink = ScriptSink::new(alloc, 8, None);
    let mut written = sink.write(b"bytes");
    if written.is_err() {
        expect_eq(rt, &written, &Err(SinkFault));
        expect_bytes(rt, sink.taken(), b"");
        written = sink.write(b"bytes");
    }
    expect_eq(rt, &written, &Ok(5));
    expect_bytes(rt, sink.taken(), b"bytes");
}

#[test]
fn a_sink_that_was_refused_memory_takes_the_bytes_later(rt: HostRuntime) {
    expect_taken(&rt, rt.alloc());
}
