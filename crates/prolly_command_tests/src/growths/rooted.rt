//! What look-ups and a scan by the root show where they are refused memory.
use super::differences::RECORDS;
use super::{FILE_OF_ONE, PROOF, RECORD, expect_begun, expect_shown, expect_written};
use crate::expect::expect_bytes;
use crate::tools::look_up_answers::file_of_three;
use prolly_answer::{
    RootDiff, RootScan, answer_check_by_root, answer_diff_by_root, answer_dump_by_root,
    answer_found, answer_found_pair, answer_found_raw, answer_get_by_root, answer_get_raw_by_root,
    answer_nth_by_root, answer_prove_by_root, answer_root, answer_scan_by_root,
};
use prolly_check::OneThread;
use prolly_entry::{Pair, Ref, Version};
use prolly_io::{FromRead, ScriptDevice, ScriptSink};
use prolly_look_up::ManyThreads;
use prolly_root::{FileChunks, Reader, RootFault};
use prolly_text::{Notation, RecordForm};
use std::alloc::{AllocError, Global};
use std::num::NonZeroUsize;
use std::test::Fail;
use std::thread::Threads;

/// The root of the tree of a=1.
pub(super) fn root_of_one() -> Ref {
    Ref::of(b"\0\0\x01a\0\0\0\x011")
}

/// The chunks of the file of a=1.
pub(super) fn chunks_of_one(alloc: Global) -> Result<Chunks, AllocError> {
    Ok(chunks_of(FILE_OF_ONE.to_vec(alloc)?))
}

type Chunks = FileChunks<ScriptDevice>;

/// The chunks of a file.
fn chunks_of(file: Vec<u8>) -> Chunks {
    FileChunks::new(ScriptDevice::new(file, None))
}

/// One thread that takes the hashes of leaves that are read ahead.
fn one_thread<T: Threads + Sync>(threads: &T) -> ManyThreads<'_, T> {
    ManyThreads::new(threads, NonZeroUsize::MIN)
}

/// The value of the key a.
fn value_of_a(alloc: Global, chunks: &mut Chunks) -> Result<Option<Vec<u8>>, RootFault> {
    let mut reader = Reader::open(alloc, chunks, Version::One, &root_of_one())?;
    reader.get(alloc, chunks, b"a")
}

/// The pair of the number 2.
fn third_pair(alloc: Global, chunks: &mut Chunks, root: &Ref) -> Result<Option<Pair>, RootFault> {
    let mut reader = Reader::open(alloc, chunks, Version::Two, root)?;
    reader.nth(alloc, chunks, 2)
}

#[test]
fn what_is_found_is_shown_or_wants_memory(rt: HostRuntime) -> Result<(), Fail> {
    let alloc = rt.alloc();
    let mut chunks = chunks_of_one(alloc)?;
    let found = value_of_a(alloc, &mut chunks);
    let value = answer_found(alloc, Notation::Hex, &found);
    expect_shown(&rt, value, 0, b"31\n");
    expect_shown(&rt, answer_found_raw(alloc, &found), 0, b"1");
    let (version, root) = (Version::One, root_of_one());
    let value = answer_get_by_root(alloc, &mut chunks, version, &root, b"a", Notation::Hex);
    expect_shown(&rt, value, 0, b"31\n");
    let value = answer_get_raw_by_root(alloc, &mut chunks, version, &root, b"a");
    expect_shown(&rt, value, 0, b"1");
    Ok(())
}

/// The root of the tree of a=1, b=1 and c=1 of 0 bits, in version Two.
const ROOT_OF_THREE: &[u8] = b"a5ncvh138tevh93qdn92a4mlvku8m62f";

#[test]
fn what_has_a_number_is_shown_or_wants_memory(rt: HostRuntime) -> Result<(), Fail> {
    let alloc = rt.alloc();
    let root = Ref::from_text(ROOT_OF_THREE).ok_or("the text of a root")?;
    let mut chunks = chunks_of(file_of_three(alloc, Version::Two)?);
    let found = third_pair(alloc, &mut chunks, &root);
    let pair = answer_found_pair(alloc, Notation::Hex, &found);
    expect_shown(&rt, pair, 0, b"63 31\n");
    let pair = answer_nth_by_root(alloc, &mut chunks, Version::Two, &root, 2, Notation::Hex);
    expect_shown(&rt, pair, 0, b"63 31\n");
    Ok(())
}

#[test]
fn a_scan_by_the_root_is_written_or_wants_memory(rt: HostRuntime) -> Result<(), Fail> {
    let alloc = rt.alloc();
    let mut chunks = chunks_of_one(alloc)?;
    let mut sink = ScriptSink::new(alloc, 4_096, None);
    let root = root_of_one();
    let scan = RootScan {
        version: Version::One,
        root: &root,
        from: b"",
        limit: 5,
        notation: Notation::Hex,
    };
    let answer = answer_scan_by_root(&one_thread(&rt), alloc, &mut chunks, &scan, &mut sink);
    expect_begun(&rt, answer, 0, sink.taken(), b"61 31\n");
    Ok(())
}

#[test]
fn a_check_by_the_root_is_shown_or_wants_memory(rt: HostRuntime) -> Result<(), Fail> {
    let alloc = rt.alloc();
    let mut source = FromRead::new(FILE_OF_ONE);
    let (version, root) = (Version::One, root_of_one());
    let answer = answer_check_by_root(&OneThread, alloc, &mut source, version, &root);
    expect_shown(&rt, answer, 0, b"ok siohomb4dih8dpq7rscofpf57l9lfog4 0 1\n");
    Ok(())
}

#[test]
fn a_root_is_shown_or_wants_memory(rt: HostRuntime) -> Result<(), Fail> {
    let alloc = rt.alloc();
    let mut device = ScriptDevice::new(FILE_OF_ONE.to_vec(alloc)?, None);
    let answer = answer_root(alloc, &mut device);
    expect_shown(&rt, answer, 0, b"siohomb4dih8dpq7rscofpf57l9lfog4\n");
    Ok(())
}

#[test]
fn a_proof_by_the_root_is_written_or_wants_memory(rt: HostRuntime) -> Result<(), Fail> {
    let alloc = rt.alloc();
    let mut chunks = chunks_of_one(alloc)?;
    let mut sink = ScriptSink::new(alloc, 4_096, None);
    let (version, root) = (Version::One, root_of_one());
    let answer = answer_prove_by_root(alloc, &mut chunks, version, &root, b"a", &mut sink);
    expect_written(&rt, answer, b"", sink.taken(), PROOF);
    Ok(())
}

#[test]
fn a_dump_by_the_root_is_written_or_wants_memory(rt: HostRuntime) -> Result<(), Fail> {
    let alloc = rt.alloc();
    let (version, root) = (Version::One, root_of_one());
    for (form, whole) in [
        (RecordForm::Records, RECORD),
        (RecordForm::Lines(Notation::Hex), b"61 31\n"),
    ] {
        let mut chunks = chunks_of_one(alloc)?;
        let mut sink = ScriptSink::new(alloc, 4_096, None);
        let answer = answer_dump_by_root(
            &one_thread(&rt),
            alloc,
            &mut chunks,
            version,
            &root,
            form,
            &mut sink,
        );
        expect_begun(&rt, answer, 0, sink.taken(), whole);
    }
    Ok(())
}

#[test]
fn changes_by_the_roots_are_written_or_want_memory(rt: HostRuntime) -> Result<(), Fail> {
    let alloc = rt.alloc();
    let root = Ref::from_text(ROOT_OF_THREE).ok_or("the text of a root")?;
    // A leaf is the same in both versions, and so is the root of a=1.
    let mut file = FILE_OF_ONE.to_vec(alloc)?;
    file[4] = 2;
    for (form, whole) in [
        (RecordForm::Records, RECORDS),
        (RecordForm::Lines(Notation::Hex), b"62 31\n63 31\n"),
    ] {
        let mut sink = ScriptSink::new(alloc, 4_096, None);
        let mut old = chunks_of(file.to_vec(alloc)?);
        let mut new = chunks_of(file_of_three(alloc, Version::Two)?);
        let diff = RootDiff {
            version: Version::Two,
            old: &root_of_one(),
            new: &root,
            form: Some(form),
            stat: false,
        };
        let answer = answer_diff_by_root(alloc, &mut old, &mut new, &diff, &mut sink);
        expect_begun(&rt, answer, 1, sink.taken(), whole);
    }
    Ok(())
}

#[test]
fn the_numbers_by_the_roots_are_shown_or_want_memory(rt: HostRuntime) -> Result<(), Fail> {
    let alloc = rt.alloc();
    let root = Ref::from_text(ROOT_OF_THREE).ok_or("the text of a root")?;
    let mut file = FILE_OF_ONE.to_vec(alloc)?;
    file[4] = 2;
    let mut sink = ScriptSink::new(alloc, 4_096, None);
    let mut old = chunks_of(file);
    let mut new = chunks_of(file_of_three(alloc, Version::Two)?);
    let diff = RootDiff {
        version: Version::Two,
        old: &root_of_one(),
        new: &root,
        form: None,
        stat: true,
    };
    let answer = answer_diff_by_root(alloc, &mut old, &mut new, &diff, &mut sink);
    let line = b"added 2 changed 0 removed 0 chunks 5 bytes 176\n";
    expect_shown(&rt, answer, 1, line);
    expect_bytes(&rt, sink.taken(), b"");
    Ok(())
}
