//! The pairs of a file, written as a record file.

use super::{FILE_OF_NONE, checked, file_of, file_of_three, tree_of_three};
use crate::expect::{expect_bytes, expect_eq};
use prolly_check::Tree;
use prolly_entry::{Version, records};
use prolly_io::{ScriptSink, ToWrite, WriteFault};
use std::alloc::Global;
use std::process::Abort;
use std::test::Fail;

/// The record file of a=1, b=1 and c=1, which are a leaf each.
const RECORDS_OF_THREE: &[u8] = b"\0\x01a\0\0\0\x011\0\x01b\0\0\0\x011\0\x01c\0\0\0\x011";

/// Fails unless writing the records answers this, and the sink has then taken these bytes.
fn expect_records(
    rt: &impl Abort,
    tree: &Tree,
    mut sink: ScriptSink,
    answer: Result<(), WriteFault>,
    taken: &[u8],
) {
    expect_eq(rt, &tree.write_records(&mut sink), &answer);
    expect_bytes(rt, sink.taken(), taken);
}

#[test]
fn writes_the_spellings_of_the_pairs(rt: HostRuntime) -> Result<(), Fail> {
    let alloc = rt.alloc();
    for version in [Version::One, Version::Two] {
        let tree = tree_of_three(alloc, version)?;
        let sink = ScriptSink::new(alloc, 5, None);
        expect_records(&rt, &tree, sink, Ok(()), RECORDS_OF_THREE);
    }
    let empty = checked(alloc, &FILE_OF_NONE)?;
    let sink = ScriptSink::new(alloc, 5, None);
    expect_records(&rt, &empty, sink, Ok(()), b"");
    Ok(())
}

/// Fails unless a failure of this call leaves these bytes written.
fn expect_stop(rt: &impl Abort, alloc: Global, tree: &Tree, fail_at: u64, taken: &[u8]) {
    let sink = ScriptSink::new(alloc, 8, Some(fail_at));
    expect_records(rt, tree, sink, Err(WriteFault), taken);
}

#[test]
fn stops_at_a_failed_call(rt: HostRuntime) -> Result<(), Fail> {
    let alloc = rt.alloc();
    let tree = tree_of_three(alloc, Version::One)?;
    // Each write takes a leaf, of eight bytes, so the call after three is the flush.
    expect_stop(&rt, alloc, &tree, 1, b"");
    expect_stop(&rt, alloc, &tree, 3, &RECORDS_OF_THREE[..16]);
    expect_stop(&rt, alloc, &tree, 4, RECORDS_OF_THREE);
    Ok(())
}

/// The records of a file.
fn records_of(alloc: Global, file: &[u8]) -> Result<Vec<u8>, Fail> {
    let mut written = Vec::new(alloc);
    checked(alloc, file)?.write_records(&mut ToWrite::new(&mut written))?;
    Ok(written)
}

/// The file of the records of a file.
fn made_again(alloc: Global, version: Version, file: &[u8]) -> Result<Vec<u8>, Fail> {
    let written = records_of(alloc, file)?;
    let pairs = records(alloc, &written, 3).ok().ok_or("a fault")?;
    file_of(alloc, version, &pairs)
}

#[test]
fn makes_the_same_file_again(rt: HostRuntime) -> Result<(), Fail> {
    let alloc = rt.alloc();
    for version in [Version::One, Version::Two] {
        let file = file_of_three(alloc, version)?;
        expect_bytes(&rt, &made_again(alloc, version, &file)?, &file);
    }
    Ok(())
}
