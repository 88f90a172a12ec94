//! What `dump` answers.
use super::expect_answer;
use crate::expect::expect_bytes;
use prolly_answer::answer_dump;
use prolly_check::OneThread;
use prolly_io::{FromRead, ScriptSink, ScriptSource};
use prolly_test_parts::chunk_file;
use prolly_text::{Notation, RecordForm};
use std::alloc::Global;
use std::process::Abort;
use std::test::Fail;

/// Lines in hexadecimal.
const HEX_LINES: RecordForm = RecordForm::Lines(Notation::Hex);

/// A leaf of a=1 and b=2.
const LEAF: &[u8] = b"\0\0\x01a\0\0\0\x011\0\x01b\0\0\0\x012";

/// The record file of these pairs.
const RECORDS: &[u8] = b"\0\x01a\0\0\0\x011\0\x01b\0\0\0\x012";

/// The write that fails, and what comes of it: the status, the line on standard error, and what is
/// written. Each write takes three bytes, so the one after six is the flush.
const WRITES: &[(Option<u64>, u8, &[u8], &[u8])] = &[
    (None, 0, b"", RECORDS),
    (Some(3), 5, b"prolly: write failed\n", b"\0\x01a\0\0\0"),
    (Some(7), 5, b"prolly: write failed\n", RECORDS),
];

/// Dumps the records of a chunk file of this version, over each of the writes.
fn expect_records(rt: &impl Abort, alloc: Global, version: u8) -> Result<(), Fail> {
    let file = chunk_file(alloc, [version, 24], &[LEAF])?;
    for &(fail_at, status, err, taken) in WRITES {
        let mut sink = ScriptSink::new(alloc, 3, fail_at);
        let mut source = FromRead::new(file.as_slice());
        let answer = answer_dump(
            &OneThread,
            alloc,
            &mut source,
            RecordForm::Records,
            &mut sink,
        )?;
        expect_answer(rt, &answer, status, b"", err);
        expect_bytes(rt, sink.taken(), taken);
    }
    Ok(())
}

#[test]
fn writes_the_record_file_or_tells_that_it_failed(rt: HostRuntime) -> Result<(), Fail> {
    expect_records(&rt, rt.alloc(), 1)?;
    expect_records(&rt, rt.alloc(), 2)
}

#[test]
fn writes_a_line_for_each_pair(rt: HostRuntime) -> Result<(), Fail> {
    let alloc = rt.alloc();
    let file = chunk_file(alloc, [1, 24], &[LEAF])?;
    let mut source = FromRead::new(file.as_slice());
    let mut sink = ScriptSink::new(alloc, 5, None);
    let answer = answer_dump(&OneThread, alloc, &mut source, HEX_LINES, &mut sink)?;
    expect_answer(&rt, &answer, 0, b"", b"");
    expect_bytes(&rt, sink.taken(), b"61 31\n62 32\n");
    Ok(())
}

/// Dumps from a source, and fails unless nothing is written and this fault is told.
fn expect_no_lines(
    rt: &impl Abort,
    alloc: Global,
    mut source: ScriptSource,
    status: u8,
    line: &[u8],
) -> Result<(), Fail> {
    let mut sink = ScriptSink::new(alloc, 3, None);
    let answer = answer_dump(&OneThread, alloc, &mut source, HEX_LINES, &mut sink)?;
    expect_answer(rt, &answer, status, b"", line);
    expect_bytes(rt, sink.taken(), b"");
    Ok(())
}

#[test]
fn tells_the_fault_and_writes_nothing(rt: HostRuntime) -> Result<(), Fail> {
    let alloc = rt.alloc();
    let records = ScriptSource::new(RECORDS.to_vec(alloc)?, 4, None);
    expect_no_lines(&rt, alloc, records, 4, b"prolly: chunk file: bad header\n")?;
    let broken = ScriptSource::new(chunk_file(alloc, [1, 24], &[LEAF])?, 8, Some(2));
    expect_no_lines(&rt, alloc, broken, 5, b"prolly: chunk file: read failed\n")
}
