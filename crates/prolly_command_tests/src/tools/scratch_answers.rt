//! What `scratch` answers.
use super::expect_answer;
use crate::expect::expect_bytes;
use prolly_answer::answer_scratch;
use prolly_entry::Version;
use prolly_io::{ScriptSink, ScriptSource};
use std::alloc::Global;
use std::process::Abort;
use std::test::Fail;

/// The chunk file of the empty map, cut by 0 bits.
const EMPTY_FILE: &[u8] = b"PRLY\x01\0C\0\0\0\0\0\0\0\x01\0E\
      \xB8\x24\x4D\x02\x89\x81\xD6\x93\xAF\x7B\x45\x6A\xF8\xEF\xA4\xCA\xD6\x3D\x28\x2E\
      \0\0\0\0\0\0\0\x01";

/// Loads a record file into a tree, and compares the answer and what is written: the status, and
/// what is shown on standard output and on standard error.
fn expect_scratch(
    rt: &impl Abort,
    alloc: Global,
    mut source: ScriptSource,
    sink: ScriptSink,
    (status, out, err): (u8, &[u8], &[u8]),
    taken: &[u8],
) -> Result<(), Fail> {
    let mut sink = Some(sink);
    let answer = answer_scratch(alloc, &mut source, 0, Version::One, &mut sink)?;
    expect_answer(rt, &answer, status, out, err);
    match &sink {
        Some(sink) => expect_bytes(rt, sink.taken(), taken),
        None => return Err(Fail::from("no sink")),
    }
    Ok(())
}

#[test]
fn shows_the_root_and_writes_the_file(rt: HostRuntime) -> Result<(), Fail> {
    let source = ScriptSource::new(Vec::new(rt.alloc()), 4, None);
    let sink = ScriptSink::new(rt.alloc(), 4, None);
    let root = (
        0,
        b"n0i4q0k9g7b97brr8llfhrt4pbb3qa1e\n".as_slice(),
        b"".as_slice(),
    );
    expect_scratch(&rt, rt.alloc(), source, sink, root, EMPTY_FILE)
}

#[test]
fn tells_the_fault_and_writes_nothing(rt: HostRuntime) -> Result<(), Fail> {
    let alloc = rt.alloc();
    let twice = b"\0\x01a\0\0\0\x011\0\x01a\0\0\0\x012".to_vec(alloc)?;
    let source = ScriptSource::new(twice, 4, None);
    let line = b"prolly: file 0: record 1: key out of order\n".as_slice();
    let sink = ScriptSink::new(alloc, 4, None);
    expect_scratch(&rt, alloc, source, sink, (3, b"", line), b"")?;
    let source = ScriptSource::new(b"abc".to_vec(alloc)?, 1, Some(2));
    let line = b"prolly: file 0: read failed\n".as_slice();
    let sink = ScriptSink::new(alloc, 4, None);
    expect_scratch(&rt, alloc, source, sink, (5, b"", line), b"")
}

#[test]
fn tells_that_writing_failed(rt: HostRuntime) -> Result<(), Fail> {
    let source = ScriptSource::new(Vec::new(rt.alloc()), 4, None);
    let sink = ScriptSink::new(rt.alloc(), 1, Some(3));
    let failed = (5, b"".as_slice(), b"prolly: write failed\n".as_slice());
    expect_scratch(&rt, rt.alloc(), source, sink, failed, b"PR")
}
