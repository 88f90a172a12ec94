//! Builds that are refused memory: what was written is a first part of the file.
//!
//! `tests/growths_of_calls.py` refuses these tests each growth in turn. Where it is one for a
//! test's own values, the test ends in want of memory; where it is one of the build, the test goes
//! on.
use super::faults::OUT_OF_ORDER;
use super::*;
use crate::expect::expect_eq;

/// Whether an end is a build's own, or may come of refused memory: of a worker, of a thread, or of
/// the sink.
fn is_told(fault: Option<RunFault>, own: Option<RunFault>) -> bool {
    fault == own
        || matches!(
            fault,
            Some(RunFault::Memory | RunFault::NoThread | RunFault::Write)
        )
}

/// Fails unless a build ended in its own fault, or none, or in one that may come of refused memory,
/// and has written a first part of the file, or all of it where it was done.
fn expect_front(
    rt: &impl Abort,
    fault: Option<RunFault>,
    own: Option<RunFault>,
    taken: &[u8],
    file: &[u8],
) {
    if fault.is_none() {
        expect_bytes(rt, taken, file);
    }
    expect_eq(rt, &(fault, is_told(fault, own)), &(fault, true));
    expect_eq(rt, &(fault, file.starts_with(taken)), &(fault, true));
}

/// Builds from record files.
fn expect_begun<R: Wait + Threads + Sync + Abort>(
    rt: &R,
    alloc: Global,
    files: &[&[u8]],
    own: Option<RunFault>,
    map: &[u8],
) -> Result<(), Fail> {
    let config = settings(4)?;
    let file = file_of(alloc, map)?;
    let mut sources = sources_of(alloc, files)?;
    let mut sink = open_sink(alloc);
    let built = build(rt, alloc, &config, &mut sources, &mut sink, &OpenGate);
    expect_front(rt, built.err(), own, sink.taken(), &file);
    Ok(())
}

#[test]
fn one_file_is_built_or_begun(rt: HostRuntime) -> Result<(), Fail> {
    expect_begun(&rt, rt.alloc(), &[b"a1b1c1"], None, b"a1b1c1")
}

#[test]
fn three_files_are_built_or_begun(rt: HostRuntime) -> Result<(), Fail> {
    let files: [&[u8]; 3] = [b"a1d1", b"b1", b"c1e1"];
    expect_begun(&rt, rt.alloc(), &files, None, b"a1b1c1d1e1")
}

#[test]
fn files_with_a_fault_are_begun(rt: HostRuntime) -> Result<(), Fail> {
    let files: [&[u8]; 2] = [b"5131", b"112171"];
    expect_begun(&rt, rt.alloc(), &files, OUT_OF_ORDER, b"112151")
}
