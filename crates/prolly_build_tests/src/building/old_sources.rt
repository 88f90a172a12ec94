//! The source of an old tree, which is given back.
ghost use Rattle.prolly_build.specs.GivenBack.{TellsNoOldRead};

use super::applying::tree_of;
use super::*;
use crate::expect::expect_eq;
use prolly_build::laws::no_failed_read_is_told;
use prolly_build::{AppliedChanges, ApplyFault, apply_changes};
use prolly_entry::Ref;
use prolly_io::{InMemory, ScriptDevice};
use prolly_root::{FileChunks, ReadAhead, RootFault};

/// Lays changes over the tree with this root in a file in memory, of which no read fails.
fn applied_in_memory<R: Wait + Threads + Sync>(
    rt: &R,
    alloc: Global,
    config: &Config,
    root: &Ref,
    file: &[u8],
    sources: &mut Vec<ScriptSource>,
    sink: &mut ScriptSink,
) -> Result<Report, ApplyFault>
    ensures { TellsNoOldRead result }
{
    // By this law no read is told to have failed.
    no_failed_read_is_told::<FileChunks<InMemory<'_>>>();
    let old = FileChunks::new(InMemory::new(file));
    apply_changes(rt, alloc, config, root, old, sources, sink, &OpenGate).answer
}

#[test]
fn a_file_in_memory_is_read_without_a_failure(rt: HostRuntime) -> Result<(), Fail> {
    let alloc = rt.alloc();
    let config = settings(12)?;
    let map = b"a1b1c1";
    let (root, file) = tree_of(&rt, alloc, &config, file_of(alloc, map)?, map)?;
    let mut sources = sources_of(alloc, &[b"b2"])?;
    let mut sink = open_sink(alloc);
    let made = applied_in_memory(&rt, alloc, &config, &root, &file, &mut sources, &mut sink);
    expect_eq(&rt, &made.err(), &None);
    expect_bytes(&rt, sink.taken(), &file_of(alloc, b"a1b2c1")?);
    Ok(())
}

/// Lays one change over the tree with this root.
fn one_applied<R: Wait + Threads + Sync, D: ReadAhead + Send + Drop>(
    rt: &R,
    alloc: Global,
    config: &Config,
    root: &Ref,
    old: D,
    sink: &mut ScriptSink,
) -> Result<AppliedChanges<D>, Fail>
where
    D::Place: Send,
{
    let mut sources = sources_of(alloc, &[b"b2"])?;
    Ok(apply_changes(rt, alloc, config, root, old, &mut sources, sink, &OpenGate))
}

// A device of this kind fails once. So, whichever read failed, a second run over what the first one
// gave back makes the tree. The last read that fails is none.
#[test]
fn a_source_that_failed_is_given_back(rt: HostRuntime) -> Result<(), Fail> {
    let alloc = rt.alloc();
    let config = settings(12)?;
    let map = b"a1b1c1";
    let mut failed = 0_u32;
    for fail_at in 0..64 {
        let (root, file) = tree_of(&rt, alloc, &config, file_of(alloc, map)?, map)?;
        let old = FileChunks::new(ScriptDevice::new(file, Some(fail_at)));
        let first = one_applied(&rt, alloc, &config, &root, old, &mut open_sink(alloc))?;
        let Err(fault) = first.answer else {
            continue;
        };
        failed = failed.saturating_add(1);
        expect_eq(&rt, &fault, &ApplyFault::Old(RootFault::Read));
        let old = first.source.ok_or("no source")?;
        let mut sink = open_sink(alloc);
        let second = one_applied(&rt, alloc, &config, &root, old, &mut sink)?;
        expect_eq(&rt, &second.answer.err(), &None);
        expect_bytes(&rt, sink.taken(), &file_of(alloc, b"a1b2c1")?);
    }
    assert!(rt; failed > 3 && failed < 64);
    Ok(())
}
