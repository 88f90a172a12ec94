//! Changes that are laid over an old tree.
use super::*;
use crate::expect::expect_eq;
use prolly_build::{ApplyFault, apply_changes, apply_changes_with};
use prolly_entry::Ref;
use prolly_io::ScriptDevice;
use prolly_root::{FileChunks, RootFault};
use prolly_stage::Worker;
use std::sync::atomic::{AtomicUsize, Ordering};

/// The root of the tree of a map, and its file.
pub(super) fn tree_of<R: Wait + Threads + Sync + Abort>(
    rt: &R,
    alloc: Global,
    config: &Config,
    file: Vec<u8>,
    map: &[u8],
) -> Result<(Ref, Vec<u8>), Fail> {
    let report = expect_file(rt, alloc, config, &OpenGate, &[map], &file)?;
    Ok((report.root, file))
}

/// Applies changes to the tree with this root in this file, one of whose reads may fail. Answers the
/// fault or the number of pairs, and what was written.
fn applied<R: Wait + Threads + Sync + Abort>(
    rt: &R,
    alloc: Global,
    config: &Config,
    tree: (Ref, Vec<u8>),
    fail_at: Option<u64>,
    sources: &mut Vec<ScriptSource>,
    sink: &mut ScriptSink,
) -> Result<u64, ApplyFault> {
    let (root, file) = tree;
    let old = FileChunks::new(ScriptDevice::new(file, fail_at));
    let made = apply_changes(rt, alloc, config, &root, old, sources, sink, &OpenGate);
    Ok(made.answer?.pairs)
}

const FIFTEEN_FILES: &[&[u8]] = &[
    b"a1", b"b1", b"c1", b"d1", b"e1", b"f1", b"g1", b"h1", b"i1", b"j1", b"k1", b"l1", b"m1",
    b"n1", b"o1",
];

/// A map, changes, and the map that they make of it.
const APPLIED: [(&[u8], &[&[u8]], &[u8]); 14] = [
    (b"", &[], b""),
    (b"", &[b""], b""),
    (b"", &[b"a1b1"], b"a1b1"),
    (b"a1b1c1", &[], b"a1b1c1"),
    (b"a1b1c1", &[b"", b""], b"a1b1c1"),
    (b"a1b1c1", &[b"a-b-c-"], b""),
    (b"b1c1d1", &[b"a1"], b"a1b1c1d1"),
    (b"b1c1d1", &[b"e1"], b"b1c1d1e1"),
    (b"a1c1e1", &[b"b2d2"], b"a1b2c1d2e1"),
    (b"a1b1c1d1e1", &[b"a-", b"c-", b"e-"], b"b1d1"),
    (b"a1b1c1", &[b"b2", b"b3"], b"a1b3c1"),
    (b"a1b1c1", &[b"b-", b"b3"], b"a1b3c1"),
    (b"a1b1c1", &[b"b3", b"b-"], b"a1c1"),
    (b"a0z0", FIFTEEN_FILES, b"a1b1c1d1e1f1g1h1i1j1k1l1m1n1o1z0"),
];

/// The bits of a boundary, the capacity of the links, the size of a batch, and the version.
const SETTINGS: [(u8, u32, u32, Version); 4] = [
    (0, 1, 1, Version::One),
    (1, 1, 16, Version::Two),
    (2, 64, 1, Version::One),
    (4, 64, 16, Version::Two),
];

#[test]
fn changes_make_the_file_of_the_new_map(rt: HostRuntime) -> Result<(), Fail> {
    let alloc = rt.alloc();
    for &(map, changes, made) in &APPLIED {
        for &(bits, capacity, batch, version) in &SETTINGS {
            let config = settings_of(bits, 12, capacity, batch, version)?;
            let old = file_cut(alloc, bits, version, map)?;
            let tree = tree_of(&rt, alloc, &config, old, map)?;
            let file = file_cut(alloc, bits, version, made)?;
            let mut sources = sources_of(alloc, changes)?;
            let mut sink = open_sink(alloc);
            let pairs = applied(&rt, alloc, &config, tree, None, &mut sources, &mut sink);
            expect_eq(&rt, &pairs, &Ok(made.len() as u64 / 2));
            expect_bytes(&rt, sink.taken(), &file);
        }
    }
    Ok(())
}

/// Applies changes to the tree of a map cut by these bits, as if by those, and fails unless there is
/// this fault, and this was written.
fn expect_refused<R: Wait + Threads + Sync + Abort>(
    rt: &R,
    alloc: Global,
    bits: u8,
    told: u8,
    map: &[u8],
    changes: &[&[u8]],
    fault: ApplyFault,
) -> Result<(), Fail> {
    let config = settings_of(bits, 12, 4, 4, Version::One)?;
    let file = file_cut(alloc, bits, Version::One, map)?;
    let tree = tree_of(rt, alloc, &config, file, map)?;
    let config = settings_of(told, 12, 4, 4, Version::One)?;
    let mut sources = sources_of(alloc, changes)?;
    let mut sink = open_sink(alloc);
    let pairs = applied(rt, alloc, &config, tree, None, &mut sources, &mut sink);
    expect_eq(rt, &pairs, &Err(fault));
    Ok(())
}

// Cut by 0 bits, each pair has a leaf of its own. Cut by 20, all stand in one.
#[test]
fn wrong_bits_are_told(rt: HostRuntime) -> Result<(), Fail> {
    let alloc = rt.alloc();
    let wrong = ApplyFault::WrongBits;
    expect_refused(&rt, alloc, 0, 20, b"a1b1c1", &[], wrong)?;
    expect_refused(&rt, alloc, 20, 0, b"a1b1c1", &[b"z1"], wrong)
}

#[test]
fn a_fault_of_changes_is_told(rt: HostRuntime) -> Result<(), Fail> {
    let alloc = rt.alloc();
    let fault = ApplyFault::Run(RunFault::OutOfOrder { file: 1, place: 1 });
    expect_refused(&rt, alloc, 0, 0, b"a1z1", &[b"b1", b"c1c2"], fault)?;
    expect_refused(&rt, alloc, 0, 0, b"", &[b"", b"c1c2"], fault)
}

// The last read that fails is none.
#[test]
fn each_read_of_the_old_tree_may_fail(rt: HostRuntime) -> Result<(), Fail> {
    let alloc = rt.alloc();
    let config = settings(12)?;
    let made = file_of(alloc, b"a1b2c1")?;
    let mut failed = 0_u32;
    for fail_at in 0..64 {
        let file = file_of(alloc, b"a1b1c1")?;
        let tree = tree_of(&rt, alloc, &config, file, b"a1b1c1")?;
        let mut sources = sources_of(alloc, &[b"b2"])?;
        let mut sink = open_sink(alloc);
        let at = Some(fail_at);
        match applied(&rt, alloc, &config, tree, at, &mut sources, &mut sink) {
            Ok(_) => expect_bytes(&rt, sink.taken(), &made),
            Err(fault) => {
                failed = failed.saturating_add(1);
                expect_eq(&rt, &fault, &ApplyFault::Old(RootFault::Read));
                expect_eq(&rt, &made.starts_with(sink.taken()), &true);
            }
        }
    }
    assert!(rt; failed > 3 && failed < 64);
    Ok(())
}

// The root is that of another map.
#[test]
fn another_tree_is_told(rt: HostRuntime) -> Result<(), Fail> {
    let alloc = rt.alloc();
    let config = settings(12)?;
    let (root, _) = tree_of(&rt, alloc, &config, file_of(alloc, b"a1b1")?, b"a1b1")?;
    let tree = (root, file_of(alloc, b"a1b2")?);
    let mut sources = sources_of(alloc, &[b"c1"])?;
    let mut sink = open_sink(alloc);
    let told = applied(&rt, alloc, &config, tree, None, &mut sources, &mut sink);
    assert!(rt; matches!(told, Err(ApplyFault::Old(RootFault::Reference { .. }))));
    Ok(())
}

#[test]
fn sixteen_files_of_changes_are_too_many(rt: HostRuntime) -> Result<(), Fail> {
    let alloc = rt.alloc();
    let config = settings(12)?;
    let tree = tree_of(&rt, alloc, &config, file_of(alloc, b"a1")?, b"a1")?;
    let files: [&[u8]; 16] = [b""; 16];
    let mut sources = sources_of(alloc, &files)?;
    let mut sink = open_sink(alloc);
    let told = applied(&rt, alloc, &config, tree, None, &mut sources, &mut sink);
    expect_eq(&rt, &told, &Err(ApplyFault::Run(RunFault::TooManyFiles)));
    expect_bytes(&rt, sink.taken(), b"");
    Ok(())
}

/// The workers of three files of changes with three stages, in the order in which they start.
const WORKERS: [Worker; 9] = [
    Worker::Stage(2),
    Worker::Stage(1),
    Worker::Stage(0),
    Worker::Loader(u32::MAX),
    Worker::Merger(1),
    Worker::Merger(0),
    Worker::Loader(0),
    Worker::Loader(1),
    Worker::Loader(2),
];

/// A permit for so many workers, in their turn.
#[derive(Drop)]
struct InTurn {
    granted: usize,
    asked: AtomicUsize,
    out_of_turn: AtomicUsize,
}

impl Permit for InTurn {
    fn may_start(&self, worker: Worker) -> bool {
        let place = self.asked.fetch_add(1, Ordering::SeqCst);
        if WORKERS.get(place) != Some(&worker) {
            self.out_of_turn.fetch_add(1, Ordering::SeqCst);
        }
        place < self.granted
    }
}

// Behind the refusal of one nobody is asked for.
#[test]
fn workers_over_an_old_tree_may_be_refused(rt: HostRuntime) -> Result<(), Fail> {
    let alloc = rt.alloc();
    let config = settings(3)?;
    for granted in 0..=WORKERS.len() {
        let (root, file) = tree_of(&rt, alloc, &config, file_of(alloc, b"a1b1")?, b"a1b1")?;
        let old = FileChunks::new(ScriptDevice::new(file, None));
        let mut sources = sources_of(alloc, &[b"a2", b"b2", b"b-"])?;
        let mut sink = open_sink(alloc);
        let permit = InTurn {
            granted,
            asked: AtomicUsize::new(0),
            out_of_turn: AtomicUsize::new(0),
        };
        let made = apply_changes_with(
            &rt,
            alloc,
            &config,
            &root,
            old,
            &mut sources,
            &mut sink,
            &OpenGate,
            &permit,
        );
        let asked = permit.asked.load(Ordering::SeqCst);
        let turns = permit.out_of_turn.load(Ordering::SeqCst);
        expect_eq(&rt, &(asked, turns), &((granted + 1).min(WORKERS.len()), 0));
        if granted < WORKERS.len() {
            let told = made.answer.err();
            expect_eq(&rt, &told, &Some(ApplyFault::Run(RunFault::NoThread)));
            expect_bytes(&rt, sink.taken(), b"");
        } else {
            expect_eq(&rt, &made.answer.err(), &None);
            expect_bytes(&rt, sink.taken(), &file_of(alloc, b"a2")?);
        }
    }
    Ok(())
}
