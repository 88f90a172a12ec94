//! What `prolly_tool` answers to who names the root.
use prolly_check::OneThread;
use prolly_entry::{Pair, Ref, Version};
use prolly_file::{Device, Sink, Source};
use prolly_look_up::ManyThreads;
use prolly_range::KeySet;
use prolly_root::{ChunkSource, ReadAhead, RootFault};
use prolly_tool::{
    Answer, Notation, RecordForm, RootDiff, RootPair, RootScan, answer_check_by_root,
    answer_diff_by_root, answer_dump_by_root, answer_found, answer_found_pair, answer_found_raw,
    answer_get_by_root, answer_get_keys_by_root, answer_get_raw_by_root, answer_nth_by_root,
    answer_prove_by_root, answer_prove_set_by_root, answer_root, answer_scan_by_root,
    answer_verify, answer_verify_set,
};
use std::alloc::{AllocError, Global};
use std::thread::Threads;

const VERSION: Version = Version::One;

const HEX: Notation = Notation::Hex;

fn written<R: Threads + Sync, S: ReadAhead, W: Sink>(
    hasher: &ManyThreads<'_, R>,
    alloc: Global,
    chunks: &mut S,
    root: &Ref,
    keys: &[Vec<u8>],
    sink: &mut W,
) -> Result<Answer, AllocError> {
    let scan = RootScan {
        version: VERSION,
        root,
        from: b"a",
        limit: 1,
        notation: HEX,
    };
    answer_scan_by_root(hasher, alloc, chunks, &scan, sink)?;
    answer_get_keys_by_root(alloc, chunks, VERSION, root, keys, HEX, sink)?;
    answer_dump_by_root(
        hasher,
        alloc,
        chunks,
        VERSION,
        root,
        RecordForm::Records,
        sink,
    )
}

fn proved<S: ChunkSource, W: Sink>(
    alloc: Global,
    chunks: &mut S,
    root: &Ref,
    set: KeySet<'_>,
    sink: &mut W,
) -> Result<Answer, AllocError> {
    answer_prove_by_root(alloc, chunks, VERSION, root, b"a", sink)?;
    answer_prove_set_by_root(alloc, chunks, VERSION, root, set, sink)
}

fn verified<S: Source, W: Sink>(
    alloc: Global,
    source: &mut S,
    root: &Ref,
    set: KeySet<'_>,
    sink: &mut W,
) -> Result<Answer, AllocError> {
    answer_check_by_root(&OneThread, alloc, source, VERSION, root)?;
    answer_verify(alloc, source, HEX, VERSION, root, b"a")?;
    answer_verify_set(alloc, source, HEX, VERSION, root, set, sink)
}

fn changes<S: ChunkSource, T: ChunkSource, W: Sink>(
    alloc: Global,
    old: &mut S,
    new: &mut T,
    roots: RootPair,
    sink: &mut W,
) -> Result<Answer, AllocError> {
    let diff = RootDiff {
        version: VERSION,
        old: &roots.old,
        new: &roots.new,
        form: None,
        stat: true,
    };
    answer_diff_by_root(alloc, old, new, &diff, sink)
}

fn looked_up<S: ChunkSource>(
    alloc: Global,
    chunks: &mut S,
    root: &Ref,
) -> Result<Answer, AllocError> {
    answer_get_by_root(alloc, chunks, VERSION, root, b"a", HEX)?;
    answer_get_raw_by_root(alloc, chunks, VERSION, root, b"a")?;
    answer_nth_by_root(alloc, chunks, VERSION, root, 0, HEX)
}

fn found(
    alloc: Global,
    value: &Result<Option<Vec<u8>>, RootFault>,
    pair: &Result<Option<Pair>, RootFault>,
) -> Result<Answer, AllocError> {
    answer_found(alloc, HEX, value)?;
    answer_found_raw(alloc, value)?;
    answer_found_pair(alloc, HEX, pair)
}

fn named<D: Device>(alloc: Global, device: &mut D) -> Result<Answer, AllocError> {
    answer_root(alloc, device)
}
