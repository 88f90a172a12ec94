//! `prolly_load`, `prolly_merge` and `prolly_stage`.
ghost use Rattle.std.specs.Prelude.{◌≤◌, vec_len};

use prolly_entry::{Cut, Pair, Record, Ref, Version};
use prolly_file::{Sink, Source};
use prolly_link::{End, In, Next, Out};
use prolly_load::{Loaded, RecordReader, RecordWriter, WrittenRecords, load};
use prolly_merge::{Merged, MergedTwo, merge, merge_two};
use prolly_stage::{
    ChunkEvent, Gate, Gated, OpenGate, Staged, Worker, inner_stage, inner_stage_as, leaf_stage,
};
use std::alloc::{AllocError, Global};
use std::sync::Wait;
use std::test::Fail;

fn loaded<S: Source, O: Out<Record>, R: Wait>(
    rt: &R,
    alloc: Global,
    source: S,
    out: O,
) -> Loaded<S, O> {
    let Loaded { source, out } = load(rt, alloc, 0, source, 1000, out);
    Loaded { source, out }
}

fn read<S: Source + Drop, R: Wait>(
    rt: &R,
    alloc: Global,
    source: S,
) -> Result<(Next<Record>, S), AllocError> {
    let mut reader = RecordReader::new(alloc, 0, source, 1000)?;
    let next = reader.recv(rt);
    Ok((next, reader.into_source()))
}

fn written<W: Sink + Drop, R: Wait>(
    rt: &R,
    alloc: Global,
    sink: W,
    record: Record,
) -> (bool, u64, End, W) {
    let mut writer = RecordWriter::new(alloc, sink);
    drop(writer.send(rt, record));
    let written: WrittenRecords<W> = writer.close(rt, End::Clean);
    (
        written.has_failed(),
        written.count(),
        written.end(),
        written.into_sink(),
    )
}

fn merged<I: In<Record>, O: Out<Pair>, R: Wait>(
    rt: &R,
    alloc: Global,
    inputs: Vec<I>,
    out: O,
) -> Merged<I, O> {
    let Merged { inputs, out, pairs } = merge(rt, alloc, inputs, out);
    Merged { inputs, out, pairs }
}

fn merged_two<I: In<Record>, O: Out<Record>, R: Wait>(
    rt: &R,
    left: I,
    right: I,
    out: O,
) -> MergedTwo<I, O> {
    let MergedTwo {
        left,
        right,
        out,
        items,
    } = merge_two(rt, left, right, out);
    MergedTwo {
        left,
        right,
        out,
        items,
    }
}

fn leaves<C: Cut, I: In<Pair>, O: Out<ChunkEvent>, R: Wait>(
    rt: &R,
    alloc: Global,
    cut: C,
    input: I,
    out: O,
) -> Staged<I, O> {
    let Staged { input, out } = leaf_stage(rt, alloc, cut, input, out);
    Staged { input, out }
}

fn nodes<C: Cut, I: In<ChunkEvent>, O: Out<ChunkEvent>, R: Wait>(
    rt: &R,
    alloc: Global,
    cut: C,
    input: I,
    out: O,
) -> Staged<I, O> {
    inner_stage(rt, alloc, 1, cut, input, out)
}

fn nodes_as<C: Cut, I: In<ChunkEvent>, O: Out<ChunkEvent>, R: Wait>(
    rt: &R,
    alloc: Global,
    cut: C,
    input: I,
    out: O,
) -> Staged<I, O> {
    inner_stage_as(rt, alloc, Version::Two, 1, cut, input, out)
}

fn same_event(event: &ChunkEvent, key: Vec<u8>, bytes: Vec<u8>) -> ChunkEvent
    requires { vec_len key ≤ 1024 }
{
    let reference = Ref::of(&bytes);
    ChunkEvent::new(event.level(), key, reference, bytes, event.count())
}

fn gated<'a, G: Gate, O, R: Wait>(rt: &R, out: O, gate: &'a G) -> Gated<'a, G, O> {
    gate.before_send(rt, Worker::Loader(0), 0);
    Gated::new(out, Worker::Stage(1), gate)
}

fn number_of(worker: Worker) -> u32 {
    match worker {
        Worker::Loader(number) | Worker::Merger(number) | Worker::Stage(number) => number,
    }
}

#[test]
fn workers_are_named_as_ever(rt: HostRuntime) -> Result<(), Fail> {
    let _ = gated(&rt, 0u8, &OpenGate);
    assert!(rt; number_of(Worker::Merger(3)) == 3);
    Ok(())
}
