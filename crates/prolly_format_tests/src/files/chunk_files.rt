//! The writer of chunk files.
use crate::expect::{expect_bytes, expect_eq};
use prolly_entry::Ref;
use prolly_io::{FileWriter, ScriptSink, Sink, ToWrite, WriteFault};
use prolly_test_parts::joined;
use std::alloc::{AllocError, Global};
use std::process::Abort;
use std::test::Fail;

const FIRST_LEAF: [u8; 9] = *b"\0\0\x01a\0\0\0\x011";

const SECOND_LEAF: [u8; 9] = *b"\0\0\x01b\0\0\0\x011";

const THIRD_LEAF: [u8; 9] = *b"\0\0\x01c\0\0\0\x011";

/// The chunks of the file of the keys a, b and c, and the bytes of that file, which are 234.
#[derive(Drop)]
struct Sample {
    first_node: Vec<u8>,
    last_node: Vec<u8>,
    root: Vec<u8>,
    file: Vec<u8>,
}

/// A node of two children, each spelled as what stands before its reference, and the bytes that it
/// refers to.
fn node_of_two(
    alloc: Global,
    first: (&[u8], &[u8]),
    second: (&[u8], &[u8]),
) -> Result<Vec<u8>, AllocError> {
    let references = (Ref::of(first.1), Ref::of(second.1));
    joined(
        alloc,
        &[first.0, &references.0.0, second.0, &references.1.0],
    )
}

fn make_sample(alloc: Global) -> Result<Sample, AllocError> {
    let first_node = node_of_two(
        alloc,
        (b"\x01\0\x01a", &FIRST_LEAF),
        (b"\0\x01b", &SECOND_LEAF),
    )?;
    let last_node = joined(alloc, &[b"\x01\0\x01c", &Ref::of(&THIRD_LEAF).0])?;
    let root = node_of_two(
        alloc,
        (b"\x02\0\x01b", &first_node),
        (b"\0\x01c", &last_node),
    )?;
    let file = joined(
        alloc,
        &[
            b"PRLY\x01\0",
            b"C\0\0\0\0\0\0\0\x09",
            &FIRST_LEAF,
            b"C\0\0\0\0\0\0\0\x09",
            &SECOND_LEAF,
            b"C\0\0\0\0\0\0\0\x2F",
            &first_node,
            b"C\0\0\0\0\0\0\0\x09",
            &THIRD_LEAF,
            b"C\0\0\0\0\0\0\0\x18",
            &last_node,
            b"C\0\0\0\0\0\0\0\x2F",
            &root,
            b"E",
            &Ref::of(&root).0,
            b"\0\0\0\0\0\0\0\x06",
        ],
    )?;
    Ok(Sample {
        first_node,
        last_node,
        root,
        file,
    })
}

fn write<W: Sink>(sample: &Sample, sink: &mut W) -> Result<u64, WriteFault> {
    let mut writer = FileWriter::begin(sink, 0)?;
    writer.chunk(sink, &FIRST_LEAF)?;
    writer.chunk(sink, &SECOND_LEAF)?;
    writer.chunk(sink, &sample.first_node)?;
    writer.chunk(sink, &THIRD_LEAF)?;
    writer.chunk(sink, &sample.last_node)?;
    writer.chunk(sink, &sample.root)?;
    writer.end(sink, &Ref::of(&sample.root))
}

/// Fails unless writing the sample answers this, and the sink has then taken these bytes.
fn expect_written(
    rt: &impl Abort,
    sample: &Sample,
    mut sink: ScriptSink,
    answer: Result<u64, WriteFault>,
    taken: &[u8],
) {
    expect_eq(rt, &write(sample, &mut sink), &answer);
    expect_bytes(rt, sink.taken(), taken);
}

#[test]
fn writes_a_file(rt: HostRuntime) -> Result<(), Fail> {
    let alloc = rt.alloc();
    let sample = make_sample(alloc)?;
    assert!(rt; sample.file.len() == 234);

    let sink = ScriptSink::new(alloc, 1, None);
    expect_written(&rt, &sample, sink, Ok(6), &sample.file);

    let mut out = Vec::new(alloc);
    expect_eq(&rt, &write(&sample, &mut ToWrite::new(&mut out)), &Ok(6));
    expect_bytes(&rt, &out, &sample.file);
    Ok(())
}

#[test]
fn stops_at_a_failed_call(rt: HostRuntime) -> Result<(), Fail> {
    let alloc = rt.alloc();
    let sample = make_sample(alloc)?;

    // Each write takes a byte, so the call after 234 is the flush.
    for (step, fail_at, taken) in [
        (1, Some(3), b"PR".as_slice()),
        (1, Some(235), &sample.file),
        (0, None, b""),
    ] {
        let sink = ScriptSink::new(alloc, step, fail_at);
        expect_written(&rt, &sample, sink, Err(WriteFault), taken);
    }
    Ok(())
}
