//! Chunk files, and the sources and sinks of bytes.
use crate::expect::expect_eq;
use prolly_io::{Sink, SinkFault, Source, SourceFault};
use std::process::Abort;

mod blocks;
mod buffers;
mod chunk_files;
mod placed_reads;
mod plain;
mod readers;
mod script_devices;
mod script_sinks;
mod script_sources;
mod whole;
mod writers;

/// Reads into the same bytes as often as there are answers, which must be these.
fn reads<S: Source>(
    rt: &impl Abort,
    source: &mut S,
    buf: &mut [u8],
    answers: &[Result<usize, SourceFault>],
) {
    for answer in answers {
        expect_eq(rt, &source.read(buf), answer);
    }
}

/// Writes the same bytes as often as there are answers, which must be these.
fn writes<S: Sink>(
    rt: &impl Abort,
    sink: &mut S,
    bytes: &[u8],
    answers: &[Result<usize, SinkFault>],
) {
    for answer in answers {
        expect_eq(rt, &sink.write(bytes), answer);
    }
}

/// Flushes as often as there are answers, which must be these.
fn flushes<S: Sink>(rt: &impl Abort, sink: &mut S, answers: &[Result<(), SinkFault>]) {
    for answer in answers {
        expect_eq(rt, &sink.flush(), answer);
    }
}
