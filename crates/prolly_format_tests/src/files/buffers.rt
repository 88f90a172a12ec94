//! A sink that gathers small writes.
use super::{flushes, writes};
use crate::expect::expect_bytes;
use prolly_io::{Buffered, ScriptSink, SinkFault};
use std::alloc::{AllocError, Global};
use std::test::Fail;

/// A buffer of 8 bytes over a sink that takes so many at each write, and fails at a call.
fn buffer_over(
    alloc: Global,
    step: usize,
    fail_at: Option<u64>,
) -> Result<Buffered<ScriptSink>, AllocError> {
    Buffered::with_capacity(alloc, 8, ScriptSink::new(alloc, step, fail_at))
}

#[test]
fn bytes_are_handed_on_where_there_is_no_room_and_at_a_flush(rt: HostRuntime) -> Result<(), Fail> {
    let mut buffer = buffer_over(rt.alloc(), 100, None)?;
    writes(&rt, &mut buffer, b"abc", &[Ok(3), Ok(3)]);
    expect_bytes(&rt, buffer.sink().taken(), b"");
    writes(&rt, &mut buffer, b"abc", &[Ok(3)]);
    expect_bytes(&rt, buffer.sink().taken(), b"abcabc");
    flushes(&rt, &mut buffer, &[Ok(())]);
    expect_bytes(&rt, buffer.sink().taken(), b"abcabcabc");
    Ok(())
}

#[test]
fn many_bytes_go_straight_on_behind_those_that_were_held(rt: HostRuntime) -> Result<(), Fail> {
    let mut buffer = buffer_over(rt.alloc(), 10, None)?;
    writes(&rt, &mut buffer, b"ab", &[Ok(2)]);
    writes(&rt, &mut buffer, b"0123456789+-", &[Ok(10)]);
    expect_bytes(&rt, buffer.sink().taken(), b"ab0123456789");
    Ok(())
}

#[test]
fn a_sink_that_failed_is_left_alone(rt: HostRuntime) -> Result<(), Fail> {
    let mut buffer = buffer_over(rt.alloc(), 3, Some(2))?;
    writes(&rt, &mut buffer, b"abcdefg", &[Ok(7)]);
    flushes(&rt, &mut buffer, &[Err(SinkFault), Err(SinkFault)]);
    writes(&rt, &mut buffer, b"h", &[Err(SinkFault)]);
    expect_bytes(&rt, buffer.sink().taken(), b"abc");
    Ok(())
}

#[test]
fn a_sink_that_takes_nothing_has_failed(rt: HostRuntime) -> Result<(), Fail> {
    let mut buffer = buffer_over(rt.alloc(), 0, None)?;
    writes(&rt, &mut buffer, b"0123456789", &[Err(SinkFault)]);
    flushes(&rt, &mut buffer, &[Err(SinkFault)]);
    Ok(())
}

#[test]
fn a_sink_is_flushed_behind_its_bytes(rt: HostRuntime) -> Result<(), Fail> {
    // The first call is the write, the second the flush.
    let mut buffer = buffer_over(rt.alloc(), 100, Some(2))?;
    writes(&rt, &mut buffer, b"ab", &[Ok(2)]);
    flushes(&rt, &mut buffer, &[Err(SinkFault)]);
    expect_bytes(&rt, buffer.sink().taken(), b"ab");
    Ok(())
}
