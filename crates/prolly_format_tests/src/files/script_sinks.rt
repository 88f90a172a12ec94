//! Sinks that follow a script.
use super::{flushes, writes};
use crate::expect::expect_bytes;
use prolly_io::{ScriptSink, SinkFault};

#[test]
fn takes_steps_and_fails_once(rt: HostRuntime) {
    let mut sink = ScriptSink::new(rt.alloc(), 2, Some(3));
    writes(&rt, &mut sink, b"abc", &[Ok(2)]);
    flushes(&rt, &mut sink, &[Ok(())]);
    writes(&rt, &mut sink, b"c", &[Err(SinkFault), Ok(1)]);
    expect_bytes(&rt, sink.taken(), b"abc");

    let mut sink = ScriptSink::new(rt.alloc(), 2, Some(1));
    flushes(&rt, &mut sink, &[Err(SinkFault), Ok(())]);
}
