//! Sources that follow a script.
use super::reads;
use crate::expect::expect_bytes;
use prolly_io::{ScriptSource, SourceFault};
use std::test::Fail;

#[test]
fn gives_steps_and_fails_once(rt: HostRuntime) -> Result<(), Fail> {
    let mut source = ScriptSource::new(b"abcde".to_vec(rt.alloc())?, 2, Some(3));
    let mut buf = [0; 4];
    reads(&rt, &mut source, &mut buf, &[Ok(2)]);
    reads(&rt, &mut source, &mut buf[1..2], &[Ok(1)]);
    reads(&rt, &mut source, &mut buf, &[Err(SourceFault)]);
    expect_bytes(&rt, &buf, b"ac\0\0");
    reads(&rt, &mut source, &mut buf, &[Ok(2), Ok(0)]);
    expect_bytes(&rt, &buf, b"de\0\0");
    Ok(())
}
