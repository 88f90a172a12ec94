//! What `pack` answers.
use super::expect_answer;
use crate::expect::expect_bytes;
use prolly_answer::answer_pack;
use prolly_io::{FromRead, ScriptSink};
use std::test::Fail;

/// Lines, the write that fails, and what comes of them: the status, what is shown on standard
/// output and on standard error, and what is written.
const PACKED: &[(&[u8], Option<u64>, u8, &[u8], &[u8], &[u8])] = &[
    (b"", None, 0, b"0\n", b"", b""),
    (b"61 -\n", None, 0, b"1\n", b"", b"\0\x01a\xFF\xFF\xFF\xFF"),
    (
        b"61 -\n\n",
        None,
        3,
        b"",
        b"prolly: line 1: not a pair in hexadecimal\n",
        b"",
    ),
    (
        b"61 -\n",
        Some(2),
        5,
        b"",
        b"prolly: write failed\n",
        b"\0\x01a",
    ),
];

#[test]
fn packs_or_tells_the_fault(rt: HostRuntime) -> Result<(), Fail> {
    for &(text, fail_at, status, out, err, taken) in PACKED {
        let mut sink = ScriptSink::new(rt.alloc(), 3, fail_at);
        let answer = answer_pack(rt.alloc(), &mut FromRead::new(text), &mut sink)?;
        expect_answer(&rt, &answer, status, out, err);
        expect_bytes(&rt, sink.taken(), taken);
    }
    Ok(())
}
