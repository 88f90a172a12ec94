//! What `prove` and `verify` answer.
use super::expect_answer;
use crate::expect::expect_bytes;
use prolly_answer::{answer_prove, answer_verify};
use prolly_check::OneThread;
use prolly_entry::{Ref, Version};
use prolly_io::{FromRead, ScriptSink};
use prolly_test_parts::{chunk_file, joined};
use prolly_text::Notation;
use std::alloc::Global;
use std::process::Abort;
use std::test::Fail;

/// A leaf of a=1 and b=2.
const LEAF: &[u8] = b"\0\0\x01a\0\0\0\x011\0\x01b\0\0\0\x012";

/// What stands before it in a proof of version Two.
const START: &[u8] = b"PRLP\x02C\0\0\0\0\0\0\0\x11";

/// Proves what a chunk file has at a key, and compares the proof and what it says when it is
/// verified: the status, and what is shown.
fn expect_proof(
    rt: &impl Abort,
    alloc: Global,
    file: &[u8],
    key: &[u8],
    status: u8,
    out: &[u8],
) -> Result<(), Fail> {
    let mut sink = ScriptSink::new(alloc, 3, None);
    let made = answer_prove(&OneThread, alloc, &mut FromRead::new(file), key, &mut sink)?;
    expect_answer(rt, &made, 0, b"", b"");
    expect_bytes(rt, sink.taken(), &joined(alloc, &[START, LEAF])?);
    expect_verified(
        rt,
        alloc,
        sink.taken(),
        Version::Two,
        key,
        (status, out, b""),
    )
}

/// Verifies a proof of what the leaf has at a key, and compares the answer: the status, and what is
/// shown on standard output and on standard error.
fn expect_verified(
    rt: &impl Abort,
    alloc: Global,
    proof: &[u8],
    version: Version,
    key: &[u8],
    (status, out, err): (u8, &[u8], &[u8]),
) -> Result<(), Fail> {
    let mut proof = FromRead::new(proof);
    let answer = answer_verify(
        alloc,
        &mut proof,
        Notation::Hex,
        version,
        &Ref::of(LEAF),
        key,
    )?;
    expect_answer(rt, &answer, status, out, err);
    Ok(())
}

#[test]
fn proves_a_value_and_that_there_is_none(rt: HostRuntime) -> Result<(), Fail> {
    let file = chunk_file(rt.alloc(), [2, 24], &[LEAF])?;
    expect_proof(&rt, rt.alloc(), &file, b"b", 0, b"32\n")?;
    expect_proof(&rt, rt.alloc(), &file, b"ab", 1, b"")
}

/// Parts that are no proof when they are joined, the version that is asked for, and the line of the
/// fault.
const NO_PROOFS: &[(&[&[u8]], Version, &[u8])] = &[
    (&[START], Version::Two, b"prolly: proof: truncated\n"),
    (
        &[START, LEAF],
        Version::One,
        b"prolly: proof: wrong version\n",
    ),
    (&[LEAF], Version::Two, b"prolly: proof: bad header\n"),
    (
        &[START, LEAF, b"C"],
        Version::Two,
        b"prolly: proof: bytes after the end\n",
    ),
];

#[test]
fn tells_why_bytes_prove_nothing(rt: HostRuntime) -> Result<(), Fail> {
    for &(parts, version, line) in NO_PROOFS {
        let bytes = joined(rt.alloc(), parts)?;
        expect_verified(&rt, rt.alloc(), &bytes, version, b"b", (4, b"", line))?;
    }
    Ok(())
}
