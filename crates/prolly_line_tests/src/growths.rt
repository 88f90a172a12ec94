//! Calls that are refused memory: they say so, and what they were given is as it was.
//!
//! `tests/growths_of_calls.py` refuses these tests each growth in turn. Where it is one for a
//! test's own values, the test ends in want of memory; where it is one of the calls that are
//! tested, the test goes on.
use crate::command_line::outcome;
use crate::expect::{expect_bytes, expect_eq};
use prolly_text::{LineForm, LinesFault, Notation, PackFault, pack_lines_in};
use std::alloc::Global;
use std::process::Abort;
use std::test::Fail;

/// Packs a line behind bytes, which are as they were where that is refused.
fn expect_packed(
    rt: &impl Abort,
    alloc: Global,
    notation: Notation,
    line: &[u8],
) -> Result<(), Fail> {
    let form = LineForm {
        notation,
        removals: false,
    };
    let mut out = b"kept".to_vec(alloc)?;
    match pack_lines_in(alloc, form, line, &mut out) {
        Ok(count) => {
            expect_eq(rt, &count, &1);
            expect_bytes(rt, &out, b"kept\0\x01a\0\0\0\x011");
        }
        Err(fault) => {
            expect_eq(rt, &fault, &LinesFault::Pack(PackFault::Memory));
            expect_bytes(rt, &out, b"kept");
        }
    }
    Ok(())
}

#[test]
fn lines_are_packed_or_left(rt: HostRuntime) -> Result<(), Fail> {
    expect_packed(&rt, rt.alloc(), Notation::Hex, b"61 31\n")?;
    expect_packed(&rt, rt.alloc(), Notation::Text, b"a\t1\n")
}

/// Words that are a command.
const GOOD_WORDS: &[&str] = &[
    "pack a.rec",
    "build --bits 3 out.prl x.rec y.rec",
    "get a.prl 61",
];

#[test]
fn words_are_taken_or_want_memory(rt: HostRuntime) -> Result<(), Fail> {
    for &line in GOOD_WORDS {
        let outcome = outcome(rt.alloc(), line)?;
        let is_told = outcome == "taken" || outcome == "memory";
        expect_eq(&rt, &(line, outcome, is_told), &(line, outcome, true));
    }
    Ok(())
}
