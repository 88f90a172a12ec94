//! What the program shows and writes.
use crate::expect::{expect_bytes, expect_eq};
use prolly_fault::Answer;
use std::process::Abort;

mod build_answers;
mod diff_answers;
mod dump_answers;
mod explained_lines;
mod key_answers;
pub(crate) mod look_up_answers;
mod name_answers;
mod pack_answers;
mod proof_answers;
mod raw_answers;
pub(crate) mod run_files;
mod scratch_answers;
mod sorted_pack_answers;

/// Fails unless an answer has this status, and shows this on standard output and on standard error.
pub(crate) fn expect_answer(rt: &impl Abort, answer: &Answer, status: u8, out: &[u8], err: &[u8]) {
    expect_eq(rt, &answer.status, &status);
    expect_bytes(rt, &answer.out, out);
    expect_bytes(rt, &answer.err, err);
}
