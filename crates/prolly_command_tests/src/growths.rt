//! Calls that are refused memory: they say so, and write nothing.
//!
//! `tests/growths_of_calls.py` refuses these tests each growth in turn. Where it is one for a
//! test's own values, the test ends in want of memory; where it is one of the calls that are
//! tested, the test goes on.
use crate::expect::{expect_bytes, expect_eq};
use crate::tools::expect_answer;
use crate::tools::look_up_answers::file_of_three;
use crate::tools::run_files::RunFiles;
use prolly_answer::{
    answer_check, answer_dump, answer_get, answer_nth, answer_pack, answer_pack_sorted,
    answer_prove, answer_scan, answer_scratch, answer_verify,
};
use prolly_check::OneThread;
use prolly_entry::{Ref, Version};
use prolly_fault::Answer;
use prolly_io::{FromRead, ScriptSink};
use prolly_text::{LineForm, Notation, RecordForm};
use std::alloc::{AllocError, Global};
use std::process::Abort;
use std::test::Fail;

mod differences;
mod keys;
mod rooted;
mod surveys;
mod told;

/// The line that tells of want of memory.
const NO_MEMORY: &[u8] = b"prolly: out of memory\n";

/// Fails unless a call ends with the status of one that is done, and shows this, or tells that
/// memory was refused: by its line, or by an `Err` where there was none for that.
fn expect_shown(rt: &impl Abort, answer: Result<Answer, AllocError>, done: u8, out: &[u8]) {
    let Ok(answer) = answer else {
        return;
    };
    if answer.status == 6 {
        expect_answer(rt, &answer, 6, b"", NO_MEMORY);
    } else {
        expect_answer(rt, &answer, done, out, b"");
    }
}

#[test]
fn a_look_up_is_shown_or_wants_memory(rt: HostRuntime) -> Result<(), Fail> {
    let alloc = rt.alloc();
    let file = file_of_three(alloc, Version::Two)?;
    let bytes = file.as_slice();
    let value = answer_get(alloc, &mut FromRead::new(bytes), b"b");
    expect_shown(&rt, value, 0, b"31\n");
    let scan = answer_scan(alloc, &mut FromRead::new(bytes), b"b", 5);
    expect_shown(&rt, scan, 0, b"62 31\n63 31\n");
    let pair = answer_nth(alloc, &mut FromRead::new(bytes), 2);
    expect_shown(&rt, pair, 0, b"63 31\n");
    let line = b"ok a5ncvh138tevh93qdn92a4mlvku8m62f 0 6\n";
    let check = answer_check(alloc, &mut FromRead::new(bytes));
    expect_shown(&rt, check, 0, line);
    Ok(())
}

/// Fails unless a call answers that it is done, shows this and has written that; or that memory was
/// refused, and has written nothing; or, where it was refused to the sink, that writing failed, and
/// has written a first part.
fn expect_written(
    rt: &impl Abort,
    answer: Result<Answer, AllocError>,
    out: &[u8],
    taken: &[u8],
    whole: &[u8],
) {
    let Ok(answer) = answer else {
        expect_bytes(rt, taken, b"");
        return;
    };
    match answer.status {
        5 => {
            expect_answer(rt, &answer, 5, b"", b"prolly: write failed\n");
            expect_eq(rt, &whole.starts_with(taken), &true);
        }
        6 => {
            expect_answer(rt, &answer, 6, b"", NO_MEMORY);
            expect_bytes(rt, taken, b"");
        }
        _ => {
            expect_answer(rt, &answer, 0, out, b"");
            expect_bytes(rt, taken, whole);
        }
    }
}

/// Fails unless a call ends with the status of one that is done, shows nothing and has written
/// this; or was refused memory, or its sink was, and has written a first part.
fn expect_begun(
    rt: &impl Abort,
    answer: Result<Answer, AllocError>,
    done: u8,
    taken: &[u8],
    whole: &[u8],
) {
    expect_eq(rt, &whole.starts_with(taken), &true);
    let Ok(answer) = answer else {
        return;
    };
    match answer.status {
        5 => expect_answer(rt, &answer, 5, b"", b"prolly: write failed\n"),
        6 => expect_answer(rt, &answer, 6, b"", NO_MEMORY),
        _ => {
            expect_answer(rt, &answer, done, b"", b"");
            expect_bytes(rt, taken, whole);
        }
    }
}

/// The record file of a=1.
const RECORD: &[u8] = b"\0\x01a\0\0\0\x011";

#[test]
fn records_are_packed_or_want_memory(rt: HostRuntime) {
    let alloc = rt.alloc();
    let mut sink = ScriptSink::new(alloc, 4_096, None);
    let answer = answer_pack(alloc, &mut FromRead::new(b"61 31\n".as_slice()), &mut sink);
    expect_written(&rt, answer, b"1\n", sink.taken(), RECORD);
}

#[test]
fn lines_are_put_in_order_or_want_memory(rt: HostRuntime) {
    let alloc = rt.alloc();
    let mut files = RunFiles::new(alloc);
    let mut source = FromRead::new(b"62 32\n61 31\n".as_slice());
    let form = LineForm::hex();
    let done = answer_pack_sorted(&rt, alloc, &mut source, &mut files, form, 1_000_000, true);
    let Ok(done) = done else {
        return;
    };
    match &done.file {
        Some(file) => {
            expect_answer(&rt, &done.answer, 0, b"2\n", b"");
            expect_bytes(&rt, file.taken(), b"\0\x01a\0\0\0\x011\0\x01b\0\0\0\x012");
        }
        None if done.answer.status == 5 => {
            expect_answer(&rt, &done.answer, 5, b"", b"prolly: write failed\n");
        }
        None => expect_answer(&rt, &done.answer, 6, b"", NO_MEMORY),
    }
}

/// The chunk file of a=1, of 0 bits, and the text of its root.
const FILE_OF_ONE: &[u8] = b"PRLY\x01\0C\0\0\0\0\0\0\0\x09\0\0\x01a\0\0\0\x011E\
      \xE4\xB1\x1C\x59\x64\x6C\xA2\x86\xE7\x47\
      \xDF\x19\x87\xE5\xE5\x3D\x53\x57\xE2\x04\0\0\0\0\0\0\0\x01";

const ROOT_OF_ONE: &[u8] = b"siohomb4dih8dpq7rscofpf57l9lfog4\n";

#[test]
fn a_file_is_made_or_wants_memory(rt: HostRuntime) {
    let alloc = rt.alloc();
    let mut sink = Some(ScriptSink::new(alloc, 4_096, None));
    let mut source = FromRead::new(RECORD);
    let answer = answer_scratch(alloc, &mut source, 0, Version::One, &mut sink);
    if let Some(sink) = &sink {
        expect_written(&rt, answer, ROOT_OF_ONE, sink.taken(), FILE_OF_ONE);
    }
}

#[test]
fn a_dump_is_written_or_wants_memory(rt: HostRuntime) {
    let alloc = rt.alloc();
    for (form, whole) in [
        (RecordForm::Records, RECORD),
        (RecordForm::Lines(Notation::Hex), b"61 31\n"),
    ] {
        let mut sink = ScriptSink::new(alloc, 4_096, None);
        let answer = answer_dump(
            &OneThread,
            alloc,
            &mut FromRead::new(FILE_OF_ONE),
            form,
            &mut sink,
        );
        expect_written(&rt, answer, b"", sink.taken(), whole);
    }
}

/// What proves that a is 1 in the tree of a=1.
const PROOF: &[u8] = b"PRLP\x01C\0\0\0\0\0\0\0\x09\0\0\x01a\0\0\0\x011";

#[test]
fn a_proof_is_made_and_verified_or_wants_memory(rt: HostRuntime) {
    let alloc = rt.alloc();
    let mut sink = ScriptSink::new(alloc, 4_096, None);
    let answer = answer_prove(
        &OneThread,
        alloc,
        &mut FromRead::new(FILE_OF_ONE),
        b"a",
        &mut sink,
    );
    expect_written(&rt, answer, b"", sink.taken(), PROOF);

    let root = Ref::of(b"\0\0\x01a\0\0\0\x011");
    let mut proof = FromRead::new(PROOF);
    let (version, notation) = (Version::One, Notation::Hex);
    let answer = answer_verify(alloc, &mut proof, notation, version, &root, b"a");
    expect_shown(&rt, answer, 0, b"31\n");
}
