//! What is told of builds, of files and of bits where memory is refused.
use super::{FILE_OF_ONE, RECORD, expect_shown};
use crate::expect::{expect_bytes, expect_eq};
use crate::tools::expect_answer;
use prolly_answer::{ChosenBits, Sample, answer_get_raw, bits_note};
use prolly_check::OneThread;
use prolly_entry::Ref;
use prolly_fault::{Answer, Fault, NameFault};
use prolly_io::FromRead;
use prolly_report::Report;
use prolly_runs::{answer_apply, answer_build};
use std::test::Fail;

#[test]
fn a_value_is_shown_as_it_is_or_wants_memory(rt: HostRuntime) {
    let mut source = FromRead::new(FILE_OF_ONE);
    let value = answer_get_raw(&OneThread, rt.alloc(), &mut source, b"a");
    expect_shown(&rt, value, 0, b"1");
}

/// The report of the tree of a=1.
fn report() -> Report {
    Report {
        root: Ref::of(b"\0\0\x01a\0\0\0\x011"),
        chunks: 1,
        pairs: 1,
        levels: 1,
    }
}

#[test]
fn a_report_is_shown_or_wants_memory(rt: HostRuntime) {
    let line = b"siohomb4dih8dpq7rscofpf57l9lfog4 1 1 1\n";
    expect_shown(&rt, answer_build(rt.alloc(), &Ok(report())), 0, line);
    expect_shown(&rt, answer_apply(rt.alloc(), &Ok(report())), 0, line);
}

#[test]
fn a_name_is_told_or_wants_memory(rt: HostRuntime) -> Result<(), Fail> {
    let alloc = rt.alloc();
    let done = Answer::of_line(alloc, b"ok")?;
    expect_shown(&rt, done.in_file(alloc, "a", false), 0, b"ok  a\n");
    let refused = Answer::of_fault(alloc, Fault::NoCounts)?;
    if let Ok(answer) = refused.in_file(alloc, "a", false) {
        expect_answer(&rt, &answer, 4, b"", b"prolly: a: chunk file: no counts\n");
    }
    if let Ok(answer) = Answer::of_name(alloc, NameFault::CannotOpen, "a") {
        expect_answer(&rt, &answer, 5, b"", b"prolly: cannot open a\n");
    }
    Ok(())
}

#[test]
fn records_are_sampled_or_want_memory(rt: HostRuntime) -> Result<(), Fail> {
    let mut sample = Sample::new();
    match sample.read(rt.alloc(), &mut FromRead::new(RECORD)) {
        Ok(Ok(front)) => expect_bytes(&rt, &front, RECORD),
        Ok(Err(_)) => return Err("a read failed".into()),
        Err(_) => {}
    }
    Ok(())
}

#[test]
fn files_are_looked_at_or_want_memory(rt: HostRuntime) -> Result<(), Fail> {
    let alloc = rt.alloc();
    let mut sources = Vec::new(alloc);
    sources.push(FromRead::new(RECORD))?;
    match Sample::new().peek_all(alloc, sources) {
        Ok(Ok(wholes)) => expect_eq(&rt, &wholes.len(), &1),
        Ok(Err(_)) => return Err("a read failed".into()),
        Err(_) => {}
    }
    Ok(())
}

/// Bits that were chosen, or none, and the line that tells of them.
const NOTES: &[(Option<ChosenBits>, &[u8])] = &[
    (None, b"prolly: --bits 12, since no record was seen\n"),
    (
        Some(ChosenBits { bits: 8, mean: 21 }),
        b"prolly: --bits 8, since a record has 21 bytes on average\n",
    ),
];

#[test]
fn bits_are_told_or_want_memory(rt: HostRuntime) {
    for &(chosen, line) in NOTES {
        if let Ok(note) = bits_note(rt.alloc(), 12, chosen) {
            expect_bytes(&rt, &note, line);
        }
    }
}
