//! What `pack` answers of lines in any order.
use super::expect_answer;
use crate::expect::{expect_bytes, expect_eq};
use crate::tools::run_files::RunFiles;
use prolly_answer::answer_pack_sorted;
use prolly_io::{FromRead, ScriptSource};
use prolly_text::LineForm;
use std::test::Fail;

/// How many bytes a run takes.
const BUDGET: u32 = 1_000_000;

/// Lines, whether each key is to come once, and what comes of them: the status, what is shown on
/// standard output and on standard error, and the record file, if there is one.
const SORTED: &[(&[u8], bool, u8, &[u8], &[u8], Option<&[u8]>)] = &[
    (b"", false, 0, b"0\n", b"", Some(b"")),
    (
        b"62 32\n61 31\n62 -\n",
        false,
        0,
        b"2\n",
        b"",
        Some(b"\0\x01a\0\0\0\x011\0\x01b\xFF\xFF\xFF\xFF"),
    ),
    (
        b"62 32\n61 31\n62 -\n",
        true,
        3,
        b"",
        b"prolly: line 2: has the key of line 0\n",
        None,
    ),
    (
        b"62 32\n61 31\n",
        true,
        0,
        b"2\n",
        b"",
        Some(b"\0\x01a\0\0\0\x011\0\x01b\0\0\0\x012"),
    ),
    (
        b"62 32\n61\n",
        false,
        3,
        b"",
        b"prolly: line 1: not a pair in hexadecimal\n",
        None,
    ),
];

#[test]
fn lines_are_put_in_order_or_the_fault_is_told(rt: HostRuntime) -> Result<(), Fail> {
    let alloc = rt.alloc();
    for &(text, unique, status, out, err, file) in SORTED {
        let mut files = RunFiles::new(alloc);
        let mut source = FromRead::new(text);
        let form = LineForm::hex();
        let done = answer_pack_sorted(&rt, alloc, &mut source, &mut files, form, BUDGET, unique)?;
        expect_answer(&rt, &done.answer, status, out, err);
        match (&done.file, file) {
            (Some(sink), Some(bytes)) => expect_bytes(&rt, sink.taken(), bytes),
            (found, _) => expect_eq(&rt, &found.is_some(), &file.is_some()),
        }
    }
    Ok(())
}

#[test]
fn a_failed_read_of_lines_is_told(rt: HostRuntime) -> Result<(), Fail> {
    let alloc = rt.alloc();
    let text = Vec::from_slice(alloc, b"61 31\n")?;
    let mut source = ScriptSource::new(text, 2, Some(2));
    let mut files = RunFiles::new(alloc);
    let form = LineForm::hex();
    let done = answer_pack_sorted(&rt, alloc, &mut source, &mut files, form, BUDGET, false)?;
    expect_answer(&rt, &done.answer, 5, b"", b"prolly: file 0: read failed\n");
    expect_eq(&rt, &done.file.is_some(), &false);
    Ok(())
}
