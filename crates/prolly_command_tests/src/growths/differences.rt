//! What `diff` leaves where it is refused memory.
use super::{FILE_OF_ONE, expect_begun};
use crate::tools::look_up_answers::file_of_three;
use prolly_answer::answer_diff;
use prolly_check::OneThread;
use prolly_entry::Version;
use prolly_io::{FromRead, ScriptSink};
use prolly_text::{Notation, RecordForm};
use std::test::Fail;

/// The record file of b=1 and c=1.
pub(super) const RECORDS: &[u8] = b"\0\x01b\0\0\0\x011\0\x01c\0\0\0\x011";

#[test]
fn changes_are_written_or_want_memory(rt: HostRuntime) -> Result<(), Fail> {
    let alloc = rt.alloc();
    let three = file_of_three(alloc, Version::One)?;
    for (form, whole) in [
        (RecordForm::Records, RECORDS),
        (RecordForm::Lines(Notation::Hex), b"62 31\n63 31\n"),
    ] {
        let mut sink = ScriptSink::new(alloc, 4_096, None);
        let mut old = FromRead::new(FILE_OF_ONE);
        let mut new = FromRead::new(three.as_slice());
        let answer = answer_diff(
            &OneThread,
            alloc,
            &mut old,
            &mut new,
            Some(form),
            false,
            &mut sink,
        );
        expect_begun(&rt, answer, 1, sink.taken(), whole);
    }
    Ok(())
}
