//! What `get --raw`, `check` of several files and the bits of a sample come to.
use super::expect_answer;
use super::look_up_answers::{chunks_of, file_of_three, root_of_three};
use crate::expect::{expect_bytes, expect_eq};
use prolly_answer::{
    Sample, answer_check, answer_found_raw, answer_get_raw, answer_get_raw_by_root, bits_note,
    status_behind,
};
use prolly_check::OneThread;
use prolly_entry::Version;
use prolly_fault::{Answer, Fault};
use prolly_io::{FromRead, ScriptSource, read_whole};
use prolly_link::RunFault;
use std::test::Fail;

/// Keys, the status, and the value.
const VALUES: &[(&[u8], u8, &[u8])] = &[(b"a", 0, b"1"), (b"", 1, b""), (b"z", 1, b"")];

#[test]
fn a_value_is_shown_as_it_is(rt: HostRuntime) -> Result<(), Fail> {
    let alloc = rt.alloc();
    let version = Version::One;
    let file = file_of_three(alloc, version)?;
    let root = root_of_three(alloc, version)?;
    for &(key, status, value) in VALUES {
        let mut source = FromRead::new(file.as_slice());
        let answer = answer_get_raw(&OneThread, alloc, &mut source, key)?;
        expect_answer(&rt, &answer, status, value, b"");
        let mut chunks = chunks_of(alloc, &file, 0)?;
        let answer = answer_get_raw_by_root(alloc, &mut chunks, version, &root, key)?;
        expect_answer(&rt, &answer, status, value, b"");
    }
    let found = Ok(Some(Vec::from_slice(alloc, b"\0\xFF\n")?));
    let answer = answer_found_raw(alloc, &found)?;
    expect_answer(&rt, &answer, 0, b"\0\xFF\n", b"");
    Ok(())
}

#[test]
fn an_answer_of_a_file_has_its_name(rt: HostRuntime) -> Result<(), Fail> {
    let alloc = rt.alloc();
    let file = file_of_three(alloc, Version::One)?;
    let checked = answer_check(alloc, &mut FromRead::new(file.as_slice()))?;
    let named = checked.in_file(alloc, "a\nb", true)?;
    expect_answer(&rt, &named, 0, b"", b"");
    let refused = Answer::of_fault(alloc, Fault::NoCounts)?;
    let named = refused.in_file(alloc, "a\nb", false)?;
    expect_answer(
        &rt,
        &named,
        4,
        b"",
        b"prolly: a\\x0ab: chunk file: no counts\n",
    );
    Ok(())
}

#[test]
fn the_status_of_files_is_that_of_the_first_refusal(rt: HostRuntime) -> Result<(), Fail> {
    let alloc = rt.alloc();
    let mut status = 0;
    let refused = Answer::of_fault(alloc, Fault::NoCounts)?;
    let unread = Answer::of_fault(alloc, Fault::Read)?;
    let done = Answer::of_done(alloc);
    for (answer, behind) in [(&done, 0), (&refused, 4), (&unread, 4), (&done, 4)] {
        status = status_behind(status, answer);
        expect_eq(&rt, &status, &behind);
    }
    Ok(())
}

#[test]
fn bits_are_those_of_the_records_that_are_read_first(rt: HostRuntime) -> Result<(), Fail> {
    let alloc = rt.alloc();
    let mut sample = Sample::new();
    let records: &[u8] = b"\0\x01a\0\0\0\x011\0\x01b\xFF\xFF\xFF\xFF";
    match sample.read(alloc, &mut FromRead::new(records))? {
        Ok(front) => expect_bytes(&rt, &front, records),
        Err(_) => return Err(Fail::from("a read failed")),
    }
    let chosen = sample.bits_for(2_048).ok_or("no record was seen")?;
    expect_eq(&rt, &chosen.bits, &8);
    let note = bits_note(alloc, 12, Some(chosen))?;
    expect_bytes(
        &rt,
        &note,
        b"prolly: --bits 8, since a record has 8 bytes on average\n",
    );
    Ok(())
}

/// Record files. The second one takes a key away.
const FILES: [&[u8]; 2] = [b"\0\x01a\0\0\0\x011", b"\0\x01b\xFF\xFF\xFF\xFF"];

#[test]
fn files_that_were_looked_at_give_all_that_they_have(rt: HostRuntime) -> Result<(), Fail> {
    let alloc = rt.alloc();
    let mut sources = Vec::new(alloc);
    for file in FILES {
        sources.push(FromRead::new(file))?;
    }
    let mut sample = Sample::new();
    let Ok(mut wholes) = sample.peek_all(alloc, sources)? else {
        return Err(Fail::from("a read failed"));
    };
    expect_eq(&rt, &wholes.len(), &FILES.len());
    for (whole, file) in wholes.iter_mut().zip(FILES) {
        let bytes = read_whole(alloc, whole, 100).map_err(|_| "a read failed")?;
        expect_bytes(&rt, &bytes, file);
    }
    let chosen = sample.bits_for(2_048).ok_or("no record was seen")?;
    expect_eq(&rt, &chosen.bits, &8);
    Ok(())
}

#[test]
fn a_file_that_cannot_be_looked_at_is_told(rt: HostRuntime) -> Result<(), Fail> {
    let alloc = rt.alloc();
    let mut sources = Vec::new(alloc);
    for (file, fail_at) in FILES.into_iter().zip([None, Some(2)]) {
        sources.push(ScriptSource::new(file.to_vec(alloc)?, 4, fail_at))?;
    }
    match Sample::new().peek_all(alloc, sources)? {
        Ok(_) => return Err(Fail::from("no read failed")),
        Err(unread) => expect_eq(&rt, &unread.fault(), &RunFault::Read { file: 1 }),
    }
    Ok(())
}
