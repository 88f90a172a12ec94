//! Sources that are read to their end.
use crate::expect::{expect_bytes, expect_eq};
use prolly_io::{FromRead, PartReader, ReadFault, ScriptSource, Source, WholeFault, read_whole};
use std::alloc::Global;
use std::process::Abort;
use std::test::Fail;

/// Fails unless this is what comes of a source that is read to this limit.
fn expect_whole<S: Source>(
    rt: &impl Abort,
    alloc: Global,
    source: &mut S,
    limit: u32,
    whole: Result<&[u8], &WholeFault>,
) {
    expect_eq(rt, &read_whole(alloc, source, limit).as_deref(), &whole);
}

#[test]
fn reads_to_the_end_or_the_limit(rt: HostRuntime) -> Result<(), Fail> {
    let alloc = rt.alloc();
    let bytes = b"abc".as_slice();
    expect_whole(&rt, alloc, &mut FromRead::new(bytes), 3, Ok(bytes));
    let too_long = Err(&WholeFault::TooLong);
    expect_whole(&rt, alloc, &mut FromRead::new(bytes), 2, too_long);
    let mut steps = ScriptSource::new(bytes.to_vec(alloc)?, 2, None);
    expect_whole(&rt, alloc, &mut steps, 3, Ok(bytes));
    Ok(())
}

/// How many bytes are wanted, whether the source is over before that, and what was read by then.
const PARTS: [(usize, bool, &[u8]); 4] = [
    (3, false, b"abc"),
    (1, false, b"abc"),
    (5, false, b"abcde"),
    (9, true, b"abcde"),
];

#[test]
fn reads_up_to_a_number_of_bytes(rt: HostRuntime) -> Result<(), Fail> {
    let mut reader = PartReader::new(rt.alloc())?;
    let mut source = ScriptSource::new(b"abcde".to_vec(rt.alloc())?, 2, None);
    let mut bytes = Vec::new(rt.alloc());
    for (wanted, is_over, read) in &PARTS {
        let answer = reader.read_up_to(&mut source, &mut bytes, *wanted);
        expect_eq(&rt, &answer, &Ok(*is_over));
        expect_bytes(&rt, &bytes, read);
    }
    Ok(())
}

#[test]
fn names_a_part_that_could_not_be_read(rt: HostRuntime) -> Result<(), Fail> {
    let mut reader = PartReader::new(rt.alloc())?;
    let mut failing = ScriptSource::new(b"abcde".to_vec(rt.alloc())?, 2, Some(2));
    let mut bytes = Vec::new(rt.alloc());
    let answer = reader.read_up_to(&mut failing, &mut bytes, 3);
    expect_eq(&rt, &answer, &Err(ReadFault::Read));
    Ok(())
}

#[test]
fn answers_the_fault_that_comes_first(rt: HostRuntime) -> Result<(), Fail> {
    let alloc = rt.alloc();
    for (limit, fault) in [(2, WholeFault::Read), (1, WholeFault::TooLong)] {
        let mut failing = ScriptSource::new(b"abc".to_vec(alloc)?, 1, Some(3));
        expect_whole(&rt, alloc, &mut failing, limit, Err(&fault));
    }
    Ok(())
}
