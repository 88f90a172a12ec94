//! The mergers, over lists and over links.
pub(crate) mod records;

use crate::links::comparing::{expect_all_taken, expect_bytes, expect_eq, expect_sent};
use prolly_entry::{Pair, Record};
use prolly_io::FromRead;
use prolly_link::{End, In, ListIn, ListOut, Receiver, RunFault, link};
use prolly_load::load;
use prolly_merge::{merge, merge_two};
use std::alloc::{AllocError, Global};
use std::process::Abort;
use std::sync::Wait;
use std::test::Fail;

pub(crate) const CLEAN: End = End::Clean;

pub(crate) const FIRST_FAULT: End = End::Fault(RunFault::OutOfOrder { file: 0, place: 1 });

const SECOND_FAULT: End = End::Fault(RunFault::OutOfOrder { file: 1, place: 1 });

/// Each is spelled as in `records_of`, with its end: inputs, what comes of them, and the end.
static MANY_INPUTS: [(&[(&[u8], End)], &[u8], End); 13] = [
    (&[], b"", CLEAN),
    (&[(b"a1", CLEAN), (b"a2", CLEAN)], b"a2", CLEAN),
    (
        &[(b"a1c1", CLEAN), (b"b2", CLEAN), (b"a3", CLEAN)],
        b"a3b2c1",
        CLEAN,
    ),
    (
        &[(b"51", FIRST_FAULT), (b"112171", CLEAN)],
        b"112151",
        FIRST_FAULT,
    ),
    (
        &[(b"51", FIRST_FAULT), (b"51", SECOND_FAULT)],
        b"51",
        FIRST_FAULT,
    ),
    (
        &[(b"5161", SECOND_FAULT), (b"4151", FIRST_FAULT)],
        b"4151",
        FIRST_FAULT,
    ),
    (&[(b"a1b1", CLEAN), (b"a-", CLEAN)], b"b1", CLEAN),
    (
        &[(b"a1", CLEAN), (b"a-", CLEAN), (b"a2", CLEAN)],
        b"a2",
        CLEAN,
    ),
    (&[(b"a-", CLEAN)], b"", CLEAN),
    (
        &[(b"a1", CLEAN), (b"b1", CLEAN), (b"a-", CLEAN), (b"", CLEAN)],
        b"b1",
        CLEAN,
    ),
    (
        &[(b"5-", FIRST_FAULT), (b"112171", CLEAN)],
        b"1121",
        FIRST_FAULT,
    ),
    (&[(b"a-", FIRST_FAULT)], b"", FIRST_FAULT),
    (&[(b"", FIRST_FAULT), (b"a1", CLEAN)], b"", FIRST_FAULT),
];

/// Merges these inputs, and fails unless they are given back, and these pairs, spelled as in
/// `records_of`, are sent, and then this end.
fn expect_merged<I: In<Record> + Drop, R: Abort + Wait>(
    rt: &R,
    alloc: Global,
    inputs: Vec<I>,
    sent: &[u8],
    last: End,
) -> Result<(), Fail> {
    let count = inputs.len();
    let merged = merge(rt, alloc, inputs, ListOut::new(alloc));
    expect_eq(rt, &merged.inputs.len(), &count);
    let expected = (sent.len() as u64 / 2, last);
    expect_sent(rt, (merged.pairs, merged.out.last), expected);
    expect_bytes(rt, &bytes_of_pairs(alloc, &merged.out.items)?, sent);
    Ok(())
}

#[test]
fn merges_many_inputs(rt: HostRuntime) -> Result<(), Fail> {
    for &(inputs, sent, last) in &MANY_INPUTS {
        expect_merged(&rt, rt.alloc(), lists_of(rt.alloc(), inputs)?, sent, last)?;
    }
    Ok(())
}

/// Two inputs, each with its end, what comes of them where removals are sent too, and the end.
const TWO_INPUTS: [(&[u8], End, &[u8], End, &[u8], End); 5] = [
    (b"a1c1", CLEAN, b"a2b2", CLEAN, b"a2b2c1", CLEAN),
    (b"51", FIRST_FAULT, b"52", SECOND_FAULT, b"52", FIRST_FAULT),
    (
        b"5161",
        FIRST_FAULT,
        b"52",
        SECOND_FAULT,
        b"52",
        SECOND_FAULT,
    ),
    (b"a1b1", CLEAN, b"a-", CLEAN, b"a-b1", CLEAN),
    (b"a-", CLEAN, b"", FIRST_FAULT, b"", FIRST_FAULT),
];

#[test]
fn merges_two_inputs_with_their_removals(rt: HostRuntime) -> Result<(), Fail> {
    for &(left, left_end, right, right_end, sent, last) in &TWO_INPUTS {
        let left = list_of(rt.alloc(), left, left_end)?;
        let right = list_of(rt.alloc(), right, right_end)?;
        expect_two_merged(&rt, rt.alloc(), left, right, sent, last)?;
    }
    Ok(())
}

/// Merges two inputs, and compares the records and the end.
fn expect_two_merged<I: In<Record> + Drop, R: Abort + Wait>(
    rt: &R,
    alloc: Global,
    left: I,
    right: I,
    sent: &[u8],
    last: End,
) -> Result<(), Fail> {
    let merged = merge_two(rt, left, right, ListOut::new(alloc));
    let expected = (sent.len() as u64 / 2, last);
    expect_sent(rt, (merged.items, merged.out.last), expected);
    expect_bytes(rt, &bytes_of_records(alloc, &merged.out.items)?, sent);
    Ok(())
}

// Each has a key of its own, and one that all of them have.
fn sixteen_lists(alloc: Global) -> Result<Vec<ListIn<Record>>, AllocError> {
    let mut lists = Vec::new(alloc);
    for i in 0..16u8 {
        lists.push(list_of(alloc, &[b'a' + i, i, b'z', i], CLEAN)?)?;
    }
    Ok(lists)
}

#[test]
fn merges_sixteen_inputs(rt: HostRuntime) -> Result<(), Fail> {
    let sent =
        b"a\x00b\x01c\x02d\x03e\x04f\x05g\x06h\x07i\x08j\x09k\x0Al\x0Bm\x0Cn\x0Do\x0Ep\x0Fz\x0F";
    expect_merged(&rt, rt.alloc(), sixteen_lists(rt.alloc())?, sent, CLEAN)
}

// The sender of the first input is dropped behind its first record.
#[test]
fn a_lost_input_ends_with_a_fault(rt: HostRuntime) -> Result<(), Fail> {
    let mut inputs = Vec::new(rt.alloc());
    inputs.push(input_of(&rt, rt.alloc(), b"b1", false)?)?;
    inputs.push(input_of(&rt, rt.alloc(), b"a1c1", true)?)?;
    let lost = End::Fault(RunFault::Lost);
    expect_merged(&rt, rt.alloc(), inputs, b"a1b1", lost)
}

// The same of each of two inputs.
#[test]
fn a_lost_input_of_two_ends_with_a_fault(rt: HostRuntime) -> Result<(), Fail> {
    let lost = End::Fault(RunFault::Lost);
    for is_left_closed in [false, true] {
        let left = input_of(&rt, rt.alloc(), b"a1c1", is_left_closed)?;
        let right = input_of(&rt, rt.alloc(), b"b1", !is_left_closed)?;
        let sent = if is_left_closed {
            b"a1b1".as_slice()
        } else {
            b"a1b1c1"
        };
        expect_two_merged(&rt, rt.alloc(), left, right, sent, lost)?;
    }
    Ok(())
}

/// The list of the records of a file of this number.
fn loaded(rt: &impl Wait, alloc: Global, number: u32, file: &[u8]) -> ListIn<Record> {
    let source = FromRead::new(file);
    let sent = load(rt, alloc, number, source, 1_000, ListOut::new(alloc)).out;
    ListIn::new(sent.items, sent.last)
}

/// The record file of 5=1 and 3=1, and that of 1=1, 2=1 and 7=1.
const TWO_FILES: [&[u8]; 2] = [
    b"\0\x015\0\0\0\x011\0\x013\0\0\0\x011",
    b"\0\x011\0\0\0\x011\0\x012\0\0\0\x011\0\x017\0\0\0\x011",
];

#[test]
fn loaded_files_are_merged(rt: HostRuntime) -> Result<(), Fail> {
    let [first, second] = TWO_FILES;
    let mut inputs = Vec::new(rt.alloc());
    inputs.push(loaded(&rt, rt.alloc(), 0, first))?;
    inputs.push(loaded(&rt, rt.alloc(), 1, second))?;
    expect_merged(&rt, rt.alloc(), inputs, b"112151", FIRST_FAULT)
}

/// The receiver of these records, spelled as in `records_of`, behind which the sender is closed or
/// dropped.
fn input_of<R: Abort + Wait>(
    rt: &R,
    alloc: Global,
    bytes: &[u8],
    is_closed: bool,
) -> Result<Receiver<Record>, Fail> {
    let records = records_of(alloc, bytes)?;
    let (mut sender, receiver) = link(alloc, 4)?;
    expect_all_taken(rt, &mut sender, records);
    if is_closed {
        drop(sender.close(rt, CLEAN));
    }
    Ok(receiver)
}

// The lists of these inputs, each with its end.
pub(crate) fn lists_of(
    alloc: Global,
    inputs: &[(&[u8], End)],
) -> Result<Vec<ListIn<Record>>, AllocError> {
    let mut lists = Vec::new(alloc);
    for (records, end) in inputs {
        lists.push(list_of(alloc, records, *end)?)?;
    }
    Ok(lists)
}

// A list of these records, spelled as in `records_of`, with its end.
pub(crate) fn list_of(
    alloc: Global,
    bytes: &[u8],
    last: End,
) -> Result<ListIn<Record>, AllocError> {
    Ok(ListIn::new(records_of(alloc, bytes)?, last))
}

// The records whose keys and values these bytes are, in turn. A value `-` is a removal.
fn records_of(alloc: Global, bytes: &[u8]) -> Result<Vec<Record>, AllocError> {
    let mut records = Vec::new(alloc);
    for [key, value] in bytes.as_chunks::<2>().0 {
        records.push(record_of(alloc, *key, *value)?)?;
    }
    Ok(records)
}

fn record_of(alloc: Global, key: u8, value: u8) -> Result<Record, AllocError> {
    if value == b'-' {
        Record::removal_of(alloc, &[key])
    } else {
        Ok(Record::put(Pair::copy_of(alloc, &[key], &[value])?))
    }
}

pub(crate) fn bytes_of_pairs(alloc: Global, pairs: &[Pair]) -> Result<Vec<u8>, AllocError> {
    let mut bytes = Vec::new(alloc);
    for pair in pairs {
        bytes.extend_from_slice(pair.key())?;
        bytes.extend_from_slice(pair.value())?;
    }
    Ok(bytes)
}

pub(crate) fn bytes_of_records(alloc: Global, records: &[Record]) -> Result<Vec<u8>, AllocError> {
    let mut bytes = Vec::new(alloc);
    for record in records {
        bytes.extend_from_slice(record.key())?;
        bytes.extend_from_slice(record.value().unwrap_or(b"-"))?;
    }
    Ok(bytes)
}
