//! The mergers of many inputs that send records, over lists.
use crate::links::comparing::{expect_bytes, expect_eq, expect_sent};
use crate::merging::{CLEAN, FIRST_FAULT, bytes_of_records, lists_of};
use prolly_entry::Record;
use prolly_link::{End, In, ListOut, RunFault};
use prolly_merge::{Doubled, merge_records, merge_unique};
use std::alloc::{AllocError, Global};
use std::process::Abort;
use std::sync::Wait;
use std::test::Fail;

const LOST: End = End::Fault(RunFault::Lost);

/// Inputs, each with its end, the records that come of them, and the end.
static MANY_INPUTS: [(&[(&[u8], End)], &[u8], End); 7] = [
    (&[], b"", CLEAN),
    (
        &[(b"a1c-", CLEAN), (b"b2", CLEAN), (b"a-", CLEAN)],
        b"a-b2c-",
        CLEAN,
    ),
    (
        &[
            (b"k1", CLEAN),
            (b"a2k-", CLEAN),
            (b"k3", CLEAN),
            (b"k-z4", CLEAN),
        ],
        b"a2k-z4",
        CLEAN,
    ),
    (
        &[(b"k-", CLEAN), (b"k2", CLEAN), (b"", CLEAN)],
        b"k2",
        CLEAN,
    ),
    (
        &[(b"5-", FIRST_FAULT), (b"112-71", CLEAN)],
        b"112-5-",
        FIRST_FAULT,
    ),
    (&[(b"a-", FIRST_FAULT)], b"a-", FIRST_FAULT),
    (&[(b"", FIRST_FAULT), (b"a1", CLEAN)], b"", FIRST_FAULT),
];

/// Merges these inputs, and compares the records and the end.
fn expect_records<I: In<Record> + Drop, R: Abort + Wait>(
    rt: &R,
    alloc: Global,
    inputs: Vec<I>,
    sent: &[u8],
    last: End,
) -> Result<(), Fail> {
    let count = inputs.len();
    let merged = merge_records(rt, alloc, inputs, ListOut::new(alloc));
    expect_eq(rt, &merged.inputs.len(), &count);
    let expected = (sent.len() as u64 / 2, last);
    expect_sent(rt, (merged.items, merged.out.last), expected);
    expect_bytes(rt, &bytes_of_records(alloc, &merged.out.items)?, sent);
    Ok(())
}

#[test]
fn merges_the_records_of_many_inputs(rt: HostRuntime) -> Result<(), Fail> {
    for &(inputs, sent, last) in &MANY_INPUTS {
        expect_records(&rt, rt.alloc(), lists_of(rt.alloc(), inputs)?, sent, last)?;
    }
    Ok(())
}

/// Inputs, each with its end, the records that come of them, the end, and the two records of the
/// first key that two of them have, if there is one.
static UNIQUE_INPUTS: [(&[(&[u8], End)], &[u8], End, &[u8]); 6] = [
    (&[], b"", CLEAN, b""),
    (
        &[(b"a1c-", CLEAN), (b"b2", CLEAN), (b"", CLEAN)],
        b"a1b2c-",
        CLEAN,
        b"",
    ),
    (
        &[(b"a1b1c1", CLEAN), (b"b-c2", CLEAN)],
        b"a1",
        LOST,
        b"b1b-",
    ),
    (
        &[
            (b"k1", CLEAN),
            (b"a2k2", CLEAN),
            (b"k3", CLEAN),
            (b"k4z4", CLEAN),
        ],
        b"a2",
        LOST,
        b"k3k4",
    ),
    (
        &[(b"a1", FIRST_FAULT), (b"b1", CLEAN), (b"b2", CLEAN)],
        b"a1",
        FIRST_FAULT,
        b"",
    ),
    (&[(b"a1", FIRST_FAULT), (b"a2", CLEAN)], b"", LOST, b"a1a2"),
];

/// The records of a key that was refused, if there is one.
fn bytes_of_doubled(alloc: Global, doubled: Option<Doubled>) -> Result<Vec<u8>, AllocError> {
    let mut records = Vec::new(alloc);
    if let Some(Doubled { first, second }) = doubled {
        records.push(first)?;
        records.push(second)?;
    }
    bytes_of_records(alloc, &records)
}

/// Merges these inputs, and compares the records, the end, and the key that was refused.
fn expect_unique<I: In<Record> + Drop, R: Abort + Wait>(
    rt: &R,
    alloc: Global,
    inputs: Vec<I>,
    sent: (&[u8], End),
    doubled: &[u8],
) -> Result<(), Fail> {
    let count = inputs.len();
    let merged = merge_unique(rt, alloc, inputs, ListOut::new(alloc));
    expect_eq(rt, &merged.inputs.len(), &count);
    expect_eq(rt, &merged.out.last, &sent.1);
    expect_bytes(rt, &bytes_of_records(alloc, &merged.out.items)?, sent.0);
    expect_bytes(rt, &bytes_of_doubled(alloc, merged.doubled)?, doubled);
    Ok(())
}

#[test]
fn tells_the_first_key_that_two_inputs_have(rt: HostRuntime) -> Result<(), Fail> {
    for &(inputs, sent, last, doubled) in &UNIQUE_INPUTS {
        let inputs = lists_of(rt.alloc(), inputs)?;
        expect_unique(&rt, rt.alloc(), inputs, (sent, last), doubled)?;
    }
    Ok(())
}
