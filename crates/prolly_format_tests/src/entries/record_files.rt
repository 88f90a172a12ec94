//! Record files, as they are read.
use crate::expect::{expect_bytes, expect_eq};
use prolly_entry::{Pair, RecordFault, records};
use std::alloc::Global;
use std::process::Abort;
use std::test::Fail;

/// Fails unless these pairs have these keys, each with the value 1.
fn expect_pairs(rt: &impl Abort, pairs: &[Pair], keys: &[&[u8]]) {
    expect_eq(rt, &pairs.len(), &keys.len());
    for (pair, key) in pairs.iter().zip(keys) {
        expect_bytes(rt, pair.key(), key);
        expect_bytes(rt, pair.value(), b"1");
    }
}

/// Fails unless the file puts these keys, each with the value 1.
fn expect_puts(
    rt: &impl Abort,
    alloc: Global,
    file: &[u8],
    limit: u32,
    keys: &[&[u8]],
) -> Result<(), Fail> {
    let pairs = records(alloc, file, limit).ok().ok_or("a fault")?;
    expect_pairs(rt, &pairs, keys);
    Ok(())
}

#[test]
fn reads_the_pairs_that_are_put(rt: HostRuntime) -> Result<(), Fail> {
    let three = b"\0\x01a\0\0\0\x011\0\x01b\0\0\0\x011\0\x01c\0\0\0\x011";
    expect_puts(&rt, rt.alloc(), three, 3, &[b"a", b"b", b"c"])?;
    let removed = b"\0\x01a\xFF\xFF\xFF\xFF\0\x01b\0\0\0\x011";
    expect_puts(&rt, rt.alloc(), removed, 2, &[b"b"])?;
    expect_puts(&rt, rt.alloc(), b"", 1, &[])
}

const REMOVAL: &[u8] = b"\0\x01a\xFF\xFF\xFF\xFF\0";

const FLAWS: [(&[u8], u32, RecordFault); 7] = [
    (
        b"\0\x01a\0\0\0\x011\0\x01a\0\0\0\x012",
        3,
        RecordFault::OutOfOrder { place: 1 },
    ),
    (b"\x04\x01", 3, RecordFault::KeyTooLong { place: 0 }),
    (
        b"\0\0\0\x01\0\x01",
        3,
        RecordFault::ValueTooLong { place: 0 },
    ),
    (
        b"\0\x01a\xFF\xFF\xFF\xFE",
        3,
        RecordFault::ValueTooLong { place: 0 },
    ),
    (
        b"\0\x01a\xFF\xFF\xFF",
        3,
        RecordFault::Truncated { place: 0 },
    ),
    (REMOVAL, 2, RecordFault::Truncated { place: 1 }),
    (REMOVAL, 1, RecordFault::TooManyRecords),
];

#[test]
fn names_the_first_flaw(rt: HostRuntime) {
    for (bytes, limit, fault) in &FLAWS {
        let found = records(rt.alloc(), bytes, *limit).err();
        expect_eq(&rt, &found, &Some(*fault));
    }
}
