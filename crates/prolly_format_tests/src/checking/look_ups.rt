//! Values by their keys, and ranges of pairs.

use super::tree_of_three;
use crate::expect::{expect_bytes, expect_eq};
use prolly_check::Tree;
use prolly_entry::Version;
use std::alloc::Global;
use std::process::Abort;
use std::test::Fail;

/// Keys, and their values in the map of a=1, b=1 and c=1.
const VALUES: [(&[u8], Option<&[u8]>); 5] = [
    (b"a", Some(b"1")),
    (b"c", Some(b"1")),
    (b"", None),
    (b"b\0", None),
    (b"z", None),
];

/// Fails unless the keys have their values.
fn expect_values(rt: &impl Abort, tree: &Tree) {
    for (key, value) in &VALUES {
        expect_eq(rt, &tree.get(key), value);
    }
}

#[test]
fn finds_values(rt: HostRuntime) -> Result<(), Fail> {
    for version in [Version::One, Version::Two] {
        expect_values(&rt, &tree_of_three(rt.alloc(), version)?);
    }
    Ok(())
}

/// Fails unless a scan gives these keys, of one byte each, with the value 1.
fn expect_scan(
    rt: &impl Abort,
    alloc: Global,
    tree: &Tree,
    from: &[u8],
    limit: u32,
    keys: &[u8],
) -> Result<(), Fail> {
    let pairs = tree.scan(alloc, from, limit)?;
    let mut scanned = Vec::new(alloc);
    for pair in &pairs {
        scanned.extend_from_slice(pair.key())?;
        expect_bytes(rt, pair.value(), b"1");
    }
    expect_bytes(rt, &scanned, keys);
    Ok(())
}

/// Scans of the map of a=1, b=1 and c=1: from which key, how many pairs at most, and what they give.
const SCANS: [(&[u8], u32, &[u8]); 6] = [
    (b"b", 1, b"b"),
    (b"b", 5, b"bc"),
    (b"b\0", 5, b"c"),
    (b"", 0, b""),
    (b"", 10, b"abc"),
    (b"z", 10, b""),
];

/// Fails unless the scans give what they are to.
fn expect_scans(rt: &impl Abort, alloc: Global, tree: &Tree) -> Result<(), Fail> {
    for (from, limit, keys) in &SCANS {
        expect_scan(rt, alloc, tree, from, *limit, keys)?;
    }
    Ok(())
}

#[test]
fn scans_from_a_key(rt: HostRuntime) -> Result<(), Fail> {
    for version in [Version::One, Version::Two] {
        expect_scans(&rt, rt.alloc(), &tree_of_three(rt.alloc(), version)?)?;
    }
    Ok(())
}
