//! The leaves of a map, one after another.

use super::{FILE_OF_NONE, checked, file_of, tree_of_three};
use crate::expect::{expect_bytes, expect_eq};
use prolly_check::Tree;
use prolly_entry::Version;
use prolly_look_up::Pairs;
use prolly_test_parts::pairs_of;
use std::alloc::Global;
use std::process::Abort;
use std::test::Fail;

/// The leaves of a=1, b=1 and c=1, as record files.
const LEAVES_OF_THREE: [&[u8]; 3] = [
    b"\0\x01a\0\0\0\x011",
    b"\0\x01b\0\0\0\x011",
    b"\0\x01c\0\0\0\x011",
];

/// Fails unless the leaves of the map are these.
fn expect_leaves(rt: &impl Abort, tree: &Tree, expected: &[&[u8]]) {
    let mut leaves = tree.leaves();
    for bytes in expected {
        let leaf = leaves.next();
        expect_bytes(rt, leaf.map_or(b"", |leaf| leaf.spellings()), bytes);
    }
    assert!(rt; leaves.next().is_none());
}

#[test]
fn gives_each_leaf_by_itself(rt: HostRuntime) -> Result<(), Fail> {
    let alloc = rt.alloc();
    for version in [Version::One, Version::Two] {
        expect_leaves(&rt, &tree_of_three(alloc, version)?, &LEAVES_OF_THREE);
    }
    expect_leaves(&rt, &checked(alloc, &FILE_OF_NONE)?, &[]);
    Ok(())
}

/// The first leaf of the map.
fn first_leaf(tree: &Tree) -> Result<Pairs<'_>, Fail> {
    Ok(tree.leaves().next().ok_or("no leaf")?)
}

/// The tree of a key alone, with the value 1, of version Two and 0 bits.
fn tree_of_one(alloc: Global, key: &[u8]) -> Result<Tree, Fail> {
    let pairs = pairs_of(alloc, &[key])?;
    Ok(checked(alloc, &file_of(alloc, Version::Two, &pairs)?)?)
}

/// Fails unless the first leaf of the map is the same as that of a key alone, or is another.
fn expect_same(
    rt: &impl Abort,
    alloc: Global,
    tree: &Tree,
    key: &[u8],
    same: bool,
) -> Result<(), Fail> {
    let one = tree_of_one(alloc, key)?;
    let answer = first_leaf(tree)?.is_same(&first_leaf(&one)?);
    expect_eq(rt, &(key, answer), &(key, same));
    Ok(())
}

#[test]
fn tells_whether_leaves_are_the_same(rt: HostRuntime) -> Result<(), Fail> {
    let three = tree_of_three(rt.alloc(), Version::One)?;
    expect_same(&rt, rt.alloc(), &three, b"a", true)?;
    expect_same(&rt, rt.alloc(), &three, b"b", false)
}

/// Fails unless a leaf has this pair, and then no more.
fn expect_single_pair(rt: &impl Abort, mut leaf: Pairs<'_>, pair: (&[u8], &[u8])) {
    assert!(rt; !leaf.is_empty());
    expect_eq(rt, &leaf.next(), &Some(pair));
    assert!(rt; leaf.is_empty());
    expect_eq(rt, &leaf.next(), &None);
}

#[test]
fn gives_the_pairs_of_a_leaf(rt: HostRuntime) -> Result<(), Fail> {
    let tree = tree_of_three(rt.alloc(), Version::One)?;
    expect_single_pair(&rt, first_leaf(&tree)?, (b"a", b"1"));
    Ok(())
}
