//! Pairs by their numbers, and the counts that lead to them.

use super::{checked, expect_fault, file_of_three, put, tree_of_three};
use crate::expect::expect_eq;
use prolly_check::{CheckFault, NoCounts, Tree};
use prolly_entry::Version;
use std::process::Abort;
use std::test::Fail;

/// Fails unless this is the pair of a number.
fn expect_nth(
    rt: &impl Abort,
    tree: &Tree,
    n: u64,
    pair: Result<Option<(&[u8], &[u8])>, NoCounts>,
) {
    expect_eq(rt, &(n, tree.nth(n)), &(n, pair));
}

/// The numbers of the pairs of a=1, b=1 and c=1, and of none.
const PAIRS: [(u64, Option<(&[u8], &[u8])>); 5] = [
    (0, Some((b"a", b"1"))),
    (1, Some((b"b", b"1"))),
    (2, Some((b"c", b"1"))),
    (3, None),
    (u64::MAX, None),
];

/// Fails unless the pairs have their numbers.
fn expect_numbers(rt: &impl Abort, tree: &Tree) {
    for (n, pair) in &PAIRS {
        expect_nth(rt, tree, *n, Ok(*pair));
    }
}

#[test]
fn finds_pairs_by_number(rt: HostRuntime) -> Result<(), Fail> {
    let file = file_of_three(rt.alloc(), Version::Two)?;
    assert!(rt; file.len() == 274);
    expect_numbers(&rt, &checked(rt.alloc(), &file)?);
    Ok(())
}

#[test]
fn tells_that_there_are_no_counts(rt: HostRuntime) -> Result<(), Fail> {
    let tree = tree_of_three(rt.alloc(), Version::One)?;
    expect_nth(&rt, &tree, 0, Err(NoCounts));
    expect_nth(&rt, &tree, 3, Err(NoCounts));
    Ok(())
}

#[test]
fn refuses_another_count(rt: HostRuntime) -> Result<(), Fail> {
    let mut file = file_of_three(rt.alloc(), Version::Two)?;
    // The last byte of the first count in the root: two pairs are below its first child.
    expect_eq(&rt, &file.get(213), &Some(&2));
    put(&mut file, 213, 3);
    let fault = CheckFault::NotCanonical { chunk: 5 };
    expect_fault(&rt, rt.alloc(), &file, fault);
    Ok(())
}

#[test]
fn refuses_the_other_version(rt: HostRuntime) -> Result<(), Fail> {
    let mut file = file_of_three(rt.alloc(), Version::One)?;
    put(&mut file, 4, 2);
    expect_fault(&rt, rt.alloc(), &file, CheckFault::BadChunk { chunk: 2 });
    Ok(())
}
