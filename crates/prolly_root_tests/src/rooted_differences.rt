//! Differences by the roots, over devices that are honest and one of whose calls fails.
use crate::expect::{expect_bytes, expect_eq};
use crate::tree_file::{Chunks, TreeFile};
use prolly_entry::{Pair, Version};
use prolly_root::{RootFault, Subtree};
use prolly_root_diff::{RootChange, RootDiffFault, RootDifferences};
use std::alloc::{AllocError, Global};
use std::process::Abort;
use std::test::Fail;

/// More calls than any of these walks makes.
const MOST_CALLS: u64 = 200;

/// Keys and values of a byte each.
type Entries = &'static [(u8, u8)];

/// Two maps, and what turns the one into the other: for each key a sign, the key, and the value
/// that the new map has, or where it has none the old one.
const CHANGES: &[(Entries, Entries, &[u8])] = &[
    (&[], &[], b""),
    (&[(b'a', b'1')], &[(b'a', b'1')], b""),
    (&[], &[(b'a', b'1')], b"+a1"),
    (&[(b'a', b'1')], &[], b"-a1"),
    (
        &[(b'a', b'1'), (b'b', b'2'), (b'c', b'3')],
        &[(b'b', b'2'), (b'c', b'4'), (b'd', b'5')],
        b"-a1~c4+d5",
    ),
    (
        &[(b'a', b'1'), (b'c', b'3')],
        &[(b'a', b'1'), (b'b', b'2'), (b'c', b'3')],
        b"+b2",
    ),
];

/// The file of these entries.
fn file_of(alloc: Global, entries: Entries) -> Result<TreeFile, Fail> {
    let mut pairs = Vec::new(alloc);
    for &(key, value) in entries {
        pairs.push(Pair::copy_of(alloc, &[key], &[value])?)?;
    }
    TreeFile::new(alloc, Version::Two, 0, &pairs)
}

/// Appends a change.
fn append(out: &mut Vec<u8>, change: &RootChange) -> Result<(), AllocError> {
    let (sign, pair) = match change {
        RootChange::Removed(pair) => (b'-', pair),
        RootChange::Added(pair) => (b'+', pair),
        RootChange::Changed(_, pair) => (b'~', pair),
    };
    out.extend_from_slice(&[sign])?;
    out.extend_from_slice(pair.key())?;
    out.extend_from_slice(pair.value())
}

/// The changes, up to the first fault, which the next call answers with the last one.
pub(crate) fn changes_between(
    rt: &impl Abort,
    alloc: Global,
    roots: (&TreeFile, &TreeFile),
    old: &mut Chunks,
    new: &mut Chunks,
) -> Result<(Vec<u8>, Option<RootDiffFault>), Fail> {
    let (before, after) = roots;
    let mut out = Vec::new(alloc);
    let mut walk: RootDifferences<Subtree, Subtree> = RootDifferences::new(
        alloc,
        before.version,
        &before.root,
        &after.root,
    )?;
    for _ in 0..MOST_CALLS {
        match walk.next(alloc, old, new) {
            Ok(None) => return Ok((out, None)),
            Ok(Some(change)) => append(&mut out, &change)?,
            Err(fault) => {
                let again = walk.next(alloc, old, new).err();
                expect_eq(rt, &again, &Some(RootDiffFault::Stopped));
                return Ok((out, Some(fault)));
            }
        }
    }
    Err("too many changes".into())
}

/// Fails unless these are the changes, or a first part of them where a call of either device fails.
/// Tells whether one did.
fn expect_changes(
    rt: &impl Abort,
    alloc: Global,
    roots: (&TreeFile, &TreeFile),
    fail_at: (u64, u64),
    expected: &[u8],
) -> Result<bool, Fail> {
    let mut old = roots.0.chunks(alloc, fail_at.0)?;
    let mut new = roots.1.chunks(alloc, fail_at.1)?;
    let (changes, fault) = changes_between(rt, alloc, roots, &mut old, &mut new)?;
    let Some(fault) = fault else {
        expect_bytes(rt, &changes, expected);
        return Ok(false);
    };
    expect_eq(rt, &expected.starts_with(&changes), &true);
    let told = match fail_at.0 {
        0 => RootDiffFault::New(RootFault::Read),
        _ => RootDiffFault::Old(RootFault::Read),
    };
    expect_eq(rt, &fault, &told);
    Ok(true)
}

/// Lets the first call of one device fail, then the second, and so on to the one that is not made.
/// Gives its number.
fn first_unmade(
    rt: &impl Abort,
    alloc: Global,
    roots: (&TreeFile, &TreeFile),
    is_old: bool,
    changes: &[u8],
) -> Result<u64, Fail> {
    for number in 1..=MOST_CALLS {
        let fail_at = if is_old { (number, 0) } else { (0, number) };
        if !expect_changes(rt, alloc, roots, fail_at, changes)? {
            return Ok(number);
        }
    }
    Err("too many calls".into())
}

#[test]
fn changes_are_given_up_to_a_failed_call(rt: HostRuntime) -> Result<(), Fail> {
    let alloc = rt.alloc();
    for &(old, new, changes) in CHANGES {
        let (before, after) = (file_of(alloc, old)?, file_of(alloc, new)?);
        for is_old in [true, false] {
            let unmade = first_unmade(&rt, alloc, (&before, &after), is_old, changes)?;
            // Trees with one root are the same without a look at them.
            expect_eq(&rt, &(unmade == 1), &changes.is_empty());
        }
    }
    Ok(())
}
