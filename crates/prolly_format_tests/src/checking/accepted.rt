//! Files that are accepted, and sources.

use super::{FILE_OF_NONE, LEAF_OF_A, LEAF_OF_B, checked, file_of_three, file_with};
use crate::expect::{expect_bytes, expect_eq};
use prolly_check::{CheckFault, check};
use prolly_entry::{Ref, Version};
use prolly_io::{FromRead, ScriptSource, Source};
use prolly_test_parts::{Zeros, joined};
use std::alloc::{AllocError, Global};
use std::process::Abort;
use std::test::Fail;

/// Fails unless a file of version One and 0 bits is accepted, with so many chunks and this root.
fn expect_accepted(
    rt: &impl Abort,
    alloc: Global,
    file: &[u8],
    chunks: u64,
    root: &[u8],
) -> Result<(), CheckFault> {
    let tree = checked(alloc, file)?;
    let answer = (tree.bits(), tree.chunks(), tree.version());
    expect_eq(rt, &answer, &(0, chunks, Version::One));
    expect_bytes(rt, &tree.root().0, root);
    Ok(())
}

#[test]
fn accepts_a_file(rt: HostRuntime) -> Result<(), Fail> {
    let file = file_of_three(rt.alloc(), Version::One)?;
    assert!(rt; file.len() == 234);
    expect_accepted(&rt, rt.alloc(), &file, 6, &file[206..226])?;
    Ok(())
}

/// The node of the leaves of a=1 and of b=1.
fn node_of_two(alloc: Global) -> Result<Vec<u8>, AllocError> {
    let (first, second) = (Ref::of(LEAF_OF_A), Ref::of(LEAF_OF_B));
    joined(alloc, &[b"\x01\0\x01a", &first.0, b"\0\x01b", &second.0])
}

/// Two leaves and their node, put together from the format alone.
#[test]
fn accepts_a_file_that_was_not_built_here(rt: HostRuntime) -> Result<(), Fail> {
    let node = node_of_two(rt.alloc())?;
    let file = file_with(rt.alloc(), &[LEAF_OF_A, LEAF_OF_B, &node])?;
    assert!(rt; file.len() == 127);
    expect_accepted(&rt, rt.alloc(), &file, 3, &Ref::of(&node).0)?;
    Ok(())
}

/// Fails unless a source, read to this limit, is refused for this fault.
fn expect_fault_of<S: Source>(
    rt: &impl Abort,
    alloc: Global,
    source: &mut S,
    limit: u32,
    fault: CheckFault,
) {
    expect_eq(rt, &check(alloc, source, limit).err(), &Some(fault));
}

#[test]
fn reads_within_a_limit(rt: HostRuntime) -> Result<(), Fail> {
    let alloc = rt.alloc();
    let file = FILE_OF_NONE.as_slice();
    let mut long = FromRead::new(file);
    expect_fault_of(&rt, alloc, &mut long, 44, CheckFault::TooLong);
    let tree = check(alloc, &mut FromRead::new(file), 45)?;
    expect_eq(&rt, &tree.get(b""), &None);
    Ok(())
}

#[test]
fn names_a_failed_read(rt: HostRuntime) -> Result<(), Fail> {
    let file = FILE_OF_NONE.to_vec(rt.alloc())?;
    let mut failing = ScriptSource::new(file, 4_096, Some(1));
    expect_fault_of(&rt, rt.alloc(), &mut failing, 45, CheckFault::Read);
    Ok(())
}

#[test]
fn stops_at_a_source_without_end(rt: HostRuntime) {
    expect_fault_of(&rt, rt.alloc(), &mut Zeros, 1_000, CheckFault::TooLong);
}
