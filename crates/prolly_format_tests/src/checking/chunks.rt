//! Files whose frames and end record are in order, and whose chunks are not those of a map.

use super::{FILE_OF_NONE, LEAF_OF_A, LEAF_OF_B, expect_fault, file_of_three, file_with};
use prolly_check::CheckFault;
use prolly_entry::Version;
use prolly_test_parts::joined;
use std::alloc::Global;
use std::process::Abort;
use std::test::Fail;

#[test]
fn refuses_other_chunks(rt: HostRuntime) -> Result<(), Fail> {
    for (chunk, fault) in [
        // Both pairs are boundaries, so they make two leaves.
        (
            b"\0\0\x01a\0\0\0\x011\0\x01b\0\0\0\x011".as_slice(),
            CheckFault::NotCanonical { chunk: 0 },
        ),
        (
            b"\0\0\x01b\0\0\0\x011\0\x01a\0\0\0\x011".as_slice(),
            CheckFault::KeysOutOfOrder { chunk: 0 },
        ),
        (b"\0\0".as_slice(), CheckFault::BadChunk { chunk: 0 }),
        (b"".as_slice(), CheckFault::BadChunk { chunk: 0 }),
        (b"\x01".as_slice(), CheckFault::NotCanonical { chunk: 0 }),
    ] {
        let file = file_with(rt.alloc(), &[chunk])?;
        expect_fault(&rt, rt.alloc(), &file, fault);
    }
    Ok(())
}

/// Fails unless a file of these parts has another chunk than that of a map at this number.
fn expect_not_canonical(
    rt: &impl Abort,
    alloc: Global,
    parts: &[&[u8]],
    chunk: usize,
) -> Result<(), Fail> {
    let file = joined(alloc, parts)?;
    expect_fault(rt, alloc, &file, CheckFault::NotCanonical { chunk });
    Ok(())
}

#[test]
fn refuses_a_leaf_too_many(rt: HostRuntime) -> Result<(), Fail> {
    let file = file_of_three(rt.alloc(), Version::One)?;
    assert!(rt; file.len() == 234);
    let leaf_of_none = &FILE_OF_NONE[6..16];
    expect_not_canonical(
        &rt,
        rt.alloc(),
        &[&file[..24], leaf_of_none, &file[24..]],
        1,
    )
}

#[test]
fn refuses_a_node_before_its_child(rt: HostRuntime) -> Result<(), Fail> {
    let file = file_of_three(rt.alloc(), Version::One)?;
    assert!(rt; file.len() == 234);
    let parts = [&file[..24], &file[42..98], &file[24..42], &file[98..]];
    expect_not_canonical(&rt, rt.alloc(), &parts, 1)
}

#[test]
fn refuses_a_root_that_is_missing(rt: HostRuntime) -> Result<(), Fail> {
    let file = file_with(rt.alloc(), &[LEAF_OF_A, LEAF_OF_B])?;
    let fault = CheckFault::NotCanonical { chunk: 2 };
    expect_fault(&rt, rt.alloc(), &file, fault);
    Ok(())
}
