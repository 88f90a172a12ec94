//! A file of which a byte is another, or of which only a part is there.

use super::{checked, expect_fault, file_of_three, put};
use crate::expect::expect_eq;
use prolly_check::CheckFault;
use prolly_entry::Version;
use prolly_test_parts::flip;
use std::alloc::Global;
use std::process::Abort;
use std::test::Fail;

/// Places in the file of three, and what is wrong once the highest bit there is flipped.
pub(super) const FAULTS: [(usize, CheckFault); 15] = [
    (0, CheckFault::BadHeader),
    (4, CheckFault::BadHeader),
    (5, CheckFault::BadHeader),
    (6, CheckFault::BadFrame { chunk: 0 }),
    (98, CheckFault::BadFrame { chunk: 3 }),
    (205, CheckFault::BadFrame { chunk: 6 }),
    (7, CheckFault::Truncated),
    (14, CheckFault::BadFrame { chunk: 1 }),
    (15, CheckFault::BadChunk { chunk: 0 }),
    (18, CheckFault::KeysOutOfOrder { chunk: 1 }),
    (23, CheckFault::NotCanonical { chunk: 2 }),
    (51, CheckFault::NotCanonical { chunk: 2 }),
    (55, CheckFault::NotCanonical { chunk: 2 }),
    (206, CheckFault::BadEnd),
    (233, CheckFault::BadEnd),
];

/// The fault of a file of which a bit is flipped, which is then flipped back.
fn fault_of_flipped(alloc: Global, file: &mut [u8], place: usize) -> Option<CheckFault> {
    flip(file, place);
    let fault = checked(alloc, file).err();
    flip(file, place);
    fault
}

#[test]
fn names_the_fault_of_a_flipped_bit(rt: HostRuntime) -> Result<(), Fail> {
    let mut file = file_of_three(rt.alloc(), Version::One)?;
    for (place, fault) in &FAULTS {
        let answer = (*place, fault_of_flipped(rt.alloc(), &mut file, *place));
        expect_eq(&rt, &answer, &(*place, Some(*fault)));
    }
    Ok(())
}

/// Fails unless the file is refused with any bit flipped, and accepted as it is.
fn expect_refused_where_flipped(rt: &impl Abort, alloc: Global, file: &mut [u8]) {
    for place in 0..file.len() {
        let fault = fault_of_flipped(alloc, file, place);
        assert!(rt; fault.is_some(), "at {place}");
    }
    assert!(rt; checked(alloc, file).is_ok());
}

#[test]
fn refuses_each_flipped_bit(rt: HostRuntime) -> Result<(), Fail> {
    for version in [Version::One, Version::Two] {
        let mut file = file_of_three(rt.alloc(), version)?;
        expect_refused_where_flipped(&rt, rt.alloc(), &mut file);
    }
    Ok(())
}

/// Fails unless the file, which has so many bytes, is refused where it ends early.
fn expect_refused_parts(rt: &impl Abort, alloc: Global, file: &[u8], length: usize) {
    assert!(rt; file.len() == length);
    for len in 0..file.len() {
        expect_fault(rt, alloc, &file[..len], CheckFault::Truncated);
    }
}

#[test]
fn refuses_each_part_that_ends_early(rt: HostRuntime) -> Result<(), Fail> {
    let alloc = rt.alloc();
    expect_refused_parts(&rt, alloc, &file_of_three(alloc, Version::One)?, 234);
    expect_refused_parts(&rt, alloc, &file_of_three(alloc, Version::Two)?, 274);
    Ok(())
}

#[test]
fn refuses_another_end(rt: HostRuntime) -> Result<(), Fail> {
    let mut file = file_of_three(rt.alloc(), Version::One)?;
    // One chunk more than there are.
    put(&mut file, 233, 7);
    expect_fault(&rt, rt.alloc(), &file, CheckFault::BadEnd);
    put(&mut file, 233, 6);
    file.push(0)?;
    expect_fault(&rt, rt.alloc(), &file, CheckFault::Trailing);
    Ok(())
}
