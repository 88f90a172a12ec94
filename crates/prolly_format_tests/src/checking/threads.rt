//! Files of which many threads take the hashes: they are told as by one.

use super::{FILE_OF_NONE, checked, file_cut_by, file_of_three};
use crate::expect::expect_eq;
use prolly_check::{CheckFault, Tree, check_by};
use prolly_entry::Version;
use prolly_io::FromRead;
use prolly_look_up::ManyThreads;
use prolly_test_parts::{flip, pairs_of};
use std::alloc::Global;
use std::num::NonZeroUsize;
use std::process::Abort;
use std::test::Fail;
use std::thread::Threads;

/// What so many threads say of a file.
fn checked_by<T: Threads + Sync>(
    threads: &T,
    count: NonZeroUsize,
    alloc: Global,
    bytes: &[u8],
) -> Result<Tree, CheckFault> {
    let hasher = ManyThreads::new(threads, count);
    check_by(&hasher, alloc, &mut FromRead::new(bytes), 1_000_000)
}

/// Fails unless one thread, and two, three and sixteen, say the same of a file.
fn expect_same<T: Threads + Sync>(rt: &impl Abort, threads: &T, alloc: Global, bytes: &[u8]) {
    let one = checked(alloc, bytes).map(|tree| tree.root());
    for count in [1, 2, 3, 16] {
        if let Some(count) = NonZeroUsize::new(count) {
            let many = checked_by(threads, count, alloc, bytes).map(|tree| tree.root());
            expect_eq(rt, &many, &one);
        }
    }
}

/// Fails unless all say the same of a file, of it with the highest bit of any byte flipped, and of
/// each part of it that ends early.
fn expect_same_of_damaged<T: Threads + Sync>(
    rt: &impl Abort,
    threads: &T,
    alloc: Global,
    file: &mut [u8],
) {
    expect_same(rt, threads, alloc, file);
    for place in 0..file.len() {
        flip(file, place);
        expect_same(rt, threads, alloc, file);
        flip(file, place);
        expect_same(rt, threads, alloc, &file[..place]);
    }
}

/// Keys whose pairs are leaves of more than one pair by 2 bits, the last of which is open.
const KEYS: [&[u8]; 12] = [
    b"a", b"b", b"c", b"d", b"e", b"f", b"g", b"h", b"i", b"j", b"k", b"l",
];

#[test]
fn many_threads_say_of_leaves_what_one_says(rt: HostRuntime) -> Result<(), Fail> {
    let alloc = rt.alloc();
    let pairs = pairs_of(alloc, &KEYS)?;
    for bits in [1, 2, 24] {
        let mut file = file_cut_by(alloc, bits, Version::Two, &pairs)?;
        expect_same_of_damaged(&rt, &rt, alloc, &mut file);
    }
    Ok(())
}

#[test]
fn many_threads_say_what_one_says(rt: HostRuntime) -> Result<(), Fail> {
    let alloc = rt.alloc();
    expect_same(&rt, &rt, alloc, &FILE_OF_NONE);
    for version in [Version::One, Version::Two] {
        let mut file = file_of_three(alloc, version)?;
        expect_same_of_damaged(&rt, &rt, alloc, &mut file);
    }
    Ok(())
}
