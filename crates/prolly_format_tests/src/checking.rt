//! The checker and look-ups on small files.

use crate::expect::expect_eq;
use prolly_check::{CheckFault, Tree, check};
use prolly_entry::{Pair, Sha512Cut, Version};
use prolly_file::scratch_as;
use prolly_io::FromRead;
use prolly_test_parts::{chunk_file, pairs_of};
use std::alloc::Global;
use std::process::Abort;
use std::test::Fail;

mod accepted;
mod by_root;
mod chunks;
mod damaged;
mod dumps;
mod leaves;
mod look_ups;
mod numbers;
mod short;
mod threads;

/// The file of no pairs, of 0 bits.
const FILE_OF_NONE: [u8; 45] = [
    0x50, 0x52, 0x4C, 0x59, 0x01, 0x00, 0x43, 0x00, 0x00, 0x00, 0x00, 0x00, 0x00, 0x00, 0x01, 0x00,
    0x45, 0xB8, 0x24, 0x4D, 0x02, 0x89, 0x81, 0xD6, 0x93, 0xAF, 0x7B, 0x45, 0x6A, 0xF8, 0xEF, 0xA4,
    0xCA, 0xD6, 0x3D, 0x28, 0x2E, 0x00, 0x00, 0x00, 0x00, 0x00, 0x00, 0x00, 0x01,
];

/// The leaves of a=1 and of b=1.
const LEAF_OF_A: &[u8] = b"\0\0\x01a\0\0\0\x011";

const LEAF_OF_B: &[u8] = b"\0\0\x01b\0\0\0\x011";

/// The file of these pairs, of 0 bits.
fn file_of(alloc: Global, version: Version, pairs: &[Pair]) -> Result<Vec<u8>, Fail> {
    file_cut_by(alloc, 0, version, pairs)
}

/// The file of these pairs, of so many bits.
fn file_cut_by(alloc: Global, bits: u8, version: Version, pairs: &[Pair]) -> Result<Vec<u8>, Fail> {
    let mut file = Vec::new(alloc);
    let cut = Sha512Cut::new(bits).ok_or("bits")?;
    scratch_as(alloc, cut, version, pairs, 12, &mut file)?;
    Ok(file)
}

/// The file of a=1, b=1 and c=1, of 0 bits. Its chunks are two leaves, their node, a leaf, its node
/// and the root. In version One they begin at 15, 33, 51, 107, 125 and 158, and the end record at
/// 205.
fn file_of_three(alloc: Global, version: Version) -> Result<Vec<u8>, Fail> {
    file_of(alloc, version, &pairs_of(alloc, &[b"a", b"b", b"c"])?)
}

/// The tree of a=1, b=1 and c=1, of 0 bits.
fn tree_of_three(alloc: Global, version: Version) -> Result<Tree, Fail> {
    Ok(checked(alloc, &file_of_three(alloc, version)?)?)
}

/// The bytes of a file of version One and 0 bits with these chunks, of which the last is the root.
fn file_with(alloc: Global, chunks: &[&[u8]]) -> Result<Vec<u8>, Fail> {
    Ok(chunk_file(alloc, [1, 0], chunks)?)
}

fn checked(alloc: Global, bytes: &[u8]) -> Result<Tree, CheckFault> {
    check(alloc, &mut FromRead::new(bytes), 1_000_000)
}

/// Fails unless these bytes are refused for this fault.
fn expect_fault(rt: &impl Abort, alloc: Global, bytes: &[u8], fault: CheckFault) {
    let answer = (bytes.len(), checked(alloc, bytes).err());
    expect_eq(rt, &answer, &(bytes.len(), Some(fault)));
}

/// Puts a byte in the place of another.
fn put(bytes: &mut [u8], place: usize, byte: u8) {
    if let Some(there) = bytes.get_mut(place) {
        *there = byte;
    }
}
