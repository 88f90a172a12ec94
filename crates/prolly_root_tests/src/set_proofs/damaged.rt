//! Proofs of ranges that were changed, cut or put together anew.
use super::{copies, list, range};
use crate::expect::expect_eq;
use crate::tree_file::TreeFile;
use prolly_entry::Version;
use prolly_io::{FRAME_START, frame_at};
use prolly_range::{KeySet, SetFault};
use prolly_root::ProofFault;
use prolly_test_parts::joined;
use std::alloc::{AllocError, Global};
use std::process::Abort;
use std::test::Fail;

/// The range of which most of these proofs are: three leaves of five.
const FROM: &[u8] = b"b";

const TO: &[u8] = b"e";

/// How many bytes a proof begins with.
const START_SIZE: usize = 5;

/// More frames than any of these proofs has.
const MOST_FRAMES: usize = 100;

/// The map of these, and the range.
const KEYS: &[u8] = b"abcde";

/// The first fault of bytes as a proof of the range.
fn fault_of(
    rt: &impl Abort,
    alloc: Global,
    tree: &TreeFile,
    proof: Vec<u8>,
) -> Result<Option<SetFault>, AllocError> {
    let (_, fault) = tree.shown(rt, alloc, range(FROM, Some(TO)), proof, 0)?;
    Ok(fault)
}

/// Fails unless this is the first fault of the bytes.
fn expect_fault(
    rt: &impl Abort,
    alloc: Global,
    tree: &TreeFile,
    proof: Vec<u8>,
    fault: ProofFault,
) -> Result<(), AllocError> {
    let told = fault_of(rt, alloc, tree, proof)?;
    expect_eq(rt, &told, &Some(SetFault::Proof(fault)));
    Ok(())
}

/// The bytes with a bit of one of them turned.
fn turned(alloc: Global, bytes: &[u8], place: usize) -> Result<Vec<u8>, AllocError> {
    let mut turned = bytes.to_vec(alloc)?;
    if let Some(byte) = turned.get_mut(place) {
        *byte ^= [1, 2, 4, 8, 16, 32, 64, 128][place % 8];
    }
    Ok(turned)
}

#[test]
fn refuses_a_turned_bit_in_each_byte(rt: HostRuntime) -> Result<(), Fail> {
    let alloc = rt.alloc();
    for version in [Version::One, Version::Two] {
        let tree = TreeFile::of_bytes(alloc, version, 0, KEYS)?;
        let proof = tree.proof(&rt, alloc, range(FROM, Some(TO)))?;
        for place in 0..proof.len() {
            let fault = fault_of(&rt, alloc, &tree, turned(alloc, &proof, place)?)?;
            assert!(rt; fault.is_some(), "at {place}");
        }
    }
    Ok(())
}

#[test]
fn refuses_each_part_that_ends_early(rt: HostRuntime) -> Result<(), Fail> {
    let alloc = rt.alloc();
    let tree = TreeFile::of_bytes(alloc, Version::Two, 0, KEYS)?;
    let proof = tree.proof(&rt, alloc, range(FROM, Some(TO)))?;
    for len in 0..proof.len() {
        expect_fault(
            &rt,
            alloc,
            &tree,
            proof[..len].to_vec(alloc)?,
            ProofFault::Truncated,
        )?;
    }
    Ok(())
}

/// Lengths of frames that no proof is as long as.
const GREAT_LENGTHS: &[u64] = &[1 << 40, 1 << 63, u64::MAX - 9, u64::MAX - 8, u64::MAX];

/// The proof, where the first frame says this length.
fn with_length(alloc: Global, proof: &[u8], len: u64) -> Result<Vec<u8>, AllocError> {
    let mut changed = Vec::new(alloc);
    if START_SIZE + FRAME_START <= proof.len() {
        changed.extend_from_slice(&proof[..START_SIZE + 1])?;
        changed.extend_from_slice(&len.to_be_bytes())?;
        changed.extend_from_slice(&proof[START_SIZE + FRAME_START..])?;
    }
    Ok(changed)
}

#[test]
fn tells_a_frame_of_a_great_length_as_cut_short(rt: HostRuntime) -> Result<(), Fail> {
    let alloc = rt.alloc();
    let tree = TreeFile::of_bytes(alloc, Version::One, 0, KEYS)?;
    let proof = tree.proof(&rt, alloc, range(FROM, Some(TO)))?;
    for &len in GREAT_LENGTHS {
        let changed = with_length(alloc, &proof, len)?;
        expect_eq(&rt, &changed.len(), &proof.len());
        expect_fault(&rt, alloc, &tree, changed, ProofFault::Truncated)?;
    }
    Ok(())
}

#[test]
fn refuses_bytes_behind_the_last_chunk(rt: HostRuntime) -> Result<(), Fail> {
    let alloc = rt.alloc();
    let tree = TreeFile::of_bytes(alloc, Version::One, 0, KEYS)?;
    let proof = tree.proof(&rt, alloc, range(FROM, Some(TO)))?;
    let longer = joined(alloc, &[&proof, b"C"])?;
    expect_fault(&rt, alloc, &tree, longer, ProofFault::Trailing)?;
    Ok(())
}

#[test]
fn refuses_the_proof_of_another_range(rt: HostRuntime) -> Result<(), Fail> {
    let alloc = rt.alloc();
    let tree = TreeFile::of_bytes(alloc, Version::One, 0, KEYS)?;
    let more = tree.proof(&rt, alloc, range(b"a", Some(TO)))?;
    let fewer = tree.proof(&rt, alloc, range(FROM, Some(b"c")))?;
    for proof in [more, fewer] {
        assert!(rt; fault_of(&rt, alloc, &tree, proof)?.is_some());
    }
    Ok(())
}

#[test]
fn refuses_the_proof_of_another_tree(rt: HostRuntime) -> Result<(), Fail> {
    let alloc = rt.alloc();
    let tree = TreeFile::of_bytes(alloc, Version::One, 0, KEYS)?;
    let set: KeySet<'_> = range(FROM, Some(TO));
    let other = TreeFile::of_bytes(alloc, Version::One, 0, b"abcd")?.proof(&rt, alloc, set)?;
    expect_fault(&rt, alloc, &tree, other, ProofFault::Reference { chunk: 0 })?;
    let counted = TreeFile::of_bytes(alloc, Version::Two, 0, KEYS)?.proof(&rt, alloc, set)?;
    expect_fault(&rt, alloc, &tree, counted, ProofFault::Version)?;
    Ok(())
}

#[test]
fn refuses_the_proof_of_one_key(rt: HostRuntime) -> Result<(), Fail> {
    let alloc = rt.alloc();
    let tree = TreeFile::of_bytes(alloc, Version::One, 0, KEYS)?;
    let proof = tree.proof(&rt, alloc, range(FROM, Some(TO)))?;
    let Some(frames) = proof.strip_prefix(b"PRLP\x11") else {
        return Err("start".into());
    };
    let single = joined(alloc, &[b"PRLP\x01", frames])?;
    expect_fault(&rt, alloc, &tree, single, ProofFault::Header)?;
    Ok(())
}

#[test]
fn takes_no_memory_for_a_length_that_lies(rt: HostRuntime) -> Result<(), Fail> {
    let alloc = rt.alloc();
    let tree = TreeFile::of_bytes(alloc, Version::One, 0, KEYS)?;
    for length in [1 << 40, u64::MAX - 9] {
        let frame = length.to_be_bytes();
        let proof = joined(alloc, &[b"PRLP\x11C", &frame, b"\0"])?;
        expect_fault(&rt, alloc, &tree, proof, ProofFault::Truncated)?;
    }
    Ok(())
}

/// The frames of a proof.
fn frames_of(alloc: Global, proof: &[u8]) -> Result<Vec<Vec<u8>>, Fail> {
    let mut frames = Vec::new(alloc);
    let mut left = proof.strip_prefix(b"PRLP\x11").ok_or("start")?;
    for _ in 0..MOST_FRAMES {
        let Some(len) = frame_at(left) else {
            break;
        };
        let size = FRAME_START.saturating_add(len);
        let (frame, rest) = left.split_at_checked(size).ok_or("frame")?;
        frames.push(frame.to_vec(alloc)?)?;
        left = rest;
    }
    Ok(frames)
}

/// A proof of the frames of these numbers.
fn proof_of(alloc: Global, frames: &[Vec<u8>], order: &[usize]) -> Result<Vec<u8>, AllocError> {
    let mut proof = b"PRLP\x11".to_vec(alloc)?;
    for place in order {
        if let Some(frame) = frames.get(*place) {
            proof.extend_from_slice(frame)?;
        }
    }
    Ok(proof)
}

/// What is done to the frame of a number.
#[derive(Clone, Copy, Debug)]
enum Change {
    LeftOut,
    Doubled,
    /// It is exchanged with the one behind it, the last one with the first.
    Exchanged,
}

/// The numbers of so many frames, with this done to one.
fn changed(
    alloc: Global,
    count: usize,
    place: usize,
    change: Change,
) -> Result<Vec<usize>, AllocError> {
    let mut order = Vec::new(alloc);
    for number in 0..count {
        order.push(number)?;
    }
    if place >= order.len() {
        return Ok(order);
    }
    match change {
        Change::LeftOut => {
            order.remove(place);
        }
        Change::Doubled => order.insert(place, place)?,
        Change::Exchanged => {
            let other = if place + 1 < order.len() {
                place + 1
            } else {
                0
            };
            order.swap(place, other);
        }
    }
    Ok(order)
}

/// Fails unless the proof of the set is refused with this done to a frame, whichever it is.
fn expect_refused(
    rt: &impl Abort,
    alloc: Global,
    tree: &TreeFile,
    set: KeySet<'_>,
    change: Change,
) -> Result<(), Fail> {
    let proof = tree.proof(rt, alloc, set)?;
    let frames = frames_of(alloc, &proof)?;
    expect_eq(rt, &frames.is_empty(), &false);
    for place in 0..frames.len() {
        let order = changed(alloc, frames.len(), place, change)?;
        let proof = proof_of(alloc, &frames, &order)?;
        let (_, fault) = tree.shown(rt, alloc, set, proof, 0)?;
        assert!(rt; fault.is_some(), "frame {place}");
    }
    Ok(())
}

#[test]
fn refuses_frames_left_out_doubled_and_exchanged(rt: HostRuntime) -> Result<(), Fail> {
    let alloc = rt.alloc();
    let tree = TreeFile::of_bytes(alloc, Version::One, 0, KEYS)?;
    let keys = copies(alloc, &[b"a", b"c\0", b"d", b"e"])?;
    for set in [range(FROM, Some(TO)), list(&keys)?] {
        for change in [Change::LeftOut, Change::Doubled, Change::Exchanged] {
            expect_refused(&rt, alloc, &tree, set, change)?;
        }
    }
    Ok(())
}

#[test]
fn refuses_the_proof_of_another_list(rt: HostRuntime) -> Result<(), Fail> {
    let alloc = rt.alloc();
    let tree = TreeFile::of_bytes(alloc, Version::One, 0, KEYS)?;
    let keys = copies(alloc, &[b"a", b"c"])?;
    let fewer = copies(alloc, &[b"a"])?;
    let more = copies(alloc, &[b"a", b"b", b"c"])?;
    for others in [fewer, more] {
        let proof = tree.proof(&rt, alloc, list(&others)?)?;
        let (_, fault) = tree.shown(&rt, alloc, list(&keys)?, proof, 0)?;
        assert!(rt; fault.is_some());
    }
    Ok(())
}
