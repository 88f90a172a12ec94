//! All ranges of small maps.
use super::range;
use crate::expect::{expect_bytes, expect_eq};
use crate::tree_file::TreeFile;
use prolly_check::check;
use prolly_entry::Version;
use prolly_io::{FromRead, ScriptSink};
use prolly_range::{KeySet, ProveFault, SetFault, prove_checked_set};
use prolly_root::RootFault;
use std::alloc::{AllocError, Global};
use std::process::Abort;
use std::test::Fail;

/// The keys of the greatest map, of a byte each.
pub(super) const KEYS: &[u8] = b"bdfhjlnprt";

/// The keys at which ranges begin and end: those of the map, and one behind each.
pub(super) const ENDS: &[&[u8]] = &[
    b"", b"b", b"b\0", b"d", b"e", b"f", b"g", b"h", b"i", b"j", b"l", b"m", b"n", b"o", b"p",
    b"r", b"s", b"t", b"u",
];

/// How many keys the maps have, and the bits by which they are cut.
pub(super) const MAPS: &[(usize, u8)] = &[
    (0, 0),
    (1, 0),
    (2, 1),
    (3, 0),
    (10, 0),
    (10, 1),
    (10, 2),
    (10, 6),
];

/// More calls than any of these proofs takes.
const MOST_CALLS: u64 = 400;

/// Keys and values of the pairs in the range, joined.
fn pairs_in(
    alloc: Global,
    keys: &[u8],
    from: &[u8],
    to: Option<&[u8]>,
) -> Result<Vec<u8>, AllocError> {
    let mut pairs = Vec::new(alloc);
    for key in keys {
        let one = [*key];
        let is_in = match to {
            None => one.as_slice() >= from,
            Some(to) => one.as_slice() >= from && one.as_slice() < to,
        };
        if is_in {
            pairs.extend_from_slice(&[*key, *key])?;
        }
    }
    Ok(pairs)
}

/// Fails unless the proof of a range shows its pairs.
fn expect_proved(
    rt: &impl Abort,
    alloc: Global,
    tree: &TreeFile,
    keys: &[u8],
    from: &[u8],
    to: Option<&[u8]>,
) -> Result<(), AllocError> {
    let set = range(from, to);
    let proof = tree.proof(rt, alloc, set)?;
    let (shown, fault) = tree.shown(rt, alloc, set, proof, 0)?;
    expect_eq(rt, &fault, &None);
    expect_bytes(rt, &shown, &pairs_in(alloc, keys, from, to)?);
    Ok(())
}

/// All ranges of the tree of these keys.
fn expect_all_proved(
    rt: &impl Abort,
    alloc: Global,
    tree: &TreeFile,
    keys: &[u8],
) -> Result<(), AllocError> {
    for from in ENDS {
        for to in ENDS {
            expect_proved(rt, alloc, tree, keys, from, Some(*to))?;
        }
        expect_proved(rt, alloc, tree, keys, from, None)?;
    }
    Ok(())
}

#[test]
fn each_range_of_small_maps_is_proved(rt: HostRuntime) -> Result<(), Fail> {
    let alloc = rt.alloc();
    for version in [Version::One, Version::Two] {
        for &(count, bits) in MAPS {
            let Some(keys) = KEYS.get(..count) else {
                return Err("keys".into());
            };
            let tree = TreeFile::of_bytes(alloc, version, bits, keys)?;
            expect_all_proved(&rt, alloc, &tree, keys)?;
        }
    }
    Ok(())
}

/// Fails unless the proof of a range from the checked file is that by the root.
fn expect_same_checked(
    rt: &impl Abort,
    alloc: Global,
    tree: &TreeFile,
    set: KeySet<'_>,
) -> Result<(), Fail> {
    let checked = check(alloc, &mut FromRead::new(tree.bytes.as_slice()), 1_000)?;
    let mut sink = ScriptSink::new(alloc, 7, None);
    let fault = prove_checked_set(alloc, &checked, set, &mut sink).err();
    expect_eq(rt, &fault, &None);
    expect_bytes(rt, sink.taken(), &tree.proof(rt, alloc, set)?);
    Ok(())
}

#[test]
fn a_checked_file_is_proved_as_by_its_root(rt: HostRuntime) -> Result<(), Fail> {
    let alloc = rt.alloc();
    for version in [Version::One, Version::Two] {
        let tree = TreeFile::of_bytes(alloc, version, 0, b"abcde")?;
        expect_same_checked(&rt, alloc, &tree, range(b"b", Some(b"e")))?;
        expect_same_checked(&rt, alloc, &tree, range(b"", None))?;
    }
    Ok(())
}

#[test]
fn the_proof_of_all_keys_has_each_chunk_once(rt: HostRuntime) -> Result<(), Fail> {
    let alloc = rt.alloc();
    for bits in [0, 1, 6] {
        let tree = TreeFile::of_bytes(alloc, Version::Two, bits, KEYS)?;
        let proof = tree.proof(&rt, alloc, range(b"", None))?;
        // A file has a header of six bytes and an end record of 29, a proof five bytes at its start.
        expect_eq(&rt, &(proof.len() as u64 + 30), &(tree.bytes.len() as u64));
    }
    Ok(())
}

/// Writes a proof with the first call of the device failing, or of the sink, then the second, and so
/// on to the one that is not made. What was written before is the first part of the proof.
fn expect_failures(
    rt: &impl Abort,
    alloc: Global,
    tree: &TreeFile,
    set: KeySet<'_>,
    is_device: bool,
) -> Result<(), Fail> {
    let whole = tree.proof(rt, alloc, set)?;
    for number in 1..=MOST_CALLS {
        let fail_at = if is_device { (number, 0) } else { (0, number) };
        let (taken, fault) = tree.proof_at(alloc, set, fail_at)?;
        let Some(fault) = fault else {
            expect_bytes(rt, &taken, &whole);
            return Ok(());
        };
        expect_eq(rt, &whole.starts_with(&taken), &true);
        let told = if is_device {
            ProveFault::Chunks(RootFault::Read)
        } else {
            ProveFault::Write
        };
        expect_eq(rt, &fault, &told);
    }
    Err("too many calls".into())
}

#[test]
fn a_proof_is_written_up_to_a_failed_call(rt: HostRuntime) -> Result<(), Fail> {
    let alloc = rt.alloc();
    let tree = TreeFile::of_bytes(alloc, Version::One, 0, b"abcde")?;
    expect_failures(&rt, alloc, &tree, range(b"b", Some(b"e")), true)?;
    expect_failures(&rt, alloc, &tree, range(b"b", Some(b"e")), false)
}

/// Reads a proof with the first read failing, then the second, and so on to the one that is not
/// made. What was shown before is the first part of what the proof shows.
fn expect_failed_reads(
    rt: &impl Abort,
    alloc: Global,
    tree: &TreeFile,
    set: KeySet<'_>,
) -> Result<(), Fail> {
    let proof = tree.proof(rt, alloc, set)?;
    let (whole, _) = tree.shown(rt, alloc, set, proof.to_vec(alloc)?, 0)?;
    for number in 1..=MOST_CALLS {
        let (shown, fault) = tree.shown(rt, alloc, set, proof.to_vec(alloc)?, number)?;
        let Some(fault) = fault else {
            expect_bytes(rt, &shown, &whole);
            return Ok(());
        };
        expect_eq(rt, &whole.starts_with(&shown), &true);
        expect_eq(rt, &fault, &SetFault::Read);
    }
    Err("too many reads".into())
}

#[test]
fn a_proof_is_read_up_to_a_failed_read(rt: HostRuntime) -> Result<(), Fail> {
    let alloc = rt.alloc();
    let tree = TreeFile::of_bytes(alloc, Version::Two, 0, b"abcde")?;
    expect_failed_reads(&rt, alloc, &tree, range(b"b", Some(b"e")))
}
