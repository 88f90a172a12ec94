//! Lists of keys of small maps.
use super::ranges::{ENDS, KEYS, MAPS};
use super::{copies, list};
use crate::expect::{expect_bytes, expect_eq};
use crate::tree_file::TreeFile;
use prolly_check::{Tree, check};
use prolly_entry::Version;
use prolly_io::FromRead;
use prolly_range::{NotRising, SortedKeys, prove_checked_key};
use std::alloc::{AllocError, Global};
use std::process::Abort;
use std::test::Fail;

/// How many lists are tried of each map.
const LISTS: u64 = 64;

/// The file of a tree, checked.
fn checked(alloc: Global, tree: &TreeFile) -> Result<Tree, Fail> {
    Ok(check(alloc, &mut FromRead::new(tree.bytes.as_slice()), 1_000)?)
}

/// Some of the keys of [`ENDS`], in their order: those whose bit is set.
fn chosen(alloc: Global, bits: u64) -> Result<Vec<Vec<u8>>, AllocError> {
    let mut keys = Vec::new(alloc);
    let mut left = bits;
    for end in ENDS {
        if left % 2 == 1 {
            keys.push(end.to_vec(alloc)?)?;
        }
        left /= 2;
    }
    Ok(keys)
}

/// Keys and values of the keys that the map has, joined.
fn pairs_at(alloc: Global, checked: &Tree, keys: &[Vec<u8>]) -> Result<Vec<u8>, AllocError> {
    let mut pairs = Vec::new(alloc);
    for key in keys {
        if let Some(value) = checked.get(key) {
            pairs.extend_from_slice(key)?;
            pairs.extend_from_slice(value)?;
        }
    }
    Ok(pairs)
}

/// Fails unless the proof of the keys shows what the map has at them.
fn expect_proved(
    rt: &impl Abort,
    alloc: Global,
    tree: &TreeFile,
    checked: &Tree,
    keys: &[Vec<u8>],
) -> Result<(), Fail> {
    let set = list(keys)?;
    let proof = tree.proof(rt, alloc, set)?;
    let (shown, fault) = tree.shown(rt, alloc, set, proof, 0)?;
    expect_eq(rt, &fault, &None);
    expect_bytes(rt, &shown, &pairs_at(alloc, checked, keys)?);
    Ok(())
}

/// The trees of small maps, of both versions.
fn trees(alloc: Global) -> Result<Vec<TreeFile>, Fail> {
    let mut trees = Vec::new(alloc);
    for version in [Version::One, Version::Two] {
        for &(count, bits) in MAPS {
            let keys = KEYS.get(..count).ok_or("keys")?;
            trees.push(TreeFile::of_bytes(alloc, version, bits, keys)?)?;
        }
    }
    Ok(trees)
}

#[test]
fn many_lists_of_keys_of_small_maps_are_proved(rt: HostRuntime) -> Result<(), Fail> {
    let alloc = rt.alloc();
    let mut bits = 1_u64;
    for tree in &trees(alloc)? {
        let checked = checked(alloc, tree)?;
        for _ in 0..LISTS {
            bits = bits.wrapping_mul(6_364_136_223_846_793_005).wrapping_add(1);
            expect_proved(&rt, alloc, tree, &checked, &chosen(alloc, bits >> 40)?)?;
        }
    }
    Ok(())
}

#[test]
fn the_proof_of_one_key_has_the_chunks_of_the_keys_way(rt: HostRuntime) -> Result<(), Fail> {
    let alloc = rt.alloc();
    for tree in &trees(alloc)? {
        let checked = checked(alloc, tree)?;
        for key in ENDS {
            let keys = copies(alloc, &[*key])?;
            let proof = tree.proof(&rt, alloc, list(&keys)?)?;
            let single = prove_checked_key(alloc, &checked, key)?;
            expect_eq(&rt, &proof.get(5..), &single.get(5..));
        }
    }
    Ok(())
}

#[test]
fn the_proof_of_no_key_is_the_root(rt: HostRuntime) -> Result<(), Fail> {
    let alloc = rt.alloc();
    for tree in &trees(alloc)? {
        let none = tree.proof(&rt, alloc, list(&[])?)?;
        // No child of a root has a key that is not less than this one.
        let last = copies(alloc, &[b"u"])?;
        expect_bytes(&rt, &none, &tree.proof(&rt, alloc, list(&last)?)?);
        let (shown, fault) = tree.shown(&rt, alloc, list(&[])?, none, 0)?;
        expect_eq(&rt, &fault, &None);
        expect_bytes(&rt, &shown, b"");
    }
    Ok(())
}

#[test]
fn the_proof_of_each_key_has_each_chunk_once(rt: HostRuntime) -> Result<(), Fail> {
    let alloc = rt.alloc();
    let mut keys = Vec::new(alloc);
    for key in KEYS {
        keys.push([*key].to_vec(alloc)?)?;
    }
    for bits in [0, 1, 6] {
        let tree = TreeFile::of_bytes(alloc, Version::One, bits, KEYS)?;
        let proof = tree.proof(&rt, alloc, list(&keys)?)?;
        // A file has a header of six bytes and an end record of 29, a proof five bytes at its start.
        expect_eq(&rt, &(proof.len() as u64 + 30), &(tree.bytes.len() as u64));
    }
    Ok(())
}

/// Where keys cease to rise.
fn place_of(alloc: Global, keys: &[&[u8]]) -> Result<Option<NotRising>, AllocError> {
    Ok(SortedKeys::new(&copies(alloc, keys)?).err())
}

#[test]
fn keys_that_do_not_rise_are_refused(rt: HostRuntime) -> Result<(), Fail> {
    let alloc = rt.alloc();
    expect_eq(&rt, &place_of(alloc, &[])?, &None);
    expect_eq(&rt, &place_of(alloc, &[b""])?, &None);
    expect_eq(&rt, &place_of(alloc, &[b"", b"a", b"a\0", b"b"])?, &None);
    let second = Some(NotRising { place: 1 });
    expect_eq(&rt, &place_of(alloc, &[b"a", b"a"])?, &second);
    expect_eq(&rt, &place_of(alloc, &[b"b", b"a", b"a"])?, &second);
    expect_eq(
        &rt,
        &place_of(alloc, &[b"a", b"c", b"b"])?,
        &Some(NotRising { place: 2 }),
    );
    Ok(())
}
