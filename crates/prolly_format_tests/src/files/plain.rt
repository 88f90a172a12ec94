//! The plain builder.
use crate::expect::{expect_bytes, expect_eq};
use prolly_entry::{Cut, KeyCut, Ref, Sha512Cut, Version};
use prolly_file::{ScratchFault, scratch, scratch_as};
use prolly_test_parts::{chunk_file, pairs_of};
use std::alloc::{AllocError, Global};
use std::process::Abort;
use std::test::Fail;

/// A leaf of one pair, a key of one byte and the value `1`.
const A: &[u8] = b"\0\0\x01a\0\0\0\x011";

const B: &[u8] = b"\0\0\x01b\0\0\0\x011";

const C: &[u8] = b"\0\0\x01c\0\0\0\x011";

const D: &[u8] = b"\0\0\x01d\0\0\0\x011";

const E: &[u8] = b"\0\0\x01e\0\0\0\x011";

/// The leaves of the keys a, b!, c, d! and e, where an exclamation mark closes a leaf.
const FIRST: &[u8] = b"\0\0\x01a\0\0\0\x011\0\x02b!\0\0\0\x011";

const SECOND: &[u8] = b"\0\0\x01c\0\0\0\x011\0\x02d!\0\0\0\x011";

const THIRD: &[u8] = b"\0\0\x01e\0\0\0\x011";

/// Appends a child entry: of a key, of bytes that are referred to, and of a count, if there is one.
fn append_child(
    node: &mut Vec<u8>,
    key: &[u8],
    bytes: &[u8],
    count: Option<&u8>,
) -> Result<(), Fail> {
    node.extend_from_slice(&[0, u8::try_from(key.len())?])?;
    node.extend_from_slice(key)?;
    node.extend_from_slice(&Ref::of(bytes).0)?;
    if let Some(count) = count {
        node.extend_from_slice(&[0, 0, 0, 0, 0, 0, 0, *count])?;
    }
    Ok(())
}

/// A node of children of which each has a key, bytes and, in version Two, a count.
fn node_of(
    alloc: Global,
    level: u8,
    children: &[(&[u8], &[u8])],
    counts: &[u8],
) -> Result<Vec<u8>, Fail> {
    let mut node = Vec::new(alloc);
    node.push(level)?;
    for (place, (key, bytes)) in children.iter().enumerate() {
        append_child(&mut node, key, bytes, counts.get(place))?;
    }
    Ok(node)
}

/// Whether the bytes are those that were there, and behind them those of a file of this root.
fn is_behind(out: &[u8], root: &Ref) -> bool {
    out.starts_with(b"kept") && out.len() > 28 && out[out.len() - 28..].starts_with(&root.0)
}

/// The file that is made of these keys.
fn made<K: Cut>(alloc: Global, cut: K, version: Version, keys: &[&[u8]]) -> Result<Vec<u8>, Fail> {
    let pairs = pairs_of(alloc, keys)?;
    let mut out = b"kept".to_vec(alloc)?;
    let root = scratch_as(alloc, cut, version, &pairs, 12, &mut out)?;
    if !is_behind(&out, &root) {
        return Err(Fail::from("the root, or what was there"));
    }
    Ok(out[4..].to_vec(alloc)?)
}

/// Tests that a file has so many bytes, and is that of these chunks.
fn expect(
    rt: &impl Abort,
    alloc: Global,
    made: &[u8],
    length: usize,
    head: [u8; 2],
    chunks: &[&[u8]],
) -> Result<(), AllocError> {
    assert!(rt; made.len() == length);
    expect_bytes(rt, made, &chunk_file(alloc, head, chunks)?);
    Ok(())
}

/// Tests that the file of these keys, of 0 bits, has so many bytes, and is that of these chunks.
fn expect_small(
    rt: &impl Abort,
    alloc: Global,
    version: Version,
    keys: &[&[u8]],
    length: usize,
    chunks: &[&[u8]],
) -> Result<(), Fail> {
    let head = match version {
        Version::One => [1, 0],
        Version::Two => [2, 0],
    };
    let cut = Sha512Cut::new(0).ok_or("bits")?;
    let made = made(alloc, cut, version, keys)?;
    expect(rt, alloc, &made, length, head, chunks)?;
    Ok(())
}

#[test]
fn the_empty_map_is_one_leaf(rt: HostRuntime) -> Result<(), Fail> {
    let cut = Sha512Cut::new(0).ok_or("bits")?;
    let mut out = Vec::new(rt.alloc());
    let root = scratch(rt.alloc(), cut, &[], 12, &mut out)?;
    expect_eq(&rt, &root.to_text(), b"n0i4q0k9g7b97brr8llfhrt4pbb3qa1e");
    expect_bytes(
        &rt,
        &out,
        b"PRLY\x01\0C\0\0\0\0\0\0\0\x01\0\
        E\xb8\x24\x4d\x02\x89\x81\xd6\x93\xaf\x7b\x45\x6a\xf8\xef\xa4\xca\xd6\x3d\x28\x2e\
        \0\0\0\0\0\0\0\x01",
    );
    Ok(())
}

/// The nodes of the file of the keys a, b and c, with these counts: the one of the first leaves, that
/// of the last leaf, and the root.
fn nodes_of_three(
    alloc: Global,
    [of_first, of_last, of_root]: [&[u8]; 3],
) -> Result<[Vec<u8>; 3], Fail> {
    let first = node_of(alloc, 1, &[(b"a", A), (b"b", B)], of_first)?;
    let last = node_of(alloc, 1, &[(b"c", C)], of_last)?;
    let root = node_of(alloc, 2, &[(b"b", &first), (b"c", &last)], of_root)?;
    Ok([first, last, root])
}

/// Tests the files of one, two and three of the keys a, b and c, whose nodes have these counts.
fn expect_small_files(
    rt: &impl Abort,
    alloc: Global,
    version: Version,
    [of_one, of_two, of_three]: [usize; 3],
    counts: [&[u8]; 3],
) -> Result<(), Fail> {
    let nodes = nodes_of_three(alloc, counts)?;
    let [first, last, root] = &nodes;
    expect_small(rt, alloc, version, &[b"a"], of_one, &[A])?;
    expect_small(rt, alloc, version, &[b"a", b"b"], of_two, &[A, B, first])?;
    let chunks = [A, B, first, C, last, root];
    expect_small(rt, alloc, version, &[b"a", b"b", b"c"], of_three, &chunks)
}

#[test]
fn small_maps_have_these_files(rt: HostRuntime) -> Result<(), Fail> {
    let lengths = [53, 127, 234];
    let counts: [&[u8]; 3] = [b"", b"", b""];
    expect_small_files(&rt, rt.alloc(), Version::One, lengths, counts)
}

#[test]
fn version_two_counts(rt: HostRuntime) -> Result<(), Fail> {
    let lengths = [53, 143, 274];
    let counts: [&[u8]; 3] = [b"\x01\x01", b"\x01", b"\x02\x01"];
    expect_small_files(&rt, rt.alloc(), Version::Two, lengths, counts)
}

/// The nodes of level 1 of the file of the keys a to e.
fn low_nodes_of_letters(alloc: Global) -> Result<[Vec<u8>; 3], Fail> {
    let first = node_of(alloc, 1, &[(b"a", A), (b"b", B)], &[])?;
    let second = node_of(alloc, 1, &[(b"c", C), (b"d", D)], &[])?;
    let last = node_of(alloc, 1, &[(b"e", E)], &[])?;
    Ok([first, second, last])
}

/// Those of the levels above: two nodes and the root.
fn high_nodes_of_letters(
    alloc: Global,
    [first, second, last]: &[Vec<u8>; 3],
) -> Result<[Vec<u8>; 3], Fail> {
    let left = node_of(alloc, 2, &[(b"b", first), (b"d", second)], &[])?;
    let right = node_of(alloc, 2, &[(b"e", last)], &[])?;
    let root = node_of(alloc, 3, &[(b"d", &left), (b"e", &right)], &[])?;
    Ok([left, right, root])
}

#[test]
fn a_node_stands_behind_its_last_child(rt: HostRuntime) -> Result<(), Fail> {
    let alloc = rt.alloc();
    let low = low_nodes_of_letters(alloc)?;
    let [left, right, root] = &high_nodes_of_letters(alloc, &low)?;
    let [first, second, last] = &low;
    let chunks: [&[u8]; 11] = [A, B, first, C, D, second, left, E, last, right, root];
    let keys: [&[u8]; 5] = [b"a", b"b", b"c", b"d", b"e"];
    expect_small(&rt, alloc, Version::One, &keys, 415, &chunks)
}

/// The nodes of the file of the keys a, b!, c, d! and e.
fn nodes_of_five(alloc: Global) -> Result<[Vec<u8>; 3], Fail> {
    let node = node_of(alloc, 1, &[(b"b!", FIRST), (b"d!", SECOND)], &[])?;
    let last = node_of(alloc, 1, &[(b"e", THIRD)], &[])?;
    let root = node_of(alloc, 2, &[(b"d!", &node), (b"e", &last)], &[])?;
    Ok([node, last, root])
}

#[test]
fn a_level_is_cut_at_marked_keys(rt: HostRuntime) -> Result<(), Fail> {
    let alloc = rt.alloc();
    let nodes = nodes_of_five(alloc)?;
    let [node, last, root] = &nodes;
    let keys: [&[u8]; 5] = [b"a", b"b!", b"c", b"d!", b"e"];
    let file = made(alloc, KeyCut, Version::One, &keys)?;
    let chunks: [&[u8]; 6] = [FIRST, SECOND, node, THIRD, last, root];
    expect(&rt, alloc, &file, 255, [1, 0xFF], &chunks)?;
    Ok(())
}

/// The fault of these keys, and that the vector is as it was.
fn refused(
    rt: &impl Abort,
    alloc: Global,
    keys: &[&[u8]],
    max_levels: u8,
    fault: ScratchFault,
) -> Result<(), Fail> {
    let cut = Sha512Cut::new(0).ok_or("bits")?;
    let mut out = b"kept".to_vec(alloc)?;
    let pairs = pairs_of(alloc, keys)?;
    let answer = scratch(alloc, cut, &pairs, max_levels, &mut out);
    expect_eq(rt, &answer, &Err(fault));
    expect_bytes(rt, &out, b"kept");
    Ok(())
}

#[test]
fn faults_leave_the_vector(rt: HostRuntime) -> Result<(), Fail> {
    let alloc = rt.alloc();
    refused(
        &rt,
        alloc,
        &[b"b", b"a"],
        12,
        ScratchFault::OutOfOrder { pair: 1 },
    )?;
    refused(
        &rt,
        alloc,
        &[b"a", b"b", b"b", b"a"],
        0,
        ScratchFault::OutOfOrder { pair: 2 },
    )?;
    refused(&rt, alloc, &[b"a", b"b", b"c"], 2, ScratchFault::TooTall)?;
    refused(&rt, alloc, &[], 0, ScratchFault::TooTall)
}
