//! The levels of leaves and of nodes, entry by entry.
ghost use Rattle.std.specs.Prelude.{◌≤◌};

use crate::expect::{expect_bytes, expect_eq};
use prolly_chunk::{ChunkEvent, LeafLevel, NodeLevel};
use prolly_entry::{KeyCut, Pair, Ref, Version};
use prolly_test_parts::{joined, pairs_of};
use std::alloc::Global;
use std::process::Abort;
use std::test::Fail;

const KEYS: [&[u8]; 5] = [b"a", b"b!", b"c", b"d!", b"e"];

/// The leaves of these keys, each with the value 1: two that a boundary closes, and what is left.
const FIRST_LEAF: &[u8] = b"\0\0\x01a\0\0\0\x011\0\x02b!\0\0\0\x011";

const SECOND_LEAF: &[u8] = b"\0\0\x01c\0\0\0\x011\0\x02d!\0\0\0\x011";

const LAST_LEAF: &[u8] = b"\0\0\x01e\0\0\0\x011";

/// Their references, as another program takes SHA-512.
const FIRST_REFERENCE: Ref = Ref([
    0x32, 0xb5, 0xa0, 0x94, 0x67, 0x1a, 0x39, 0xf4, 0x50, 0xbb, 0x93, 0xc4, 0xea, 0x93, 0x68, 0x10,
    0x58, 0x1b, 0x87, 0xc5,
]);

const SECOND_REFERENCE: Ref = Ref([
    0x8a, 0xea, 0x83, 0x3c, 0x85, 0x1a, 0x51, 0xe7, 0x7c, 0xa5, 0x8f, 0x49, 0x97, 0x60, 0x76, 0xb3,
    0x57, 0xbd, 0x24, 0xf5,
]);

const LAST_REFERENCE: Ref = Ref([
    0xde, 0x4b, 0x67, 0x92, 0xf3, 0x78, 0x72, 0x11, 0x02, 0xd0, 0x47, 0x11, 0x65, 0x81, 0x3c, 0xa9,
    0xcf, 0x45, 0x43, 0x95,
]);

/// Adds what a level of leaves answers to these pairs.
fn push_leaf_answers(
    alloc: Global,
    leaves: &mut LeafLevel<KeyCut>,
    pairs: &[Pair],
    answers: &mut Vec<Option<ChunkEvent>>,
) -> Result<(), Fail> {
    for pair in pairs {
        answers.push(leaves.push(alloc, pair)?)?;
    }
    Ok(())
}

/// What a level of leaves answers to keys, each with the value 1, and then at the end.
fn leaf_answers(alloc: Global, keys: &[&[u8]]) -> Result<Vec<Option<ChunkEvent>>, Fail> {
    let mut leaves = LeafLevel::new(alloc, KeyCut)?;
    let mut answers = Vec::new(alloc);
    push_leaf_answers(alloc, &mut leaves, &pairs_of(alloc, keys)?, &mut answers)?;
    answers.push(leaves.finish())?;
    Ok(answers)
}

/// Adds what a level of nodes answers to the events among these answers.
fn push_node_answers(
    alloc: Global,
    nodes: &mut NodeLevel<KeyCut>,
    below: &[Option<ChunkEvent>],
    answers: &mut Vec<Option<ChunkEvent>>,
) -> Result<(), Fail> {
    for answer in below {
        if let Some(event) = answer {
            answers.push(nodes.push(alloc, event)?)?;
        }
    }
    Ok(())
}

/// What a level of nodes answers to the events among those answers, and then at the end.
fn node_answers(
    alloc: Global,
    version: Version,
    level: u8,
    below: &[Option<ChunkEvent>],
) -> Result<Vec<Option<ChunkEvent>>, Fail>
    requires { 1 ≤ level }
{
    let mut nodes = NodeLevel::new(alloc, version, level, KeyCut)?;
    let mut answers = Vec::new(alloc);
    push_node_answers(alloc, &mut nodes, below, &mut answers)?;
    answers.push(nodes.finish())?;
    Ok(answers)
}

/// What a level of nodes answers to what a level of leaves answers to keys.
fn node_answers_to(
    alloc: Global,
    version: Version,
    level: u8,
    keys: &[&[u8]],
) -> Result<Vec<Option<ChunkEvent>>, Fail>
    requires { 1 ≤ level }
{
    node_answers(alloc, version, level, &leaf_answers(alloc, keys)?)
}

/// The bytes of the chunk of the answer at a place, and none where there is no chunk.
fn bytes_at(answers: &[Option<ChunkEvent>], place: usize) -> &[u8] {
    match answers.get(place) {
        Some(Some(event)) => event.bytes(),
        _ => b"",
    }
}

fn expect_chunks(rt: &impl Abort, answers: &[Option<ChunkEvent>], want: &[&[u8]]) {
    expect_eq(rt, &answers.len(), &want.len());
    for (place, want) in want.iter().enumerate() {
        expect_bytes(rt, bytes_at(answers, place), want);
    }
}

#[test]
fn boundaries_close_leaves(rt: HostRuntime) -> Result<(), Fail> {
    let answers = leaf_answers(rt.alloc(), &KEYS)?;
    expect_chunks(
        &rt,
        &answers,
        &[b"", FIRST_LEAF, b"", SECOND_LEAF, b"", LAST_LEAF],
    );
    Ok(())
}

#[test]
fn no_pairs_are_one_leaf(rt: HostRuntime) -> Result<(), Fail> {
    let answers = leaf_answers(rt.alloc(), &[])?;
    expect_chunks(&rt, &answers, &[b"\0"]);
    Ok(())
}

#[test]
fn events_tell_of_their_chunk(rt: HostRuntime) -> Result<(), Fail> {
    let answers = leaf_answers(rt.alloc(), &KEYS)?;
    let Some(Some(event)) = answers.get(1) else {
        return Err("open".into());
    };
    expect_bytes(&rt, event.key(), b"b!");
    let answer = (event.level(), event.count(), event.reference());
    expect_eq(&rt, &answer, &(0, 2, FIRST_REFERENCE));
    Ok(())
}

#[test]
fn second_boundaries_close_nodes(rt: HostRuntime) -> Result<(), Fail> {
    let alloc = rt.alloc();
    let node = joined(
        alloc,
        &[
            b"\x01\0\x02b!",
            &FIRST_REFERENCE.0,
            b"\0\x02d!",
            &SECOND_REFERENCE.0,
        ],
    )?;
    let last = joined(alloc, &[b"\x01\0\x01e", &LAST_REFERENCE.0])?;

    let answers = node_answers_to(alloc, Version::One, 1, &KEYS)?;
    expect_chunks(&rt, &answers, &[b"", &node, b"", &last]);
    Ok(())
}

#[test]
fn version_two_counts_in_its_entries(rt: HostRuntime) -> Result<(), Fail> {
    let alloc = rt.alloc();
    let count = b"\0\0\0\0\0\0\0\x01";
    let last = joined(alloc, &[b"\x01\0\x01e", &LAST_REFERENCE.0, count])?;

    let answers = node_answers_to(alloc, Version::Two, 1, &KEYS)?;
    expect_bytes(&rt, bytes_at(&answers, 3), &last);
    Ok(())
}

#[test]
fn a_single_event_needs_no_node(rt: HostRuntime) -> Result<(), Fail> {
    let answers = node_answers_to(rt.alloc(), Version::One, 1, &[b"a"])?;
    expect_chunks(&rt, &answers, &[b"", b""]);
    Ok(())
}

#[test]
fn events_of_other_levels_pass_by(rt: HostRuntime) -> Result<(), Fail> {
    let answers = node_answers_to(rt.alloc(), Version::One, 2, &KEYS)?;
    expect_chunks(&rt, &answers, &[b"", b"", b"", b""]);
    Ok(())
}
