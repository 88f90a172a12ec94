//! The stage of an old tree's leaves, beside a merge and a fresh stage of leaves.
use crate::links::comparing::{expect_bytes, expect_eq};
use prolly_apply::{Applied, OldLeaf, apply_stage};
use prolly_entry::{KeyCut, Pair, Record, Ref, Version};
use prolly_link::{ClosedList, End, ListIn, ListOut, RunFault};
use prolly_look_up::{pairs_of, test_chunk};
use prolly_merge::merge;
use prolly_stage::{ChunkEvent, Staged, leaf_stage};
use std::alloc::{AllocError, Global};
use std::process::Abort;
use std::sync::Wait;
use std::test::Fail;

const KEYS: [&[u8]; 5] = [b"a", b"b!", b"c", b"d!", b"e"];

const CLEAN: End = End::Clean;

const OLD_FAULT: End = End::Fault(RunFault::Read { file: u32::MAX });

const FILE_FAULT: End = End::Fault(RunFault::OutOfOrder { file: 0, place: 7 });

fn pair(alloc: Global, key: &[u8], value: &[u8]) -> Result<Pair, Fail> {
    Ok(Pair::new(Vec::from_slice(alloc, key)?, Vec::from_slice(alloc, value)?)?)
}

/// The pairs of a map: each binary digit says whether it has a key.
pub(crate) fn map_of(alloc: Global, digits: u32) -> Result<Vec<Pair>, Fail> {
    let mut pairs = Vec::new(alloc);
    let mut left = digits;
    for key in KEYS {
        if left % 2 == 1 {
            pairs.push(pair(alloc, key, b"1")?)?;
        }
        left /= 2;
    }
    Ok(pairs)
}

/// Records that put the pairs.
fn puts_of(alloc: Global, pairs: Vec<Pair>) -> Result<Vec<Record>, Fail> {
    let mut records = Vec::new(alloc);
    for pair in pairs {
        records.push(Record::put(pair))?;
    }
    Ok(records)
}

/// Changes: each digit to the base of three says what is said of a key.
fn changes_of(alloc: Global, digits: u32) -> Result<Vec<Record>, Fail> {
    let mut records = Vec::new(alloc);
    let mut left = digits;
    for key in KEYS {
        match left % 3 {
            0 => {}
            1 => records.push(Record::put(pair(alloc, key, b"2")?))?,
            _ => records.push(Record::remove(Vec::from_slice(alloc, key)?)?)?,
        }
        left /= 3;
    }
    Ok(records)
}

/// The leaves of these pairs.
fn leaves_of<R: Wait>(
    rt: &R,
    alloc: Global,
    pairs: Vec<Pair>,
    last: End,
) -> ClosedList<ChunkEvent> {
    let input = ListIn::new(pairs, last);
    let Staged { input, out } = leaf_stage(rt, alloc, KeyCut, input, ListOut::new(alloc));
    drop(input);
    out
}

/// The leaf of a chunk, where it has pairs.
fn old_leaf(alloc: Global, event: ChunkEvent) -> Result<Option<OldLeaf>, Fail> {
    let reference = event.reference();
    let chunk = event.into_bytes();
    if let Err(_) = test_chunk(Version::One, &chunk, &reference, None) {
        return Ok(None);
    }
    if pairs_of(Version::One, &chunk).is_empty() {
        return Ok(None);
    }
    Ok(Some(OldLeaf::new(alloc, Version::One, reference, chunk)?))
}

/// The old leaves of these pairs, the first `count` of them.
fn old_leaves<R: Wait>(
    rt: &R,
    alloc: Global,
    pairs: Vec<Pair>,
    count: usize,
) -> Result<Vec<OldLeaf>, Fail> {
    let mut leaves = Vec::new(alloc);
    let made = leaves_of(rt, alloc, pairs, CLEAN);
    if made.last != CLEAN {
        Err(AllocError)?;
    }
    for event in made.items {
        if leaves.len() < count {
            if let Some(leaf) = old_leaf(alloc, event)? {
                leaves.push(leaf)?;
            }
        }
    }
    Ok(leaves)
}

/// The pairs of old leaves.
fn pairs_in(alloc: Global, leaves: &[OldLeaf]) -> Result<Vec<Pair>, Fail> {
    let mut all = Vec::new(alloc);
    for leaf in leaves {
        let mut pairs = leaf.pairs();
        while let Some((key, value)) = pairs.next() {
            all.push(pair(alloc, key, value)?)?;
        }
    }
    Ok(all)
}

/// Lays a change of the last key over a map of all keys.
pub(crate) fn apply_one<R: Wait>(rt: &R, alloc: Global) -> Result<ClosedList<ChunkEvent>, Fail> {
    let leaves = old_leaves(rt, alloc, map_of(alloc, 31)?, 3)?;
    let changes = ListIn::new(changes_of(alloc, 81)?, CLEAN);
    let old = ListIn::new(leaves, CLEAN);
    let Applied {
        old,
        changes,
        out,
        refused: _,
    } = apply_stage(rt, alloc, KeyCut, old, changes, ListOut::new(alloc));
    drop((old, changes));
    Ok(out)
}

/// Compares the stage with a merge of both inputs and a stage of leaves behind it.
fn expect_same<R: Abort + Wait>(
    rt: &R,
    alloc: Global,
    leaves: Vec<OldLeaf>,
    old_end: End,
    changes: u32,
    last: End,
) -> Result<(), Fail> {
    let mut inputs = Vec::new(alloc);
    let pairs = puts_of(alloc, pairs_in(alloc, &leaves)?)?;
    inputs.push(ListIn::new(pairs, old_end))?;
    inputs.push(ListIn::new(changes_of(alloc, changes)?, last))?;
    let merged = merge(rt, alloc, inputs, ListOut::new(alloc)).out;
    let expected = leaves_of(rt, alloc, merged.items, merged.last);
    let Applied {
        old,
        changes,
        out,
        refused,
    } = apply_stage(
        rt,
        alloc,
        KeyCut,
        ListIn::new(leaves, old_end),
        ListIn::new(changes_of(alloc, changes)?, last),
        ListOut::new(alloc),
    );
    drop((old, changes));
    expect_eq(rt, &refused, &false);
    expect_eq(rt, &out.last, &expected.last);
    expect_eq(rt, &out.items.len(), &expected.items.len());
    for (event, other) in out.items.iter().zip(expected.items.iter()) {
        expect_bytes(rt, event.bytes(), other.bytes());
        expect_bytes(rt, event.key(), other.key());
        expect_eq(rt, &event.count(), &other.count());
        expect_eq(rt, &event.reference(), &other.reference());
    }
    Ok(())
}

#[test]
fn all_small_maps_and_changes_come_out(rt: HostRuntime) -> Result<(), Fail> {
    let alloc = rt.alloc();
    for map in 0..32u32 {
        for changes in 0..243u32 {
            let leaves = old_leaves(&rt, alloc, map_of(alloc, map)?, 5)?;
            expect_same(&rt, alloc, leaves, CLEAN, changes, CLEAN)?;
        }
    }
    Ok(())
}

#[test]
fn faults_of_either_input_stop_it(rt: HostRuntime) -> Result<(), Fail> {
    let alloc = rt.alloc();
    for map in 0..32u32 {
        // Some changes of all kinds: runs with each of them take too long.
        for number in 0..27u32 {
            let changes = number * 9 + number % 9;
            for count in 0..4usize {
                let leaves = old_leaves(&rt, alloc, map_of(alloc, map)?, count)?;
                let last = if changes % 2 == 0 { CLEAN } else { FILE_FAULT };
                expect_same(&rt, alloc, leaves, OLD_FAULT, changes, last)?;
            }
            let leaves = old_leaves(&rt, alloc, map_of(alloc, map)?, 5)?;
            expect_same(&rt, alloc, leaves, CLEAN, changes, FILE_FAULT)?;
        }
    }
    Ok(())
}

/// Fails unless these leaves are refused, and nothing but first leaves was sent.
fn expect_refused<R: Abort + Wait>(
    rt: &R,
    alloc: Global,
    chunks: &[&[u8]],
    first: usize,
) -> Result<(), Fail> {
    let mut leaves = Vec::new(alloc);
    for chunk in chunks {
        let chunk = Vec::from_slice(alloc, chunk)?;
        let event = ChunkEvent::new(0, Vec::new(alloc), Ref::of(&chunk), chunk, 0);
        if let Some(leaf) = old_leaf(alloc, event)? {
            leaves.push(leaf)?;
        }
    }
    expect_eq(rt, &leaves.len(), &chunks.len());
    let Applied {
        old,
        changes,
        out,
        refused,
    } = apply_stage(
        rt,
        alloc,
        KeyCut,
        ListIn::new(leaves, CLEAN),
        ListIn::new(Vec::new(alloc), CLEAN),
        ListOut::new(alloc),
    );
    drop((old, changes));
    expect_eq(rt, &refused, &true);
    expect_eq(rt, &out.last, &OLD_FAULT);
    expect_eq(rt, &out.items.len(), &first);
    Ok(())
}

#[test]
fn trees_of_other_bits_are_refused(rt: HostRuntime) -> Result<(), Fail> {
    let alloc = rt.alloc();
    let whole: &[u8] = b"\0\0\x01a\0\0\0\x011\0\x02b!\0\0\0\x011";
    // The first leaf does not end with a boundary, and another one follows.
    expect_refused(
        &rt,
        alloc,
        &[b"\0\0\x01a\0\0\0\x011", b"\0\0\x02b!\0\0\0\x011"],
        0,
    )?;
    // The second leaf has a boundary before its last pair.
    let inside: &[u8] = b"\0\0\x02c!\0\0\0\x011\0\x02d!\0\0\0\x011";
    expect_refused(&rt, alloc, &[whole, inside], 1)
}
