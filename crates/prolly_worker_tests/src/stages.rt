//! The stages, over lists and over links.
ghost use Rattle.std.specs.Prelude.{◌≡◌, []};

use crate::links::comparing::{expect_all_taken, expect_bytes, expect_eq, expect_sent};
use links::leaves_over_links;
use lists::{leaves_of, two_stages};
use prolly_entry::{KeyCut, Pair, Sha512Cut, Version};
use prolly_link::{
    BatchReceiver, BatchSender, End, ListIn, ListOut, Next, RunFault, batch_link, link,
    receive_rest,
};
use prolly_stage::{ChunkEvent, Gated, OpenGate, Staged, Worker, inner_stage, leaf_stage};
use prolly_test_parts::pairs_of;
use std::alloc::{AllocError, Global};
use std::process::Abort;
use std::sync::Wait;
use std::test::Fail;
use std::thread;
use turns::{Counted, Turns};

mod links;
pub(crate) mod lists;
mod turns;

pub(crate) const KEYS: [&[u8]; 6] = [b"a", b"b!", b"c", b"d!", b"e", b"f!"];

/// The leaves of the first five keys, each with the value 1: two that a boundary closes, and what
/// is left.
const FIRST_LEAF: &[u8] = b"\0\0\x01a\0\0\0\x011\0\x02b!\0\0\0\x011";

const SECOND_LEAF: &[u8] = b"\0\0\x01c\0\0\0\x011\0\x02d!\0\0\0\x011";

const LAST_LEAF: &[u8] = b"\0\0\x01e\0\0\0\x011";

/// Runs the leaf stage over these keys and this end, and compares the bytes of the leaves.
fn expect_leaves<R: Abort + Wait>(
    rt: &R,
    alloc: Global,
    keys: &[&[u8]],
    last: End,
    leaves: &[&[u8]],
) -> Result<(), Fail> {
    let sent = leaves_of(rt, alloc, KeyCut, pairs_of(alloc, keys)?, last);
    expect_sent(
        rt,
        (sent.items.len() as u64, sent.last),
        (leaves.len() as u64, last),
    );
    for (event, leaf) in sent.items.iter().zip(leaves) {
        expect_bytes(rt, event.bytes(), leaf);
    }
    Ok(())
}

/// The levels of these events.
pub(crate) fn levels_of(alloc: Global, events: &[ChunkEvent]) -> Result<Vec<u8>, AllocError> {
    let mut levels = Vec::new(alloc);
    for event in events {
        levels.push(event.level())?;
    }
    Ok(levels)
}

/// Runs the leaf stage and that of level 1 over these keys and this end, and compares the levels of
/// the events.
fn expect_levels<R: Abort + Wait>(
    rt: &R,
    alloc: Global,
    keys: &[&[u8]],
    last: End,
    levels: &[u8],
) -> Result<(), Fail> {
    let pairs = pairs_of(alloc, keys)?;
    let sent = two_stages(rt, alloc, KeyCut, Version::One, pairs, last);
    expect_sent(
        rt,
        (sent.items.len() as u64, sent.last),
        (levels.len() as u64, last),
    );
    expect_bytes(rt, &levels_of(alloc, &sent.items)?, levels);
    Ok(())
}

const FAULT: End = End::Fault(RunFault::Write);

#[test]
fn leaves_are_sent(rt: HostRuntime) -> Result<(), Fail> {
    let alloc = rt.alloc();
    let all = [FIRST_LEAF, SECOND_LEAF, LAST_LEAF];
    expect_leaves(&rt, alloc, &KEYS[..5], End::Clean, &all)?;
    expect_leaves(&rt, alloc, &KEYS[..3], FAULT, &[FIRST_LEAF])?;
    expect_leaves(&rt, alloc, &[], End::Clean, &[b"\0"])?;
    expect_leaves(&rt, alloc, &[], FAULT, &[])
}

#[test]
fn nodes_follow_their_last_child(rt: HostRuntime) -> Result<(), Fail> {
    let alloc = rt.alloc();
    expect_levels(&rt, alloc, &KEYS[..5], End::Clean, &[0, 0, 1, 0, 1])?;
    expect_levels(&rt, alloc, &KEYS[..1], End::Clean, &[0])?;
    expect_levels(&rt, alloc, &KEYS, FAULT, &[0, 0, 1, 0])
}

/// Fails unless the event is a node of this level over so many pairs.
fn expect_node(rt: &impl Abort, event: &ChunkEvent, level: u8, count: u64) {
    expect_eq(rt, &(event.level(), event.count()), &(level, count));
}

#[test]
fn version_two_counts(rt: HostRuntime) -> Result<(), Fail> {
    let Some(cut) = Sha512Cut::new(0) else {
        return Err("bits".into());
    };
    let pairs = pairs_of(rt.alloc(), &[b"a", b"b"])?;
    let sent = two_stages(&rt, rt.alloc(), cut, Version::Two, pairs, End::Clean);
    expect_sent(&rt, (sent.items.len() as u64, sent.last), (3, End::Clean));
    let Some(node) = sent.items.get(2) else {
        return Err("no node".into());
    };
    expect_node(&rt, node, 1, 2);
    Ok(())
}

#[test]
fn gates_are_asked_before_each_item(rt: HostRuntime) -> Result<(), Fail> {
    let pairs = pairs_of(rt.alloc(), &KEYS)?;
    let turns = Turns::new();
    let out = Counted {
        out: ListOut::new(rt.alloc()),
        turns: &turns,
    };
    let input = ListIn::new(pairs, End::Clean);
    let gated = Gated::new(out, Worker::Stage(3), &turns);
    let Staged { input, out } = leaf_stage(&rt, rt.alloc(), KeyCut, input, gated);
    drop(input);
    expect_sent(&rt, (out.items.len() as u64, out.last), (3, End::Clean));
    turns.expect_in_turn(&rt, 3);
    Ok(())
}

/// Fails unless these leaves are received.
fn receive_leaves<R: Abort + Wait>(
    rt: &R,
    input: &mut BatchReceiver<ChunkEvent>,
    leaves: &[&[u8]],
) -> Result<(), Fail> {
    for leaf in leaves {
        let Next::Item(event) = input.recv(rt) else {
            return Err("no event".into());
        };
        expect_bytes(rt, event.bytes(), leaf);
    }
    Ok(())
}

/// Sends pairs to a stage, and fails unless it takes them and sends their leaves.
fn expect_stage_at_work<R: Abort + Wait>(
    rt: &R,
    alloc: Global,
    mut pairs: BatchSender<Pair>,
    events: &mut BatchReceiver<ChunkEvent>,
) -> Result<(), Fail> {
    expect_all_taken(rt, &mut pairs, pairs_of(alloc, &KEYS)?);
    drop(pairs.close(rt, End::Clean));
    receive_leaves(rt, events, &[FIRST_LEAF, SECOND_LEAF])?;
    receive_rest(rt, events);
    Ok(())
}

#[test]
fn a_stage_runs_between_threads(rt: HostRuntime) -> Result<(), Fail> {
    let (pairs, input) = batch_link(rt.alloc(), 2, 2)?;
    let (out, mut events) = batch_link(rt.alloc(), 1, 2)?;
    let stage = thread::spawn(
        &rt,
        move ||
            requires { (input.items ≡ []) × (out.items ≡ []) }
        { leaves_over_links(&rt, rt.alloc(), &OpenGate, input, out) },
    )?;
    let worked = expect_stage_at_work(&rt, rt.alloc(), pairs, &mut events);
    drop(stage.join(&rt));
    worked
}

// The leaf that was begun is not sent.
#[test]
fn a_lost_input_of_the_leaves_is_a_fault(rt: HostRuntime) -> Result<(), Fail> {
    let (mut sender, input) = link(rt.alloc(), 4)?;
    expect_all_taken(&rt, &mut sender, pairs_of(rt.alloc(), &KEYS[..3])?);
    drop(sender);
    let out = ListOut::new(rt.alloc());
    let Staged { input, out } = leaf_stage(&rt, rt.alloc(), KeyCut, input, out);
    drop(input);
    let lost = End::Fault(RunFault::Lost);
    expect_sent(&rt, (out.items.len() as u64, out.last), (1, lost));
    Ok(())
}

#[test]
fn a_lost_input_is_a_fault(rt: HostRuntime) -> Result<(), Fail> {
    let (sender, input) = link(rt.alloc(), 1)?;
    drop(sender);
    let out = ListOut::new(rt.alloc());
    let Staged { input, out } = inner_stage(&rt, rt.alloc(), 1, KeyCut, input, out);
    drop(input);
    let lost = End::Fault(RunFault::Lost);
    expect_sent(&rt, (out.items.len() as u64, out.last), (0, lost));
    Ok(())
}
