//! Calls that are refused memory: an item comes back, and a worker sends a first part and then the
//! fault that says so.
//!
//! `tests/growths_of_calls.py` refuses these tests each growth in turn. Where it is one for a
//! test's own values, the test ends in want of memory; where it is one of the calls that are
//! tested, the test goes on.
use crate::applying::apply_one;
use crate::files::{read_rest, write_all_of};
use crate::links::comparing::{expect_bytes, expect_eq};
use crate::loading::{THREE_PUTS, bytes_of, load_all};
use crate::merging::{bytes_of_pairs, bytes_of_records, list_of, lists_of};
use crate::old_trees::load_three;
use crate::stages::lists::{leaves_of, two_stages};
use crate::stages::{KEYS, levels_of};
use prolly_entry::{KeyCut, Version};
use prolly_io::{FromRead, ScriptSink};
use prolly_link::{End, In, LinkFault, ListOut, Next, Out, RunFault, batch_link, link};
use prolly_load::RecordReader;
use prolly_merge::{merge, merge_records, merge_two, merge_unique};
use prolly_root::RootFault;
use prolly_test_parts::pairs_of;
use std::alloc::Global;
use std::process::Abort;
use std::sync::Wait;
use std::test::Fail;

const MEMORY: End = End::Fault(RunFault::Memory);

/// Sends these, a second time where one was refused, and then a clean end.
fn send_all<O: Out<u32>>(rt: &(impl Abort + Wait), mut out: O, items: &[u32]) -> O::Closed {
    for &item in items {
        if let Err(back) = out.send(rt, item) {
            expect_eq(rt, &back, &item);
            expect_eq(rt, &out.send(rt, item), &Ok(()));
        }
    }
    out.close(rt, End::Clean)
}

/// Fails unless these are received, and then a clean end.
fn expect_received<I: In<u32>>(rt: &(impl Abort + Wait), mut input: I, items: &[u32]) -> I {
    for &item in items {
        expect_eq(rt, &input.recv(rt), &Next::Item(item));
    }
    expect_eq(rt, &input.recv(rt), &Next::End(End::Clean));
    input
}

#[test]
fn a_list_gives_the_refused_item_back(rt: HostRuntime) {
    let sent = send_all(&rt, ListOut::new(rt.alloc()), &[7, 8, 9]);
    expect_eq(&rt, &sent.items.as_slice(), &[7, 8, 9].as_slice());
}

#[test]
fn a_link_is_there_or_wants_memory(rt: HostRuntime) {
    match link(rt.alloc(), 4) {
        Ok((sender, receiver)) => {
            drop(send_all(&rt, sender, &[7, 8, 9]));
            drop(expect_received(&rt, receiver, &[7, 8, 9]));
        }
        Err(fault) => expect_eq(&rt, &fault, &LinkFault::Memory),
    }
}

// The third item begins a batch of its own.
#[test]
fn a_batch_gives_the_refused_item_back(rt: HostRuntime) {
    match batch_link(rt.alloc(), 4, 2) {
        Ok((sender, receiver)) => {
            drop(send_all(&rt, sender, &[7, 8, 9]));
            drop(expect_received(&rt, receiver, &[7, 8, 9]));
        }
        Err(fault) => expect_eq(&rt, &fault, &LinkFault::Memory),
    }
}

/// Fails unless all was sent and then a clean end, or a first part and then the fault of memory.
fn expect_front(rt: &impl Abort, sent: &[u8], last: End, whole: &[u8]) {
    if last == End::Clean {
        expect_bytes(rt, sent, whole);
    } else {
        expect_eq(rt, &(last, whole.starts_with(sent)), &(MEMORY, true));
    }
}

#[test]
fn a_loader_sends_a_first_part(rt: HostRuntime) -> Result<(), Fail> {
    let sent = load_all(&rt, rt.alloc(), FromRead::new(THREE_PUTS), 1_000).out;
    let bytes = bytes_of(rt.alloc(), &sent.items)?;
    expect_front(&rt, &bytes, sent.last, THREE_PUTS);
    Ok(())
}

#[test]
fn a_reader_gives_a_first_part(rt: HostRuntime) -> Result<(), Fail> {
    let Ok(mut reader) = RecordReader::new(rt.alloc(), 0, FromRead::new(THREE_PUTS), 1_000) else {
        return Ok(());
    };
    let given = read_rest(&rt, rt.alloc(), &mut reader)?;
    let bytes = bytes_of(rt.alloc(), &given.items)?;
    expect_front(&rt, &bytes, given.last, THREE_PUTS);
    Ok(())
}

// A record that was handed back is not written, and no one after it is lost. The sink takes memory
// too, and fails where that is refused.
#[test]
fn a_writer_hands_records_back(rt: HostRuntime) -> Result<(), Fail> {
    let mut reader = RecordReader::new(rt.alloc(), 0, FromRead::new(THREE_PUTS), 1_000)?;
    let records = read_rest(&rt, rt.alloc(), &mut reader)?.items;
    let sink = ScriptSink::new(rt.alloc(), 4_096, None);
    let (written, refused) = write_all_of(&rt, rt.alloc(), sink, records);
    expect_eq(&rt, &written.count().saturating_add(refused), &3);
    if refused == 0 && !written.has_failed() {
        expect_bytes(&rt, written.into_sink().taken(), THREE_PUTS);
    }
    Ok(())
}

#[test]
fn a_merger_sends_a_first_part(rt: HostRuntime) -> Result<(), Fail> {
    let alloc = rt.alloc();
    let files = [
        (b"a1c1".as_slice(), End::Clean),
        (b"b2", End::Clean),
        (b"a3", End::Clean),
    ];
    let merged = merge(&rt, alloc, lists_of(alloc, &files)?, ListOut::new(alloc));
    expect_eq(&rt, &merged.inputs.len(), &3);
    let bytes = bytes_of_pairs(alloc, &merged.out.items)?;
    expect_front(&rt, &bytes, merged.out.last, b"a3b2c1");
    Ok(())
}

#[test]
fn a_merger_of_records_sends_a_first_part(rt: HostRuntime) -> Result<(), Fail> {
    let alloc = rt.alloc();
    let files = [
        (b"a1c1".as_slice(), End::Clean),
        (b"b2", End::Clean),
        (b"a-", End::Clean),
    ];
    let merged = merge_records(&rt, alloc, lists_of(alloc, &files)?, ListOut::new(alloc));
    expect_eq(&rt, &merged.inputs.len(), &3);
    let bytes = bytes_of_records(alloc, &merged.out.items)?;
    expect_front(&rt, &bytes, merged.out.last, b"a-b2c1");
    Ok(())
}

#[test]
fn a_merger_of_unique_keys_sends_a_first_part(rt: HostRuntime) -> Result<(), Fail> {
    let alloc = rt.alloc();
    let files = [(b"a1c-".as_slice(), End::Clean), (b"b2", End::Clean)];
    let merged = merge_unique(&rt, alloc, lists_of(alloc, &files)?, ListOut::new(alloc));
    expect_eq(&rt, &merged.inputs.len(), &2);
    expect_eq(&rt, &merged.doubled.is_none(), &true);
    let bytes = bytes_of_records(alloc, &merged.out.items)?;
    expect_front(&rt, &bytes, merged.out.last, b"a1b2c-");
    Ok(())
}

#[test]
fn a_merger_of_two_sends_a_first_part(rt: HostRuntime) -> Result<(), Fail> {
    let alloc = rt.alloc();
    let left = list_of(alloc, b"a1b1", End::Clean)?;
    let right = list_of(alloc, b"a-c1", End::Clean)?;
    let merged = merge_two(&rt, left, right, ListOut::new(alloc));
    let bytes = bytes_of_records(alloc, &merged.out.items)?;
    expect_front(&rt, &bytes, merged.out.last, b"a-b1c1");
    Ok(())
}

/// Runs the leaf stage over five keys, and compares the levels of what is sent.
fn expect_leaves<R: Abort + Wait>(rt: &R, alloc: Global) -> Result<(), Fail> {
    let pairs = pairs_of(alloc, &KEYS[..5])?;
    let sent = leaves_of(rt, alloc, KeyCut, pairs, End::Clean);
    let levels = levels_of(alloc, &sent.items)?;
    expect_front(rt, &levels, sent.last, &[0, 0, 0]);
    Ok(())
}

/// The same of the leaf stage and that of level 1 behind it.
fn expect_nodes<R: Abort + Wait>(rt: &R, alloc: Global) -> Result<(), Fail> {
    let pairs = pairs_of(alloc, &KEYS[..5])?;
    let sent = two_stages(rt, alloc, KeyCut, Version::Two, pairs, End::Clean);
    let levels = levels_of(alloc, &sent.items)?;
    expect_front(rt, &levels, sent.last, &[0, 0, 1, 0, 1]);
    Ok(())
}

#[test]
fn stages_send_a_first_part(rt: HostRuntime) -> Result<(), Fail> {
    expect_leaves(&rt, rt.alloc())?;
    expect_nodes(&rt, rt.alloc())
}

#[test]
fn a_stage_over_an_old_tree_sends_a_first_part(rt: HostRuntime) -> Result<(), Fail> {
    let sent = apply_one(&rt, rt.alloc())?;
    let levels = levels_of(rt.alloc(), &sent.items)?;
    expect_front(&rt, &levels, sent.last, &[0, 0, 0]);
    Ok(())
}

#[test]
fn a_loader_of_an_old_tree_sends_a_first_part(rt: HostRuntime) -> Result<(), Fail> {
    let (keys, last, fault) = load_three(&rt, rt.alloc())?;
    expect_front(&rt, &keys, last, b"abc");
    let told = if last == End::Clean {
        None
    } else {
        Some(RootFault::Memory)
    };
    expect_eq(&rt, &fault, &told);
    Ok(())
}
