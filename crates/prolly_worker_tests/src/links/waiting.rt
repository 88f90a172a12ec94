//! What ends the wait of an end that sleeps, and what a sender of large items waits for.
ghost use Rattle.std.specs.Prelude.{◌≤◌};

use super::{CLEAN, batches_give, expect_taken, link_gives, send_all};
use prolly_link::{BatchDrained, BatchSender, End, Next, batch_link, link};
use std::alloc::Global;
use std::process::Abort;
use std::sync::Wait;
use std::test::Fail;
use std::thread;
use std::thread::Threads;
use std::time::{Clock, Duration};

// Long enough for an end that waits to come to long sleeps.
const LONG_MILLIS: u64 = 300;

// From so many bytes on an item is sent alone.
const LARGE: usize = 65_536;

// How many items a sender of large ones sends.
const LARGE_ITEMS: u32 = 20;

// Fails unless an item of so many bytes is taken.
fn sends_sized(rt: &(impl Abort + Wait), sender: &mut BatchSender<u32>, item: u32, bytes: usize) {
    expect_taken(rt, sender.send_sized(rt, item, bytes));
}

// Lets the other thread wait.
fn keep_waiting<R: Clock>(rt: &R) {
    let _ = thread::sleep(rt, Duration::from_millis(LONG_MILLIS));
}

// A receiver waits, over a link with so much room, until its sender is closed, or dropped.
fn ends_a_wait<R: Threads + Wait + Clock + Abort + Copy + Send + 'static>(
    rt: R,
    alloc: Global,
    capacity: usize,
    is_closed: bool,
) -> Result<(), Fail>
    requires least { 1 ≤ capacity }
    requires most { capacity ≤ 4096 }
{
    let (sender, mut receiver) = link::<u32>(alloc, capacity)?;
    let late = thread::spawn(&rt, move || {
        keep_waiting(&rt);
        if is_closed {
            drop(sender.close(&rt, End::Clean));
        } else {
            drop(sender);
        }
    })?;
    let last = if is_closed { CLEAN } else { Next::Lost };
    link_gives(&rt, &mut receiver, &[last]);
    late.join(&rt);
    Ok(())
}

#[test]
fn a_receiver_that_sleeps_is_woken_by_the_close(rt: HostRuntime) -> Result<(), Fail> {
    ends_a_wait(rt, rt.alloc(), 1, true)?;
    ends_a_wait(rt, rt.alloc(), 4, true)
}

// Nobody wakes it: its sleep ends.
#[test]
fn a_receiver_that_sleeps_finds_that_its_sender_was_dropped(rt: HostRuntime) -> Result<(), Fail> {
    ends_a_wait(rt, rt.alloc(), 1, false)?;
    ends_a_wait(rt, rt.alloc(), 4, false)
}

#[test]
fn a_sender_that_sleeps_is_woken_once_there_is_room(rt: HostRuntime) -> Result<(), Fail> {
    let (sender, mut receiver) = link(rt.alloc(), 1)?;
    let sending = thread::spawn(&rt, move || drop(send_all(&rt, sender, &[7, 8, 9])))?;
    keep_waiting(&rt);
    let expected = [Next::Item(7), Next::Item(8), Next::Item(9), CLEAN];
    link_gives(&rt, &mut receiver, &expected);
    sending.join(&rt);
    Ok(())
}

// Each comes while the batch has room for another one.
#[test]
fn a_large_item_does_not_wait_for_its_batch(rt: HostRuntime) -> Result<(), Fail> {
    let (mut sender, mut receiver) = batch_link(rt.alloc(), 4, 2)?;
    for item in 0..6 {
        sends_sized(&rt, &mut sender, item, LARGE);
        batches_give(&rt, &mut receiver, &[Next::Item(item)]);
    }
    drop(sender);
    batches_give(&rt, &mut receiver, &[Next::Lost]);
    Ok(())
}

// The bytes of a batch are counted together.
#[test]
fn items_that_are_large_together_do_not_wait_for_their_batch(rt: HostRuntime) -> Result<(), Fail> {
    let (mut sender, mut receiver) = batch_link(rt.alloc(), 4, 3)?;
    sends_sized(&rt, &mut sender, 7, LARGE - 1);
    sends_sized(&rt, &mut sender, 8, 1);
    batches_give(&rt, &mut receiver, &[Next::Item(7), Next::Item(8)]);
    Ok(())
}

// A small one is lost with its sender, where that is dropped before the batch is full.
#[test]
fn a_small_item_waits_for_its_batch(rt: HostRuntime) -> Result<(), Fail> {
    let (mut sender, mut receiver) = batch_link(rt.alloc(), 4, 2)?;
    sends_sized(&rt, &mut sender, 7, LARGE - 1);
    drop(sender);
    batches_give(&rt, &mut receiver, &[Next::Lost]);
    Ok(())
}

// Sends items of 100,000 bytes, of which a link with the least room holds one at a time, and
// closes.
fn send_large<R: Wait>(rt: &R, sender: BatchSender<u32>) {
    let mut sender = sender;
    for item in 0..LARGE_ITEMS {
        drop(sender.send_sized(rt, item, 100_000));
    }
    drop(sender.close(rt, End::Clean));
}

#[test]
fn large_items_go_across_a_link_with_room_for_one(rt: HostRuntime) -> Result<(), Fail> {
    let (sender, mut receiver) = batch_link(rt.alloc(), 1, 2)?;
    let sending = thread::spawn(&rt, move || send_large(&rt, sender))?;
    keep_waiting(&rt);
    for item in 0..LARGE_ITEMS {
        batches_give(&rt, &mut receiver, &[Next::Item(item)]);
    }
    batches_give(&rt, &mut receiver, &[CLEAN]);
    sending.join(&rt);
    Ok(())
}

#[test]
fn a_receiver_that_drains_lets_a_sender_of_large_items_go_on(rt: HostRuntime) -> Result<(), Fail> {
    let (sender, receiver) = batch_link(rt.alloc(), 1, 2)?;
    let sending = thread::spawn(&rt, move || send_large(&rt, sender))?;
    keep_waiting(&rt);
    assert!(rt; matches!(receiver.drain(&rt), BatchDrained::Ended(_)));
    sending.join(&rt);
    Ok(())
}
