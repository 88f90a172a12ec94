//! Links in use: what arrives, how far a sender is ahead, and what is found where an end is gone.
ghost use Rattle.std.specs.Prelude.{◌≡◌};

use comparing::expect_eq;
use copies::{Copies, copy_all, copy_list};
use prolly_link::{
    BatchDrained, BatchReceiver, ClosedBatch, ClosedSender, Drained, End, In, LinkFault, ListIn,
    ListOut, Next, Out, Receiver, RunFault, batch_link, compare, compare_batches, compare_closed,
    compare_closed_batches, link, meet, meet_batches, receive_rest,
};
use std::alloc::Global;
use std::process::Abort;
use std::sync::Wait;
use std::test::Fail;
use std::thread;
use std::time::Duration;

mod across;
pub(crate) mod comparing;
mod copies;
mod gather;
mod numbers;
mod waiting;

const CLEAN: Next<u32> = Next::End(End::Clean);

// Fails unless an item was taken.
fn expect_taken(rt: &impl Abort, sent: Result<(), u32>) {
    expect_eq(rt, &sent, &Ok(()));
}

// Fails unless each of these items is taken.
fn sends<O: Out<u32>>(rt: &(impl Abort + Wait), out: &mut O, items: &[u32])
    ensures { O.link out.new ≡ O.link out.old }
{
    for &item in items {
        expect_taken(rt, out.send(rt, item));
    }
}

// Fails unless this is received, in this order.
fn receives<I: In<u32>>(rt: &(impl Abort + Wait), input: &mut I, expected: &[Next<u32>])
    ensures { I.link input.new ≡ I.link input.old }
{
    for next in expected {
        expect_eq(rt, &input.recv(rt), next);
    }
}

// The same of a link, for tests whose proofs then have no trait in them.
fn link_gives(rt: &(impl Abort + Wait), receiver: &mut Receiver<u32>, expected: &[Next<u32>])
    ensures { receiver.new.link ≡ receiver.old.link }
{
    receives(rt, receiver, expected);
}

// The same of a link of batches.
fn batches_give(rt: &(impl Abort + Wait), receiver: &mut BatchReceiver<u32>, expected: &[Next<u32>])
    ensures { receiver.new.link ≡ receiver.old.link }
{
    receives(rt, receiver, expected);
}

// Sends these, each of which must be taken, and then a clean end.
fn send_all<O: Out<u32>>(rt: &(impl Abort + Wait), mut out: O, items: &[u32]) -> O::Closed
    ensures { O.closed_link result ≡ O.link out }
{
    sends(rt, &mut out, items);
    out.close(rt, End::Clean)
}

// Fails unless the receiver comes to the end, which its sender has sent.
fn expect_meeting<R: Abort + Wait>(rt: &R, closed: ClosedSender<u32>, receiver: Receiver<u32>)
    requires { closed.link ≡ receiver.link }
{
    match receiver.drain(rt) {
        Drained::Ended(ended) => drop(meet(closed, ended)),
        Drained::Lost(_) => assert!(rt; false, "the sender had closed"),
    }
}

// The same for batches.
fn expect_batch_meeting<R: Abort + Wait>(
    rt: &R,
    closed: ClosedBatch<u32>,
    receiver: BatchReceiver<u32>,
)
    requires { closed.link ≡ receiver.link }
{
    match receiver.drain(rt) {
        BatchDrained::Ended(ended) => drop(meet_batches(closed, ended)),
        BatchDrained::Lost(_) => assert!(rt; false, "the sender had closed"),
    }
}

#[test]
fn an_end_is_given_again(rt: HostRuntime) -> Result<(), Fail> {
    let (sender, mut receiver) = link(rt.alloc(), 4)?;
    let closed = send_all(&rt, sender, &[1, 2]);
    let expected = [Next::Item(1), Next::Item(2), CLEAN, CLEAN];
    link_gives(&rt, &mut receiver, &expected);
    expect_meeting(&rt, closed, receiver);
    Ok(())
}

#[test]
fn a_dropped_sender_is_lost(rt: HostRuntime) -> Result<(), Fail> {
    let (mut sender, mut receiver) = link(rt.alloc(), 4)?;
    sends(&rt, &mut sender, &[1]);
    drop(sender);
    link_gives(&rt, &mut receiver, &[Next::Item(1), Next::Lost, Next::Lost]);
    assert!(rt; matches!(receiver.drain(&rt), Drained::Lost(_)));
    Ok(())
}

#[test]
fn batches_keep_the_order(rt: HostRuntime) -> Result<(), Fail> {
    let (sender, mut receiver) = batch_link(rt.alloc(), 4, 2)?;
    let closed = send_all(&rt, sender, &[1, 2, 3]);
    let expected = [Next::Item(1), Next::Item(2), Next::Item(3), CLEAN, CLEAN];
    batches_give(&rt, &mut receiver, &expected);
    expect_batch_meeting(&rt, closed, receiver);
    Ok(())
}

// The open batch is lost with its sender.
#[test]
fn a_dropped_batch_sender_is_lost(rt: HostRuntime) -> Result<(), Fail> {
    let (mut sender, mut receiver) = batch_link(rt.alloc(), 4, 2)?;
    sends(&rt, &mut sender, &[1, 2, 3]);
    drop(sender);
    batches_give(
        &rt,
        &mut receiver,
        &[Next::Item(1), Next::Item(2), Next::Lost, Next::Lost],
    );
    assert!(rt; matches!(receiver.drain(&rt), BatchDrained::Lost(_)));
    Ok(())
}

// A comparison takes nothing out of the link, before the close, behind it, and behind the end.
#[test]
fn ends_are_compared_at_any_time(rt: HostRuntime) -> Result<(), Fail> {
    let (mut sender, mut receiver) = link(rt.alloc(), 4)?;
    compare(&mut sender, &mut receiver);
    sends(&rt, &mut sender, &[1, 2]);
    link_gives(&rt, &mut receiver, &[Next::Item(1)]);
    compare(&mut sender, &mut receiver);
    let fault = End::Fault(RunFault::Write);
    let mut closed = sender.close(&rt, fault);
    compare_closed(&mut closed, &mut receiver);
    link_gives(&rt, &mut receiver, &[Next::Item(2), Next::End(fault)]);
    compare_closed(&mut closed, &mut receiver);
    link_gives(&rt, &mut receiver, &[Next::End(fault)]);
    expect_meeting(&rt, closed, receiver);
    Ok(())
}

// Also with a batch in hand, and with one that is open.
#[test]
fn ends_of_batches_are_compared_at_any_time(rt: HostRuntime) -> Result<(), Fail> {
    let fault = End::Fault(RunFault::Write);
    let (mut sender, mut receiver) = batch_link(rt.alloc(), 4, 2)?;
    compare_batches(&mut sender, &mut receiver);
    sends(&rt, &mut sender, &[1, 2, 3]);
    batches_give(&rt, &mut receiver, &[Next::Item(1)]);
    compare_batches(&mut sender, &mut receiver);
    let mut closed = sender.close(&rt, fault);
    compare_closed_batches(&mut closed, &mut receiver);
    batches_give(
        &rt,
        &mut receiver,
        &[Next::Item(2), Next::Item(3), Next::End(fault)],
    );
    compare_closed_batches(&mut closed, &mut receiver);
    batches_give(&rt, &mut receiver, &[Next::End(fault)]);
    expect_batch_meeting(&rt, closed, receiver);
    Ok(())
}

// Fails unless these are the numbers below `count`, in their order.
fn expect_numbers(rt: &impl Abort, numbers: &[u32], count: u32) {
    expect_eq(rt, &numbers.len(), &(count as usize));
    for i in 0..count {
        expect_eq(rt, &numbers.get(i as usize), &Some(&i));
    }
}

// One thread sends by this and another receives.
#[test]
fn a_thousand_numbers_go_across(rt: HostRuntime) -> Result<(), Fail> {
    let plain = across::numbers_across(rt, rt.alloc(), 1000)?;
    let in_batches = across::numbers_across_in_batches(rt, rt.alloc(), 1000)?;
    expect_numbers(&rt, &plain, 1000);
    expect_numbers(&rt, &in_batches, 1000);
    Ok(())
}

// Fails unless four messages of these items are taken, and the sender is ahead from the second one
// on, where half of the room is left.
fn fills_four<O: Out<u32>>(rt: &(impl Abort + Wait), out: &mut O, message: &[u32]) {
    for is_ahead in [false, true, true, true] {
        sends(rt, out, message);
        expect_eq(rt, &out.is_ahead(), &is_ahead);
    }
}

// Nobody receives, so that a link with less room would wait for ever. One with more would be half
// full later.
#[test]
fn a_link_has_the_room_that_was_asked_for(rt: HostRuntime) -> Result<(), Fail> {
    let (mut sender, receiver) = link(rt.alloc(), 4)?;
    fills_four(&rt, &mut sender, &[7]);
    drop(receiver);
    let (mut sender, receiver) = batch_link(rt.alloc(), 4, 2)?;
    fills_four(&rt, &mut sender, &[7, 8]);
    drop(receiver);
    Ok(())
}

// A batch of 64 KiB is sent at once, and of four messages' bytes that is half.
#[test]
fn a_link_of_large_batches_is_half_full_by_their_bytes(rt: HostRuntime) -> Result<(), Fail> {
    let (mut sender, mut receiver) = batch_link(rt.alloc(), 4, 2)?;
    for (bytes, is_ahead) in [(65_535, false), (1, true)] {
        if let Err(_) = sender.send_sized(&rt, 7_u32, bytes) {
            rt.abort();
        }
        expect_eq(&rt, &sender.is_ahead(), &is_ahead);
    }
    receiver.recv(&rt);
    expect_eq(&rt, &sender.is_ahead(), &false);
    drop(receiver);
    Ok(())
}

// The receiver comes to its longest naps before the sender begins.
#[test]
fn a_long_wait_ends(rt: HostRuntime) -> Result<(), Fail> {
    let (sender, mut receiver) = link(rt.alloc(), 1)?;
    let late = thread::spawn(&rt, move || {
        thread::sleep(&rt, Duration::from_millis(300));
        let mut sender = sender;
        drop(sender.send(&rt, 7u32));
        drop(sender.close(&rt, End::Clean));
    })?;
    link_gives(&rt, &mut receiver, &[Next::Item(7), CLEAN]);
    late.join(&rt);
    Ok(())
}

// The receiver of a new link to which all of this input was copied.
fn copied_to_link<I: In<u32> + Drop>(
    rt: &impl Wait,
    alloc: Global,
    input: I,
) -> Result<Receiver<u32>, LinkFault> {
    let (sender, receiver) = link(alloc, 4)?;
    drop(copy_all(rt, input, sender));
    Ok(receiver)
}

// The same over batches.
fn copied_to_batches<I: In<u32> + Drop>(
    rt: &impl Wait,
    alloc: Global,
    input: I,
) -> Result<BatchReceiver<u32>, LinkFault> {
    let (sender, receiver) = batch_link(alloc, 4, 2)?;
    drop(copy_all(rt, input, sender));
    Ok(receiver)
}

// Fails unless these items and this end are copied from the receiver to a list.
fn expect_copied(
    rt: &(impl Abort + Wait),
    alloc: Global,
    input: Receiver<u32>,
    items: &[u32],
    last: End,
) {
    let Copies { input, out } = copy_all(rt, input, ListOut::new(alloc));
    drop(input);
    expect_eq(rt, &(out.items.as_slice(), out.last), &(items, last));
}

// From a list to a ring, from there over batches to another ring, and back to a list.
#[test]
fn a_worker_copies_between_all_ends(rt: HostRuntime) -> Result<(), Fail> {
    let alloc = rt.alloc();
    let fault = End::Fault(RunFault::Read { file: 3 });
    let list = copy_list(&rt, alloc, [7u32, 8, 9].to_vec(alloc)?, fault);
    let ring = copied_to_link(&rt, alloc, ListIn::new(list.items, list.last))?;
    let batches = copied_to_batches(&rt, alloc, ring)?;
    let ring = copied_to_link(&rt, alloc, batches)?;
    expect_copied(&rt, alloc, ring, &[7, 8, 9], fault);
    Ok(())
}

// What no worker needs is received to its end.
#[test]
fn a_rest_is_received(rt: HostRuntime) -> Result<(), Fail> {
    let items = [7u32, 8].to_vec(rt.alloc())?;
    let mut input = ListIn::new(items, End::Clean);
    receive_rest(&rt, &mut input);
    receives(&rt, &mut input, &[CLEAN]);
    Ok(())
}
