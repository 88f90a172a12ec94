//! Numbers that one thread sends and another receives.
ghost use Rattle.std.specs.Prelude.{◌≡◌, ◌++◌, IfOk};
ghost use Rattle.std.specs.List.{range_with_len};
ghost use Rattle.prolly_link.specs.declared.message.End.TheVariants.{Clean};
ghost use Rattle.prolly_link.specs.declared.message.Progress.TheVariants.{Ended};

use super::gather::gather;
use super::numbers::send_numbers;
use prolly_link::{
    BatchDrained, Drained, End, In, Out, RunFault, batch_link, link, meet, meet_batches,
};
use std::alloc::Global;
use std::snapshot::Snapshot;
use std::sync::Wait;
use std::thread;
use std::thread::{Promise, Threads};

// The sender comes back closed, having sent the numbers below `count` where its end is clean.
#[derive(Drop)]
struct SendsNumbers<O> {
    sender: Snapshot<O>,
    count: u32,
}

impl<O: Out<u32>> Promise<O::Closed> for SendsNumbers<O> {
    ghost kept_by = { λ p r. (O.closed_link r ≡ O.link p.sender.value) × (O.end_sent r ≡ Clean →
        O.all_sent r ≡ O.sent p.sender.value ++ range_with_len 0 p.count) };
}

// Sends the numbers below `count` from another thread, and receives in this one. Answers the closed
// sender, and what came before a clean end.
fn send_and_gather<I, O, R>(
    rt: R,
    alloc: Global,
    sender: O,
    receiver: &mut I,
    count: u32,
) -> Result<(O::Closed, Vec<u32>), RunFault>
where
    I: In<u32>,
    O: Out<u32> + Send + Drop + 'static,
    O::Closed: Send + Drop + 'static,
    R: Threads + Wait + Copy + Send + 'static,
    ensures reads { I.link receiver.new ≡ I.link receiver.old }
    ensures got { IfOk result (λ across. (I.progress receiver.new ≡ Ended Clean) ×
        (I.received receiver.old receiver.new ≡ across.1.items)) }
    ensures writes { IfOk result (λ across. O.closed_link across.0 ≡ O.link sender) }
    ensures sent { IfOk result (λ across. O.end_sent across.0 ≡ Clean →
        O.all_sent across.0 ≡ O.sent sender ++ range_with_len 0 count) }
{
    let promise = SendsNumbers {
        sender: Snapshot::of(&sender),
        count,
    };
    let Ok(child) = thread::spawn_with(&rt, promise, move || send_numbers(&rt, sender, count))
    else {
        return Err(RunFault::NoThread);
    };
    let gathered = gather(&rt, alloc, receiver);
    let closed = child.join(&rt);
    match gathered? {
        (got, End::Clean) => Ok((closed, got)),
        (_, End::Fault(fault)) => Err(fault),
    }
}

// Over a link with room for one message.
pub(super) fn numbers_across<R: Threads + Wait + Copy + Send + 'static>(
    rt: R,
    alloc: Global,
    count: u32,
) -> Result<Vec<u32>, RunFault>
    ensures { IfOk result (λ got. got.items ≡ range_with_len 0 count) }
{
    let Ok((sender, mut receiver)) = link(alloc, 1) else {
        return Err(RunFault::Memory);
    };
    let (closed, got) = send_and_gather(rt, alloc, sender, &mut receiver, count)?;
    let Drained::Ended(ended) = receiver.drain(&rt) else {
        return Err(RunFault::Lost);
    };
    drop(meet(closed, ended));
    Ok(got)
}

// Over a link with room for one batch of 16.
pub(super) fn numbers_across_in_batches<R: Threads + Wait + Copy + Send + 'static>(
    rt: R,
    alloc: Global,
    count: u32,
) -> Result<Vec<u32>, RunFault>
    ensures { IfOk result (λ got. got.items ≡ range_with_len 0 count) }
{
    let Ok((sender, mut receiver)) = batch_link(alloc, 1, 16) else {
        return Err(RunFault::Memory);
    };
    let (closed, got) = send_and_gather(rt, alloc, sender, &mut receiver, count)?;
    let BatchDrained::Ended(ended) = receiver.drain(&rt) else {
        return Err(RunFault::Lost);
    };
    drop(meet_batches(closed, ended));
    Ok(got)
}
