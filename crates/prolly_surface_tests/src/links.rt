//! `prolly_link`.
ghost use Rattle.std.specs.Prelude.{◌≡◌};

use prolly_link::{
    BatchDrained, BatchReceiver, BatchSender, ClosedBatch, ClosedList, ClosedSender, Drained, End,
    EndedBatch, EndedReceiver, In, LinkFault, ListIn, ListOut, LostBatch, LostReceiver, Met,
    MetBatch, Next, Out, Receiver, RunFault, Sender, batch_link, link, meet, meet_batches,
};
use std::alloc::Global;
use std::sync::Wait;
use std::test::Fail;

fn file_of(fault: RunFault) -> Option<u32> {
    match fault {
        RunFault::Memory
        | RunFault::Write
        | RunFault::TooTall
        | RunFault::NoThread
        | RunFault::Lost
        | RunFault::TooManyFiles => None,
        RunFault::Read { file } | RunFault::TooManyRecords { file } => Some(file),
        RunFault::Truncated { file, place: _ }
        | RunFault::KeyTooLong { file, place: _ }
        | RunFault::ValueTooLong { file, place: _ }
        | RunFault::OutOfOrder { file, place: _ } => Some(file),
    }
}

fn fault_of(end: End) -> Option<RunFault> {
    match end {
        End::Clean => None,
        End::Fault(fault) => Some(fault),
    }
}

fn links(alloc: Global) -> Result<(Sender<u8>, Receiver<u8>), LinkFault> {
    match batch_link::<u8>(alloc, 4, 2) {
        Ok(ends) => {
            let _: (BatchSender<u8>, BatchReceiver<u8>) = ends;
        }
        Err(LinkFault::Memory) => {}
    }
    link(alloc, 4)
}

fn through<T: Drop, O: Out<T>, I: In<T>, R: Wait>(
    rt: &R,
    mut out: O,
    input: &mut I,
    item: T,
) -> O::Closed {
    let end = match out.send(rt, item) {
        Ok(()) => End::Clean,
        Err(_) => End::Fault(RunFault::Memory),
    };
    match input.recv(rt) {
        Next::Item(_) | Next::Lost => out.close(rt, end),
        Next::End(end) => out.close(rt, end),
    }
}

fn closed<R: Wait>(rt: &R, mut sender: Sender<u8>) -> ClosedSender<u8> {
    let _ = sender.send(rt, 1);
    sender.close(rt, End::Clean)
}

fn closed_batch<R: Wait>(rt: &R, mut sender: BatchSender<u8>) -> ClosedBatch<u8> {
    let _ = sender.send(rt, 1);
    sender.close(rt, End::Clean)
}

fn drained<R: Wait>(rt: &R, mut receiver: Receiver<u8>) -> Drained<u8> {
    let _ = receiver.recv(rt);
    receiver.drain(rt)
}

fn drained_batch<R: Wait>(rt: &R, mut receiver: BatchReceiver<u8>) -> BatchDrained<u8> {
    let _ = receiver.recv(rt);
    receiver.drain(rt)
}

fn ended(drained: Drained<u8>) -> Option<EndedReceiver<u8>> {
    match drained {
        Drained::Ended(receiver) => Some(receiver),
        Drained::Lost(lost) => {
            let _: LostReceiver<u8> = lost;
            None
        }
    }
}

fn ended_batch(drained: BatchDrained<u8>) -> Option<EndedBatch<u8>> {
    match drained {
        BatchDrained::Ended(receiver) => Some(receiver),
        BatchDrained::Lost(lost) => {
            let _: LostBatch<u8> = lost;
            None
        }
    }
}

fn met(sender: ClosedSender<u8>, receiver: EndedReceiver<u8>) -> Met<u8>
    requires { sender.link ≡ receiver.link }
{
    meet(sender, receiver)
}

fn met_batches(sender: ClosedBatch<u8>, receiver: EndedBatch<u8>) -> MetBatch<u8>
    requires { sender.link ≡ receiver.link }
{
    meet_batches(sender, receiver)
}

#[test]
fn links_are_named_as_ever(rt: HostRuntime) -> Result<(), Fail> {
    let alloc = rt.alloc();
    let mut input: ListIn<u8> = ListIn::new(b"a".to_vec(alloc)?, End::Clean);
    let ClosedList { items, last } = through(&rt, ListOut::new(alloc), &mut input, b'b');
    assert!(rt; items.len() == 1 && last == End::Clean);
    Ok(())
}
