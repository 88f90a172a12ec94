//! The making of a batch link.
ghost use Rattle.std.specs.Prelude.{◌≡◌, ◌≤◌, [], IfOk};
ghost use Rattle.prolly_link.specs.Identity.{room_of};

use crate::batch::receiver::BatchReceiver;
use crate::batch::sender::BatchSender;
use crate::in_flight::InFlight;
use crate::message::Progress;
use crate::new_link::{LinkFault, link};
use crate::waiting::shared;
use rtrb::RingBuffer;
use std::alloc::Global;
use std::collections::VecDeque;

/// The two ends of a new link whose messages are batches of up to `batch` items, with room for
/// `capacity` messages. It takes the memory of the first batch.
pub fn batch_link<T: Send + Drop>(
    alloc: Global,
    capacity: usize,
    batch: usize,
) -> Result<(BatchSender<T>, BatchReceiver<T>), LinkFault>
    requires least { 1 ≤ capacity }
    requires most { capacity ≤ 4096 }
    requires least_batch { 1 ≤ batch }
    requires most_batch { batch ≤ 1024 }
    ensures link { IfOk result (λ ends. ends.0.link ≡ ends.1.link) }
    ensures capacity { IfOk result (λ ends. room_of ends.0.link ≡ capacity) }
    ensures sent { IfOk result (λ ends. ends.0.items ≡ []) }
    ensures room { IfOk result (λ ends. ends.0.room ≡ batch) }
    ensures batch { IfOk result (λ ends. ends.0.batch ≡ batch) }
    ensures held { IfOk result (λ ends. ends.0.held ≡ 0) }
    ensures received { IfOk result (λ ends. ends.1.items ≡ []) }
    ensures progress { IfOk result (λ ends. ends.1.progress ≡ Progress.Open) }
{
    let Ok(pending) = Vec::with_capacity(alloc, batch) else {
        return Err(LinkFault::Memory);
    };
    let Ok((sent, received)) = shared(alloc, InFlight::new(capacity)) else {
        return Err(LinkFault::Memory);
    };
    let Ok((spent, spares)) = RingBuffer::new(alloc, capacity) else {
        return Err(LinkFault::Memory);
    };
    let (sender, receiver) = link(alloc, capacity)?;
    Ok((
        BatchSender {
            sender,
            pending,
            size: batch,
            bytes: 0,
            spares,
            in_flight: sent,
            alloc,
        },
        BatchReceiver {
            receiver,
            hand: VecDeque::new(alloc),
            spent,
            in_flight: received,
        },
    ))
}
