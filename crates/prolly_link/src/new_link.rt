//! The making of a link.
ghost use Rattle.std.specs.Prelude.{◌≡◌, ◌≤◌, [], IfOk, Some, codes};
ghost use Rattle.prolly_link.specs.Identity.{room_of};

use crate::message::Progress;
use crate::receiver::Receiver;
use crate::sender::Sender;
use crate::waiting::Patience;
use rtrb::RingBuffer;
use std::alloc::Global;
use std::error::Error;
use std::fmt;
use std::fmt::{Display, Formatter};

/// Why there is no link.
#[derive(Clone, Copy, PartialEq, Eq, Debug)]
pub enum LinkFault {
    Memory,
}

impl Display for LinkFault {
    ghost output = { λ _. Some (codes "out of memory") };

    fn fmt<W: fmt::Write>(&self, f: &mut Formatter<W>) -> fmt::Result {
        match self {
            LinkFault::Memory => f.write_str("out of memory"),
        }
    }
}

impl Error for LinkFault {}

/// The two ends of a new link, with room for `capacity` messages. The end is a message, as an item
/// is.
pub fn link<T: Send + Drop>(
    alloc: Global,
    capacity: usize,
) -> Result<(Sender<T>, Receiver<T>), LinkFault>
    requires least { 1 ≤ capacity }
    requires most { capacity ≤ 4096 }
    ensures link { IfOk result (λ ends. ends.0.link ≡ ends.1.link) }
    ensures capacity { IfOk result (λ ends. room_of ends.0.link ≡ capacity) }
    ensures sent { IfOk result (λ ends. ends.0.items ≡ []) }
    ensures received { IfOk result (λ ends. ends.1.items ≡ []) }
    ensures progress { IfOk result (λ ends. ends.1.progress ≡ Progress.Open) }
{
    let Ok((sending, receiving)) = Patience::pair(alloc) else {
        return Err(LinkFault::Memory);
    };
    match RingBuffer::new(alloc, capacity) {
        Ok((producer, consumer)) => Ok((
            Sender {
                ring: producer,
                patience: sending,
            },
            Receiver {
                ring: consumer,
                progress: Progress::Open,
                patience: receiving,
            },
        )),
        Err(_) => Err(LinkFault::Memory),
    }
}
