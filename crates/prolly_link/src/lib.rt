//! Links between workers: items go from one sender to one receiver, in order, and then one end.
//! An end is clean, or tells why a run has no answer. A link hands it on, and does not look at it.
//!
//! `link` carries items one by one over a bounded ring, and `batch_link` in batches. A worker is
//! written over the traits `In` and `Out`, which `ListIn` and `ListOut` meet too, so that it can be
//! run over lists in one thread. Contracts see an end as its link and the items that went through
//! it. Where both ends are in one thread, `compare` and the like show that what was received, with
//! its end, begins what was sent. Where both have given all, `meet` and `meet_batches` show that it
//! is what was sent.
#![tactic(auto)]

mod batch;
mod closed;
mod ends;
mod fault;
mod in_flight;
mod lists;
mod message;
mod new_link;
mod receiver;
mod sender;
mod waiting;

pub use batch::{
    BatchDrained, BatchReceiver, BatchSender, ClosedBatch, EndedBatch, LostBatch, MetBatch,
    batch_link, compare_batches, compare_closed_batches, meet_batches,
};
pub use closed::{
    ClosedSender, Drained, EndedReceiver, LostReceiver, Met, compare, compare_closed, meet,
};
pub use ends::{In, Out, receive_rest};
pub use fault::RunFault;
pub use lists::{ClosedList, ListIn, ListOut};
pub use message::{End, Next, Progress};
pub use new_link::{LinkFault, link};
pub use receiver::Receiver;
pub use sender::Sender;
