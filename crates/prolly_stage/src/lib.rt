//! The stages of the pipeline: each makes the chunks of one level of the tree, and passes on those
//! of the levels below.
//!
//! A stage is written over the traits of a link's ends, so it runs over links between threads and
//! over lists in one thread alike. What it makes of its input is `prolly_chunk`'s; here it is
//! received and sent.
#![tactic(auto)]

mod gate;
mod gated;
mod gated_out;
mod inner;
pub mod laws;
mod leaf;
mod staged;

pub use gate::{Gate, OLD_TREE, OpenGate, Worker};
pub use gated::Gated;
pub use inner::{inner_stage, inner_stage_as};
pub use leaf::{leaf_stage, take_decided_pair, take_pair};
pub use prolly_chunk::ChunkEvent;
pub use staged::{Staged, send_closed, send_event};
