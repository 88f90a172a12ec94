//! Proofs of what a map has at all keys of a set: at those of a range, or of a list.
//!
//! The proof is the chunks of the map's tree that the set meets, each once, from the root down. Who
//! knows the root's reference learns from it the pairs of these keys, and that there is no other. So
//! who asks for a list of keys learns of each what the map has there, a value or nothing: see
//! [`laws::keys_are_found`].
//!
//! A checked file makes such proofs, too, and that of one key: see [`prove_checked_set`] and
//! [`prove_checked_key`].
#![tactic(auto)]

mod checked;
mod children;
mod due;
mod fault;
mod frames;
mod key_set;
pub mod laws;
mod located;
mod prove_fault;
mod proved;
mod prover;
mod sorted_keys;
mod start;
mod verifier;

pub use checked::{prove_checked_key, prove_checked_set};
pub use fault::SetFault;
pub use key_set::KeySet;
pub use prove_fault::ProveFault;
pub use proved::{PairsWanted, ProvedChunk};
pub use prover::prove_set;
pub use sorted_keys::{NotRising, SortedKeys};
pub use start::PROOF_START;
pub use verifier::SetVerifier;
