//! Proofs of what a map has at a key: making them, and reading them.

mod fault;
mod prover;
mod start;
mod verifier;

pub use fault::ProofFault;
pub use prover::proof_of;
pub use verifier::verify;
