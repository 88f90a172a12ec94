//! The library for C: checks of chunk files, and look-ups in them, over bytes that the caller has
//! in memory.
//!
//! Bytes and arrays go in as a pointer and a length, numbers come out through pointers, and what is
//! found is a pointer into the caller's own bytes and a length. Nothing is kept between calls. The
//! header include/prolly.h says the same for who writes C.
#![tactic(auto)]

mod changes;
mod check;
mod cursor;
mod diff;
mod found;
mod gathered;
mod get;
mod index;
mod leaf;
mod lent;
mod prove;
mod prove_range;
mod prover;
mod put;
mod range;
mod record;
mod run;
mod scratch;
mod shown;
mod status;
mod steps;
mod verified;
mod verify;
mod verify_range;
mod writer;
