//! Laws of the definitions that contracts speak of. Each is the contract of a function that does
//! nothing: to call it is to know the law, and to prove the crate is to prove it.
#![tactic(auto)]

pub mod applying;
pub mod differences;
pub mod entries;
pub mod examples;
pub mod merging;
pub mod passing;
pub mod stages;
pub mod trees;
