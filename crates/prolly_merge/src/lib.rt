//! Mergers: the records of several inputs become those of one, in key order.
//!
//! `merge_two` sends the records of two inputs, removals too, so that mergers can stand behind one
//! another. Of any number of inputs `merge` sends the pairs, `merge_records` the records, and
//! `merge_unique` the records, unless two inputs have one key. All are written over the traits `In`
//! and `Out`, and hold one record of each input.
#![tactic(auto)]

mod heads;
mod item;
mod many;
mod pairs;
mod records;
mod round;
mod two;
mod unique;

pub use heads::{Head, Peeked};
pub use pairs::{Merged, merge};
pub use records::{MergedRecords, merge_records};
pub use two::{MergedTwo, merge_two};
pub use unique::{Doubled, MergedUnique, merge_unique};
