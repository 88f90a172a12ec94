//! Records that come in any order, put in the order of their keys, in bounded memory.
//!
//! A [`Run`] takes records until its budget is full. Put in order it is a [`SortedRun`], whose keys
//! rise: of records with one key the last one counts, and a removal stays a removal. A [`Sorter`]
//! takes any number of records: where a run is full, it goes to a file of a [`RunStore`], and at the
//! end the files are merged into one.
#![tactic(auto)]

mod fault;
mod group;
mod key_rule;
pub mod laws;
mod merging;
mod number;
mod open_run;
mod order;
mod pile;
mod place;
mod rank;
mod run;
mod shelf;
mod sorted_file;
mod sorted_run;
mod sorter;
mod store;
mod stored_runs;

pub use fault::{DoubledKey, PushFault, SorterFault};
pub use run::Run;
pub use sorted_file::SortedFile;
pub use sorted_run::SortedRun;
pub use sorter::Sorter;
pub use store::{RunStore, StoreFault};
