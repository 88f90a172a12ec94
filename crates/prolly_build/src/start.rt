//! The work of each kind of worker, and how one is started on a thread of its own.
mod job;
mod jobs;
mod old_jobs;
mod site;

pub(crate) use job::{Input, Job, Runtime};
pub(crate) use jobs::{CutLeaves, CutNodes, Load, MergeLast, MergeTwo};
pub(crate) use old_jobs::{AppliedEnds, ApplyLeaves, LoadOld, OldRead};
pub use site::{AllStart, Permit};
pub(crate) use site::{Context, Lent};
