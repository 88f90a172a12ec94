//! The pipelined build: record files to one chunk file, by threads that pass items through links.
#![tactic(auto)]

mod apply;
mod config;
mod driver;
mod end;
pub mod laws;
mod links;
mod old_end;
mod run;
mod start;

pub use apply::{CHANGES_LIMIT, apply_changes, apply_changes_with};
pub use config::{Config, ConfigFault};
pub use driver::{FILES_LIMIT, build, build_with};
pub use old_end::AppliedChanges;
pub use prolly_report::{ApplyFault, Report};
pub use start::{AllStart, Permit};
