//! What a build comes to, over record files or over an old tree. It stands apart so that what the
//! commands answer needs no build.
#![tactic(auto)]

mod apply_fault;
mod report;

pub use apply_fault::ApplyFault;
pub use report::Report;
