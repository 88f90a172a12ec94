//! How far a long run has come, shown on a terminal while it is under way.
#![tactic(auto)]

mod counts;
mod progress;
mod watch;

pub use counts::{CountedSink, CountedSource, Counter, CountingGate, Counts};
pub use progress::Progress;
pub use watch::watched;
