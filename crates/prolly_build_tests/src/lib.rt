//! What no contract says of a build: that it succeeds where memory is at hand, that its workers run
//! at once, what it gives for examples that were worked out elsewhere, and what is shown of it
//! meanwhile.
#![tactic(auto)]

#[cfg(test)]
mod building;
#[cfg(test)]
mod expect;
#[cfg(test)]
mod progress;
