//! What no contract says of what the commands answer: that their calls succeed where memory is at
//! hand, and what they give for examples that were worked out elsewhere.
#![tactic(auto)]

#[cfg(test)]
mod expect;
#[cfg(test)]
mod growths;
#[cfg(test)]
mod tools;
