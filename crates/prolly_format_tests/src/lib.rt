//! What no contract says of the libraries of the formats: that their calls succeed where memory is
//! at hand, and what they give for examples that were worked out elsewhere.
#![tactic(auto)]

#[cfg(test)]
mod checking;
#[cfg(test)]
mod entries;
#[cfg(test)]
mod expect;
#[cfg(test)]
mod files;
#[cfg(test)]
mod growths;
#[cfg(test)]
mod levels;
