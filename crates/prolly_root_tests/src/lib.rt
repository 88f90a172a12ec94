//! What no contract says of the libraries that go by a root: that their calls succeed where memory is
//! at hand and each failed read is told, and what they give for maps that were worked out elsewhere.
#![tactic(auto)]

#[cfg(test)]
mod expect;
#[cfg(test)]
mod growths;
#[cfg(test)]
mod read_ahead;
#[cfg(test)]
mod rooted;
#[cfg(test)]
mod rooted_differences;
#[cfg(test)]
mod set_proofs;
#[cfg(test)]
mod tree_file;
