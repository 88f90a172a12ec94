//! What no contract says of links and workers: that their calls succeed where memory is at hand,
//! that threads run and messages arrive, and what they give for examples that were worked out
//! elsewhere.
#![tactic(auto)]

#[cfg(test)]
mod applying;
#[cfg(test)]
mod files;
#[cfg(test)]
mod growths;
#[cfg(test)]
mod links;
#[cfg(test)]
mod loading;
#[cfg(test)]
mod merging;
#[cfg(test)]
mod old_trees;
#[cfg(test)]
mod stages;
