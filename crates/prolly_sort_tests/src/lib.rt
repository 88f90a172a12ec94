//! What no contract says of runs and sorters: that their calls succeed where memory is at hand, and what they
//! give for records whose order was worked out elsewhere.
#![tactic(auto)]

#[cfg(test)]
mod drawn;
#[cfg(test)]
mod expect;
#[cfg(test)]
mod files;
#[cfg(test)]
mod growths;
#[cfg(test)]
mod runs;
#[cfg(test)]
mod sorters;
#[cfg(test)]
mod tables;
