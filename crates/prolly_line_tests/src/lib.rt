//! What no contract says of the command line and of lines of text: that their calls succeed where
//! memory is at hand, and what they give for examples that were worked out elsewhere.
#![tactic(auto)]

#[cfg(test)]
mod command_line;
#[cfg(test)]
mod commands;
#[cfg(test)]
mod expect;
#[cfg(test)]
mod growths;
#[cfg(test)]
mod line_reading;
#[cfg(test)]
mod packing;
