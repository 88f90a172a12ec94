//! The surface that callers write against: each item by its path, each type made or taken apart, and
//! each signature by a call. What the items do is tested elsewhere; here a name, a field or a case
//! that goes is an error of the compiler.
#![tactic(auto)]

#[cfg(test)]
mod entries;
#[cfg(test)]
mod files;
#[cfg(test)]
mod laws;
#[cfg(test)]
mod links;
#[cfg(test)]
mod tools;
#[cfg(test)]
mod workers;
