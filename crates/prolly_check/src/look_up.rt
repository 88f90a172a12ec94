//! Look-ups in a file that was checked: how they go down its tree, and what they find.
mod descent;
mod found;
mod leaves;
mod scan;

pub(crate) use descent::way_to;
pub(crate) use found::{find_nth, find_value};
pub use leaves::Leaves;
pub(crate) use scan::scan_pairs;
