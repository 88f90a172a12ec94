//! The commands, a file each: what its help says, the line that clap reads it by, and what it asks.
//!
//! A function that gives a command requires that clap has accepted the words, and so takes what has
//! to be there without a test.
mod apply;
mod build;
mod check;
mod diff;
mod dump;
mod explain;
mod get;
mod look_up;
mod nth;
mod pack;
mod prove;
mod root;
mod scan;
mod scratch;
mod shared;
mod stat;
mod verify;

pub(crate) use apply::{apply, apply_line};
pub(crate) use build::{build, build_line};
pub(crate) use check::{check, check_line};
pub(crate) use diff::{diff, diff_line};
pub(crate) use dump::{dump, dump_line};
pub(crate) use explain::{explain, explain_line};
pub(crate) use get::{get, get_line};
pub(crate) use nth::{nth, nth_line};
pub(crate) use pack::{pack, pack_line};
pub(crate) use prove::{prove, prove_line};
pub(crate) use root::{root, root_line};
pub(crate) use scan::{scan, scan_line};
pub(crate) use scratch::{scratch, scratch_line};
pub(crate) use stat::{stat, stat_line};
pub(crate) use verify::{verify, verify_line};
