//! The run of a build, as a recursion from the highest stage down to the writer: each level starts
//! a worker, goes down, joins the worker, and meets the link into it. In this order: `stages`,
//! `base`, `mergers`, `loaders`, `writer`.
mod base;
mod files;
mod lists;
mod loaders;
mod mergers;
mod old_tree;
mod scoped;
mod stages;
mod writer;

pub(crate) use base::{Base, BaseResult, RunResult};
pub(crate) use files::{meet_files, new_files};
pub(crate) use old_tree::{OldBase, OldLinks, meet_old};
pub(crate) use scoped::run_scoped;
pub(crate) use writer::{OpenFile, WriterResult, WriterState};
