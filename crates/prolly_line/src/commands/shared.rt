//! What several commands take, and what they say of it.
ghost use Rattle.std.specs.Prelude.{IfOk};
ghost use Rattle.clap.specs.Words.{App};
ghost use Rattle.prolly_line.specs.Line.{with_mode, with_range, with_trust};
ghost use Rattle.prolly_line.specs.LocalArgs.{HasCommandLine};

use crate::arguments;
use crate::assembly::{Line, with_argument};
use std::alloc::Global;

/// What FILE says where it is to be a chunk file.
pub(crate) const CHUNK_FILE: &str = "The chunk file";

/// What OUT says where it is to become one.
pub(crate) const MADE_CHUNK_FILE: &str = "The chunk file to make";

/// What `--bits` says where a tree is made.
pub(crate) const CUT: &str = "End a chunk at about one entry in 2^Q (0 to 24) [default: 12]";

/// What `--quiet` says where a tree is made.
pub(crate) const NO_PROGRESS: &str = "Show no progress on standard error";

/// What `--format` says where a chunk file is made.
pub(crate) const WRITTEN_FORMAT: &str = "Write a chunk file of format V (1 or 2)";

/// What `--atomic` says where a chunk file is made.
pub(crate) const ASIDE: &str = "Replace the output only once the new file is whole";

/// What `--atomic` says where this is done without it.
pub(crate) const ALWAYS_ASIDE: &str = "Refuse a pipe or a device; files are always replaced whole";

/// Adds the flags that say how the output is written; `atomic` is what `--atomic` says.
pub(crate) fn with_mode<'a>(alloc: Global, line: Line<'a>, atomic: &'a str) -> Line<'a>
    ensures { (app : App) → IfOk line.entry (HasCommandLine app)
        → IfOk result (HasCommandLine (with_mode app)) }
{
    let line = with_argument(line, arguments::atomic_flag(alloc, atomic));
    let line = with_argument(line, arguments::sync_flag(alloc));
    with_argument(line, arguments::force_flag(alloc))
}

/// Adds the options that name the root that is trusted, and the version of its tree's chunks.
pub(crate) fn with_trust<'a>(alloc: Global, line: Line<'a>) -> Line<'a>
    ensures { (app : App) → IfOk line.entry (HasCommandLine app)
        → IfOk result (HasCommandLine (with_trust app)) }
{
    let format = arguments::format_option(
        alloc,
        "The format of the tree (1 or 2); ignored without --root",
    );
    let line = with_argument(line, arguments::root_option(alloc));
    with_argument(line, format)
}

/// Adds the options that give a range, or many keys, in place of a key.
pub(crate) fn with_range<'a>(alloc: Global, line: Line<'a>) -> Line<'a>
    ensures { (app : App) → IfOk line.entry (HasCommandLine app)
        → IfOk result (HasCommandLine (with_range app)) }
{
    let line = with_argument(line, arguments::from_option(alloc));
    let line = with_argument(line, arguments::to_option(alloc));
    with_argument(line, arguments::keys_option(alloc))
}
