//! Flags, each with the rule that clap reads it by.
ghost use Rattle.prolly_line.specs.Line.{all_flag, atomic_flag, flag, force_flag, hex_flag};
ghost use Rattle.prolly_line.specs.Line.{json_flag, lines_flag, quiet_flag, raw_flag};
ghost use Rattle.prolly_line.specs.Line.{removals_flag, sort_flag, stat_flag, sync_flag, text_flag};
ghost use Rattle.prolly_line.specs.Line.{unique_flag};
ghost use Rattle.prolly_line.specs.LocalArgs.{IsReadBy};

use clap::{Arg, ArgAction};
use std::alloc::Global;

/// `--NAME`
fn flag<'a>(alloc: Global, name: &'a str) -> Arg<'a>
    ensures { IsReadBy (flag name.now) result }
{
    Arg::new(alloc, name).long(name).action(ArgAction::SetTrue)
}

/// `--atomic`; `what` says for its help what it changes.
pub(crate) fn atomic_flag<'a>(alloc: Global, what: &'a str) -> Arg<'a>
    ensures { IsReadBy atomic_flag result }
{
    flag(alloc, "atomic").help(what)
}

/// `--sync`
pub(crate) fn sync_flag<'a>(alloc: Global) -> Arg<'a>
    ensures { IsReadBy sync_flag result }
{
    flag(alloc, "sync").help("Print the answer only once the output is on the disk")
}

/// `--force`
pub(crate) fn force_flag<'a>(alloc: Global) -> Arg<'a>
    ensures { IsReadBy force_flag result }
{
    flag(alloc, "force").help("Write over the output even if it is another kind of file")
}

/// `--text`; `what` says for its help what is text then, and in place of what.
pub(crate) fn text_flag<'a>(alloc: Global, what: &'a str) -> Arg<'a>
    ensures { IsReadBy text_flag result }
{
    flag(alloc, "text").help(what)
}

/// `--removals`; `what` says for its help which lines are removals then.
pub(crate) fn removals_flag<'a>(alloc: Global, what: &'a str) -> Arg<'a>
    ensures { IsReadBy removals_flag result }
{
    flag(alloc, "removals").help(what)
}

/// `--sort`
pub(crate) fn sort_flag<'a>(alloc: Global) -> Arg<'a>
    ensures { IsReadBy sort_flag result }
{
    flag(alloc, "sort").help("Take lines in any order; the last one of a key counts")
}

/// `--unique`
pub(crate) fn unique_flag<'a>(alloc: Global) -> Arg<'a>
    ensures { IsReadBy unique_flag result }
{
    flag(alloc, "unique").help("Refuse a key that stands in two lines. Needs --sort")
}

/// `--lines`
pub(crate) fn lines_flag<'a>(alloc: Global) -> Arg<'a>
    ensures { IsReadBy lines_flag result }
{
    flag(alloc, "lines").help("Explain lines from standard input, as `pack` reads them")
}

/// `--all`
pub(crate) fn all_flag<'a>(alloc: Global) -> Arg<'a>
    ensures { IsReadBy all_flag result }
{
    flag(alloc, "all").help("Explain each bad line, up to a hundred. Needs --lines")
}

/// `--raw`
pub(crate) fn raw_flag<'a>(alloc: Global) -> Arg<'a>
    ensures { IsReadBy raw_flag result }
{
    flag(alloc, "raw").help("Print only the bytes of the value, without a newline")
}

/// `--hex`
pub(crate) fn hex_flag<'a>(alloc: Global) -> Arg<'a>
    ensures { IsReadBy hex_flag result }
{
    flag(alloc, "hex").help("Write lines HEXKEY HEXVALUE, and not a record file")
}

/// `--stat`
pub(crate) fn stat_flag<'a>(alloc: Global) -> Arg<'a>
    ensures { IsReadBy stat_flag result }
{
    flag(alloc, "stat").help("Print how much has changed, and not the changes")
}

/// `--json`
pub(crate) fn json_flag<'a>(alloc: Global) -> Arg<'a>
    ensures { IsReadBy json_flag result }
{
    flag(alloc, "json").help("Print one line of JSON, in which keys are in hexadecimal")
}

/// `--quiet`; `what` says for its help what is not printed then.
pub(crate) fn quiet_flag<'a>(alloc: Global, what: &'a str) -> Arg<'a>
    ensures { IsReadBy quiet_flag result }
{
    flag(alloc, "quiet").help(what)
}
