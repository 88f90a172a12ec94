//! The steps by which a line is put together: its texts, its arguments and its subcommands.
ghost use Rattle.std.specs.Prelude.{◌≡◌, IfOk, Ok};
ghost use Rattle.clap.specs.Words.{App, Rule, app_of, new_app, with_rule, with_subcommand};
ghost use Rattle.prolly_line.specs.LocalArgs.{HasCommandLine, IsReadBy};

use crate::help::Help;
use clap::{Arg, Command};
use std::alloc::{AllocError, Global};

/// A line that is being put together, where there was memory for it.
pub(crate) type Line<'a> = Result<Command<'a>, AllocError>;

/// A command with its texts, and no argument yet.
pub(crate) fn described<'a>(alloc: Global, name: &'a str, help: Help<'a>) -> Command<'a>
    ensures { HasCommandLine (new_app name.now) result }
{
    Command::new(alloc, name)
        .about(help.about)
        .long_about(help.details)
        .after_help(help.example)
}

/// Such a command, of which this is told in place of clap's own line of usage.
pub(crate) fn described_as<'a>(
    alloc: Global,
    name: &'a str,
    usage: &'a str,
    help: Help<'a>,
) -> Command<'a>
    ensures { HasCommandLine (new_app name.now) result }
{
    described(alloc, name, help).override_usage(usage)
}

/// The line as clap calls it in what it says of the usage, which it knows only below the program's line.
pub(crate) fn called<'a>(line: Line<'a>, name: &'a str) -> Line<'a> {
    line?.bin_name(name)
}

/// Adds an argument to a line, where there was memory for it. A `?` for each argument in one
/// function would make a large proof.
pub(crate) fn with_argument<'a>(line: Line<'a>, argument: Arg<'a>) -> Line<'a>
    ensures { (app : App) (rule : Rule) → IfOk line.entry (HasCommandLine app)
        → IsReadBy rule argument.entry → IfOk result (HasCommandLine (with_rule app rule)) }
{
    joined(line, Ok(argument), Command::arg)
}

/// Adds a subcommand to a line, where there was memory for both. A `?` for each subcommand in one
/// function would make a large proof.
pub(crate) fn with_subcommand<'a>(line: Line<'a>, subcommand: Line<'a>) -> Line<'a>
    ensures { (app inner : App) → IfOk line.entry (λ c. app_of c ≡ app)
        → IfOk subcommand.entry (HasCommandLine inner)
        → IfOk result (λ c. app_of c ≡ with_subcommand app inner.top) }
{
    joined(line, subcommand, Command::subcommand)
}

/// Adds three subcommands to a line, in their order, where there was memory for all of them.
pub(crate) fn with_three<'a>(
    line: Line<'a>,
    first: Line<'a>,
    second: Line<'a>,
    third: Line<'a>,
) -> Line<'a>
    ensures { (app one two three : App) → IfOk line.entry (λ c. app_of c ≡ app)
        → IfOk first.entry (HasCommandLine one) → IfOk second.entry (HasCommandLine two)
        → IfOk third.entry (HasCommandLine three) → IfOk result (λ c. app_of c
        ≡ with_subcommand (with_subcommand (with_subcommand app one.top) two.top) three.top) }
{
    let line = with_subcommand(line, first);
    let line = with_subcommand(line, second);
    with_subcommand(line, third)
}

/// A part joined to a whole, where there was memory for both. What a failure drops is one step of
/// the proof here, while in a function of commands each of their fields is a few.
fn joined<W: Drop, P: Drop, F: FnOnce(W, P) -> Result<W, AllocError>>(
    whole: Result<W, AllocError>,
    part: Result<P, AllocError>,
    join: F,
) -> Result<W, AllocError>
    requires { F.IsAlwaysCallable join }
    ensures { IfOk result (λ r. (w : _) × (p : _) × (whole ≡ Ok w) × (part ≡ Ok p)
        × F.post join w p (Ok r)) }
{
    join(whole?, part?)
}
