//! The commands, each over the files that it names. What the words alone decide is told first; then a
//! file of keys is read, since it stands for words; then input files are opened in the order of the
//! words, and then the output is made, before anything else is read.
mod apply;
mod asked;
mod bits;
mod build;
mod check;
mod diff;
mod dump;
mod explain;
mod get;
mod nth;
mod pack;
mod prove;
mod record_files;
mod root;
mod scan;
mod scratch;
mod stat;
mod verify;
mod watch;

ghost use Rattle.std.specs.Prelude.{◌≤◌};
ghost use Rattle.prolly_line.specs.GivenCommand.{IsWithinLimits};

use crate::host::Host;
use prolly_entry::Version;
use prolly_fault::Answer;
use prolly_files::{Refusal, told};
use prolly_line::Command;
use std::alloc::AllocError;
use std::sync::Wait;
use std::thread::Threads;
use std::time::Clock;

/// Does a command.
pub fn answer_of<T: Wait + Threads + Clock + Sync>(
    host: &Host<'_, T>,
    command: Command,
) -> Result<Answer, AllocError>
    requires { IsWithinLimits command }
{
    told(answer_or_refusal(host, command))
}

/// The answer of a command that has its files.
fn answer_or_refusal<T: Wait + Threads + Clock + Sync>(
    host: &Host<'_, T>,
    command: Command,
) -> Result<Answer, Refusal>
    requires { IsWithinLimits command }
{
    match command {
        Command::Pack { .. } | Command::PackSorted { .. } => pack::answer(host, command),
        Command::Scratch { .. } => scratch::answer(host.rt, command),
        Command::Build { .. } => build::answer(host, command),
        Command::Apply { .. } => apply::answer(host, command),
        Command::Explain { .. } | Command::ExplainLines { .. } => explain::answer(host.rt, command),
        Command::Check { .. } | Command::CheckFiles { .. } => check::answer(host, command),
        Command::Root { file } => root::answer(host.rt, &file),
        Command::Stat { .. } => stat::answer(host, command),
        Command::Get { .. } | Command::GetKeys { .. } => get::answer(host, command),
        Command::Scan { .. } => scan::answer(host, command),
        Command::Nth { .. } => nth::answer(host, command),
        Command::Dump { .. } => dump::answer(host, command),
        Command::Diff { .. } => diff::answer(host, command),
        Command::Prove { .. } => prove::answer(host, command),
        Command::Verify { .. } => verify::answer(host.rt, command),
    }
}

/// The version of this number.
fn version_of(number: u8) -> Version
    requires { (1 ≤ number) × (number ≤ 2) }
{
    Version::of(number).unwrap()
}
