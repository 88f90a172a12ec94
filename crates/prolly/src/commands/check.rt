//! The command `check`, of one file and of several.
ghost use Rattle.prolly_line.specs.GivenCommand.{IsWithinLimits};
ghost use Rattle.prolly.specs.Kinds.{IsCheck};

use crate::commands::version_of;
use crate::host::Host;
use crate::known_root::KnownRoot;
use prolly_answer::{answer_check_by, answer_check_by_root, status_behind};
use prolly_fault::{Answer, Fault};
use prolly_files::{Input, Refusal, Stream, print, told};
use prolly_line::Command;
use std::thread::Threads;

/// The answer of a `check`.
pub fn answer<T: Threads + Sync>(host: &Host<'_, T>, command: Command) -> Result<Answer, Refusal>
    requires limits { IsWithinLimits command }
    requires check { IsCheck command }
{
    match command {
        Command::Check {
            file,
            root,
            version,
        } => {
            let root = KnownRoot::given(root, version_of(version));
            check(host, &file, root)
        }
        Command::CheckFiles {
            files,
            root,
            version,
            quiet,
        } => {
            let root = KnownRoot::given(root, version_of(version));
            check_files(host, &files, root, quiet)
        }
        _ => unreachable!(),
    }
}

/// `check [--root ROOT] [--format V] FILE`. With a root the file may be of any size.
fn check<T: Threads + Sync>(
    host: &Host<'_, T>,
    file: &str,
    root: Option<KnownRoot>,
) -> Result<Answer, Refusal> {
    check_input(host, Input::open(host.rt, file)?, root)
}

/// Checks a file that is open.
fn check_input<T: Threads + Sync>(
    host: &Host<'_, T>,
    input: Input,
    root: Option<KnownRoot>,
) -> Result<Answer, Refusal> {
    let alloc = host.rt.alloc();
    let answer = match root {
        None => {
            let mut source = input.into_chunk_file(host.rt)?;
            answer_check_by(&host.hasher(), alloc, &mut source)
        }
        Some(KnownRoot { version, root }) => {
            let mut source = input.into_source();
            answer_check_by_root(&host.hasher(), alloc, &mut source, version, &root)
        }
    };
    Ok(answer?)
}

/// `check [--root ROOT] [--format V] [--quiet] FILE...`, of several files, or where nothing is to be
/// told of those that are lawful. What is told of a file is printed before the next one is read. The
/// status is that of the first refusal.
fn check_files<T: Threads + Sync>(
    host: &Host<'_, T>,
    files: &[String],
    root: Option<KnownRoot>,
    quiet: bool,
) -> Result<Answer, Refusal> {
    let rt = host.rt;
    let printed = Stream::Output.found(rt)?;
    let mut status = 0;
    for file in files {
        let answer = match Input::open_beside(rt, file, printed) {
            Ok(input) => {
                let answer = told(check_input(host, input, root))?;
                answer.in_file(rt.alloc(), file, quiet)?
            }
            Err(refusal) => refusal.into_answer()?,
        };
        if print(rt, &answer).is_err() {
            return Err(Refusal::of_fault(rt, Fault::Write));
        }
        status = status_behind(status, &answer);
    }
    Ok(Answer {
        status,
        ..Answer::of_done(rt.alloc())
    })
}
