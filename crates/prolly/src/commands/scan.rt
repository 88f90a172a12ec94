//! The command `scan`.
ghost use Rattle.prolly_line.specs.GivenCommand.{IsWithinLimits};
ghost use Rattle.prolly.specs.Kinds.{IsScan};

use crate::commands::version_of;
use crate::host::Host;
use crate::named_tree::{NamedTree, OpenTree};
use prolly_answer::{RootScan, answer_scan_by_root, answer_scan_in};
use prolly_fault::Answer;
use prolly_files::{Found, Refusal, Stream, stdout_sink};
use prolly_line::Command;
use std::thread::Threads;

/// `scan [--text] [--root ROOT] [--format V] FILE KEY LIMIT`. With a root it prints as it goes, so it is
/// refused where the system can't tell what standard output is.
pub fn answer<T: Threads + Sync>(host: &Host<'_, T>, command: Command) -> Result<Answer, Refusal>
    requires limits { IsWithinLimits command }
    requires scan { IsScan command }
{
    let Command::Scan {
        file,
        from,
        limit,
        root,
        version,
        notation,
    } = command
    else {
        unreachable!()
    };
    let rt = host.rt;
    let alloc = rt.alloc();
    let tree = NamedTree::of(file, root, version_of(version));
    let printed = match tree.root() {
        None => Found::Nothing,
        Some(_) => Stream::Output.found(rt)?,
    };
    let answer = match tree.open(rt, printed)? {
        OpenTree::Whole(mut source) => {
            answer_scan_in(&host.hasher(), alloc, &mut source, &from, limit, notation)
        }
        OpenTree::Rooted(mut chunks, known) => {
            let scan = RootScan {
                version: known.version,
                root: &known.root,
                from: &from,
                limit,
                notation,
            };
            answer_scan_by_root(
                &host.hasher(),
                alloc,
                &mut chunks,
                &scan,
                &mut stdout_sink(rt)?,
            )
        }
    };
    Ok(answer?)
}
