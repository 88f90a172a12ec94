//! The command `nth`.
ghost use Rattle.prolly_line.specs.GivenCommand.{IsWithinLimits};
ghost use Rattle.prolly.specs.Kinds.{IsNth};

use crate::commands::version_of;
use crate::host::Host;
use crate::known_root::KnownRoot;
use crate::named_tree::{NamedTree, OpenTree};
use prolly_answer::{answer_nth_by_root, answer_nth_in};
use prolly_entry::Version;
use prolly_fault::{Answer, Fault};
use prolly_files::{Found, Refusal};
use prolly_line::Command;
use std::thread::Threads;

/// `nth [--text] [--root ROOT] [--format V] FILE N`. Chunks of version One have no counts to go by.
pub fn answer<T: Threads + Sync>(host: &Host<'_, T>, command: Command) -> Result<Answer, Refusal>
    requires limits { IsWithinLimits command }
    requires nth { IsNth command }
{
    let Command::Nth {
        file,
        n,
        root,
        version,
        notation,
    } = command
    else {
        unreachable!()
    };
    let rt = host.rt;
    let alloc = rt.alloc();
    let tree = NamedTree::of(file, root, version_of(version));
    if matches!(tree.root(), Some(known) if known.version == Version::One) {
        return Err(Refusal::of_fault(rt, Fault::NoCounts));
    }
    let answer = match tree.open(rt, Found::Nothing)? {
        OpenTree::Whole(mut source) => {
            answer_nth_in(&host.hasher(), alloc, &mut source, n, notation)
        }
        OpenTree::Rooted(mut chunks, known) => {
            let (chunks, KnownRoot { version, root }) = (&mut chunks, known);
            answer_nth_by_root(alloc, chunks, version, &root, n, notation)
        }
    };
    Ok(answer?)
}
