//! The command `prove`.
ghost use Rattle.prolly_line.specs.GivenCommand.{IsWithinLimits};
ghost use Rattle.prolly.specs.Kinds.{IsProve};

use crate::commands::asked::{Asked, keys_sought};
use crate::commands::version_of;
use crate::host::Host;
use crate::known_root::KnownRoot;
use crate::named_tree::{NamedTree, OpenTree};
use prolly_answer::{
    answer_prove, answer_prove_by_root, answer_prove_set, answer_prove_set_by_root,
};
use prolly_fault::Answer;
use prolly_files::{Output, OutputKind, Refusal, Target, buffered};
use prolly_io::ToWrite;
use prolly_line::Command;
use prolly_range::KeySet;
use std::alloc::AllocError;
use std::io::Write;
use std::thread::Threads;

/// `prove [--text] [--root ROOT] [--format V] [--from KEY] [--to KEY] [--keys KEYS] FILE [KEY] OUT
/// [--atomic] [--sync] [--force]`
pub fn answer<T: Threads + Sync>(host: &Host<'_, T>, command: Command) -> Result<Answer, Refusal>
    requires limits { IsWithinLimits command }
    requires prove { IsProve command }
{
    let Command::Prove {
        file,
        sought,
        root,
        version,
        out,
        notation,
        mode,
    } = command
    else {
        unreachable!()
    };
    let rt = host.rt;
    let tree = NamedTree::of(file, root, version_of(version));
    let target = Target::look(rt, &out, OutputKind::Proof, mode);
    let listed = keys_sought(rt, &sought, notation, target.found())?;
    let asked = Asked::of(rt, &sought, &listed)?;
    let tree = tree.open_after(rt, listed.file, target.found())?;
    let mut output = Output::open(rt, target)?;
    let answer = match asked {
        Asked::Key(key) => prove_key(host, tree, key, &mut output),
        Asked::Set(set) => prove_set(host, tree, set, &mut output),
    };
    output.finish(rt, answer)
}

/// Writes a proof of what the tree has at the key.
fn prove_key<T: Threads + Sync, W: Write + Drop>(
    host: &Host<'_, T>,
    tree: OpenTree,
    key: &[u8],
    writer: W,
) -> Result<Answer, AllocError> {
    let alloc = host.rt.alloc();
    let mut sink = ToWrite::new(writer);
    match tree {
        OpenTree::Whole(mut source) => {
            answer_prove(&host.hasher(), alloc, &mut source, key, &mut sink)
        }
        OpenTree::Rooted(mut chunks, known) => {
            let KnownRoot { version, root } = known;
            answer_prove_by_root(alloc, &mut chunks, version, &root, key, &mut sink)
        }
    }
}

/// Writes a proof of what the tree has at the keys of the set.
fn prove_set<T: Threads + Sync, W: Write + Drop>(
    host: &Host<'_, T>,
    tree: OpenTree,
    set: KeySet<'_>,
    writer: W,
) -> Result<Answer, AllocError> {
    let alloc = host.rt.alloc();
    let mut sink = buffered(host.rt, ToWrite::new(writer))?;
    match tree {
        OpenTree::Whole(mut source) => {
            answer_prove_set(&host.hasher(), alloc, &mut source, set, &mut sink)
        }
        OpenTree::Rooted(mut chunks, known) => {
            let KnownRoot { version, root } = known;
            answer_prove_set_by_root(alloc, &mut chunks, version, &root, set, &mut sink)
        }
    }
}
