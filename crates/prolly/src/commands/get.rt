//! The command `get`, of one key and of many.
ghost use Rattle.prolly_line.specs.GivenCommand.{IsWithinLimits};
ghost use Rattle.prolly.specs.Kinds.{IsGet};

use crate::commands::version_of;
use crate::host::Host;
use crate::known_root::KnownRoot;
use crate::listed_keys::ListedKeys;
use crate::named_tree::{NamedTree, OpenTree};
use prolly_answer::{
    answer_get_by_root, answer_get_in, answer_get_keys, answer_get_keys_by_root, answer_get_raw,
    answer_get_raw_by_root,
};
use prolly_fault::Answer;
use prolly_files::{Found, Refusal, Stream, stdout_sink};
use prolly_line::Command;
use prolly_text::Notation;
use std::thread::Threads;

/// The answer of a `get`.
pub fn answer<T: Threads + Sync>(host: &Host<'_, T>, command: Command) -> Result<Answer, Refusal>
    requires limits { IsWithinLimits command }
    requires get { IsGet command }
{
    match command {
        Command::Get {
            file,
            key,
            root,
            version,
            notation,
            raw,
        } => {
            let tree = NamedTree::of(file, root, version_of(version));
            get(host, &tree, &key, notation, raw)
        }
        Command::GetKeys {
            file,
            keys,
            root,
            version,
            notation,
        } => {
            let tree = NamedTree::of(file, root, version_of(version));
            get_keys(host, &tree, &keys, notation)
        }
        _ => unreachable!(),
    }
}

/// `get [--text] [--raw] [--root ROOT] [--format V] FILE KEY`. With a root no more of the file is read
/// than is needed.
fn get<T: Threads + Sync>(
    host: &Host<'_, T>,
    tree: &NamedTree,
    key: &[u8],
    notation: Notation,
    raw: bool,
) -> Result<Answer, Refusal> {
    let alloc = host.rt.alloc();
    let answer = match tree.open(host.rt, Found::Nothing)? {
        OpenTree::Whole(mut source) => {
            if raw {
                answer_get_raw(&host.hasher(), alloc, &mut source, key)
            } else {
                answer_get_in(&host.hasher(), alloc, &mut source, key, notation)
            }
        }
        OpenTree::Rooted(mut chunks, known) => {
            let (chunks, KnownRoot { version, root }) = (&mut chunks, known);
            if raw {
                answer_get_raw_by_root(alloc, chunks, version, &root, key)
            } else {
                answer_get_by_root(alloc, chunks, version, &root, key, notation)
            }
        }
    };
    Ok(answer?)
}

/// `get [--text] [--root ROOT] [--format V] --keys KEYS FILE`, which prints a line for each key.
fn get_keys<T: Threads + Sync>(
    host: &Host<'_, T>,
    tree: &NamedTree,
    keys: &str,
    notation: Notation,
) -> Result<Answer, Refusal> {
    let rt = host.rt;
    let printed = Stream::Output.found(rt)?;
    let listed = ListedKeys::read(rt, keys, notation, printed)?;
    let opened = tree.open_after(rt, listed.file, printed)?;
    let (alloc, keys) = (rt.alloc(), &listed.keys);
    let mut sink = stdout_sink(rt)?;
    let answer = match opened {
        OpenTree::Whole(mut source) => {
            let hasher = host.hasher();
            answer_get_keys(&hasher, alloc, &mut source, keys, notation, &mut sink)
        }
        OpenTree::Rooted(mut chunks, known) => {
            let (chunks, KnownRoot { version, root }) = (&mut chunks, known);
            answer_get_keys_by_root(alloc, chunks, version, &root, keys, notation, &mut sink)
        }
    };
    Ok(answer?)
}
