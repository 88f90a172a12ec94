//! The command `dump`.
ghost use Rattle.prolly_line.specs.GivenCommand.{IsWithinLimits};
ghost use Rattle.prolly.specs.Kinds.{IsDump};

use crate::commands::version_of;
use crate::host::Host;
use crate::known_root::KnownRoot;
use crate::named_tree::{NamedTree, OpenTree};
use prolly_answer::{answer_dump, answer_dump_by_root};
use prolly_fault::Answer;
use prolly_files::{Output, OutputKind, Patient, Refusal, Stream, Target, buffered};
use prolly_io::ToWrite;
use prolly_line::Command;
use prolly_text::{Notation, RecordForm};
use std::alloc::AllocError;
use std::io::Write;
use std::thread::Threads;

/// `dump [--text] [--hex] [--root ROOT] [--format V] FILE [OUT] [--atomic] [--sync] [--force]`
pub fn answer<T: Threads + Sync>(host: &Host<'_, T>, command: Command) -> Result<Answer, Refusal>
    requires limits { IsWithinLimits command }
    requires dump { IsDump command }
{
    let Command::Dump {
        file,
        root,
        version,
        out,
        lines,
        mode,
    } = command
    else {
        unreachable!()
    };
    let rt = host.rt;
    let tree = NamedTree::of(file, root, version_of(version));
    let form = form_of(lines);
    let Some(out) = out else {
        let tree = tree.open(rt, Stream::Output.found(rt)?)?;
        return Ok(write_pairs(host, tree, form, Patient::new(rt, rt.stdout()))?);
    };
    let target = Target::look(rt, &out, kind_of(form), mode);
    let tree = tree.open(rt, target.found())?;
    let mut output = Output::open(rt, target)?;
    let answer = write_pairs(host, tree, form, &mut output);
    output.finish(rt, answer)
}

/// How pairs are written: as lines in this notation, or where there is none as a record file.
fn form_of(lines: Option<Notation>) -> RecordForm {
    match lines {
        Some(notation) => RecordForm::Lines(notation),
        None => RecordForm::Records,
    }
}

/// The kind of an output in this form.
fn kind_of(form: RecordForm) -> OutputKind {
    match form {
        RecordForm::Records => OutputKind::RecordFile,
        RecordForm::Lines(_) => OutputKind::Lines,
    }
}

/// Writes the pairs of the tree in this form.
fn write_pairs<T: Threads + Sync, W: Write + Drop>(
    host: &Host<'_, T>,
    tree: OpenTree,
    form: RecordForm,
    writer: W,
) -> Result<Answer, AllocError> {
    let alloc = host.rt.alloc();
    let mut sink = buffered(host.rt, ToWrite::new(writer))?;
    match tree {
        OpenTree::Whole(mut source) => {
            answer_dump(&host.hasher(), alloc, &mut source, form, &mut sink)
        }
        OpenTree::Rooted(mut chunks, known) => {
            let KnownRoot { version, root } = known;
            answer_dump_by_root(
                &host.hasher(),
                alloc,
                &mut chunks,
                version,
                &root,
                form,
                &mut sink,
            )
        }
    }
}
