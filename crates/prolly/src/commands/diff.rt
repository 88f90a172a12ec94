//! The command `diff`, of two files that are checked, and of two of which only the roots are
//! believed.
ghost use Rattle.prolly_line.specs.GivenCommand.{IsWithinLimits};
ghost use Rattle.prolly.specs.Kinds.{IsDiff};

use crate::commands::version_of;
use crate::host::Host;
use prolly_answer::{RootDiff, answer_diff, answer_diff_by_root};
use prolly_check::CheckFault;
use prolly_entry::Version;
use prolly_fault::{Answer, Fault};
use prolly_files::{
    Chunks, Found, InputName, Output, OutputKind, Patient, Refusal, Stream, Target, buffered,
};
use prolly_io::{FromRead, ToWrite};
use prolly_line::{Command, RootPair};
use prolly_text::{Notation, RecordForm};
use std::alloc::AllocError;
use std::fs::File;
use std::io::Write;
use std::thread::Threads;

/// `diff [--text] [--stat] [--old-root ROOT] [--new-root ROOT] [--format V] OLD NEW [--out FILE]
/// [--atomic] [--sync] [--force]`
pub fn answer<T: Threads + Sync>(host: &Host<'_, T>, command: Command) -> Result<Answer, Refusal>
    requires limits { IsWithinLimits command }
    requires diff { IsDiff command }
{
    let Command::Diff {
        old,
        new,
        roots,
        version,
        out,
        stat,
        notation,
        mode,
    } = command
    else {
        unreachable!()
    };
    let rt = host.rt;
    let version = version_of(version);
    let trees = TreePair {
        old,
        new,
        roots,
        version,
    };
    match out {
        None => print_changes(host, &trees, stat, notation),
        Some(out) => {
            let target = Target::look(rt, &out, OutputKind::RecordFile, mode);
            write_changes(host, &trees, stat, target)
        }
    }
}

/// Prints how much has changed, or else the changes, in lines.
fn print_changes<T: Threads + Sync>(
    host: &Host<'_, T>,
    trees: &TreePair,
    stat: bool,
    notation: Notation,
) -> Result<Answer, Refusal> {
    let rt = host.rt;
    let trees = trees.open(rt, Stream::Output.found(rt)?)?;
    let form = if stat {
        None
    } else {
        Some(RecordForm::Lines(notation))
    };
    Ok(trees.compare(host, form, stat, Patient::new(rt, rt.stdout()))?)
}

/// Writes the changes to a record file, and prints how much has changed where that is asked for.
fn write_changes<T: Threads + Sync>(
    host: &Host<'_, T>,
    trees: &TreePair,
    stat: bool,
    target: Target<'_>,
) -> Result<Answer, Refusal> {
    let rt = host.rt;
    let trees = trees.open(rt, target.found())?;
    let mut output = if stat {
        Output::open_beside_answer(rt, target)?
    } else {
        Output::open(rt, target)?
    };
    let answer = trees.compare(host, Some(RecordForm::Records), stat, &mut output);
    output.finish(rt, answer)
}

/// The two trees that the words name: those of two chunk files, which are checked, or those of two
/// roots, of whose files nothing else is believed.
#[derive(Drop)]
struct TreePair {
    old: String,
    new: String,
    roots: Option<RootPair>,
    version: Version,
}

impl TreePair {
    /// Opens the files, where neither is the output.
    fn open(&self, rt: &HostRuntime, output: Found) -> Result<OpenPair, Refusal> {
        let old = InputName::look(rt, &self.old)?;
        let new = InputName::look(rt, &self.new)?;
        let earlier = old.found();
        let old = old.open_beside(rt, output)?;
        new.refuse_read_twice(rt, &[earlier])?;
        let new = new.open_beside(rt, output)?;
        match self.roots {
            None => Ok(OpenPair::Whole {
                old: old.into_whole(rt, Fault::CheckOld(CheckFault::TooLong))?,
                new: new.into_whole(rt, Fault::CheckNew(CheckFault::TooLong))?,
            }),
            Some(roots) => Ok(OpenPair::Rooted {
                old: old.into_chunks(rt)?,
                new: new.into_chunks(rt)?,
                roots,
                version: self.version,
            }),
        }
    }
}

/// Two trees whose files are open.
#[derive(Drop)]
enum OpenPair {
    /// The files are to be read whole, and checked.
    Whole {
        old: FromRead<File>,
        new: FromRead<File>,
    },
    /// What is needed of the files is to be read, and only the roots are believed.
    Rooted {
        old: Chunks,
        new: Chunks,
        roots: RootPair,
        version: Version,
    },
}

impl OpenPair {
    /// Writes what turns the map of the one into that of the other, where there is a form, and
    /// answers how much that is where `stat` asks for it.
    fn compare<T: Threads + Sync, W: Write + Drop>(
        self,
        host: &Host<'_, T>,
        form: Option<RecordForm>,
        stat: bool,
        writer: W,
    ) -> Result<Answer, AllocError> {
        let alloc = host.rt.alloc();
        let mut sink = buffered(host.rt, ToWrite::new(writer))?;
        match self {
            OpenPair::Whole { mut old, mut new } => {
                let hasher = host.hasher();
                answer_diff(&hasher, alloc, &mut old, &mut new, form, stat, &mut sink)
            }
            OpenPair::Rooted {
                mut old,
                mut new,
                roots,
                version,
            } => {
                let diff = RootDiff {
                    version,
                    old: &roots.old,
                    new: &roots.new,
                    form,
                    stat,
                };
                answer_diff_by_root(alloc, &mut old, &mut new, &diff, &mut sink)
            }
        }
    }
}
