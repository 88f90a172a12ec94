//! What the words ask of `prolly_tool`, and what is told of the files that they name.
use prolly_entry::Ref;
use prolly_tool::{Answer, Command, NameFault, Notation, RootPair, Sought, WriteMode};
use std::alloc::{AllocError, Global};

fn mode_of(command: &Command) -> Option<WriteMode> {
    match command {
        Command::PackSorted {
            out: _,
            notation: _,
            removals: _,
            unique: _,
            memory: _,
            mode,
        }
        | Command::Apply {
            root: _,
            bits: _,
            version: _,
            old: _,
            out: _,
            changes: _,
            quiet: _,
            mode,
        }
        | Command::Dump {
            file: _,
            root: _,
            version: _,
            out: _,
            lines: _,
            mode,
        } => Some(*mode),
        _ => None,
    }
}

fn roots_of(command: &Command) -> Option<RootPair> {
    match command {
        Command::Diff {
            old: _,
            new: _,
            roots,
            version: _,
            out: _,
            stat: _,
            notation: _,
            mode: _,
        } => *roots,
        _ => None,
    }
}

fn sought_by(command: &Command) -> Option<&Sought> {
    match command {
        Command::Prove {
            file: _,
            sought,
            root: _,
            version: _,
            out: _,
            notation: _,
            mode: _,
        }
        | Command::Verify {
            root: _,
            sought,
            version: _,
            proof: _,
            notation: _,
        } => Some(sought),
        _ => None,
    }
}

fn notation_of(command: &Command) -> Option<Notation> {
    match command {
        Command::Explain { file: _, notation }
        | Command::ExplainLines {
            notation,
            removals: _,
            all: _,
        }
        | Command::Stat {
            file: _,
            json: _,
            notation,
        }
        | Command::GetKeys {
            file: _,
            keys: _,
            root: _,
            version: _,
            notation,
        } => Some(*notation),
        _ => None,
    }
}

fn root_of(command: &Command) -> Option<Ref> {
    match command {
        Command::CheckFiles {
            files: _,
            root,
            version: _,
            quiet: _,
        } => *root,
        Command::Root { file: _ } => None,
        _ => None,
    }
}

fn first_key(sought: &Sought) -> Option<&[u8]> {
    match sought {
        Sought::Key(key) | Sought::Range { from: key, to: _ } => Some(key),
        Sought::Keys(_) => None,
    }
}

fn told_of(alloc: Global, fault: NameFault, name: &str) -> Result<Answer, AllocError> {
    match fault {
        NameFault::CannotOpen
        | NameFault::CannotReplace
        | NameFault::IsInput
        | NameFault::IsPrintedTo
        | NameFault::IsReadTwice
        | NameFault::NotChunkFile
        | NameFault::NotProof
        | NameFault::NotRecordFile
        | NameFault::NotLines
        | NameFault::NotEmpty
        | NameFault::IsBusy => Answer::of_name(alloc, fault, name),
    }
}

#[test]
fn requests_are_named_as_ever(rt: HostRuntime) {
    let mode = WriteMode {
        atomic: true,
        sync: false,
        force: false,
    };
    let WriteMode {
        atomic,
        sync,
        force,
    } = mode;
    assert!(rt; atomic && !sync && !force);
}
