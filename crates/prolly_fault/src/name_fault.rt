//! The faults of files that the words name.
ghost use Rattle.std.specs.Prelude.{◌≡◌};
ghost use Rattle.prolly_fault.specs.Names.{name_fault_text};

/// What is wrong with a file that the words name. Its text is the start of a line that ends with
/// the name; the status is that of a device's fault.
#[derive(Clone, Copy, Debug)]
pub enum NameFault {
    /// The file can't be opened, or made.
    CannotOpen,
    /// The file can't be replaced: it is no regular file, or no file can be made beside it; or the one
    /// that was made lost its name, can't have the rights of the old one, or can't be renamed.
    CannotReplace,
    /// The file is an input, over which the output would be written.
    IsInput,
    /// The file is an input, and the one to which is printed.
    IsPrintedTo,
    /// The file is a pipe that another word names, too. It gives its bytes once.
    IsReadTwice,
    /// A chunk file is to be written over a file that has bytes and is none. `--force` was not
    /// given.
    NotChunkFile,
    /// A proof is to be written over a file that has bytes and is none. `--force` was not given.
    NotProof,
    /// A record file is to be written over a file that has bytes and does not begin as one does.
    /// `--force` was not given.
    NotRecordFile,
    /// Lines are to be written over a file that has bytes which no lines have. `--force` was not
    /// given.
    NotLines,
    /// The file has bytes, and a build was given no record files, or `apply` no changes, nor
    /// `--force`.
    NotEmpty,
    /// Another run is writing the file, or another file took its name while this run wrote it.
    IsBusy,
}

impl NameFault {
    /// What a line says before the name.
    pub(crate) fn text(self) -> &'static str
        ensures { result.now ≡ name_fault_text self }
    {
        match self {
            NameFault::CannotOpen => "cannot open ",
            NameFault::CannotReplace => "cannot replace ",
            NameFault::IsInput => "OUT is also an input: ",
            NameFault::IsPrintedTo => "standard output is also an input: ",
            NameFault::IsReadTwice => "one pipe is two inputs: ",
            NameFault::NotChunkFile => "OUT is not a chunk file: ",
            NameFault::NotProof => "OUT is not a proof: ",
            NameFault::NotRecordFile => "OUT is not a record file: ",
            NameFault::NotLines => "OUT is not a file of lines: ",
            NameFault::NotEmpty => "OUT is not empty, and no files are named after it: ",
            NameFault::IsBusy => "another run writes OUT: ",
        }
    }
}
