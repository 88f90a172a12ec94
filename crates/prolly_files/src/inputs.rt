//! The files that a command reads.
use crate::found::Found;
use crate::refusal::Refusal;
use crate::streams::Stream;
use prolly_check::CheckFault;
use prolly_fault::{Fault, INPUT_LIMIT, NameFault};
use prolly_io::{Blocks, FromFile, FromRead};
use prolly_root::FileChunks;
use std::alloc::AllocError;
use std::fs;
use std::fs::File;
use std::io::ErrorKind;
use std::os::unix::fs::FileExt;

/// The chunks of a file of which any part is read.
pub type Chunks = FileChunks<Blocks<FromFile<File>>>;

/// The name of a file that is to be read, and what it leads to before the command opens any file.
///
/// The system has names for the numbers of open files, as `/dev/fd/3`. Where nobody has opened that
/// number for the command, it is soon that of a file which the command opens itself: of another input,
/// which would be read twice.
#[derive(Clone, Copy)]
pub struct InputName<'a> {
    name: &'a str,
    found: Found,
}

impl<'a> InputName<'a> {
    /// Looks at what the name leads to. A name that the system can't follow can't be opened, either.
    pub fn look(rt: &HostRuntime, name: &'a str) -> Result<InputName<'a>, AllocError> {
        match Found::at(rt, name) {
            Ok(found) => Ok(InputName { name, found }),
            Err(error) if error.kind() == ErrorKind::OutOfMemory => Err(AllocError),
            Err(_) => Ok(InputName {
                name,
                found: Found::Nothing,
            }),
        }
    }

    /// What it leads to.
    pub fn found(&self) -> Found {
        self.found
    }

    /// Refuses a pipe that is one of the inputs that were named before: it gives its bytes once. Opening
    /// it would wait for who writes it a second time.
    pub fn refuse_read_twice(self, rt: &HostRuntime, earlier: &[Found]) -> Result<(), Refusal> {
        refuse_read_twice(rt, self.found, earlier, self.name)
    }

    /// Opens the file, where it is neither the one that is to be written nor the one to which is
    /// printed.
    pub fn open_beside(self, rt: &HostRuntime, output: Found) -> Result<Input, Refusal> {
        // To open the pipe that is to be written would wait until someone writes it.
        if self.found.is_same_pipe(output) {
            return Err(self.refused(rt, fault_of_written(rt, self.found)));
        }
        if let Found::Nothing = self.found {
            return Err(self.refused(rt, NameFault::CannotOpen));
        }
        let Ok(file) = fs::open(rt, self.name) else {
            return Err(self.refused(rt, NameFault::CannotOpen));
        };
        let Ok(metadata) = file.metadata() else {
            return Err(self.refused(rt, NameFault::CannotOpen));
        };
        let found = Found::of(&metadata);
        if found.is_same(output) || found.is_same(Stream::Output.seen(rt)) {
            return Err(self.refused(rt, fault_of_written(rt, found)));
        }
        Ok(Input { file, found })
    }

    /// The fault of the name.
    fn refused(self, rt: &HostRuntime, fault: NameFault) -> Refusal {
        Refusal::of_name(rt, fault, self.name)
    }
}

/// A file that is open to be read.
#[derive(Drop)]
pub struct Input {
    file: File,
    found: Found,
}

impl Input {
    /// The file of this name, where it is not the one to which is printed.
    pub fn open(rt: &HostRuntime, name: &str) -> Result<Input, Refusal> {
        Input::open_beside(rt, name, Found::Nothing)
    }

    /// The file of this name of a command that has no other file open, where it is neither the one that
    /// is to be written nor the one to which is printed.
    pub fn open_beside(rt: &HostRuntime, name: &str, output: Found) -> Result<Input, Refusal> {
        InputName::look(rt, name)?.open_beside(rt, output)
    }

    /// What it is.
    pub fn found(&self) -> Found {
        self.found
    }

    /// How many bytes it has, where it is a file that keeps them, and no pipe or terminal.
    pub fn size(&self) -> Option<u64> {
        self.found.size()
    }

    /// The file as the system gives it.
    pub fn into_file(self) -> File {
        self.file
    }

    /// The file, of which any part can be read.
    pub fn into_device(self) -> FromFile<File> {
        FromFile::new(self.file)
    }

    /// The file, to be read from its beginning on.
    pub fn into_source(self) -> FromRead<File> {
        FromRead::new(self.file)
    }

    /// The file, to be read whole. One of more bytes than a command reads is refused by this fault
    /// before any of them is read.
    pub fn into_whole(self, rt: &HostRuntime, fault: Fault) -> Result<FromRead<File>, Refusal> {
        match self.found.size() {
            Some(size) if size > u64::from(INPUT_LIMIT) => Err(Refusal::of_fault(rt, fault)),
            _ => Ok(self.into_source()),
        }
    }

    /// The chunk file, to be read whole.
    pub fn into_chunk_file(self, rt: &HostRuntime) -> Result<FromRead<File>, Refusal> {
        self.into_whole(rt, Fault::Check(CheckFault::TooLong))
    }

    /// The chunk file, of which any part is read, by blocks where the parts are short.
    pub fn into_chunks(self, rt: &HostRuntime) -> Result<Chunks, Refusal> {
        let blocks = Blocks::new(rt.alloc(), self.into_device())?;
        Ok(FileChunks::new(blocks))
    }

    /// Whether the file begins with these four bytes. What was read is read again by who reads the
    /// file.
    pub fn begins_with(&self, letters: &[u8; 4]) -> bool {
        let mut front = [0; 4];
        self.file.read_exact_at(&mut front, 0).is_ok() && front == *letters
    }
}

/// Refuses a standard input that is the file to which is printed.
pub fn refuse_printed_input(rt: &HostRuntime) -> Result<(), Refusal> {
    if Stream::Input.seen(rt).is_same(Stream::Output.seen(rt)) {
        return Err(Refusal::of_name(rt, NameFault::IsPrintedTo, Stream::Input.name()));
    }
    Ok(())
}

/// How it is told that this is read and written, too: as standard output, if it is that.
fn fault_of_written(rt: &HostRuntime, found: Found) -> NameFault {
    if found.is_same(Stream::Output.seen(rt)) {
        NameFault::IsPrintedTo
    } else {
        NameFault::IsInput
    }
}

/// Refuses a pipe that is one of the inputs that were named before: it gives its bytes once.
pub fn refuse_read_twice(
    rt: &HostRuntime,
    found: Found,
    earlier: &[Found],
    name: &str,
) -> Result<(), Refusal> {
    for other in earlier {
        if found.is_same_pipe(*other) {
            return Err(Refusal::of_name(rt, NameFault::IsReadTwice, name));
        }
    }
    Ok(())
}
