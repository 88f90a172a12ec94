//! The file that a command writes.
mod access;
mod disk;
mod finish;
mod kind;
mod links;
mod place;
mod run_files;
mod target;

use crate::found::Found;
use crate::output::place::{Place, Replaced};
use crate::refusal::Refusal;
pub use kind::{CHUNK_FILE_LETTERS, OutputKind};
use prolly_fault::{Fault, NameFault};
pub use run_files::{RunFile, RunFiles};
use std::fs::File;
use std::io::{ErrorKind, Seek, SeekFrom, Write};
use std::{fs, io};
pub use target::Target;

/// The file that a command writes: the one that the words name, or one beside it that is to replace
/// it.
///
/// What was in the output stays until the first byte is written, and where the file is one beside
/// it, until that is whole.
#[derive(Drop)]
pub struct Output<'a> {
    target: Target<'a>,
    file: File,
    place: Place,
    has_begun: bool,
}

impl<'a> Output<'a> {
    /// Opens or makes the output of a command that prints nothing where it is done. An output that
    /// is the file behind standard output, or the pipe behind standard input, is refused.
    pub fn open(rt: &HostRuntime, target: Target<'a>) -> Result<Output<'a>, Refusal> {
        target.refuse_input_pipe(rt)?;
        target.refuse_printed(rt)?;
        let (file, place) = target.open(rt)?;
        let output = Output {
            target,
            file,
            place,
            has_begun: false,
        };
        output.with_open_folder(rt)
    }

    /// Refuses an output that is to be brought to the disk, and whose folder can't be: that is told
    /// before anything is written.
    fn with_open_folder(self, rt: &HostRuntime) -> Result<Output<'a>, Refusal> {
        match self.folder(rt) {
            Ok(_) => Ok(self),
            Err(refusal) => {
                self.remove(rt);
                Err(refusal)
            }
        }
    }

    /// Opens or makes the output of a command that prints an answer. An output that is the file or
    /// the pipe behind standard output is refused: the answer would be written into it.
    pub fn open_beside_answer(rt: &HostRuntime, target: Target<'a>) -> Result<Output<'a>, Refusal> {
        target.refuse_printed_pipe(rt)?;
        Output::open(rt, target)
    }

    /// Makes a further file beside the output. What that is, and what standard output is, was looked at
    /// for the first one.
    pub(crate) fn make_beside(
        rt: &HostRuntime,
        target: Target<'a>,
        replaced: Replaced,
    ) -> Result<Output<'a>, Refusal> {
        let (file, place) = target.make_beside(rt, replaced, NameFault::CannotReplace)?;
        Ok(Output {
            target,
            file,
            place,
            has_begun: false,
        })
    }

    /// The file that this one is to replace. One that is written in its place replaces none.
    pub(crate) fn replaced(&self, rt: &HostRuntime) -> Result<Replaced, Refusal> {
        match &self.place {
            Place::Beside(replacement) => Ok(replacement.replaced.copied(rt)?),
            _ => Err(self.target.refused(rt, NameFault::CannotReplace)),
        }
    }

    /// Whether the output held bytes when the command began. They may be there still, as long as the
    /// command has written nothing.
    pub fn held_bytes(&self) -> bool {
        self.target.found().holds_bytes()
    }

    /// The name of the file, where that stands beside the output.
    pub fn name_beside(&self) -> Option<&str> {
        match &self.place {
            Place::Beside(replacement) => Some(replacement.beside.as_str()),
            _ => None,
        }
    }

    /// What the file is.
    pub(crate) fn found(&self, rt: &HostRuntime) -> Result<Found, Refusal> {
        match self.look() {
            Ok(found) => Ok(found),
            Err(error) if error.kind() == ErrorKind::OutOfMemory => Err(Refusal::Memory),
            Err(_) => Err(Refusal::of_fault(rt, Fault::Write)),
        }
    }

    /// The file, where it stands beside the output, to be read from its start. It loses its name, which
    /// has to be its own still.
    pub(crate) fn read_back(&self, rt: &HostRuntime) -> Option<File> {
        let name = self.name_beside()?;
        let file = self.file.try_clone().ok()?;
        (&file).seek(SeekFrom::Start(0)).ok()?;
        if !self.is_own(rt, name) {
            return None;
        }
        fs::remove_file(rt, name).ok()?;
        Some(file)
    }

    /// Whether the name is the file's own still.
    fn is_own(&self, rt: &HostRuntime, name: &str) -> bool {
        match self.look() {
            Ok(found) => found.has_name(rt, name),
            Err(_) => false,
        }
    }

    /// Empties the file before its first byte, where it stands in the output's place. One that was
    /// written to since it was found, or made, is left as it is.
    fn empty(&self) -> io::Result<()> {
        let is_untouched = match self.place {
            Place::New(_) => self.is_empty(),
            Place::Old => self.look()?.is_still(self.target.found()),
            Place::Stream | Place::Beside(_) => return Ok(()),
        };
        if !is_untouched {
            return Err(io::Error::from(ErrorKind::ResourceBusy));
        }
        self.file.set_len(0)
    }

    /// Whether the file has no byte.
    fn is_empty(&self) -> bool {
        match self.look() {
            Ok(found) => found.size() == Some(0),
            Err(_) => false,
        }
    }

    /// Looks at what the file is.
    fn look(&self) -> io::Result<Found> {
        Ok(Found::of(&self.file.metadata()?))
    }
}

impl Write for Output<'_> {
    /// Writes to the file, which is emptied before its first byte.
    fn write(&mut self, buf: &[u8]) -> io::Result<usize> {
        if !self.has_begun && !buf.is_empty() {
            self.empty()?;
            self.has_begun = true;
        }
        self.file.write(buf)
    }

    fn flush(&mut self) -> io::Result<()> {
        self.file.flush()
    }
}
