//! The output that the words name, before it is opened.
use crate::found::Found;
use crate::output::access::Access;
use crate::output::kind::{LookFault, OutputKind};
use crate::output::links::{is_open_number, path_behind};
use crate::refusal::Refusal;
use crate::streams::Stream;
use prolly_fault::{Fault, NameFault};
use prolly_line::WriteMode;
use std::fs;
use std::io::ErrorKind;
use std::path::PathBuf;

/// The output that the words name: what is there now, what is to be written, and how.
#[derive(Clone, Copy)]
pub struct Target<'a> {
    name: &'a str,
    found: Found,
    kind: OutputKind,
    mode: WriteMode,
}

impl<'a> Target<'a> {
    /// Looks at what the name leads to, before any file is opened. Where the system can't tell, the
    /// output can't be opened later, since it may be a file that is to be read. Nor can one of the empty
    /// name, which no file has, or one that is the number of an open file and that nobody has opened.
    pub fn look(rt: &HostRuntime, name: &'a str, kind: OutputKind, mode: WriteMode) -> Target<'a> {
        let found = match Found::at(rt, name) {
            Ok(Found::Nothing) if is_open_number(rt, name) => Found::Unseen,
            Ok(found) if !name.is_empty() => found,
            _ => Found::Unseen,
        };
        Target {
            name,
            found,
            kind,
            mode,
        }
    }

    /// The name.
    pub(crate) fn name(&self) -> &'a str {
        self.name
    }

    /// What the name leads to.
    pub fn found(&self) -> Found {
        self.found
    }

    /// The path of the file to which the name leads.
    pub(crate) fn path(&self, rt: &HostRuntime) -> Result<PathBuf, Refusal> {
        path_behind(rt, self.name, self.found)
    }

    /// What kind of file is to be written.
    pub(crate) fn kind(&self) -> OutputKind {
        self.kind
    }

    /// How it is to be written.
    pub(crate) fn mode(&self) -> WriteMode {
        self.mode
    }

    /// Refuses an output that is the file behind standard input.
    pub fn refuse_input(self, rt: &HostRuntime) -> Result<(), Refusal> {
        if self.is_file_behind(rt, Stream::Input)? {
            return Err(Refusal::of_name(rt, NameFault::IsInput, Stream::Input.name()));
        }
        Ok(())
    }

    /// Refuses an output that is the pipe behind standard input, also of a command that does not read
    /// that: what is written would wait there for whoever reads it.
    pub(crate) fn refuse_input_pipe(self, rt: &HostRuntime) -> Result<(), Refusal> {
        if self.is_pipe_behind(rt, Stream::Input)? {
            return Err(Refusal::of_name(rt, NameFault::IsInput, Stream::Input.name()));
        }
        Ok(())
    }

    /// Refuses an output that is the file behind standard output.
    pub(crate) fn refuse_printed(self, rt: &HostRuntime) -> Result<(), Refusal> {
        if self.is_file_behind(rt, Stream::Output)? {
            return Err(Refusal::of_fault(rt, Fault::OutIsStdout));
        }
        Ok(())
    }

    /// Refuses an output that is the pipe behind standard output.
    pub(crate) fn refuse_printed_pipe(self, rt: &HostRuntime) -> Result<(), Refusal> {
        if self.is_pipe_behind(rt, Stream::Output)? {
            return Err(Refusal::of_fault(rt, Fault::OutIsStdout));
        }
        Ok(())
    }

    /// Whether the output is the file behind a standard stream. Of an output that keeps nothing that is
    /// not asked: the system may not be able to tell what the stream is.
    fn is_file_behind(self, rt: &HostRuntime, stream: Stream) -> Result<bool, Refusal> {
        Ok(self.found.keeps_bytes() && self.found.is_same_file(stream.found(rt)?))
    }

    /// The same of the pipe behind it, of an output that is a pipe.
    fn is_pipe_behind(self, rt: &HostRuntime, stream: Stream) -> Result<bool, Refusal> {
        let is_pipe = matches!(self.found, Found::Pipe(_));
        Ok(is_pipe && self.found.is_same_pipe(stream.found(rt)?))
    }

    /// Refuses an output that holds something, unless `--force` is given: of a command without
    /// inputs, whose words may lack the output.
    pub fn refuse_full(self, rt: &HostRuntime) -> Result<(), Refusal> {
        self.refuse_other_kind(rt)?;
        if self.is_kept() {
            return Err(self.refused(rt, NameFault::NotEmpty));
        }
        Ok(())
    }

    /// Refuses an output that holds something else than what is to be written, unless `--force` is
    /// given.
    pub(crate) fn refuse_other_kind(self, rt: &HostRuntime) -> Result<(), Refusal> {
        self.refuse_other_kind_at(rt, self.name)
    }

    /// The same of the file of this path, to which the name leads. A block device is of no kind: its
    /// first bytes do not tell what stands behind them.
    fn refuse_other_kind_at(self, rt: &HostRuntime, path: &str) -> Result<(), Refusal> {
        if !self.is_kept() {
            return Ok(());
        }
        if let Found::Block(_) = self.found {
            return Err(self.refused(rt, self.kind.fault()));
        }
        match self.kind.is_that_of(rt, path) {
            Ok(true) => Ok(()),
            Ok(false) => Err(self.refused(rt, self.kind.fault())),
            Err(LookFault::Memory) => Err(Refusal::Memory),
            Err(LookFault::Read) => Err(self.refused(rt, NameFault::CannotOpen)),
        }
    }

    /// Refuses to replace what stands by now at this path, to which the name led, where that may not be
    /// written over; else gives its rights, where it is there. Whether it is another file than before
    /// can't be told: a new file may have the number of one that is gone.
    pub(crate) fn refuse_newcomer(
        self,
        rt: &HostRuntime,
        path: &str,
    ) -> Result<Option<Access>, Refusal> {
        let metadata = match fs::metadata(rt, path) {
            Ok(metadata) => metadata,
            Err(error) if error.kind() == ErrorKind::NotFound => return Ok(None),
            Err(_) => return Err(self.refused(rt, NameFault::CannotOpen)),
        };
        let now = Target {
            found: Found::of(&metadata),
            ..self
        };
        if !metadata.is_file() {
            return Err(self.refused(rt, NameFault::CannotReplace));
        }
        now.refuse_other_kind_at(rt, path)?;
        Ok(Some(Access::of(&metadata)))
    }

    /// Refuses where the name does not lead to this file any more: it was taken away, or another run
    /// has put its own there.
    pub(crate) fn refuse_other_file(self, rt: &HostRuntime, file: Found) -> Result<(), Refusal> {
        let now = Target::look(rt, self.name, self.kind, self.mode);
        match now.found {
            Found::Nothing | Found::Unseen => Err(self.refused(rt, NameFault::CannotOpen)),
            found if found.is_same_file(file) => Ok(()),
            _ => Err(self.refused(rt, NameFault::IsBusy)),
        }
    }

    /// Whether the output holds something that is to be kept.
    fn is_kept(&self) -> bool {
        self.found.holds_bytes() && !self.mode.force
    }

    /// The fault of the output's name.
    pub(crate) fn refused(self, rt: &HostRuntime, fault: NameFault) -> Refusal {
        Refusal::of_name(rt, fault, self.name)
    }
}
