//! Where the file of an output stands, and how it is opened or made.
use crate::found::Found;
use crate::output::access::Access;
use crate::output::kind::OutputKind;
use crate::output::target::Target;
use crate::refusal::Refusal;
use prolly_fault::{Fault, NameFault};
use std::alloc::AllocError;
use std::fs::{File, OpenOptions, TryLockError};
use std::io::ErrorKind;
use std::os::unix::fs::OpenOptionsExt;
use std::path::PathBuf;

/// How many names are tried for a file beside the output. One that is taken is that of a run that
/// goes on, or that was killed.
const MOST_NAMES: u32 = 1000;

/// How many bytes of the output's name a file beside it has at most. With `.999.tmp` behind them that
/// is as long a name as file systems take.
const MOST_OF_NAME: usize = 247;

/// The mode of a file beside an output that is there already, until it takes its place: it is for
/// its owner alone, since the output may be.
const OWN_MODE: u32 = 0o600;

/// The mode of a new output, of which the system takes what the user's mask takes.
const NEW_MODE: u32 = 0o666;

/// Where the file of an output stands.
#[derive(Drop)]
pub(crate) enum Place {
    /// In the output's place. This run made it.
    New(PathBuf),
    /// In the output's place, where a regular file was before.
    Old,
    /// The output is a pipe, a terminal or a device.
    Stream,
    /// Beside the output, which it is to replace.
    Beside(Replacement),
}

/// A file that is to be replaced: its path, and who may use it, where it is there.
#[derive(Drop)]
pub(crate) struct Replaced {
    pub(crate) path: PathBuf,
    pub(crate) access: Option<Access>,
}

impl Replaced {
    /// A copy, which takes memory for the path.
    pub(crate) fn copied(&self, rt: &HostRuntime) -> Result<Replaced, AllocError> {
        Ok(Replaced {
            path: PathBuf::from_str(rt.alloc(), self.path.as_str())?,
            access: self.access,
        })
    }
}

/// The name of a file, and the file which that is to replace.
#[derive(Drop)]
pub(crate) struct Replacement {
    pub(crate) beside: PathBuf,
    pub(crate) replaced: Replaced,
}

impl Target<'_> {
    /// Opens or makes the file to write. What the output holds stays as it is.
    pub(crate) fn open(self, rt: &HostRuntime) -> Result<(File, Place), Refusal> {
        self.refuse_unseen(rt)?;
        self.refuse_other_kind(rt)?;
        let is_atomic = self.mode().atomic;
        let is_whole = is_atomic || self.kind() != OutputKind::ChunkFile;
        match self.found() {
            Found::Nothing if is_atomic => self.make_beside_place(rt, NameFault::CannotReplace),
            Found::Nothing if is_whole => self.make_beside_place(rt, NameFault::CannotOpen),
            Found::Nothing => self.make(rt),
            Found::Regular(..) if is_whole => self.make_beside_old(rt),
            Found::Regular(..) => Ok((self.open_old(rt)?, Place::Old)),
            _ if is_atomic => Err(self.refused(rt, NameFault::CannotReplace)),
            _ => Ok((self.open_stream(rt)?, Place::Stream)),
        }
    }

    /// Refuses an output of which the system could not tell what it is.
    fn refuse_unseen(self, rt: &HostRuntime) -> Result<(), Refusal> {
        match self.found() {
            Found::Unseen => Err(self.refused(rt, NameFault::CannotOpen)),
            _ => Ok(()),
        }
    }

    /// Opens the pipe or the device that was found, to be written as it is. One that can't be brought
    /// to the disk, where that is asked for, is refused before anything is written.
    fn open_stream(self, rt: &HostRuntime) -> Result<File, Refusal> {
        let file = self.open_as_found(rt)?;
        if self.mode().sync && file.sync_all().is_err() {
            return Err(Refusal::of_fault(rt, Fault::Write));
        }
        Ok(file)
    }

    /// Opens the regular file that was found, to be written as it is, and locks it. Until it was locked
    /// another run may have written to it.
    fn open_old(self, rt: &HostRuntime) -> Result<File, Refusal> {
        let file = self.lock(rt, self.open_as_found(rt)?)?;
        self.refuse_changed(rt, &file)?;
        Ok(file)
    }

    /// Opens what was found, to be written as it is.
    fn open_as_found(self, rt: &HostRuntime) -> Result<File, Refusal> {
        let file = self.open_to_write(rt)?;
        self.refuse_changed(rt, &file)?;
        Ok(file)
    }

    /// Refuses a file that is not as it was found. One that came in its place may be another run's, or
    /// an input.
    fn refuse_changed(self, rt: &HostRuntime, file: &File) -> Result<(), Refusal> {
        match file.metadata() {
            Ok(metadata) if Found::of(&metadata).is_still(self.found()) => Ok(()),
            Ok(_) => Err(self.refused(rt, NameFault::IsBusy)),
            Err(_) => Err(self.refused(rt, NameFault::CannotOpen)),
        }
    }

    /// Opens the file that is there, to be written as it is.
    fn open_to_write(self, rt: &HostRuntime) -> Result<File, Refusal> {
        match OpenOptions::new().write(true).open(rt, self.name()) {
            Ok(file) => Ok(file),
            Err(_) => Err(self.refused(rt, NameFault::CannotOpen)),
        }
    }

    /// The same, to be read, too, where that is allowed: a network's file system gives a shared lock
    /// only then.
    fn open_to_look(self, rt: &HostRuntime) -> Result<File, Refusal> {
        match OpenOptions::new()
            .read(true)
            .write(true)
            .open(rt, self.name())
        {
            Ok(file) => Ok(file),
            Err(_) => self.open_to_write(rt),
        }
    }

    /// Makes a new file in the output's place, where none has come since.
    fn make(self, rt: &HostRuntime) -> Result<(File, Place), Refusal> {
        let path = self.path(rt)?;
        match new_options(NEW_MODE).open(rt, &path) {
            Ok(file) => Ok((self.lock(rt, file)?, Place::New(path))),
            Err(error) if error.kind() == ErrorKind::AlreadyExists => {
                Err(self.refused(rt, NameFault::IsBusy))
            }
            Err(_) => Err(self.refused(rt, NameFault::CannotOpen)),
        }
    }

    /// Locks the file against other runs, so that no two write to it at a time. A file that the
    /// system can't lock is taken without.
    fn lock(self, rt: &HostRuntime, file: File) -> Result<File, Refusal> {
        match file.try_lock() {
            Err(TryLockError::WouldBlock) => Err(self.refused(rt, NameFault::IsBusy)),
            _ => Ok(file),
        }
    }

    /// Makes a new file beside the regular one that is there. That has to be one that could be written
    /// as it is, and that no other run writes. The lock ends here: a file that is written beside the
    /// output does not hinder another one.
    fn make_beside_old(self, rt: &HostRuntime) -> Result<(File, Place), Refusal> {
        let old = self.open_to_look(rt)?;
        if let Err(TryLockError::WouldBlock) = old.try_lock_shared() {
            return Err(self.refused(rt, NameFault::IsBusy));
        }
        match old.metadata() {
            Ok(metadata) => {
                let path = self.path(rt)?;
                let access = Some(Access::of(&metadata));
                self.make_beside(rt, Replaced { path, access }, NameFault::CannotReplace)
            }
            Err(_) => Err(self.refused(rt, NameFault::CannotOpen)),
        }
    }

    /// Makes a new file beside the place of the output, where none is. Where it can't be made, it is
    /// this fault.
    fn make_beside_place(
        self,
        rt: &HostRuntime,
        fault: NameFault,
    ) -> Result<(File, Place), Refusal> {
        let path = self.path(rt)?;
        self.make_beside(rt, Replaced { path, access: None }, fault)
    }

    /// Makes a file of a new name beside the one that is to be replaced: its name with `.0.tmp`, or the
    /// next number that is free. Where it can't be made, it is this fault.
    pub(crate) fn make_beside(
        self,
        rt: &HostRuntime,
        replaced: Replaced,
        fault: NameFault,
    ) -> Result<(File, Place), Refusal> {
        let mode = if replaced.access.is_some() {
            OWN_MODE
        } else {
            NEW_MODE
        };
        for number in 0..MOST_NAMES {
            let front = front_of(replaced.path.as_str());
            let beside = PathBuf::from(format!(in rt.alloc(); "{front}.{number}.tmp")?);
            match new_options(mode).open(rt, &beside) {
                Ok(file) => {
                    let replacement = Replacement { beside, replaced };
                    return Ok((file, Place::Beside(replacement)));
                }
                Err(error) if error.kind() == ErrorKind::AlreadyExists => {}
                Err(_) => break,
            }
        }
        Err(self.refused(rt, fault))
    }
}

/// The path, without the end of a name that is too long for a file beside it.
fn front_of(path: &str) -> &str {
    let name = path.rsplit('/').next().unwrap_or(path);
    let too_long = name.len().saturating_sub(MOST_OF_NAME);
    let end = path.len().saturating_sub(too_long);
    &path[..path.floor_char_boundary(end)]
}

/// What is asked for a new file of this mode. It may be read back.
fn new_options(mode: u32) -> OpenOptions {
    let mut options = OpenOptions::new();
    options.read(true).write(true).create_new(true).mode(mode);
    options
}
