//! How the file of an output comes to its place, or is taken away.
use crate::output::Output;
use crate::output::access::Access;
use crate::output::disk::{open_folder, sync};
use crate::output::place::{Place, Replacement};
use crate::refusal::Refusal;
use prolly_fault::{Answer, NameFault, status};
use std::alloc::AllocError;
use std::fs;
use std::fs::File;
use std::io::ErrorKind;

/// The greatest status of a command that is done: by it `diff` says that the maps differ.
const GREATEST_DONE: u8 = status::NOTHING;

impl Output<'_> {
    /// Keeps the file where the command's answer is that it is done. Else nothing stays beside the
    /// name, and a new file in its place is taken away if it has no byte. Gives the answer, or the
    /// fault that kept the file from its place or from the disk.
    pub fn finish(
        &self,
        rt: &HostRuntime,
        answer: Result<Answer, AllocError>,
    ) -> Result<Answer, Refusal> {
        match answer {
            Ok(done) if done.status <= GREATEST_DONE => {
                self.keep(rt)?;
                Ok(done)
            }
            answer => {
                self.remove(rt);
                Ok(answer?)
            }
        }
    }

    /// Puts the file in its place, and on the disk where that was asked for.
    fn keep(&self, rt: &HostRuntime) -> Result<(), Refusal> {
        match self.put(rt) {
            Ok(Some(folder)) => sync(rt, &folder),
            Ok(None) => Ok(()),
            Err(refusal) => {
                self.remove(rt);
                Err(refusal)
            }
        }
    }

    /// Puts the file in its place. Gives its folder, where that is to be brought to the disk.
    fn put(&self, rt: &HostRuntime) -> Result<Option<File>, Refusal> {
        self.bring_to_disk(rt)?;
        self.refuse_lost(rt)?;
        let folder = self.folder(rt)?;
        if let Place::Beside(replacement) = &self.place {
            self.replace(rt, replacement)?;
        }
        Ok(folder)
    }

    /// Gives the file the name of the one that it is to replace, and its rights as they are by now.
    /// Where that is gone, they are those that it had.
    fn replace(&self, rt: &HostRuntime, replacement: &Replacement) -> Result<(), Refusal> {
        let replaced = &replacement.replaced;
        let now = self.target.refuse_newcomer(rt, replaced.path.as_str())?;
        if let Some(access) = now.or(replaced.access) {
            self.give(rt, access)?;
        }
        self.refuse_lost(rt)?;
        if fs::rename(rt, &replacement.beside, &replaced.path).is_err() {
            return Err(self.target.refused(rt, NameFault::CannotReplace));
        }
        Ok(())
    }

    /// Gives the file these rights, on the disk, too, where that was asked for.
    fn give(&self, rt: &HostRuntime, access: Access) -> Result<(), Refusal> {
        match access.give_to(&self.file) {
            Ok(()) => self.bring_to_disk(rt),
            Err(_) => Err(self.target.refused(rt, NameFault::CannotReplace)),
        }
    }

    /// Refuses where the file has lost its name: that of the output, or the one beside it.
    fn refuse_lost(&self, rt: &HostRuntime) -> Result<(), Refusal> {
        match &self.place {
            Place::Stream => Ok(()),
            Place::Beside(replacement) if self.is_own(rt, replacement.beside.as_str()) => Ok(()),
            Place::Beside(_) => Err(self.target.refused(rt, NameFault::CannotReplace)),
            _ => {
                let found = self.found(rt)?;
                self.target.refuse_other_file(rt, found)
            }
        }
    }

    /// Brings the file to the disk where that was asked for.
    fn bring_to_disk(&self, rt: &HostRuntime) -> Result<(), Refusal> {
        if self.target.mode().sync {
            sync(rt, &self.file)?;
        }
        Ok(())
    }

    /// Opens the folder of the file, where that is to be brought to the disk. That is done before the
    /// file takes its place, since after that nothing may want memory.
    pub(crate) fn folder(&self, rt: &HostRuntime) -> Result<Option<File>, Refusal> {
        if !self.target.mode().sync {
            return Ok(None);
        }
        let folder = match &self.place {
            Place::Stream => return Ok(None),
            Place::Beside(replacement) => open_folder(rt, &replacement.beside),
            Place::New(path) => open_folder(rt, path),
            Place::Old => open_folder(rt, &self.target.path(rt)?),
        };
        match folder {
            Ok(folder) => Ok(Some(folder)),
            Err(error) if error.kind() == ErrorKind::OutOfMemory => Err(Refusal::Memory),
            Err(_) => Err(self.target.refused(rt, NameFault::CannotOpen)),
        }
    }

    /// Removes the file where it stands beside its name, or is new and has no byte, not even another
    /// program's, and the name is its own still. Where that fails, it stays: the fault that led here is
    /// the one to tell.
    pub(crate) fn remove(&self, rt: &HostRuntime) {
        match &self.place {
            Place::Beside(replacement) if self.is_own(rt, replacement.beside.as_str()) => {
                let _ = fs::remove_file(rt, &replacement.beside);
            }
            Place::New(path) if self.is_empty() && self.is_own(rt, path.as_str()) => {
                let _ = fs::remove_file(rt, path);
            }
            _ => {}
        }
    }
}
