//! Where a name leads.
use crate::found::Found;
use crate::refusal::Refusal;
use prolly_fault::NameFault;
use std::io::ErrorKind;
use std::path::PathBuf;
use std::{fs, io};

/// How many symbolic links are followed from a name to a file that is not there yet: as many as the
/// system follows.
const MOST_LINKS: u32 = 40;

/// The path of the file to which the name leads through symbolic links, also where no file is there
/// yet. `found` is what the name was found to lead to: a file that has no path any more, as one that is
/// open and was removed, is not replaced.
///
/// The folder may have no path from the root that can be told, as where its name is no UTF-8, or where
/// one above it may not be searched. Then it stays as it is named.
pub(crate) fn path_behind(rt: &HostRuntime, name: &str, found: Found) -> Result<PathBuf, Refusal> {
    match fs::canonicalize(rt, name) {
        Ok(path) => return Ok(path),
        Err(error) if error.kind() == ErrorKind::OutOfMemory => return Err(Refusal::Memory),
        Err(_) => {}
    }
    let path = last_path(rt, name)?;
    match (found, Found::at(rt, path.as_str())) {
        (Found::Nothing, _) | (_, Ok(Found::Regular(..))) => Ok(path),
        (_, Err(error)) if error.kind() == ErrorKind::OutOfMemory => Err(Refusal::Memory),
        _ => Err(Refusal::of_name(rt, NameFault::CannotReplace, name)),
    }
}

/// Whether a name that leads to no file stands for a number of an open file, as `/dev/fd/3` does. That
/// number may soon be the one of a file which the command opens itself.
pub(crate) fn is_open_number(rt: &HostRuntime, name: &str) -> bool {
    let Ok(path) = last_path(rt, name) else {
        return false;
    };
    let Some(folder) = path.parent() else {
        return false;
    };
    match fs::canonicalize(rt, folder) {
        Ok(folder) => folder.as_str().starts_with("/proc/") && folder.as_str().ends_with("/fd"),
        Err(_) => false,
    }
}

/// The name itself, or what the last of its symbolic links names.
fn last_path(rt: &HostRuntime, name: &str) -> Result<PathBuf, Refusal> {
    let mut path = PathBuf::from_str(rt.alloc(), name)?;
    for _ in 0..MOST_LINKS {
        match named_by(rt, &path) {
            Ok(Some(next)) => path = next,
            Ok(None) => return Ok(path),
            Err(error) if error.kind() == ErrorKind::OutOfMemory => return Err(Refusal::Memory),
            Err(_) => return Err(Refusal::of_name(rt, NameFault::CannotReplace, name)),
        }
    }
    Err(Refusal::of_name(rt, NameFault::CannotOpen, name))
}

/// What the symbolic link of this name names; `None` where it is no link.
fn named_by(rt: &HostRuntime, path: &PathBuf) -> io::Result<Option<PathBuf>> {
    match fs::symlink_metadata(rt, path) {
        Ok(metadata) if metadata.is_symlink() => {}
        Ok(_) => return Ok(None),
        Err(error) if error.kind() == ErrorKind::NotFound => return Ok(None),
        Err(error) => return Err(error),
    }
    let named = fs::read_link(rt, path)?;
    match path.parent() {
        Some(folder) => Ok(Some(folder.join(rt.alloc(), &named)?)),
        None => Ok(Some(named)),
    }
}
