//! Bringing files, and the names of a folder, to the disk.
use crate::refusal::Refusal;
use prolly_fault::Fault;
use std::fs::File;
use std::path::PathBuf;
use std::{fs, io};

/// Opens the folder in which the file of this path stands.
pub(crate) fn open_folder(rt: &HostRuntime, path: &PathBuf) -> io::Result<File> {
    match path.parent() {
        Some(folder) if !folder.as_str().is_empty() => fs::open(rt, folder),
        _ => fs::open(rt, "."),
    }
}

/// Brings a file, or a folder's names, to the disk.
pub(crate) fn sync(rt: &HostRuntime, file: &File) -> Result<(), Refusal> {
    match file.sync_all() {
        Ok(()) => Ok(()),
        Err(_) => Err(Refusal::of_fault(rt, Fault::Write)),
    }
}
