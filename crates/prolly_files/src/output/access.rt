//! Whose a file is, and who may use it.
use std::fs::{File, Metadata, Permissions};
use std::io;
use std::os::unix::fs::{MetadataExt, PermissionsExt, fchown};

/// The bits of a mode that are for the members of the file's group.
const GROUP_BITS: u32 = 0o070;

/// Whose a file is, and who may use it.
#[derive(Clone, Copy)]
pub(crate) struct Access {
    owner: u32,
    group: u32,
    mode: u32,
}

impl Access {
    /// What this metadata says of it.
    pub(crate) fn of(metadata: &Metadata) -> Access {
        Access {
            owner: metadata.uid(),
            group: metadata.gid(),
            mode: metadata.mode(),
        }
    }

    /// Gives a file the same owner, group and mode. Only the superuser may give a file away, so another
    /// user's file keeps its group alone. Where that can't be given either, no group may use the file.
    /// What the file has already is not given again, since some file systems refuse that.
    pub(crate) fn give_to(self, file: &File) -> io::Result<()> {
        let now = Access::of(&file.metadata()?);
        let mode = if self.give_owner(now, file) {
            self.mode
        } else {
            self.mode & !GROUP_BITS
        };
        if mode == now.mode {
            return Ok(());
        }
        file.set_permissions(Permissions::from_mode(mode))
    }

    /// Gives the file the owner and the group, or else the group. Answers whether it has the group.
    fn give_owner(self, now: Access, file: &File) -> bool {
        (now.owner == self.owner && now.group == self.group)
            || fchown(file, Some(self.owner), Some(self.group)).is_ok()
            || now.group == self.group
            || fchown(file, None, Some(self.group)).is_ok()
    }
}
