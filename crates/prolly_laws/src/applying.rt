//! What comes of changes that are laid over a map.
ghost use Rattle.prolly_entry.specs.declared.version.Version.{Version};
ghost use Rattle.prolly_entry.specs.Cut.{Cut};
ghost use Rattle.prolly_tree.specs.Applying.{AppliedTwice, FilesApply, NoneApplied};

/// To lay changes over what came of others is to lay both over the map, or their overlay.
pub fn changes_apply_together()
    ensures { AppliedTwice }
{}

/// No changes leave a map as it is.
pub fn no_changes_leave_the_map()
    ensures { NoneApplied }
{}

/// So no changes leave a file as it is, a difference turns the one file into the other, and changes
/// that are applied one after another make the file of their overlay.
pub fn files_apply_changes()
    ensures { (cut : Cut) (version : Version) → FilesApply cut version }
{}
