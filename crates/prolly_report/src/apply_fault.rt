//! Why changes were not applied to an old tree.
use prolly_link::RunFault;
use prolly_root::RootFault;

/// Why changes were not applied.
#[derive(Clone, Copy, Debug, PartialEq, Eq)]
pub enum ApplyFault {
    /// A fault that a build may have, too.
    Run(RunFault),
    /// The old tree is at fault.
    Old(RootFault),
    /// The bits are not those of the old tree.
    WrongBits,
}
