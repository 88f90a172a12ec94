//! Why a difference by the roots was not found.
use prolly_root::RootFault;
use std::alloc::AllocError;

/// The first fault that is met.
#[derive(Clone, Copy, Debug, PartialEq, Eq)]
pub enum RootDiffFault {
    /// Memory was refused, for a change that was found or for a note.
    Memory,
    /// The old tree could not be read on.
    Old(RootFault),
    /// The new tree could not be read on.
    New(RootFault),
    /// An earlier call failed.
    Stopped,
}

impl From<AllocError> for RootDiffFault {
    ghost use Rattle.std.specs.Prelude.{◌≡◌};
    ghost use Rattle.prolly_root_diff.specs.declared.fault.RootDiffFault.TheVariants.{Memory};

    ghost from_gives = { λ _ fault. fault ≡ Memory };

    fn from(_: AllocError) -> Self {
        RootDiffFault::Memory
    }
}
