//! Why a file is not that of the tree of a root.

use crate::verdict::CheckFault;
use std::alloc::AllocError;
use std::error::Error;
use std::fmt;
use std::fmt::{Display, Formatter};

/// Why a file that is read once, by its root, is refused.
#[derive(Clone, Copy, Debug, PartialEq, Eq)]
pub enum StreamFault {
    /// The first flaw in the order of the bytes. Collisions are not looked for.
    Check(CheckFault),
    /// The file is of the other version.
    Version,
    /// It is the file of a map, but its root is another one.
    OtherRoot,
}

impl Display for StreamFault {
    ghost use Rattle.std.specs.Prelude.{Some};
    ghost use Rattle.prolly_check.specs.FaultTexts.{stream_fault_text};

    ghost output = { λ fault. Some (stream_fault_text fault) };

    fn fmt<W: fmt::Write>(&self, f: &mut Formatter<W>) -> fmt::Result {
        match self {
            StreamFault::Check(fault) => fault.fmt(f),
            StreamFault::Version => f.write_str("chunk file: wrong version"),
            StreamFault::OtherRoot => f.write_str("chunk file: has another root"),
        }
    }
}

impl Error for StreamFault {}

impl From<CheckFault> for StreamFault {
    ghost use Rattle.std.specs.Prelude.{◌≡◌};
    ghost use Rattle.prolly_check.specs.declared.stream.fault.StreamFault.TheVariants.{Check};

    ghost from_gives = { λ check fault. fault ≡ Check check };

    fn from(check: CheckFault) -> Self {
        StreamFault::Check(check)
    }
}

impl From<AllocError> for StreamFault {
    ghost use Rattle.std.specs.Prelude.{◌≡◌};
    ghost use Rattle.prolly_check.specs.declared.stream.fault.StreamFault.TheVariants.{Check};
    ghost use Rattle.prolly_check.specs.declared.verdict.fault.CheckFault.TheVariants.{Memory};

    ghost from_gives = { λ _ fault. fault ≡ Check Memory };

    fn from(_: AllocError) -> Self {
        StreamFault::Check(CheckFault::Memory)
    }
}
