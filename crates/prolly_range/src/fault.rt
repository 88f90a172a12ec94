//! Why a proof of a set of keys shows nothing more.
ghost use Rattle.std.specs.Prelude.{◌≡◌};

use prolly_io::ReadFault;
use prolly_root::ProofFault;
use std::alloc::AllocError;
use std::error::Error;
use std::fmt;
use std::fmt::{Display, Formatter};

/// The first fault that is met.
#[derive(Clone, Copy, Debug, PartialEq, Eq)]
pub enum SetFault {
    /// Memory was refused.
    Memory,
    /// A read failed.
    Read,
    /// The bytes are no such proof. Chunks are numbered in the order of the proof.
    Proof(ProofFault),
    /// An earlier call failed.
    Stopped,
}

impl Display for SetFault {
    ghost use Rattle.std.specs.Prelude.{Some};
    ghost use Rattle.prolly_range.specs.FaultTexts.{set_fault_text};

    ghost output = { λ fault. Some (set_fault_text fault) };

    fn fmt<W: fmt::Write>(&self, f: &mut Formatter<W>) -> fmt::Result {
        match self {
            SetFault::Memory => f.write_str("out of memory"),
            SetFault::Read => f.write_str("proof: read failed"),
            SetFault::Proof(fault) => fault.fmt(f),
            SetFault::Stopped => f.write_str("proof: an earlier call failed"),
        }
    }
}

impl Error for SetFault {}

impl From<AllocError> for SetFault {
    ghost use Rattle.prolly_range.specs.declared.fault.SetFault.TheVariants.{Memory};

    ghost from_gives = { λ _ fault. fault ≡ Memory };

    fn from(_: AllocError) -> Self {
        SetFault::Memory
    }
}

impl From<ReadFault> for SetFault {
    ghost use Rattle.prolly_range.specs.Verifier.{fault_of_read};

    ghost from_gives = { λ read fault. fault ≡ fault_of_read read };

    fn from(read: ReadFault) -> Self {
        match read {
            ReadFault::Memory => SetFault::Memory,
            ReadFault::Read => SetFault::Read,
        }
    }
}
