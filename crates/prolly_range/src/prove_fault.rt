//! Why the proof of a set of keys was not written.
ghost use Rattle.std.specs.Prelude.{◌≡◌};

use prolly_io::{SinkFault, WriteFault};
use prolly_root::RootFault;
use std::alloc::AllocError;
use std::error::Error;
use std::fmt;
use std::fmt::{Display, Formatter};

/// The first fault that is met.
#[derive(Clone, Copy, Debug, PartialEq, Eq)]
pub enum ProveFault {
    /// The chunks could not be read on, or memory was refused.
    Chunks(RootFault),
    /// The sink failed.
    Write,
}

impl Display for ProveFault {
    ghost use Rattle.std.specs.Prelude.{Some};
    ghost use Rattle.prolly_range.specs.FaultTexts.{prove_fault_text};

    ghost output = { λ fault. Some (prove_fault_text fault) };

    fn fmt<W: fmt::Write>(&self, f: &mut Formatter<W>) -> fmt::Result {
        match self {
            ProveFault::Chunks(fault) => fault.fmt(f),
            ProveFault::Write => f.write_str("write failed"),
        }
    }
}

impl Error for ProveFault {}

impl From<RootFault> for ProveFault {
    ghost use Rattle.prolly_range.specs.declared.prove_fault.ProveFault.TheVariants.{Chunks};

    ghost from_gives = { λ fault result. result ≡ Chunks fault };

    fn from(fault: RootFault) -> Self {
        ProveFault::Chunks(fault)
    }
}

impl From<AllocError> for ProveFault {
    ghost use Rattle.prolly_range.specs.declared.prove_fault.ProveFault.TheVariants.{Chunks};
    ghost use Rattle.prolly_root.specs.declared.root_fault.RootFault.TheVariants.{Memory};

    ghost from_gives = { λ _ result. result ≡ Chunks Memory };

    fn from(_: AllocError) -> Self {
        ProveFault::Chunks(RootFault::Memory)
    }
}

impl From<WriteFault> for ProveFault {
    ghost use Rattle.prolly_range.specs.declared.prove_fault.ProveFault.TheVariants.{Write};

    ghost from_gives = { λ _ result. result ≡ Write };

    fn from(_: WriteFault) -> Self {
        ProveFault::Write
    }
}

impl From<SinkFault> for ProveFault {
    ghost use Rattle.prolly_range.specs.declared.prove_fault.ProveFault.TheVariants.{Write};

    ghost from_gives = { λ _ result. result ≡ Write };

    fn from(_: SinkFault) -> Self {
        ProveFault::Write
    }
}
