//! Why an output is not written whole.
ghost use Rattle.std.specs.Prelude.{◌≡◌};

use crate::fault::Fault;
use prolly_io::{SinkFault, WriteFault};
use std::alloc::AllocError;

/// Why what is put together part by part is not written whole.
#[derive(Clone, Copy)]
pub enum OutputFault {
    /// Memory was refused.
    Memory,
    /// The output took only a part.
    Write,
}

impl From<AllocError> for OutputFault {
    ghost use Rattle.prolly_fault.specs.declared.output_fault.OutputFault.TheVariants.{Memory};

    ghost from_gives = { λ _ fault. fault ≡ Memory };

    fn from(_: AllocError) -> Self {
        OutputFault::Memory
    }
}

impl From<SinkFault> for OutputFault {
    ghost use Rattle.prolly_fault.specs.declared.output_fault.OutputFault.TheVariants.{Write};

    ghost from_gives = { λ _ fault. fault ≡ Write };

    fn from(_: SinkFault) -> Self {
        OutputFault::Write
    }
}

impl From<WriteFault> for OutputFault {
    ghost use Rattle.prolly_fault.specs.declared.output_fault.OutputFault.TheVariants.{Write};

    ghost from_gives = { λ _ fault. fault ≡ Write };

    fn from(_: WriteFault) -> Self {
        OutputFault::Write
    }
}

impl From<OutputFault> for Fault {
    ghost use Rattle.prolly_fault.specs.OutputFault.{told};

    ghost from_gives = { λ output fault. fault ≡ told output };

    fn from(output: OutputFault) -> Self {
        match output {
            OutputFault::Memory => Fault::Memory,
            OutputFault::Write => Fault::Write,
        }
    }
}
