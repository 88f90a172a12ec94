//! Why what is found by a root is not written whole.
ghost use Rattle.std.specs.Prelude.{◌≡◌};

use crate::fault::Fault;
use crate::output_fault::OutputFault;
use prolly_io::SinkFault;
use prolly_root::RootFault;
use std::alloc::AllocError;

/// Why what is found by a root is not written whole.
#[derive(Clone, Copy)]
pub enum RootOutputFault {
    /// A look-up has no answer.
    Root(RootFault),
    /// It is not written.
    Output(OutputFault),
}

impl From<RootFault> for RootOutputFault {
    ghost use Rattle.prolly_fault.specs.declared.root_output_fault.RootOutputFault.TheVariants.{Root};

    ghost from_gives = { λ root fault. fault ≡ Root root };

    fn from(root: RootFault) -> Self {
        RootOutputFault::Root(root)
    }
}

impl From<OutputFault> for RootOutputFault {
    ghost use Rattle.prolly_fault.specs.declared.root_output_fault.RootOutputFault.TheVariants.{Output};

    ghost from_gives = { λ output fault. fault ≡ Output output };

    fn from(output: OutputFault) -> Self {
        RootOutputFault::Output(output)
    }
}

impl From<AllocError> for RootOutputFault {
    ghost use Rattle.prolly_fault.specs.declared.output_fault.OutputFault.TheVariants.{Memory};
    ghost use Rattle.prolly_fault.specs.declared.root_output_fault.RootOutputFault.TheVariants.{Output};

    ghost from_gives = { λ _ fault. fault ≡ Output Memory };

    fn from(_: AllocError) -> Self {
        RootOutputFault::Output(OutputFault::Memory)
    }
}

impl From<SinkFault> for RootOutputFault {
    ghost use Rattle.prolly_fault.specs.declared.output_fault.OutputFault.TheVariants.{Write};
    ghost use Rattle.prolly_fault.specs.declared.root_output_fault.RootOutputFault.TheVariants.{Output};

    ghost from_gives = { λ _ fault. fault ≡ Output Write };

    fn from(_: SinkFault) -> Self {
        RootOutputFault::Output(OutputFault::Write)
    }
}

impl From<RootOutputFault> for Fault {
    ghost use Rattle.prolly_fault.specs.OutputFault.{told_stop};

    ghost from_gives = { λ stop fault. fault ≡ told_stop stop };

    fn from(stop: RootOutputFault) -> Self {
        match stop {
            RootOutputFault::Root(fault) => Fault::Root(fault),
            RootOutputFault::Output(fault) => Fault::from(fault),
        }
    }
}
