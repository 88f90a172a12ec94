//! Why the stage stops.
ghost use Rattle.std.specs.Prelude.{◌≡◌};
ghost use Rattle.prolly_apply.specs.Applied.{stop_ends};

use prolly_link::{End, RunFault};
use std::alloc::AllocError;

/// Why the stage stops before both inputs have come to a clean end.
#[derive(Clone, Copy, Debug)]
pub(crate) enum Stop {
    /// Memory was refused.
    Memory,
    /// An input ended with this fault.
    Fault(RunFault),
}

impl Stop {
    /// The end that is sent then.
    pub(crate) fn end(self) -> End
        ensures { result ≡ stop_ends self }
    {
        match self {
            Stop::Memory => End::Fault(RunFault::Memory),
            Stop::Fault(fault) => End::Fault(fault),
        }
    }
}

impl From<AllocError> for Stop {
    ghost use Rattle.std.specs.Prelude.{◌≡◌};
    ghost use Rattle.prolly_apply.specs.declared.stop.Stop.TheVariants.{Memory};

    ghost from_gives = { λ _ stop. stop ≡ Memory };

    fn from(_: AllocError) -> Self {
        Stop::Memory
    }
}
