//! What commands tell of the faults of a set of keys, and of its proof.
ghost use Rattle.std.specs.Prelude.{◌≡◌};

use crate::fault::Fault;
use prolly_range::{NotRising, ProveFault, SetFault};
use prolly_root::ProofFault;
use prolly_text::KeysFault;

impl From<SetFault> for Fault {
    ghost use Rattle.prolly_fault.specs.SetFaults.{told_set};

    ghost from_gives = { λ set fault. fault ≡ told_set set };

    fn from(fault: SetFault) -> Self {
        match fault {
            SetFault::Memory => Fault::Memory,
            SetFault::Read => Fault::Read,
            SetFault::Proof(fault) => Fault::Proof(fault),
            // No command goes on behind a fault. It would be a proof of which the rest is missing.
            SetFault::Stopped => Fault::Proof(ProofFault::Truncated),
        }
    }
}

impl From<ProveFault> for Fault {
    ghost use Rattle.prolly_fault.specs.SetFaults.{told_prove};

    ghost from_gives = { λ prove fault. fault ≡ told_prove prove };

    fn from(fault: ProveFault) -> Self {
        match fault {
            ProveFault::Chunks(fault) => Fault::Root(fault),
            ProveFault::Write => Fault::Write,
        }
    }
}

impl From<NotRising> for Fault {
    ghost use Rattle.prolly_text.specs.declared.lines.keys.KeysFault.TheVariants.{NotRising as Falls};
    ghost use Rattle.prolly_fault.specs.declared.fault.Fault.TheVariants.{Keys};

    ghost from_gives = { λ falls fault. fault ≡ Keys (Falls falls.place) };

    fn from(falls: NotRising) -> Self {
        let line = falls.place as u64;
        Fault::Keys(KeysFault::NotRising { line })
    }
}
