//! Why a command does not come to its files.
use prolly_fault::{Answer, Fault, NameFault};
use std::alloc::{AllocError, AllocFailed};

/// A file that is not to be had, or want of memory.
#[derive(Drop)]
pub enum Refusal {
    /// Memory was refused.
    Memory,
    /// What the user is told instead of the command's answer.
    Told(Answer),
}

impl From<AllocError> for Refusal {
    ghost use Rattle.std.specs.Prelude.{◌≡◌};
    ghost use Rattle.prolly_files.specs.declared.refusal.Refusal.TheVariants.{Memory};

    ghost from_gives = { λ _ refusal. refusal ≡ Memory };

    fn from(_: AllocError) -> Refusal {
        Refusal::Memory
    }
}

impl<T: Drop> From<AllocFailed<T>> for Refusal {
    ghost use Rattle.std.specs.Prelude.{◌≡◌};
    ghost use Rattle.prolly_files.specs.declared.refusal.Refusal.TheVariants.{Memory};

    ghost from_gives = { λ _ refusal. refusal ≡ Memory };

    fn from(_: AllocFailed<T>) -> Refusal {
        Refusal::Memory
    }
}

impl Refusal {
    /// The fault of a name.
    pub fn of_name(rt: &HostRuntime, fault: NameFault, name: &str) -> Refusal {
        Refusal::by(Answer::of_name(rt.alloc(), fault, name))
    }

    /// A fault of another kind.
    pub fn of_fault(rt: &HostRuntime, fault: Fault) -> Refusal {
        Refusal::by(Answer::of_fault(rt.alloc(), fault))
    }

    /// What the user is told, where there is memory for it.
    pub fn into_answer(self) -> Result<Answer, AllocError> {
        match self {
            Refusal::Told(answer) => Ok(answer),
            Refusal::Memory => Err(AllocError),
        }
    }

    fn by(answer: Result<Answer, AllocError>) -> Refusal {
        match answer {
            Ok(answer) => Refusal::Told(answer),
            Err(AllocError) => Refusal::Memory,
        }
    }
}

/// What the user is told of a command, or of a part of one: its answer, or why it does not come to its
/// files.
pub fn told(answer: Result<Answer, Refusal>) -> Result<Answer, AllocError> {
    match answer {
        Ok(answer) => Ok(answer),
        Err(refusal) => refusal.into_answer(),
    }
}
