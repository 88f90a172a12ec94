//! Why a run does not take a record, why it is not put in order, and why a sorter is not done.

use crate::store::StoreFault;
use std::alloc::AllocError;
use std::error::Error;
use std::fmt;
use std::fmt::{Display, Formatter};

/// Why a run does not take a record.
#[derive(Clone, Copy, Debug, PartialEq, Eq)]
pub enum PushFault {
    /// The record would take more of the budget than is left.
    Full,
    /// Memory was refused.
    Memory,
}

impl Display for PushFault {
    ghost use Rattle.std.specs.Prelude.{Some};
    ghost use Rattle.prolly_sort.specs.FaultTexts.{push_text};

    ghost output = { λ fault. Some (push_text fault) };

    fn fmt<W: fmt::Write>(&self, f: &mut Formatter<W>) -> fmt::Result {
        match self {
            PushFault::Full => f.write_str("run is full"),
            PushFault::Memory => f.write_str("out of memory"),
        }
    }
}

impl Error for PushFault {}

impl From<AllocError> for PushFault {
    ghost use Rattle.std.specs.Prelude.{◌≡◌};
    ghost use Rattle.prolly_sort.specs.declared.fault.PushFault.TheVariants.{Memory};

    ghost from_gives = { λ _ fault. fault ≡ Memory };

    fn from(_: AllocError) -> Self {
        PushFault::Memory
    }
}

/// Two records of a run that have one key, where each key is to stand once.
#[derive(Clone, Copy, Debug, PartialEq, Eq)]
pub struct DoubledKey {
    /// The number of the earlier record. The first that came has number 0.
    pub first: u64,
    /// The number of the later one.
    pub second: u64,
}

impl Display for DoubledKey {
    ghost use Rattle.std.specs.Prelude.{Some};
    ghost use Rattle.prolly_sort.specs.FaultTexts.{doubled_text};

    ghost output = { λ fault. Some (doubled_text fault.first fault.second) };

    fn fmt<W: fmt::Write>(&self, f: &mut Formatter<W>) -> fmt::Result {
        let DoubledKey { first, second } = self;
        write!(f, "records {first} and {second} have one key")
    }
}

impl Error for DoubledKey {}

/// Why a sorter does not take a record, or does not put those that came in order.
#[derive(Clone, Copy, Debug, PartialEq, Eq)]
pub enum SorterFault {
    /// Runs can't wait, or can't be merged.
    Store(StoreFault),
    /// The records of these two numbers have one key, and each key is to come once. The first that
    /// came has number 0.
    Doubled { first: u64, second: u64 },
}

impl Display for SorterFault {
    ghost use Rattle.std.specs.Prelude.{Some};
    ghost use Rattle.prolly_sort.specs.FaultTexts.{sorter_text};

    ghost output = { λ fault. Some (sorter_text fault) };

    fn fmt<W: fmt::Write>(&self, f: &mut Formatter<W>) -> fmt::Result {
        match self {
            SorterFault::Store(fault) => fault.fmt(f),
            SorterFault::Doubled { first, second } => DoubledKey {
                first: *first,
                second: *second,
            }
            .fmt(f),
        }
    }
}

impl Error for SorterFault {}

impl From<StoreFault> for SorterFault {
    ghost use Rattle.std.specs.Prelude.{◌≡◌};
    ghost use Rattle.prolly_sort.specs.declared.fault.SorterFault.TheVariants.{Store};

    ghost from_gives = { λ store fault. fault ≡ Store store };

    fn from(store: StoreFault) -> Self {
        SorterFault::Store(store)
    }
}

impl From<AllocError> for SorterFault {
    ghost use Rattle.std.specs.Prelude.{◌≡◌};
    ghost use Rattle.prolly_sort.specs.declared.fault.SorterFault.TheVariants.{Store};
    ghost use Rattle.prolly_sort.specs.declared.store.StoreFault.TheVariants.{Memory};

    ghost from_gives = { λ _ fault. fault ≡ Store Memory };

    fn from(_: AllocError) -> Self {
        SorterFault::Store(StoreFault::Memory)
    }
}
