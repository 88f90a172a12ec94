//! What comes of keys that come twice.
ghost use Rattle.std.specs.Prelude.{◌≡◌, ◌+◌, ◌≤◌, IfErr, IfOk, length};
ghost use Rattle.prolly_entry.specs.Keys.{Rising};
ghost use Rattle.prolly_entry.specs.Record.{keys_of};
ghost use Rattle.prolly_sort.specs.Overlaid.{overlaid};
ghost use Rattle.prolly_sort.specs.Told.{AreTold, CountUpFrom, IsToldOf, Obeys, fault_behind};

use crate::fault::{DoubledKey, SorterFault};
use crate::run::Run;
use crate::sorted_run::SortedRun;

/// What comes of a key that comes twice.
#[derive(Clone, Copy)]
pub(crate) enum KeyRule {
    /// The last record of it counts.
    LastCounts,
    /// It is a fault that names both records, by the numbers that are their values.
    Unique,
}

impl KeyRule {
    /// Puts a run in order. Its first record carries the number `before`, where records carry
    /// numbers.
    pub(crate) fn sort(self, run: Run, before: u64) -> Result<SortedRun, SorterFault>
        ensures records { IfOk result (λ sorted. sorted ≡ overlaid run.records) }
        ensures obeys { IfOk result (λ _. Obeys self run.records) }
        ensures told { IfErr result (IsToldOf self (λ a b. CountUpFrom before run.records →
            before + length run.records ≤ 0xFFFF_FFFF_FFFF_FFFF → AreTold run.records a b)) }
    {
        match self {
            KeyRule::LastCounts => Ok(run.sort()),
            KeyRule::Unique => match run.sort_unique() {
                Ok(sorted) => Ok(sorted),
                Err(fault) => Err(fault_behind(fault, before)),
            },
        }
    }
}

/// The fault of a run, whose first record has this number.
fn fault_behind(fault: DoubledKey, before: u64) -> SorterFault
    ensures { result ≡ fault_behind before fault }
{
    SorterFault::Doubled {
        first: before.saturating_add(fault.first),
        second: before.saturating_add(fault.second),
    }
}
