//! Runs in files that are read back, and how they are merged.
ghost use Rattle.std.specs.Prelude.{◌≡◌, ◌++◌, ◌<◌, ◌≤◌, [], List, IfErr, IfOk, OnOk, true, vec_len};
ghost use Rattle.std.specs.List.{AllByRecursion};
ghost use Rattle.prolly_entry.specs.Record.{IsRecord, Record as RecordValue};
ghost use Rattle.prolly_sort.specs.Shelf.{AreStored, GivesBack, IsRunFile};
ghost use Rattle.prolly_sort.specs.Told.{AreTold, IsToldOf};
ghost use Rattle.prolly_sort.specs.declared.key_rule.KeyRule.{KeyRule as Rule};

use crate::fault::SorterFault;
use crate::key_rule::KeyRule;
use crate::merging::merged;
use crate::sorted_file::SortedFile;
use crate::store::{RunStore, StoreFault};
use prolly_io::{Sink, Source};
use std::alloc::Global;
use std::sync::Wait;

/// How many runs are merged at a time.
const GROUP: usize = 16;

/// How many records a run may have that is read back.
pub(crate) const MOST_RECORDS: u32 = u32::MAX;

/// A run in a file that is read back.
#[derive(Drop)]
pub(crate) struct StoredRun<S> {
    pub(crate) file: S,
    /// How often its records were merged, or the greatest number.
    pub(crate) level: u8,
}

impl<S: Source> StoredRun<S> {
    /// The run in a file that was written.
    fn new<T: RunStore<W, S>, W: Sink + Drop>(
        store: &mut T,
        sorted: SortedFile<W>,
        level: u8,
    ) -> Result<StoredRun<S>, StoreFault>
        ensures keeps { T.keeps store.old ≡ true → T.keeps store.new ≡ true }
        ensures run { (rule : Rule) (came : List RecordValue) → T.keeps store.old ≡ true →
            IsRunFile W.seen rule sorted came → IfOk result (λ run. GivesBack S.seen rule run came) }
    {
        if sorted.len > u64::from(MOST_RECORDS) {
            return Err(StoreFault::TooMany);
        }
        let file = store.read_back(sorted.file)?;
        Ok(StoredRun { file, level })
    }
}

/// Runs in files that are read back, in the order in which their records came.
#[derive(Drop)]
pub(crate) struct StoredRuns<S> {
    pub(crate) runs: Vec<StoredRun<S>>,
}

impl<S: Source + Drop> StoredRuns<S> {
    /// No runs.
    pub(crate) fn new(alloc: Global) -> StoredRuns<S>
        ensures { (rule : Rule) → AreStored S.seen rule result.runs.items [] }
    {
        StoredRuns {
            runs: Vec::new(alloc),
        }
    }

    /// Whether there is none.
    pub(crate) fn is_empty(&self) -> bool
        ensures { result ≡ true → self.now.runs.items ≡ [] }
    {
        self.runs.is_empty()
    }

    /// Stores a run that was written behind the others. As long as the last ones were merged equally
    /// often, and are as many as are merged at a time, they are merged. So of those that were merged
    /// equally often no more than fifteen wait.
    pub(crate) fn push<T: RunStore<W, S>, W: Sink + Drop, R: Wait>(
        &mut self,
        rt: &R,
        alloc: Global,
        rule: KeyRule,
        store: &mut T,
        sorted: SortedFile<W>,
    ) -> Result<(), SorterFault>
        ensures keeps { T.keeps store.old ≡ true → T.keeps store.new ≡ true }
        ensures stored { (came part : List RecordValue) → T.keeps store.old ≡ true →
            AreStored S.seen rule self.old.runs.items came →
            AllByRecursion IsRecord (came ++ part) → IsRunFile W.seen rule sorted part →
            OnOk result (AreStored S.seen rule self.new.runs.items (came ++ part)) }
        ensures told { IfErr result (IsToldOf rule (λ a b. (came part : List RecordValue) →
            T.keeps store.old ≡ true → AreStored S.seen rule self.old.runs.items came →
            AllByRecursion IsRecord (came ++ part) → IsRunFile W.seen rule sorted part →
            AreTold (came ++ part) a b)) }
    {
        self.push_unmerged(store, sorted)?;
        self.merge_groups(rt, alloc, rule, store)
    }

    /// Stores a run that was written behind the others, and merges none. So as many as are merged at a
    /// time may then have been merged equally often.
    pub(crate) fn push_unmerged<T: RunStore<W, S>, W: Sink + Drop>(
        &mut self,
        store: &mut T,
        sorted: SortedFile<W>,
    ) -> Result<(), StoreFault>
        ensures keeps { T.keeps store.old ≡ true → T.keeps store.new ≡ true }
        ensures stored { (rule : Rule) (came part : List RecordValue) → T.keeps store.old ≡ true →
            AreStored S.seen rule self.old.runs.items came → IsRunFile W.seen rule sorted part →
            OnOk result (AreStored S.seen rule self.new.runs.items (came ++ part)) }
    {
        let run = StoredRun::new(store, sorted, 0)?;
        if let Err(_) = self.runs.push(run) {
            return Err(StoreFault::Memory);
        }
        Ok(())
    }

    /// Merges the last runs as long as these are as many as are merged at a time, and were merged
    /// equally often.
    fn merge_groups<T: RunStore<W, S>, W: Sink + Drop, R: Wait>(
        &mut self,
        rt: &R,
        alloc: Global,
        rule: KeyRule,
        store: &mut T,
    ) -> Result<(), SorterFault>
        ensures keeps { T.keeps store.old ≡ true → T.keeps store.new ≡ true }
        ensures stored { (came : List RecordValue) → T.keeps store.old ≡ true →
            AreStored S.seen rule self.old.runs.items came → AllByRecursion IsRecord came →
            OnOk result (AreStored S.seen rule self.new.runs.items came) }
        ensures told { IfErr result (IsToldOf rule (λ a b. (came : List RecordValue) →
            T.keeps store.old ≡ true → AreStored S.seen rule self.old.runs.items came →
            AllByRecursion IsRecord came → AreTold came a b)) }
    {
        while self.has_group() {
            self.merge_last(rt, alloc, rule, store)?;
        }
        Ok(())
    }

    /// Whether the last runs are as many as are merged at a time, and were merged equally often.
    fn has_group(&self) -> bool
        ensures { result ≡ true → GROUP ≤ vec_len self.now.runs }
    {
        let Some(first) = self.runs.len().checked_sub(GROUP) else {
            return false;
        };
        let level = self.runs[first].level;
        self.runs[first..].iter().all(|run| run.level == level)
    }

    /// Merges as many of the last runs as are merged at a time.
    fn merge_last<T: RunStore<W, S>, W: Sink + Drop, R: Wait>(
        &mut self,
        rt: &R,
        alloc: Global,
        rule: KeyRule,
        store: &mut T,
    ) -> Result<(), SorterFault>
        requires { GROUP ≤ vec_len self.old.runs }
        ensures fewer { OnOk result (vec_len self.new.runs < vec_len self.old.runs) }
        ensures keeps { T.keeps store.old ≡ true → T.keeps store.new ≡ true }
        ensures stored { (came : List RecordValue) → T.keeps store.old ≡ true →
            AreStored S.seen rule self.old.runs.items came → AllByRecursion IsRecord came →
            OnOk result (AreStored S.seen rule self.new.runs.items came) }
        ensures told { IfErr result (IsToldOf rule (λ a b. (came : List RecordValue) →
            T.keeps store.old ≡ true → AreStored S.seen rule self.old.runs.items came →
            AllByRecursion IsRecord came → AreTold came a b)) }
    {
        let first = self.runs.len() - GROUP;
        let level = self.runs[first].level.saturating_add(1);
        let group = self.runs.split_off(first)?;
        let sorted = merged(rt, alloc, rule, store, group)?;
        let run = StoredRun::new(store, sorted, level)?;
        if let Err(_) = self.runs.push(run) {
            return Err(StoreFault::Memory.into());
        }
        Ok(())
    }

    /// Merges all runs into one file.
    pub(crate) fn merge_all<T: RunStore<W, S>, W: Sink + Drop, R: Wait>(
        mut self,
        rt: &R,
        alloc: Global,
        rule: KeyRule,
        store: &mut T,
    ) -> Result<SortedFile<W>, SorterFault>
        ensures keeps { T.keeps store.old ≡ true → T.keeps store.new ≡ true }
        ensures sorted { (came : List RecordValue) → T.keeps store.old ≡ true →
            AreStored S.seen rule self.runs.items came → AllByRecursion IsRecord came →
            IfOk result (λ sorted. IsRunFile W.seen rule sorted came) }
        ensures told { IfErr result (IsToldOf rule (λ a b. (came : List RecordValue) →
            T.keeps store.old ≡ true → AreStored S.seen rule self.runs.items came →
            AllByRecursion IsRecord came → AreTold came a b)) }
    {
        while self.runs.len() > GROUP {
            self.merge_last(rt, alloc, rule, store)?;
        }
        merged(rt, alloc, rule, store, self.runs)
    }
}
