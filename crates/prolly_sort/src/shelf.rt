//! Sorted runs that wait in files.
ghost use Rattle.std.specs.Prelude.{◌≡◌, ◌++◌, [], List, IfErr, IfOk, OnOk, true};
ghost use Rattle.std.specs.List.{AllByRecursion};
ghost use Rattle.prolly_entry.specs.Record.{IsRecord, Record as RecordValue};
ghost use Rattle.prolly_sort.specs.Overlaid.{overlaid};
ghost use Rattle.prolly_sort.specs.Shelf.{GoesBehind, HoldsAll, IsRunFile};
ghost use Rattle.prolly_sort.specs.Told.{AreTold, IsToldOf, Obeys};
ghost use Rattle.prolly_sort.specs.declared.key_rule.KeyRule.{KeyRule as Rule};

use crate::fault::SorterFault;
use crate::key_rule::KeyRule;
use crate::open_run::OpenRun;
use crate::sorted_file::SortedFile;
use crate::sorted_run::SortedRun;
use crate::store::RunStore;
use crate::stored_runs::StoredRuns;
use prolly_io::{Sink, Source};
use std::alloc::Global;
use std::sync::Wait;

/// Sorted runs that wait in files, in the order in which their records came: those that are read
/// back, and then the one that is written.
#[derive(Drop)]
pub(crate) struct Shelf<W, S> {
    pub(crate) stored: StoredRuns<S>,
    pub(crate) open: Option<OpenRun<W>>,
}

impl<W: Sink + Drop, S: Source + Drop> Shelf<W, S> {
    /// No runs.
    pub(crate) fn new(alloc: Global) -> Shelf<W, S>
        ensures { (rule : Rule) → HoldsAll W.seen S.seen rule result [] }
    {
        Shelf {
            stored: StoredRuns::new(alloc),
            open: None,
        }
    }

    /// Whether no run was put there yet.
    pub(crate) fn is_empty(&self) -> bool
        ensures { (rule : Rule) (came : List RecordValue) → result ≡ true →
            HoldsAll W.seen S.seen rule self.now came → came ≡ [] }
    {
        self.open.is_none() && self.stored.is_empty()
    }

    /// Puts a sorted run behind those that are there: into the file that is written, where its keys
    /// are greater than those in it, and else into a new one.
    pub(crate) fn add<T: RunStore<W, S>, R: Wait>(
        &mut self,
        rt: &R,
        alloc: Global,
        rule: KeyRule,
        store: &mut T,
        sorted: &SortedRun,
    ) -> Result<(), SorterFault>
        ensures keeps { T.keeps store.old ≡ true → T.keeps store.new ≡ true }
        ensures holds { (came more : List RecordValue) → T.keeps store.old ≡ true →
            HoldsAll W.seen S.seen rule self.old came → sorted.now ≡ overlaid more →
            AllByRecursion IsRecord more → Obeys rule more →
            OnOk result (HoldsAll W.seen S.seen rule self.new (came ++ more)) }
        ensures told { IfErr result (IsToldOf rule (λ a b. (came : List RecordValue) →
            T.keeps store.old ≡ true → HoldsAll W.seen S.seen rule self.old came →
            AreTold came a b)) }
    {
        let mut run = self.open_before(rt, alloc, rule, store, sorted)?;
        run.append(alloc, sorted)?;
        self.open = Some(run);
        Ok(())
    }

    /// Takes the run that is written, where the sorted run goes behind it. Else that is stored, and
    /// a new one is begun.
    fn open_before<T: RunStore<W, S>, R: Wait>(
        &mut self,
        rt: &R,
        alloc: Global,
        rule: KeyRule,
        store: &mut T,
        sorted: &SortedRun,
    ) -> Result<OpenRun<W>, SorterFault>
        ensures keeps { T.keeps store.old ≡ true → T.keeps store.new ≡ true }
        ensures run { (came more : List RecordValue) → T.keeps store.old ≡ true →
            HoldsAll W.seen S.seen rule self.old came → sorted.now ≡ overlaid more →
            IfOk result (λ run. GoesBehind W.seen S.seen rule self.new run came more) }
        ensures told { IfErr result (IsToldOf rule (λ a b. (came : List RecordValue) →
            T.keeps store.old ≡ true → HoldsAll W.seen S.seen rule self.old came →
            AreTold came a b)) }
    {
        let Some(run) = self.open.take() else {
            return Ok(OpenRun::new(store.create()?));
        };
        if run.is_before(sorted) {
            return Ok(run);
        }
        self.stored.push(rt, alloc, rule, store, run.into_sorted())?;
        Ok(OpenRun::new(store.create()?))
    }

    /// Merges all runs into one file. Where no run had to be stored, it is the one that was written.
    /// Else that is merged with all others, and with no group of them before.
    pub(crate) fn finish<T: RunStore<W, S>, R: Wait>(
        self,
        rt: &R,
        alloc: Global,
        rule: KeyRule,
        store: &mut T,
    ) -> Result<SortedFile<W>, SorterFault>
        ensures keeps { T.keeps store.old ≡ true → T.keeps store.new ≡ true }
        ensures sorted { (came : List RecordValue) → T.keeps store.old ≡ true →
            HoldsAll W.seen S.seen rule self came →
            IfOk result (λ sorted. IsRunFile W.seen rule sorted came) }
        ensures told { IfErr result (IsToldOf rule (λ a b. (came : List RecordValue) →
            T.keeps store.old ≡ true → HoldsAll W.seen S.seen rule self came → AreTold came a b)) }
    {
        let Shelf { mut stored, open } = self;
        if let Some(run) = open {
            if stored.is_empty() {
                return Ok(run.into_sorted());
            }
            stored.push_unmerged(store, run.into_sorted())?;
        }
        stored.merge_all(rt, alloc, rule, store)
    }
}
