//! Records that gather in memory, and in files where there are too many.
ghost use Rattle.std.specs.Prelude.{◌≡◌, ◌++◌, ◌∷◌, ◌<◌, ◌≤◌, [], List, IfErr, IfOk, OnOk, length, true};
ghost use Rattle.prolly_entry.specs.Record.{Record as RecordValue};
ghost use Rattle.prolly_sort.specs.Overlaid.{overlaid};
ghost use Rattle.prolly_sort.specs.Shelf.{CameToPile, IsRunFile};
ghost use Rattle.prolly_sort.specs.Told.{AreNumbered, AreTold, IsToldOf, Obeys, number_record};

use crate::fault::{PushFault, SorterFault};
use crate::key_rule::KeyRule;
use crate::number::number_record;
use crate::run::Run;
use crate::shelf::Shelf;
use crate::sorted_file::SortedFile;
use crate::sorted_run::SortedRun;
use crate::store::{RunStore, StoreFault};
use prolly_entry::Record;
use prolly_io::{Sink, Source};
use std::alloc::Global;
use std::mem;
use std::sync::Wait;

/// Records that gather in a run, which is put on a shelf where it is full.
#[derive(Drop)]
pub(crate) struct Pile<W, S> {
    pub(crate) alloc: Global,
    pub(crate) budget: u32,
    pub(crate) rule: KeyRule,
    pub(crate) run: Run,
    pub(crate) shelf: Shelf<W, S>,
    /// How many records came, or the greatest number where more did.
    pub(crate) count: u64,
}

impl<W: Sink + Drop, S: Source + Drop> Pile<W, S> {
    /// No record came yet. The budget is that of a run.
    pub(crate) fn new(alloc: Global, budget: u32, rule: KeyRule) -> Pile<W, S>
        ensures rule { result.rule ≡ rule }
        ensures none { CameToPile W.seen S.seen result [] }
    {
        Pile {
            alloc,
            budget,
            rule,
            run: Run::new(alloc, budget),
            shelf: Shelf::new(alloc),
            count: 0,
        }
    }

    /// Takes a copy of a record behind those that came.
    pub(crate) fn push<T: RunStore<W, S>, R: Wait>(
        &mut self,
        rt: &R,
        store: &mut T,
        record: &Record,
    ) -> Result<(), SorterFault>
        ensures keeps { T.keeps store.old ≡ true → T.keeps store.new ≡ true }
        ensures rule { self.new.rule ≡ self.old.rule }
        ensures came { (came : List RecordValue) → T.keeps store.old ≡ true →
            CameToPile W.seen S.seen self.old came →
            OnOk result (CameToPile W.seen S.seen self.new (came ++ «record».now ∷ [])) }
        ensures told { IfErr result (IsToldOf self.old.rule (λ a b. (came : List RecordValue) →
            T.keeps store.old ≡ true → CameToPile W.seen S.seen self.old came →
            AreNumbered came → AreTold came a b)) }
    {
        match self.run.push(record) {
            Ok(()) => {}
            Err(PushFault::Memory) => return Err(StoreFault::Memory.into()),
            Err(PushFault::Full) => {
                self.put_aside(rt, store)?;
                if let Err(_) = self.run.push(record) {
                    return Err(StoreFault::Memory.into());
                }
            }
        }
        self.count = self.count.saturating_add(1);
        Ok(())
    }

    /// Takes the number of the next record, by its key. Records have numbers from 0.
    pub(crate) fn push_number<T: RunStore<W, S>, R: Wait>(
        &mut self,
        rt: &R,
        store: &mut T,
        key: &[u8],
    ) -> Result<(), SorterFault>
        requires { length key.now ≤ 1024 }
        ensures keeps { T.keeps store.old ≡ true → T.keeps store.new ≡ true }
        ensures rule { self.new.rule ≡ self.old.rule }
        ensures came { (came : List RecordValue) → T.keeps store.old ≡ true →
            CameToPile W.seen S.seen self.old came → OnOk result
            ((length came < 0xFFFF_FFFF_FFFF_FFFF) ×
            CameToPile W.seen S.seen self.new (came ++ number_record (length came) key.now ∷ [])) }
        ensures told { IfErr result (IsToldOf self.old.rule (λ a b. (came : List RecordValue) →
            T.keeps store.old ≡ true → CameToPile W.seen S.seen self.old came →
            AreNumbered came → AreTold came a b)) }
    {
        if self.count == u64::MAX {
            return Err(StoreFault::TooMany.into());
        }
        let record = number_record(self.alloc, self.count, key)?;
        self.push(rt, store, &record)
    }

    /// Puts the records that are in memory in order, and writes them to a file.
    fn put_aside<T: RunStore<W, S>, R: Wait>(
        &mut self,
        rt: &R,
        store: &mut T,
    ) -> Result<(), SorterFault>
        ensures keeps { T.keeps store.old ≡ true → T.keeps store.new ≡ true }
        ensures rule { self.new.rule ≡ self.old.rule }
        ensures came { (came : List RecordValue) → T.keeps store.old ≡ true →
            CameToPile W.seen S.seen self.old came →
            OnOk result (CameToPile W.seen S.seen self.new came) }
        ensures empty { OnOk result (self.new.run.records ≡ []) }
        ensures told { IfErr result (IsToldOf self.old.rule (λ a b. (came : List RecordValue) →
            T.keeps store.old ≡ true → CameToPile W.seen S.seen self.old came →
            AreNumbered came → AreTold came a b)) }
    {
        let sorted = self.take_sorted()?;
        self.shelf.add(rt, self.alloc, self.rule, store, &sorted)
    }

    /// Takes the records that are in memory, in order.
    fn take_sorted(&mut self) -> Result<SortedRun, SorterFault>
        ensures rule { self.new.rule ≡ self.old.rule }
        ensures shelf { self.new.shelf ≡ self.old.shelf }
        ensures count { self.new.count ≡ self.old.count }
        ensures empty { self.new.run.records ≡ [] }
        ensures records { IfOk result (λ sorted. sorted ≡ overlaid self.old.run.records) }
        ensures obeys { IfOk result (λ _. Obeys self.old.rule self.old.run.records) }
        ensures told { IfErr result (IsToldOf self.old.rule (λ a b. (came : List RecordValue) →
            CameToPile W.seen S.seen self.old came → AreNumbered came → AreTold came a b)) }
    {
        let run = mem::replace(&mut self.run, Run::new(self.alloc, self.budget));
        let before = self.count.saturating_sub(run.len() as u64);
        self.rule.sort(run, before)
    }

    /// The record file of all records that came, in order: of those with one key the last one.
    pub(crate) fn finish<T: RunStore<W, S>, R: Wait>(
        mut self,
        rt: &R,
        store: &mut T,
    ) -> Result<SortedFile<W>, SorterFault>
        ensures keeps { T.keeps store.old ≡ true → T.keeps store.new ≡ true }
        ensures sorted { (came : List RecordValue) → T.keeps store.old ≡ true →
            CameToPile W.seen S.seen self came →
            IfOk result (λ sorted. IsRunFile W.seen self.rule sorted came) }
        ensures told { IfErr result (IsToldOf self.rule (λ a b. (came : List RecordValue) →
            T.keeps store.old ≡ true → CameToPile W.seen S.seen self came →
            AreNumbered came → AreTold came a b)) }
    {
        self.put_aside(rt, store)?;
        self.shelf.finish(rt, self.alloc, self.rule, store)
    }

    /// Looks for a key that came twice, where each is to come once. Where all records are in memory, no
    /// file is made.
    pub(crate) fn check_keys<T: RunStore<W, S>, R: Wait>(
        mut self,
        rt: &R,
        store: &mut T,
    ) -> Result<(), SorterFault>
        ensures keeps { T.keeps store.old ≡ true → T.keeps store.new ≡ true }
        ensures obeys { (came : List RecordValue) → T.keeps store.old ≡ true →
            CameToPile W.seen S.seen self came → IfOk result (λ _. Obeys self.rule came) }
        ensures told { IfErr result (IsToldOf self.rule (λ a b. (came : List RecordValue) →
            T.keeps store.old ≡ true → CameToPile W.seen S.seen self came →
            AreNumbered came → AreTold came a b)) }
    {
        if self.shelf.is_empty() {
            self.take_sorted()?;
            return Ok(());
        }
        self.finish(rt, store)?;
        Ok(())
    }
}
