//! Records that come in any order, put in order in bounded memory.
ghost use Rattle.std.specs.Prelude.{◌≡◌};
ghost use Rattle.prolly_sort.specs.declared.key_rule.KeyRule.TheVariants.{LastCounts};

use crate::fault::SorterFault;
use crate::key_rule::KeyRule;
use crate::pile::Pile;
use crate::sorted_file::SortedFile;
use crate::store::RunStore;
use prolly_entry::Record;
use prolly_io::{Sink, Source};
use std::alloc::Global;
use std::sync::Wait;

/// Puts records that come in any order in the order of their keys, in bounded memory: of records
/// with one key the last one that came counts, or two of them are a fault, and a removal stays a
/// removal.
///
/// Records gather in a [`Run`](crate::Run). Where its budget is full it is put in order and written
/// to a file of a [`RunStore`]. Where its keys are greater than all of the file before it, it goes
/// on in that file. So records that come in order are written once, and make one file. Else that
/// file waits to be read back, and runs that wait are merged, sixteen at a time. So a record is
/// written at most as often as the number of runs has digits to the base of 16, and twice more.
///
/// After a fault the sorter is of no use. What its files take is gone once the store lets them go.
#[derive(Drop)]
pub struct Sorter<W, S> {
    pub(crate) records: Pile<W, S>,
    /// The number of each record at its key, where each key is to come once.
    pub(crate) numbers: Option<Pile<W, S>>,
    ghost last_counts: { records.rule ≡ LastCounts },
}

impl<W: Sink + Drop, S: Source + Drop> Sorter<W, S> {
    ghost use Rattle.std.specs.Prelude.{◌++◌, ◌∷◌, [], ℕ, List, Err, IfOk, OnOk, false, true};
    ghost use Rattle.prolly_entry.specs.Record.{Record as RecordValue};
    ghost use Rattle.prolly_sort.specs.Run.{AreDoubled};
    ghost use Rattle.prolly_sort.specs.Shelf.{CameTo, IsSortedFile, is_unique};

    /// No record came yet. The budget is that of a run, in bytes (see [`Run::new`]). A record that
    /// takes more of it than all is told as want of memory: one takes 66,590 at most.
    ///
    /// [`Run::new`]: crate::Run::new
    pub fn new(alloc: Global, budget: u32) -> Sorter<W, S>
        ensures came { CameTo W.seen S.seen result [] }
        ensures unique { is_unique result ≡ false }
    {
        Sorter {
            records: Pile::new(alloc, budget, KeyRule::LastCounts),
            numbers: None,
        }
    }

    /// No record came yet, and each key is to come once. A half of the budget goes to the records,
    /// as by [`Sorter::new`], and the other one to their numbers, which are put in order by their
    /// keys: in memory where all of them fit, and else in files of their own. So a key that came
    /// twice is told by the numbers of its records. That is so at the latest at the end, and of which
    /// of several keys is not promised.
    pub fn unique(alloc: Global, budget: u32) -> Sorter<W, S>
        ensures came { CameTo W.seen S.seen result [] }
        ensures unique { is_unique result ≡ true }
    {
        let half = budget / 2;
        Sorter {
            records: Pile::new(alloc, half, KeyRule::LastCounts),
            numbers: Some(Pile::new(alloc, half, KeyRule::Unique)),
        }
    }

    /// Takes a copy of a record behind those that came.
    pub fn push<T: RunStore<W, S>, R: Wait>(
        &mut self,
        rt: &R,
        store: &mut T,
        record: &Record,
    ) -> Result<(), SorterFault>
        ensures keeps { T.keeps store.old ≡ true → T.keeps store.new ≡ true }
        ensures came { (came : List RecordValue) → T.keeps store.old ≡ true →
            CameTo W.seen S.seen self.old came →
            OnOk result (CameTo W.seen S.seen self.new (came ++ «record».now ∷ [])) }
        ensures stays { is_unique self.new ≡ is_unique self.old }
        ensures unique { (first second : ℕ) → result ≡ Err (SorterFault.Doubled first second) →
            is_unique self.old ≡ true }
        ensures doubled { (came : List RecordValue) (first second : ℕ) →
            result ≡ Err (SorterFault.Doubled first second) → T.keeps store.old ≡ true →
            CameTo W.seen S.seen self.old came → AreDoubled came first second }
    {
        if let Some(numbers) = &mut self.numbers {
            numbers.push_number(rt, store, record.key())?;
        }
        self.records.push(rt, store, record)
    }

    /// The record file of all records that came, in order: of those with one key the last one.
    pub fn finish<T: RunStore<W, S>, R: Wait>(
        self,
        rt: &R,
        store: &mut T,
    ) -> Result<SortedFile<W>, SorterFault>
        ensures keeps { T.keeps store.old ≡ true → T.keeps store.new ≡ true }
        ensures sorted { (came : List RecordValue) → T.keeps store.old ≡ true →
            CameTo W.seen S.seen self came →
            IfOk result (λ sorted. IsSortedFile W.seen sorted came) }
        ensures apart { (came : List RecordValue) → T.keeps store.old ≡ true →
            CameTo W.seen S.seen self came → is_unique self ≡ true →
            IfOk result (λ _. (first second : ℕ) → AreDoubled came first second → ⊥) }
        ensures unique { (first second : ℕ) → result ≡ Err (SorterFault.Doubled first second) →
            is_unique self ≡ true }
        ensures doubled { (came : List RecordValue) (first second : ℕ) →
            result ≡ Err (SorterFault.Doubled first second) → T.keeps store.old ≡ true →
            CameTo W.seen S.seen self came → AreDoubled came first second }
    {
        let Sorter { records, numbers } = self;
        if let Some(numbers) = numbers {
            numbers.check_keys(rt, store)?;
        }
        records.finish(rt, store)
    }
}
