//! Runs merged into one.
ghost use Rattle.std.specs.Prelude.{◌≡◌, [], List, IfErr, IfOk, OnOk, true};
ghost use Rattle.std.specs.List.{AllByRecursion};
ghost use Rattle.prolly_entry.specs.Record.{IsRecord, Record as RecordValue};
ghost use Rattle.prolly_io.specs.Sink.{IsSettled};
ghost use Rattle.prolly_link.specs.declared.message.End.TheVariants.{Clean};
ghost use Rattle.prolly_sort.specs.Shelf.{AreStored, HoldsIn, IsRunFile, readings_of};
ghost use Rattle.prolly_sort.specs.Told.{AreTold, IsToldOf, doubled_fault};

use crate::fault::SorterFault;
use crate::key_rule::KeyRule;
use crate::number::number_of;
use crate::sorted_file::SortedFile;
use crate::store::{RunStore, StoreFault};
use crate::stored_runs::{MOST_RECORDS, StoredRun};
use prolly_io::{Sink, Source};
use prolly_link::{End, RunFault};
use prolly_load::{RecordReader, RecordWriter, WrittenRecords};
use prolly_merge::{Doubled, MergedUnique, merge_records, merge_unique};
use std::alloc::{AllocError, Global};
use std::sync::Wait;

/// Merges runs into a new file. Where each key is to come once and two runs share one, their records
/// carry the numbers that are told.
pub(crate) fn merged<T: RunStore<W, S>, W: Sink + Drop, S: Source + Drop, R: Wait>(
    rt: &R,
    alloc: Global,
    rule: KeyRule,
    store: &mut T,
    runs: Vec<StoredRun<S>>,
) -> Result<SortedFile<W>, SorterFault>
    ensures keeps { T.keeps store.old ≡ true → T.keeps store.new ≡ true }
    ensures sorted { (came : List RecordValue) → T.keeps store.old ≡ true →
        AreStored S.seen rule runs.items came → AllByRecursion IsRecord came →
        IfOk result (λ sorted. IsRunFile W.seen rule sorted came) }
    ensures told { IfErr result (IsToldOf rule (λ a b. (came : List RecordValue) →
        T.keeps store.old ≡ true → AreStored S.seen rule runs.items came →
        AllByRecursion IsRecord came → AreTold came a b)) }
{
    let readers = readers_of(alloc, runs)?;
    let file = store.create()?;
    let out = RecordWriter::new(alloc, file);
    match rule {
        KeyRule::LastCounts => {
            let merged = merge_records(rt, alloc, readers, out);
            Ok(file_of(merged.out)?)
        }
        KeyRule::Unique => {
            let MergedUnique {
                inputs: _,
                out,
                doubled,
            } = merge_unique(rt, alloc, readers, out);
            match doubled {
                None => Ok(file_of(out)?),
                Some(doubled) => Err(fault_of(&doubled)),
            }
        }
    }
}

/// The numbers that two records with one key carry.
fn fault_of(doubled: &Doubled) -> SorterFault
    ensures { result ≡ doubled_fault doubled.now }
{
    SorterFault::Doubled {
        first: number_of(&doubled.first),
        second: number_of(&doubled.second),
    }
}

/// A reader for each run.
fn readers_of<S: Source + Drop>(
    alloc: Global,
    runs: Vec<StoredRun<S>>,
) -> Result<Vec<RecordReader<S>>, AllocError>
    ensures { IfOk result (λ readers. readers.items ≡ readings_of S.seen runs.items) }
{
    let mut readers = Vec::with_capacity(alloc, runs.len())?;
    for run in runs {
        let reader = RecordReader::new(alloc, 0, run.file, MOST_RECORDS)?;
        readers.push(reader)?;
    }
    Ok(readers)
}

/// The file that a merger wrote, where it wrote all that it was to write.
fn file_of<W: Sink + Drop>(written: WrittenRecords<W>) -> Result<SortedFile<W>, StoreFault>
    ensures whole { written.writing.begun.is_keeping ≡ true → written.writing.begun.taken ≡ [] →
        IfOk result (λ sorted. HoldsIn W.seen sorted.file sorted.len written.writing.records) }
    ensures settled { IfOk result (λ sorted. IsSettled (W.seen sorted.file)) }
    ensures clean { OnOk result (written.end ≡ Clean) }
{
    if written.has_failed() {
        return Err(StoreFault::Write);
    }
    match written.end() {
        End::Clean => {
            let len = written.count();
            Ok(SortedFile {
                file: written.into_sink(),
                len,
            })
        }
        End::Fault(RunFault::Memory) => Err(StoreFault::Memory),
        End::Fault(_) => Err(StoreFault::Read),
    }
}
