//! A run in the file that is being written.
ghost use Rattle.std.specs.Prelude.{◌≡◌, ◌++◌, [], List, IfOk, OnOk, true};
ghost use Rattle.prolly_entry.specs.Keys.{Rising};
ghost use Rattle.prolly_entry.specs.Record.{Record as RecordValue, keys_of};
ghost use Rattle.prolly_io.specs.Sink.{IsSettled};
ghost use Rattle.prolly_sort.specs.Overlaid.{overlaid};
ghost use Rattle.prolly_sort.specs.Shelf.{HoldsOpen, IsRunFile, key_bytes, position_behind};
ghost use Rattle.prolly_sort.specs.Told.{Obeys};
ghost use Rattle.prolly_sort.specs.declared.key_rule.KeyRule.{KeyRule};

use crate::sorted_file::SortedFile;
use crate::sorted_run::SortedRun;
use crate::store::StoreFault;
use prolly_entry::key_rises;
use prolly_io::Sink;
use std::alloc::{AllocError, Global};

/// A run in the file that is being written. Records whose keys are greater go behind it.
#[derive(Drop)]
pub(crate) struct OpenRun<W> {
    pub(crate) file: W,
    /// The key of its last record.
    pub(crate) last_key: Option<Vec<u8>>,
    /// How many records it has, or the greatest number where there are more.
    pub(crate) len: u64,
}

impl<W: Sink> OpenRun<W> {
    /// A run of no records, in a file of no bytes.
    pub(crate) fn new(file: W) -> OpenRun<W>
        ensures { (rule : KeyRule) → (W.seen file).is_keeping ≡ true → (W.seen file).taken ≡ [] →
            HoldsOpen W.seen rule result [] }
    {
        OpenRun {
            file,
            last_key: None,
            len: 0,
        }
    }

    /// Whether the records of a sorted run go behind this one: their keys are greater.
    pub(crate) fn is_before(&self, sorted: &SortedRun) -> bool
        ensures { (rule : KeyRule) (came more : List RecordValue) →
            HoldsOpen W.seen rule self.now came → sorted.now ≡ overlaid more → result ≡ true →
            Rising (keys_of (overlaid came ++ overlaid more)) }
    {
        match sorted.first_key() {
            None => true,
            Some(key) => key_rises(self.last_key.as_deref(), key),
        }
    }

    /// Writes the records of a sorted run behind those that are there, and flushes the file.
    pub(crate) fn append(&mut self, alloc: Global, sorted: &SortedRun) -> Result<(), StoreFault>
        ensures { (rule : KeyRule) (came more : List RecordValue) →
            HoldsOpen W.seen rule self.old came → sorted.now ≡ overlaid more →
            Rising (keys_of (overlaid came ++ overlaid more)) → Obeys rule more →
            OnOk result (HoldsOpen W.seen rule self.new (came ++ more) ×
            IsSettled (W.seen self.new.file)) }
    {
        sorted.write_records(&mut self.file)?;
        let last_key = self.last_key.take();
        self.last_key = last_key_with(alloc, last_key, sorted)?;
        self.len = self.len.saturating_add(sorted.len() as u64);
        Ok(())
    }

    /// The file, to which nothing is written any more.
    pub(crate) fn into_sorted(self) -> SortedFile<W>
        ensures { (rule : KeyRule) (came : List RecordValue) → HoldsOpen W.seen rule self came →
            IsSettled (W.seen self.file) → IsRunFile W.seen rule result came }
    {
        SortedFile {
            file: self.file,
            len: self.len,
        }
    }
}

/// The last key of records and of the sorted run behind them.
fn last_key_with(
    alloc: Global,
    last_key: Option<Vec<u8>>,
    sorted: &SortedRun,
) -> Result<Option<Vec<u8>>, AllocError>
    ensures { IfOk result (λ key.
        key_bytes key ≡ position_behind (key_bytes last_key) sorted.now) }
{
    match sorted.last_key() {
        None => Ok(last_key),
        Some(key) => Ok(Some(Vec::from_slice(alloc, key)?)),
    }
}
