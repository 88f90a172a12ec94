//! Pairs of a tree of which only the root is believed, written leaf by leaf.
ghost use Rattle.std.specs.Prelude.{◌≡◌, ◌↔◌, [], true, All, IfErr, IfOk, IsTrue, OnOk};
ghost use Rattle.prolly_look_up.specs.ScanWay.{next_key};
ghost use Rattle.prolly_look_up.specs.Sought.Sought.{Key};
ghost use Rattle.prolly_entry.specs.Byte.{IsByte};
ghost use Rattle.prolly_root.specs.ChunkSource.{StandsInFile};
ghost use Rattle.prolly_answer.specs.Outputs.{TookBytes, TookUntil};
ghost use Rattle.prolly_answer.specs.RootFaults.{MayRefuse, StandsInFileOf, TellsFirstOf};
ghost use Rattle.prolly_answer.specs.RootOutcomes.{AreEnough, IsWrittenByRoot, TakesAllFor, TakesFor};
ghost use Rattle.prolly_answer.specs.RootOutcomes.{TellsReadsOf, left_of, portion_bytes};

use crate::answers::flushed::settled;
use crate::answers::scan::append_first;
use crate::lines::append_lines;
use prolly_entry::{Ref, Version};
use prolly_fault::{OutputFault, RootOutputFault};
use prolly_io::{Sink, write_all};
use prolly_look_up::{ManyThreads, Pairs};
use prolly_root::laws::lawful_files_are_read;
use prolly_root::{ReadAhead, Reader};
use prolly_text::{Notation, RecordForm};
use std::alloc::{AllocError, Global};
use std::thread::Threads;

/// Which pairs are written, and how.
#[derive(Clone, Copy)]
pub(crate) enum Portion {
    /// All of them.
    Whole(RecordForm),
    /// A line for each of the first, of so many at most.
    First(Notation, u32),
}

impl Portion {
    /// Whether no pair is wanted.
    fn is_empty(self) -> bool
        ensures { IsTrue result ↔ AreEnough self [] }
    {
        matches!(self, Portion::First(_, 0))
    }
}

/// The pairs that are wanted of a tree.
#[derive(Clone, Copy)]
pub(crate) struct RootPairs<'a> {
    /// The version of the tree's chunks.
    pub(crate) version: Version,
    /// The root of the tree.
    pub(crate) root: &'a Ref,
    /// The key from which on they are wanted.
    pub(crate) from: &'a [u8],
    /// Which of these are written.
    pub(crate) portion: Portion,
}

/// Writes the pairs to the sink, leaf by leaf, and flushes it, also where a fault stops that. Where
/// no pair is wanted, nothing is read.
pub(crate) fn write_pairs<R: Threads + Sync, S: ReadAhead, W: Sink>(
    hasher: &ManyThreads<'_, R>,
    alloc: Global,
    source: &mut S,
    pairs: &RootPairs<'_>,
    sink: &mut W,
) -> Result<(), RootOutputFault>
    ensures written { IsWrittenByRoot (StandsInFile (S.goes_over source.old))
        (λ key. MayRefuse (S.goes_over source.old) pairs.now.version pairs.now.root.now.0 (Key key))
        pairs.now.version pairs.now.root.now.0 pairs.now.from.now pairs.now.portion
        (TakesAllFor W.seen sink.old sink.new) result }
    ensures reads { TellsReadsOf (S.failures source.old) (S.failures source.new) result }
{
    if pairs.portion.is_empty() {
        return Ok(());
    }
    // By this law a lawful file has no fault.
    lawful_files_are_read();
    let reader = Reader::open(alloc, source, pairs.version, pairs.root)?;
    let outcome = write_leaves(
        hasher,
        alloc,
        source,
        reader,
        pairs.from,
        pairs.portion,
        sink,
    );
    settled(sink, outcome)
}

/// Writes the pairs from a key on, as the reader finds their leaves.
fn write_leaves<R: Threads + Sync, S: ReadAhead, W: Sink>(
    hasher: &ManyThreads<'_, R>,
    alloc: Global,
    source: &mut S,
    mut reader: Reader<S::Place>,
    from: &[u8],
    portion: Portion,
    sink: &mut W,
) -> Result<(), RootOutputFault>
    requires { ¬ (AreEnough portion []) }
    ensures written { IsWrittenByRoot (StandsInFileOf S.stands (S.goes_over source.old) reader)
        (λ key. TellsFirstOf S.stands (S.goes_over source.old) reader (Key key))
        reader.version reader.root from.now portion
        (TakesFor W.seen sink.old sink.new) result }
    ensures keeping { (W.seen sink.old).is_keeping ≡ true → (W.seen sink.new).is_keeping ≡ true }
    ensures reads { TellsReadsOf (S.failures source.old) (S.failures source.new) result }
{
    let mut lines = Vec::new(alloc);
    let mut next = Vec::from_slice(alloc, from)?;
    let mut left = portion;
    loop {
        reader.seek_on(hasher, alloc, source, &next)?;
        let leaf = reader.leaf_from(&next);
        let Some(last) = leaf.last_key() else {
            return Ok(());
        };
        left = write_leaf(left, &mut lines, leaf, sink)?;
        if left.is_empty() {
            return Ok(());
        }
        next = key_behind(alloc, last)?;
    }
}

/// Writes what is wanted of the pairs of a leaf: from where they lie, or in lines that are put
/// together here. Answers what is wanted behind them.
fn write_leaf<W: Sink>(
    portion: Portion,
    lines: &mut Vec<u8>,
    leaf: Pairs<'_>,
    sink: &mut W,
) -> Result<Portion, OutputFault>
    ensures ok { OnOk result
        (TookBytes W.seen (portion_bytes portion leaf.entry) sink.old sink.new) }
    ensures left { IfOk result (λ left. left ≡ left_of portion leaf.entry) }
    ensures err { IfErr result (λ fault.
        TookUntil W.seen fault (portion_bytes portion leaf.entry) sink.old sink.new) }
    ensures keeping { (W.seen sink.old).is_keeping ≡ true → (W.seen sink.new).is_keeping ≡ true }
{
    lines.clear();
    match portion {
        Portion::Whole(form) => {
            match form {
                RecordForm::Records => write_all(sink, leaf.spellings())?,
                RecordForm::Lines(notation) => {
                    append_lines(lines, notation, leaf)?;
                    write_all(sink, lines)?;
                }
            }
            Ok(portion)
        }
        Portion::First(notation, limit) => {
            let left = append_first(lines, notation, leaf, limit)?;
            write_all(sink, lines)?;
            Ok(Portion::First(notation, left))
        }
    }
}

/// The least key that is greater than this one.
fn key_behind(alloc: Global, key: &[u8]) -> Result<Vec<u8>, AllocError>
    ensures behind { IfOk result (λ next. next.items ≡ next_key key.now) }
    ensures bytes { All IsByte key.now }
{
    let mut next = Vec::from_slice(alloc, key)?;
    next.push(0)?;
    Ok(next)
}
