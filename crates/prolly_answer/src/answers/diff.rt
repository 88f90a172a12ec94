//! What `diff` answers.
ghost use Rattle.std.specs.Prelude.{◌≡◌, ◌≢◌, ◌⊎◌, ◌+◌, ◌<◌, ◌^◌, true, List, length, IfOk, IfErr};
ghost use Rattle.std.specs.Prelude.{◌∷◌, ◌++◌, OnOk, OnErr, []};
ghost use Rattle.std.specs.Fmt.{decimal};
ghost use Rattle.std.specs.List.{AllByRecursion};
ghost use Rattle.prolly_look_up.specs.Content.{Content, IsFileOf};
ghost use Rattle.prolly_check.specs.declared.verdict.fault.CheckFault.TheVariants.{Read};
ghost use Rattle.prolly_tree.specs.Walks.{AreMaps};
ghost use Rattle.prolly_entry.specs.Pair.{IsPair, Pair};
ghost use Rattle.prolly_entry.specs.Record.{Record as RecordValue, Record};
ghost use Rattle.prolly_fault.specs.Answers.{ShowsFault};
ghost use Rattle.prolly_answer.specs.Counts.{AreCounts, stat_text, are_some};
ghost use Rattle.prolly_answer.specs.Diff.{AreStopped, AreWritten, HasDifference, HaveChanges};
ghost use Rattle.prolly_answer.specs.Diff.{IsDiff, ShowsDiff, stat_shown, status_of};
ghost use Rattle.prolly_answer.specs.Outputs.{IsPart, TookAll, TookUntil};
ghost use Rattle.std.specs.Option.{option_copied};
ghost use Rattle.prolly_tree.specs.LookUp.{find};

use prolly_check::{ChunkHasher, Missing, Tree, check_by};
use prolly_diff::Differences;
use prolly_fault::{Answer, Fault, INPUT_LIMIT, OutputFault, append_number};
use prolly_io::{Sink, Source, write_all};
use prolly_text::{RecordForm, append_change};
use std::alloc::{AllocError, Global};

/// What `diff` answers: it reads two chunk files, and writes what turns the map of the old one into
/// that of the new one to the sink, where it is given a form; its status tells whether there is a
/// change. Where `stat` is asked for it shows one line with the numbers of keys that were added,
/// changed and removed, and of the chunks of the new file that the old one lacks and their bytes,
/// without frames. Or it shows the line of the fault of a file that `check` refuses, and writes
/// nothing.
///
/// The old file is checked first, and then the new one, as by `check`. Leaves that both files have
/// at the same place are passed over. A change is put together in memory, and written in a call of
/// the sink; without a form the sink is not called. An `Err` is want of memory for the line that is
/// to be shown; the sink is then as it was, or has a part of the changes, or all of them.
pub fn answer_diff<H: ChunkHasher, S: Source, T: Source, W: Sink>(
    hasher: &H,
    alloc: Global,
    old_source: &mut S,
    new_source: &mut T,
    form: Option<RecordForm>,
    stat: bool,
    sink: &mut W,
) -> Result<Answer, AllocError>
    requires { H.can_hash hasher.now }
    ensures ok { (S.seen old_source.old).is_honest ≡ true →
        (T.seen new_source.old).is_honest ≡ true →
        IfOk result (IsDiff form stat (S.seen old_source.old).left
        ((S.seen old_source.new).failures ≢ (S.seen old_source.old).failures)
        (T.seen new_source.old).left
        ((T.seen new_source.new).failures ≢ (T.seen new_source.old).failures)
        (λ bytes. TookAll W.seen bytes sink.old sink.new)
        (λ fault bytes. TookUntil W.seen fault bytes sink.old sink.new)
        (sink.new ≡ sink.old)) }
    ensures err { (S.seen old_source.old).is_honest ≡ true →
        (T.seen new_source.old).is_honest ≡ true →
        OnErr result ((sink.new ≡ sink.old) ⊎ IsPart (HaveChanges (S.seen old_source.old).left
        ((S.seen old_source.new).failures ≢ (S.seen old_source.old).failures)
        (T.seen new_source.old).left
        ((T.seen new_source.new).failures ≢ (T.seen new_source.old).failures))
        (AreStopped form (λ fault bytes. TookUntil W.seen fault bytes sink.old sink.new))) }
    ensures read_old { (S.seen old_source.new).failures ≢ (S.seen old_source.old).failures →
        (sink.new ≡ sink.old) ×
        IfOk result (λ answer. ShowsFault answer (Fault.CheckOld Read)) }
    ensures read_new { (T.seen new_source.new).failures ≢ (T.seen new_source.old).failures →
        (sink.new ≡ sink.old) ×
        IfOk result (λ answer. ShowsFault answer (Fault.CheckNew Read)) }
{
    let old_tree = match check_by(hasher, alloc, old_source, INPUT_LIMIT) {
        Ok(tree) => tree,
        Err(fault) => return Answer::of_fault(alloc, Fault::CheckOld(fault)),
    };
    let new_tree = match check_by(hasher, alloc, new_source, INPUT_LIMIT) {
        Ok(tree) => tree,
        Err(fault) => return Answer::of_fault(alloc, Fault::CheckNew(fault)),
    };
    let changes = Differences::new(&old_tree, &new_tree);
    match write_changes(alloc, changes, form, sink) {
        Ok(counts) => answer_of(alloc, &old_tree, &new_tree, &counts, stat),
        Err(fault) => Answer::of_fault(alloc, Fault::from(fault)),
    }
}

/// The answer where all changes were written that were to be.
fn answer_of(
    alloc: Global,
    old_tree: &Tree,
    new_tree: &Tree,
    counts: &ChangeCounts,
    stat: bool,
) -> Result<Answer, AllocError>
    ensures { IfOk result (λ answer. (old new : Content) (records : List RecordValue) →
        IsFileOf old_tree.now old → IsFileOf new_tree.now new →
        AreCounts old.pairs records counts.now → ShowsDiff answer stat old new records) }
{
    Ok(Answer {
        status: status_of(counts.are_some()),
        out: shown_of(alloc, old_tree, new_tree, counts, stat)?,
        err: Vec::new(alloc),
    })
}

/// The status that tells whether there are changes.
pub(crate) fn status_of(changed: bool) -> u8
    ensures { result ≡ status_of changed }
{
    if changed { 1 } else { 0 }
}

/// What is shown where all changes were written that were to be.
fn shown_of(
    alloc: Global,
    old_tree: &Tree,
    new_tree: &Tree,
    counts: &ChangeCounts,
    stat: bool,
) -> Result<Vec<u8>, AllocError>
    ensures { IfOk result (λ out. (old new : Content) (records : List RecordValue) →
        IsFileOf old_tree.now old → IsFileOf new_tree.now new →
        AreCounts old.pairs records counts.now → out.items ≡ stat_shown stat old new records) }
{
    if !stat {
        return Ok(Vec::new(alloc));
    }
    stat_line(alloc, counts, &new_tree.missing_from(old_tree))
}

/// The line that tells how many changes there are, and what is missing.
pub(crate) fn stat_line(
    alloc: Global,
    counts: &ChangeCounts,
    missing: &Missing,
) -> Result<Vec<u8>, AllocError>
    ensures { IfOk result (λ line. line.items ≡ stat_text counts.now.added counts.now.changed
        counts.now.removed missing.now.chunks missing.now.bytes) }
{
    let mut line = Vec::new(alloc);
    append_count(alloc, &mut line, b"added", counts.added)?;
    append_count(alloc, &mut line, b" changed", counts.changed)?;
    append_count(alloc, &mut line, b" removed", counts.removed)?;
    append_count(alloc, &mut line, b" chunks", missing.chunks)?;
    append_count(alloc, &mut line, b" bytes", missing.bytes)?;
    line.push(b'\n')?;
    Ok(line)
}

/// Appends a word, a space, and the number in decimal.
fn append_count(
    alloc: Global,
    line: &mut Vec<u8>,
    word: &[u8],
    count: u64,
) -> Result<(), AllocError>
    ensures { OnOk result (line.new.items ≡ line.old.items ++ word.now ++ 0x20 ∷ decimal count) }
{
    line.extend_from_slice(word)?;
    append_number(alloc, line, count)
}

/// Writes the changes to a sink and flushes it, where a form is given, and counts them.
fn write_changes<W: Sink>(
    alloc: Global,
    mut changes: Differences,
    form: Option<RecordForm>,
    sink: &mut W,
) -> Result<ChangeCounts, OutputFault>
    requires maps { AreMaps changes }
    requires before { AllByRecursion IsPair changes.before }
    requires after { AllByRecursion IsPair changes.after }
    requires few { length changes.before + length changes.after + 1 < 2 ^ 64 }
    ensures ok { IfOk result (λ counts. HasDifference changes.entry.before changes.entry.after
        (λ records. AreWritten form (λ bytes. TookAll W.seen bytes sink.old sink.new)
        (sink.new ≡ sink.old) records × AreCounts changes.entry.before records counts)) }
    ensures err { IfErr result (λ fault. HasDifference changes.entry.before changes.entry.after
        (AreStopped form (λ fault bytes. TookUntil W.seen fault bytes sink.old sink.new) fault)) }
{
    let mut spelling = Vec::new(alloc);
    let mut counts = ChangeCounts::none();
    while let Some(change) = changes.next() {
        counts.count(change.before, change.after);
        // Without a form the spelling stays empty, and the sink is not called.
        spelling.clear();
        append_change(&mut spelling, form, change.key, change.after)?;
        write_all(sink, &spelling)?;
    }
    let Some(_) = form else {
        return Ok(counts);
    };
    sink.flush()?;
    Ok(counts)
}

/// Of each kind fewer changes are counted, so that their sum has room.
const MOST: u64 = 1 << 62;

/// The numbers of changes of each kind.
#[derive(Clone, Copy)]
pub(crate) struct ChangeCounts {
    /// Keys that only the new map has.
    pub(crate) added: u64,
    /// Keys that both maps have, with different values.
    pub(crate) changed: u64,
    /// Keys that only the old map has.
    pub(crate) removed: u64,
}

impl ChangeCounts {
    /// Of no changes.
    pub(crate) fn none() -> ChangeCounts
        ensures { (old : List Pair) → AreCounts old [] result }
    {
        ChangeCounts {
            added: 0,
            changed: 0,
            removed: 0,
        }
    }

    /// Whether one change more can be counted.
    pub(crate) fn has_room(&self) -> bool
        ensures { result ≡ true → self.now.added + self.now.changed + self.now.removed + 1 < 2 ^ 64 }
    {
        self.added < MOST && self.changed < MOST && self.removed < MOST
    }

    /// Counts one change more, of a key that has `before` in the old map and `after` in the new
    /// one.
    pub(crate) fn count(&mut self, before: Option<&[u8]>, after: Option<&[u8]>)
        requires { self.old.added + self.old.changed + self.old.removed + 1 < 2 ^ 64 }
        ensures { (old : List Pair) (records : List Record) (r : Record) →
            AreCounts old records self.old → find old r.key ≡ option_copied before.entry →
            r.value ≡ option_copied after.entry → AreCounts old (records ++ r ∷ []) self.new }
    {
        match (before, after) {
            (None, Some(_)) => self.added += 1,
            (Some(_), Some(_)) => self.changed += 1,
            (_, None) => self.removed += 1,
        }
    }

    /// Whether there are changes.
    pub(crate) fn are_some(&self) -> bool
        ensures { (old : List Pair) (records : List Record) → AreCounts old records self.now →
            result ≡ are_some records }
    {
        self.added > 0 || self.changed > 0 || self.removed > 0
    }
}
