//! The command `diff` of two files of which only the roots are believed.
ghost use Rattle.std.specs.Prelude.{◌≡◌, [], ◌++◌, IfOk, IfErr, OnOk, OnErr, true};
ghost use Rattle.prolly_root_diff.specs.Notes.{AreNoted};
ghost use Rattle.prolly_root_diff.specs.Walks.{IsBegun, record_of};
ghost use Rattle.prolly_text.specs.RecordForms.{spelled};
ghost use Rattle.prolly_answer.specs.Diff.{AreStopped, AreWritten};
ghost use Rattle.prolly_answer.specs.Outputs.{TookAll, TookSoFar, TookUntil, WroteOwn};
ghost use Rattle.prolly_answer.specs.RootDiffs.{Counts, IsEndedDiff, IsRootDiff, IsStoppedDiff};
ghost use Rattle.prolly_answer.specs.RootDiffs.{TellsDiffReads, TellsNumbers, WroteIn, fault_of};
ghost use Rattle.prolly_fault.specs.declared.fault.Fault.{Fault as FaultValue};
ghost use Rattle.prolly_fault.specs.declared.fault.Fault.TheVariants.{Memory, RootNew, RootOld};
ghost use Rattle.prolly_fault.specs.declared.output_fault.OutputFault.TheVariants.{Write};

use crate::answers::diff::{ChangeCounts, stat_line, status_of};
use crate::answers::flushed::settled;
use prolly_entry::{Ref, Version};
use prolly_fault::{Answer, Fault, OutputFault};
use prolly_io::{Sink, write_all};
use prolly_root::ChunkSource;
use prolly_root_diff::laws::{walks_are_right, walks_tell_one_fault};
use prolly_root_diff::{RootChange, RootDiffFault, RootDifferences};
use prolly_text::{RecordForm, append_change};
use std::alloc::{AllocError, Global};

/// What a difference by the roots asks for.
#[derive(Clone, Copy)]
pub struct RootDiff<'a> {
    /// The version of both trees' chunks.
    pub version: Version,
    /// The root of the old tree.
    pub old: &'a Ref,
    /// The root of the new tree.
    pub new: &'a Ref,
    /// How changes are written, where they are.
    pub form: Option<RecordForm>,
    /// Whether the line of the numbers is shown.
    pub stat: bool,
}

/// What `diff` answers to who names the roots: it writes what turns the map of the old root into
/// that of the new one to the sink, where it is given a form; its status tells whether there is a
/// change. Where `stat` is asked for it shows the line that [`answer_diff`](crate::answer_diff)
/// shows of two checked files. Or it shows the line of the first fault, which stopped it, and the
/// changes that were found before were written. An `Err` is want of memory for that line.
///
/// Of both trees no more is read than the walk wants: see
/// [`RootDifferences`](prolly_root_diff::RootDifferences). What the changes are of the maps with
/// these roots is said by [`walks_are_right`](prolly_root_diff::laws::walks_are_right). A change is
/// put together in memory, and written in a call of the sink, which is flushed at the end; without
/// a form the sink is not called. Where `stat` is asked for, each chunk that is read is noted (see
/// [`noting`](prolly_root_diff::RootDifferences::noting)), and numbers that are too great to be
/// counted (2^62 changes, or 2^64 bytes) are told as want of memory.
pub fn answer_diff_by_root<S: ChunkSource, R: ChunkSource, W: Sink>(
    alloc: Global,
    old: &mut S,
    new: &mut R,
    diff: &RootDiff<'_>,
    sink: &mut W,
) -> Result<Answer, AllocError>
    ensures ok { IfOk result (IsRootDiff
        (S.goes_over old.old) (R.goes_over new.old) diff.now.version diff.now.old.now.0
        diff.now.new.now.0
        (AreWritten diff.now.form (λ bytes. TookAll W.seen bytes sink.old sink.new)
        (sink.new ≡ sink.old))
        (AreStopped diff.now.form (λ fault bytes. TookUntil W.seen fault bytes sink.old sink.new)
        Write) diff.now.stat
        (λ told. TellsDiffReads RootOld (S.failures old.old) (S.failures old.new) told ×
        TellsDiffReads RootNew (R.failures new.old) (R.failures new.new) told)) }
    ensures err { OnErr result ((fault : FaultValue) × IsStoppedDiff
        (S.goes_over old.old) (R.goes_over new.old) diff.now.version diff.now.old.now.0
        diff.now.new.now.0
        (AreWritten diff.now.form (λ bytes. TookAll W.seen bytes sink.old sink.new)
        (sink.new ≡ sink.old))
        (AreStopped diff.now.form (λ fault bytes. TookUntil W.seen fault bytes sink.old sink.new)
        Write) fault) }
{
    match write_diff(alloc, old, new, diff, sink) {
        Ok(told) => Ok(Answer {
            status: status_of(told.changed),
            out: told.line,
            err: Vec::new(alloc),
        }),
        Err(fault) => Answer::of_fault(alloc, fault),
    }
}

/// What is told of two trees after their last change.
#[derive(Drop)]
struct Told {
    /// Whether there are changes.
    changed: bool,
    /// The line of their numbers; it is empty where that is not asked for.
    line: Vec<u8>,
}

/// Writes the changes, and flushes the sink, also where a fault stops the walk. Without a form it
/// does not call the sink.
fn write_diff<S: ChunkSource, R: ChunkSource, W: Sink>(
    alloc: Global,
    old: &mut S,
    new: &mut R,
    diff: &RootDiff<'_>,
    sink: &mut W,
) -> Result<Told, Fault>
    ensures ended { IsEndedDiff
        (S.goes_over old.old) (R.goes_over new.old) diff.now.version diff.now.old.now.0
        diff.now.new.now.0
        (AreWritten diff.now.form (λ bytes. TookAll W.seen bytes sink.old sink.new)
        (sink.new ≡ sink.old))
        (AreStopped diff.now.form (λ fault bytes. TookUntil W.seen fault bytes sink.old sink.new)
        Write) diff.now.stat result }
    ensures reads_old { TellsDiffReads RootOld (S.failures old.old) (S.failures old.new) result }
    ensures reads_new { TellsDiffReads RootNew (R.failures new.old) (R.failures new.new) result }
{
    let outcome = write_changes(alloc, old, new, diff, sink);
    match diff.form {
        None => outcome,
        Some(_) => settled(sink, outcome),
    }
}

/// Writes the changes, where a form is given.
fn write_changes<S: ChunkSource, R: ChunkSource, W: Sink>(
    alloc: Global,
    old: &mut S,
    new: &mut R,
    diff: &RootDiff<'_>,
    sink: &mut W,
) -> Result<Told, Fault>
    ensures ended { IsEndedDiff
        (S.goes_over old.old) (R.goes_over new.old) diff.now.version diff.now.old.now.0
        diff.now.new.now.0
        (AreWritten diff.now.form (λ bytes. TookSoFar W.seen bytes sink.old sink.new)
        (sink.new ≡ sink.old))
        (AreStopped diff.now.form (λ fault bytes. TookUntil W.seen fault bytes sink.old sink.new)
        Write) diff.now.stat result }
    ensures reads_old { TellsDiffReads RootOld (S.failures old.old) (S.failures old.new) result }
    ensures reads_new { TellsDiffReads RootNew (R.failures new.old) (R.failures new.new) result }
{
    // By these laws what the walk tells is so of the maps of the two roots, and a lawful file is not
    // refused.
    walks_are_right();
    walks_tell_one_fault();
    let Ok(mut walk) = begin(alloc, diff) else {
        return Err(Fault::Memory);
    };
    let mut spelling = Vec::new(alloc);
    let mut changed = false;
    let mut counts = ChangeCounts::none();
    'walk: loop {
        let change = match walk.next(alloc, old, new) {
            Ok(None) => return told_of(alloc, &mut walk, diff.stat, changed, &counts),
            Ok(Some(change)) => change,
            Err(fault) => return Err(fault_of(fault)),
        };
        if let Err(fault) = count(diff.stat, &mut counts, &change) {
            return Err(fault);
        }
        if let Err(fault) = write_change(&mut spelling, diff.form, change, sink) {
            return Err(Fault::from(fault));
        }
        changed = true;
    }
}

/// A walk at the roots, which notes what it reads where the numbers are asked for.
fn begin<T: Copy + Drop, U: Copy + Drop>(
    alloc: Global,
    diff: &RootDiff<'_>,
) -> Result<RootDifferences<T, U>, AllocError>
    ensures begun { IfOk result (IsBegun diff.now.version diff.now.old.now.0 diff.now.new.now.0) }
    ensures noted { IfOk result (λ walk. AreNoted [] walk.notes) }
{
    if diff.stat {
        RootDifferences::noting(alloc, diff.version, diff.old, diff.new)
    } else {
        RootDifferences::new(alloc, diff.version, diff.old, diff.new)
    }
}

/// What is told after the last change of a walk.
fn told_of<T: Copy + Drop, U: Copy + Drop>(
    alloc: Global,
    walk: &mut RootDifferences<T, U>,
    stat: bool,
    changed: bool,
    counts: &ChangeCounts,
) -> Result<Told, Fault>
    ensures changed { IfOk result (λ told. told.changed ≡ changed) }
    ensures line { IfOk result (λ told. TellsNumbers stat walk.old counts.now told.line.items) }
    ensures err { IfErr result (λ fault. fault ≡ Memory) }
{
    if !stat {
        return Ok(Told {
            changed,
            line: Vec::new(alloc),
        });
    }
    let Some(missing) = walk.missing() else {
        return Err(Fault::Memory);
    };
    match stat_line(alloc, counts, &missing) {
        Ok(line) => Ok(Told { changed, line }),
        Err(_) => Err(Fault::Memory),
    }
}

/// Counts the change, where the numbers are asked for.
fn count(stat: bool, counts: &mut ChangeCounts, change: &RootChange) -> Result<(), Fault>
    ensures ok { OnOk result (stat ≡ true → Counts change.now counts.old counts.new) }
    ensures err { IfErr result (λ fault. fault ≡ Memory) }
{
    if !stat {
        return Ok(());
    }
    if !counts.has_room() {
        return Err(Fault::Memory);
    }
    match change {
        RootChange::Removed(pair) => counts.count(Some(pair.value()), None),
        RootChange::Added(pair) => counts.count(None, Some(pair.value())),
        RootChange::Changed(old, new) => counts.count(Some(old.value()), Some(new.value())),
    }
    Ok(())
}

/// The fault of the command that it is. (A walk that failed is not asked again.)
fn fault_of(fault: RootDiffFault) -> Fault
    ensures { result ≡ fault_of fault }
{
    match fault {
        RootDiffFault::Memory | RootDiffFault::Stopped => Fault::Memory,
        RootDiffFault::Old(fault) => Fault::RootOld(fault),
        RootDiffFault::New(fault) => Fault::RootNew(fault),
    }
}

/// Writes a change in this form, where one is given. What the spelling held is let go.
fn write_change<W: Sink>(
    spelling: &mut Vec<u8>,
    form: Option<RecordForm>,
    change: RootChange,
    sink: &mut W,
) -> Result<(), OutputFault>
    ensures { WroteIn W.seen form (record_of change) sink.old sink.new result }
{
    match form {
        None => Ok(()),
        Some(form) => write_own(spelling, form, change, sink),
    }
}

/// Writes a change in this form.
fn write_own<W: Sink>(
    spelling: &mut Vec<u8>,
    form: RecordForm,
    change: RootChange,
    sink: &mut W,
) -> Result<(), OutputFault>
    ensures { WroteOwn W.seen (spelled form (record_of change)) sink.old sink.new result }
{
    spelling.clear();
    append(spelling, form, &change)?;
    write_all(sink, spelling)?;
    Ok(())
}

/// Appends the change in this form.
fn append(out: &mut Vec<u8>, form: RecordForm, change: &RootChange) -> Result<(), AllocError>
    ensures { OnOk result (out.new.items ≡ out.old.items ++ spelled form (record_of change.now)) }
{
    match change {
        RootChange::Removed(pair) => append_change(out, Some(form), pair.key(), None),
        RootChange::Added(pair) | RootChange::Changed(_, pair) => {
            append_change(out, Some(form), pair.key(), Some(pair.value()))
        }
    }
}
