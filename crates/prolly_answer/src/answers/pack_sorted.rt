//! The command `pack --sort`: a record file out of lines in any order.
ghost use Rattle.std.specs.Prelude.{◌≡◌, ◌≢◌, ◌++◌, ◌<◌, ◌^◌, ℕ, Bool, List, [], true, None, IfOk, IfErr};
ghost use Rattle.std.specs.Prelude.{IsErrOf, OnOk};
ghost use Rattle.prolly_sort.specs.Shelf.{CameTo, is_unique};
ghost use Rattle.prolly_fault.specs.Answers.{ShowsFault};
ghost use Rattle.prolly_answer.specs.SortedPack.{AreSortedSoFar, IsSortingFault, OnFalse, OnTrue};
ghost use Rattle.prolly_answer.specs.SortedPack.{ShowsSorted, SortsTo};

use prolly_fault::{Answer, Fault};
use prolly_io::{Sink, Source};
use prolly_sort::{RunStore, SortedFile, Sorter};
use prolly_text::{LineForm, RecordLines};
use std::alloc::{AllocError, Global};
use std::sync::Wait;

/// What `pack` answers of lines in any order, and the file that it wrote.
#[derive(Drop)]
pub struct SortedPack<W> {
    /// The number of records, or the line of the fault.
    pub answer: Answer,
    /// The record file; none where the command is not done.
    pub file: Option<W>,
}

/// What `pack` answers of lines in any order: it reads lines in this form from the source, and shows
/// how many records the file has that is handed back. That is the record file of the lines' records,
/// in the order of their keys: of lines with one key the last one counts, or two of them are named
/// where the keys are to be unique.
///
/// The text may have any size. So many bytes of memory are taken for records, and runs that do not
/// fit wait in files of the store: see [`Sorter`]. After a fault no file is handed back, and what
/// was written is left to the store. An `Err` is want of memory for the answer's own text.
pub fn answer_pack_sorted<S: Source, T: RunStore<W, B>, W: Sink + Drop, B: Source + Drop, R: Wait>(
    rt: &R,
    alloc: Global,
    source: &mut S,
    store: &mut T,
    form: LineForm,
    budget: u32,
    unique: bool,
) -> Result<SortedPack<W>, AllocError>
    ensures shown { (S.seen source.old).is_honest ≡ true →
        IfOk result (λ done. ShowsSorted W.seen form unique (S.seen source.old).left
        ((S.seen source.new).failures ≢ (S.seen source.old).failures) (T.keeps store.old)
        done.answer done.file) }
    ensures read { (S.seen source.new).failures ≢ (S.seen source.old).failures →
        IfOk result (λ done. (done.file ≡ None) × ShowsFault done.answer Fault.Read) }
{
    let sorter = sorter_of(alloc, budget, unique);
    let sorted = match sort_lines(rt, alloc, source, store, form, sorter) {
        Ok(sorted) => sorted,
        Err(fault) => {
            let answer = Answer::of_fault(alloc, fault)?;
            return Ok(SortedPack { answer, file: None });
        }
    };
    let len = sorted.len;
    let line = format!(in alloc; "{len}")?;
    let answer = Answer::of_line(alloc, line.as_bytes())?;
    Ok(SortedPack {
        answer,
        file: Some(sorted.file),
    })
}

/// A sorter to which no record came yet.
fn sorter_of<W: Sink + Drop, B: Source + Drop>(
    alloc: Global,
    budget: u32,
    unique: bool,
) -> Sorter<W, B>
    ensures came { CameTo W.seen B.seen result [] }
    ensures unique { is_unique result ≡ unique }
{
    if unique {
        Sorter::unique(alloc, budget)
    } else {
        Sorter::new(alloc, budget)
    }
}

/// The record file of the lines that a source has left, in the order of their keys.
fn sort_lines<S: Source, T: RunStore<W, B>, W: Sink + Drop, B: Source + Drop, R: Wait>(
    rt: &R,
    alloc: Global,
    source: &mut S,
    store: &mut T,
    form: LineForm,
    mut sorter: Sorter<W, B>,
) -> Result<SortedFile<W>, Fault>
    requires { CameTo W.seen B.seen sorter [] }
    ensures sorted { (S.seen source.old).is_honest ≡ true →
        IfOk result (λ sorted. SortsTo W.seen form (is_unique sorter) (S.seen source.old).left
        ((S.seen source.new).failures ≢ (S.seen source.old).failures) (T.keeps store.old)
        sorted.file sorted.len) }
    ensures fault { (S.seen source.old).is_honest ≡ true →
        IfErr result (IsSortingFault form (is_unique sorter) (S.seen source.old).left
        ((S.seen source.new).failures ≢ (S.seen source.old).failures) (T.keeps store.old)) }
    ensures read { (S.seen source.new).failures ≢ (S.seen source.old).failures →
        IsErrOf result Fault.Read }
{
    let mut lines = RecordLines::new(alloc, form)?;
    while take_line(rt, source, &mut lines, store, &mut sorter)? {}
    let sorted = sorter.finish(rt, store)?;
    Ok(sorted)
}

/// Gives the record of the next line to the sorter. Answers whether there was a line.
fn take_line<S: Source, T: RunStore<W, B>, W: Sink + Drop, B: Source + Drop, R: Wait>(
    rt: &R,
    source: &mut S,
    lines: &mut RecordLines,
    store: &mut T,
    sorter: &mut Sorter<W, B>,
) -> Result<bool, Fault>
    ensures form { lines.new.form ≡ lines.old.form }
    ensures unique { is_unique sorter.new ≡ is_unique sorter.old }
    ensures next { OnTrue result (lines.old.number < lines.new.number) }
    ensures fits { lines.new.number < 2 ^ 64 }
    ensures keeps { T.keeps store.old ≡ true → T.keeps store.new ≡ true }
    ensures taken { (text : List ℕ) (keeps : Bool) →
        (keeps ≡ true → T.keeps store.old ≡ true) →
        AreSortedSoFar W.seen B.seen text keeps lines.old (S.seen source.old) sorter.old →
        IfOk result (λ _. AreSortedSoFar W.seen B.seen text keeps lines.new (S.seen source.new)
        sorter.new) }
    ensures all { (text : List ℕ) (keeps : Bool) →
        AreSortedSoFar W.seen B.seen text keeps lines.old (S.seen source.old) sorter.old →
        OnFalse result (lines.new.unparsed ++ (S.seen source.new).left ≡ []) }
    ensures fault { (text : List ℕ) (keeps : Bool) →
        (keeps ≡ true → T.keeps store.old ≡ true) →
        AreSortedSoFar W.seen B.seen text keeps lines.old (S.seen source.old) sorter.old →
        IfErr result (IsSortingFault lines.old.form (is_unique sorter.old) text
        ((S.seen source.new).failures ≢ (S.seen source.old).failures) keeps) }
    ensures read { (S.seen source.new).failures ≢ (S.seen source.old).failures →
        IsErrOf result Fault.Read }
    ensures unfailed { OnOk result
        ((S.seen source.new).failures ≡ (S.seen source.old).failures) }
{
    let Some(record) = lines.next(source)? else {
        return Ok(false);
    };
    sorter.push(rt, store, &record)?;
    Ok(true)
}
