//! What `nth` answers, of a checked file and by the root.
ghost use Rattle.std.specs.Prelude.{◌≡◌, ◌↔◌, ℕ, List, IfErr, IfOk, IsErr, Some};
ghost use Rattle.prolly_look_up.specs.Content.{Content, IsFileOf};
ghost use Rattle.prolly_look_up.specs.FoundPairs.{pair_found};
ghost use Rattle.prolly_look_up.specs.Sought.Sought.{Number};
ghost use Rattle.prolly_look_up.specs.Way.{IsCountWay};
ghost use Rattle.prolly_entry.specs.declared.version.Version.TheVariants.{One, Two};
ghost use Rattle.prolly_root.specs.ChunkSource.{StandsInFile};
ghost use Rattle.prolly_root.specs.RootFault.{TellsReads};
ghost use Rattle.prolly_text.specs.declared.notation.Notation.TheVariants.{Hex};
ghost use Rattle.prolly_tree.specs.LookUp.{nth};
ghost use Rattle.prolly_answer.specs.LookUps.{AnswersFailedRead, AnswersLookUp, ShowsPlace};
ghost use Rattle.prolly_answer.specs.LookUps.{ShowsFoundPair, ShowsPair};
ghost use Rattle.prolly_answer.specs.RootFaults.{MayRefuse};
ghost use Rattle.prolly_answer.specs.RootLookUps.{IsFoundByRoot, IsNthByRoot};

use crate::lines::append_pair_text;
use prolly_check::{ChunkHasher, NoCounts, OneThread, check_by};
use prolly_entry::{Pair, Ref, Version};
use prolly_fault::{Answer, Fault, INPUT_LIMIT};
use prolly_io::Source;
use prolly_root::laws::lawful_files_are_read;
use prolly_root::{ChunkSource, Reader, RootFault};
use prolly_text::Notation;
use std::alloc::{AllocError, Global};

/// What `nth` answers: the pair of this number, counted from 0 in the order of keys, as key and
/// value in this notation; nothing, with status 1, where there is none; a fault's line where the
/// file is of version One, which has no counts, or is one that `check` refuses. An `Err` is want of
/// memory for the answer's own text.
///
/// The file is checked first, as by `check`; the look-up itself skips by the counts of the pairs
/// below.
pub fn answer_nth_in<H: ChunkHasher, S: Source>(
    hasher: &H,
    alloc: Global,
    source: &mut S,
    n: u64,
    notation: Notation,
) -> Result<Answer, AllocError>
    requires { H.can_hash hasher.now }
    ensures shown { AnswersLookUp S.seen source.old source.new (ShowsPlace notation n) result }
    ensures read { AnswersFailedRead S.seen source.old source.new result }
{
    let tree = match check_by(hasher, alloc, source, INPUT_LIMIT) {
        Ok(tree) => tree,
        Err(fault) => return Answer::of_fault(alloc, Fault::Check(fault)),
    };
    nth_shown(alloc, notation, tree.nth(n))
}

/// The answer of a look-up by a number: the line of its pair, that there is none, or that there
/// are no counts.
fn nth_shown(
    alloc: Global,
    notation: Notation,
    found: Result<Option<(&[u8], &[u8])>, NoCounts>,
) -> Result<Answer, AllocError>
    ensures { (bytes : List ℕ) (n : ℕ) →
        IfOk found.entry (λ f. (content : Content) → IsFileOf bytes content →
        pair_found f ≡ nth content.pairs n) →
        ((content : Content) → IsFileOf bytes content →
        IsErr found.entry ↔ (content.version ≡ One)) →
        IfOk result (λ answer. (content : Content) → IsFileOf bytes content →
        ShowsPlace notation n answer content) }
{
    match found {
        Ok(Some((key, value))) => line_shown(alloc, notation, key, value),
        Ok(None) => Ok(Answer::of_nothing(alloc)),
        Err(NoCounts) => Answer::of_fault(alloc, Fault::NoCounts),
    }
}

/// What `nth` answers in hexadecimal: see [`answer_nth_in`].
pub fn answer_nth<S: Source>(alloc: Global, source: &mut S, n: u64) -> Result<Answer, AllocError>
    ensures shown { AnswersLookUp S.seen source.old source.new (ShowsPlace Hex n) result }
    ensures read { AnswersFailedRead S.seen source.old source.new result }
{
    answer_nth_in(&OneThread, alloc, source, n, Notation::Hex)
}

/// What `nth` answers to who names the root: the pair of this number, counted from 0 in the order
/// of keys, as key and value in this notation; nothing, with status 1, where the tree with this
/// root has none; or the line of the first fault of the file, or on the way to the pair. Chunks of
/// version One have no counts, and of such a tree nothing is read. An `Err` is want of memory for that
/// text.
///
/// Of the source only the chunks on the way to the pair are read, each compared with the reference
/// above it, and memory is taken for these and for the pair. What a pair or none says of a map with
/// the root is said by [`ways_are_right`](prolly_look_up::laws::ways_are_right). Each chunk of that
/// way stands in the file that the source goes over.
pub fn answer_nth_by_root<S: ChunkSource>(
    alloc: Global,
    source: &mut S,
    version: Version,
    root: &Ref,
    n: u64,
    notation: Notation,
) -> Result<Answer, AllocError>
    ensures shown { IfOk result (IsNthByRoot (StandsInFile (S.goes_over source.old))
        version root.now.0 n notation
        (MayRefuse (S.goes_over source.old) version root.now.0 (Number n))
        (TellsReads (S.failures source.old) (S.failures source.new))) }
    ensures unread { version ≡ One → source.new ≡ source.old }
{
    match version {
        Version::One => Answer::of_fault(alloc, Fault::NoCounts),
        Version::Two => {
            let found = pair_in(alloc, source, root, n);
            answer_found_pair(alloc, notation, &found)
        }
    }
}

/// The pair of this number that the source's tree with this root has, or none. Its chunks are of
/// version Two.
fn pair_in<S: ChunkSource>(
    alloc: Global,
    source: &mut S,
    root: &Ref,
    n: u64,
) -> Result<Option<Pair>, RootFault>
    ensures found { IfOk result (IsFoundByRoot (StandsInFile (S.goes_over source.old))
        (IsCountWay root.now.0 n)) }
    ensures refuses { IfErr result
        (MayRefuse (S.goes_over source.old) Two root.now.0 (Number n)) }
    ensures reads { TellsReads (S.failures source.old) (S.failures source.new) result }
{
    // By this law a lawful file has no fault.
    lawful_files_are_read();
    let mut reader = Reader::open(alloc, source, Version::Two, root)?;
    reader.nth(alloc, source, n)
}

/// The answer of a look-up by a number that came to this: see [`answer_nth_by_root`]. An `Err` is
/// want of memory for the answer's own text.
///
/// What a pair or none says of the map with the root is said where the look-up is made: see
/// [`Reader::nth`](prolly_root::Reader::nth).
pub fn answer_found_pair(
    alloc: Global,
    notation: Notation,
    found: &Result<Option<Pair>, RootFault>,
) -> Result<Answer, AllocError>
    ensures shown { IfOk result (λ answer. ShowsFoundPair notation answer found.now) }
{
    match found {
        Ok(pair) => pair_shown(alloc, notation, pair),
        Err(fault) => Answer::of_fault(alloc, Fault::Root(*fault)),
    }
}

/// The answer of a look-up by a number: the line of its pair, or that there is none.
fn pair_shown(alloc: Global, notation: Notation, pair: &Option<Pair>) -> Result<Answer, AllocError>
    ensures { IfOk result (λ answer. ShowsPair notation answer pair.now) }
{
    match pair {
        Some(pair) => line_shown(alloc, notation, pair.key(), pair.value()),
        None => Ok(Answer::of_nothing(alloc)),
    }
}

/// The answer of a look-up of a pair: its key and value in this notation.
fn line_shown(
    alloc: Global,
    notation: Notation,
    key: &[u8],
    value: &[u8],
) -> Result<Answer, AllocError>
    ensures { IfOk result (λ answer. ShowsPair notation answer
        (Some (record { key = key.now; value = value.now }))) }
{
    let mut line = Vec::new(alloc);
    append_pair_text(&mut line, notation, key, value)?;
    Answer::of_line(alloc, &line)
}
