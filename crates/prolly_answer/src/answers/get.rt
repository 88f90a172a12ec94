//! What `get` answers, of a checked file and by the root.
ghost use Rattle.std.specs.Option.{option_copied};
ghost use Rattle.std.specs.Prelude.{option_map, IfErr, IfOk};
ghost use Rattle.prolly_look_up.specs.Sought.Sought.{Key};
ghost use Rattle.prolly_look_up.specs.Way.{IsWay};
ghost use Rattle.prolly_root.specs.ChunkSource.{StandsInFile};
ghost use Rattle.prolly_root.specs.RootFault.{TellsReads};
ghost use Rattle.prolly_text.specs.declared.notation.Notation.TheVariants.{Hex};
ghost use Rattle.prolly_answer.specs.LookUps.{AnswersFailedRead, AnswersLookUp, ShowsFound};
ghost use Rattle.prolly_answer.specs.LookUps.{ShowsGet, ShowsValue};
ghost use Rattle.prolly_answer.specs.RootLookUps.{IsFoundByRoot, IsLookUpByRoot};
ghost use Rattle.prolly_answer.specs.RootFaults.{MayRefuse};

use prolly_check::{ChunkHasher, OneThread, check_by};
use prolly_entry::{Ref, Version};
use prolly_fault::{Answer, Fault, INPUT_LIMIT};
use prolly_io::Source;
use prolly_root::laws::lawful_files_are_read;
use prolly_root::{ChunkSource, Reader, RootFault};
use prolly_text::Notation;
use std::alloc::{AllocError, Global};

/// What `get` answers: the value of the key in this notation; nothing, with status 1, where the map
/// has no such key; or the line of the fault of a file that `check` refuses. An `Err` is want of
/// memory for the answer's own text.
///
/// The file is checked first, as by `check`; the look-up itself touches one chunk a level.
pub fn answer_get_in<H: ChunkHasher, S: Source>(
    hasher: &H,
    alloc: Global,
    source: &mut S,
    key: &[u8],
    notation: Notation,
) -> Result<Answer, AllocError>
    requires { H.can_hash hasher.now }
    ensures shown { AnswersLookUp S.seen source.old source.new (ShowsGet notation key.now) result }
    ensures read { AnswersFailedRead S.seen source.old source.new result }
{
    let tree = match check_by(hasher, alloc, source, INPUT_LIMIT) {
        Ok(tree) => tree,
        Err(fault) => return Answer::of_fault(alloc, Fault::Check(fault)),
    };
    value_shown(alloc, notation, tree.get(key))
}

/// What `get` answers in hexadecimal: see [`answer_get_in`].
pub fn answer_get<S: Source>(
    alloc: Global,
    source: &mut S,
    key: &[u8],
) -> Result<Answer, AllocError>
    ensures shown { AnswersLookUp S.seen source.old source.new (ShowsGet Hex key.now) result }
    ensures read { AnswersFailedRead S.seen source.old source.new result }
{
    answer_get_in(&OneThread, alloc, source, key, Notation::Hex)
}

/// What `get` answers to who names the root: the value of the key in this notation; nothing, with
/// status 1, where the tree with this root has no such key; or the line of the first fault of the
/// file, or on the way to the key. An `Err` is want of memory for that text.
///
/// Of the source only the chunks on the way to the key are read, each compared with the reference
/// above it, and memory is taken for these and for the value. What a value or none says of a map
/// with the root is said by [`ways_are_right`](prolly_look_up::laws::ways_are_right). Each chunk of
/// that way stands in the file that the source goes over.
pub fn answer_get_by_root<S: ChunkSource>(
    alloc: Global,
    source: &mut S,
    version: Version,
    root: &Ref,
    key: &[u8],
    notation: Notation,
) -> Result<Answer, AllocError>
    ensures { IfOk result (IsLookUpByRoot (StandsInFile (S.goes_over source.old))
        (IsWay version root.now.0 key.now) (ShowsValue notation)
        (MayRefuse (S.goes_over source.old) version root.now.0 (Key key.now))
        (TellsReads (S.failures source.old) (S.failures source.new))) }
{
    let found = value_in(alloc, source, version, root, key);
    answer_found(alloc, notation, &found)
}

/// The value that the source's tree with this root has at the key, or none.
pub(crate) fn value_in<S: ChunkSource>(
    alloc: Global,
    source: &mut S,
    version: Version,
    root: &Ref,
    key: &[u8],
) -> Result<Option<Vec<u8>>, RootFault>
    ensures found { IfOk result (λ value. IsFoundByRoot (StandsInFile (S.goes_over source.old))
        (IsWay version root.now.0 key.now) (option_map (λ v. v.items) value)) }
    ensures refuses { IfErr result
        (MayRefuse (S.goes_over source.old) version root.now.0 (Key key.now)) }
    ensures reads { TellsReads (S.failures source.old) (S.failures source.new) result }
{
    // By this law a lawful file has no fault.
    lawful_files_are_read();
    let mut reader = Reader::open(alloc, source, version, root)?;
    reader.get(alloc, source, key)
}

/// The answer of a look-up by the root that came to this: see [`answer_get_by_root`]. An `Err` is
/// want of memory for the answer's own text.
///
/// What a value or none says of the map with the root is said where the look-up is made: see
/// [`Reader::get`](prolly_root::Reader::get).
pub fn answer_found(
    alloc: Global,
    notation: Notation,
    found: &Result<Option<Vec<u8>>, RootFault>,
) -> Result<Answer, AllocError>
    ensures { IfOk result (λ answer. ShowsFound notation answer found.now) }
{
    match found {
        Ok(value) => value_shown(alloc, notation, value.as_deref()),
        Err(fault) => Answer::of_fault(alloc, Fault::Root(*fault)),
    }
}

/// The answer of a look-up of a key: its value in this notation, or that there is none.
pub(crate) fn value_shown(
    alloc: Global,
    notation: Notation,
    value: Option<&[u8]>,
) -> Result<Answer, AllocError>
    ensures { IfOk result (λ answer. ShowsValue notation answer (option_copied value.entry)) }
{
    let Some(value) = value else {
        return Ok(Answer::of_nothing(alloc));
    };
    let mut line = Vec::new(alloc);
    notation.append(&mut line, value)?;
    Answer::of_line(alloc, &line)
}
