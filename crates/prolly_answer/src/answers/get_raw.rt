//! What `get --raw` answers, of a checked file and by the root.
ghost use Rattle.std.specs.Option.{option_copied};
ghost use Rattle.std.specs.Prelude.{IfOk};
ghost use Rattle.prolly_look_up.specs.Sought.Sought.{Key};
ghost use Rattle.prolly_look_up.specs.Way.{IsWay};
ghost use Rattle.prolly_root.specs.ChunkSource.{StandsInFile};
ghost use Rattle.prolly_root.specs.RootFault.{TellsReads};
ghost use Rattle.prolly_answer.specs.LookUps.{AnswersFailedRead, AnswersLookUp, ShowsFoundRaw};
ghost use Rattle.prolly_answer.specs.LookUps.{ShowsGetRaw, ShowsRaw};
ghost use Rattle.prolly_answer.specs.RootFaults.{MayRefuse};
ghost use Rattle.prolly_answer.specs.RootLookUps.{IsLookUpByRoot};

use crate::answers::get::value_in;
use prolly_check::{ChunkHasher, check_by};
use prolly_entry::{Ref, Version};
use prolly_fault::{Answer, Fault, INPUT_LIMIT};
use prolly_io::Source;
use prolly_root::{ChunkSource, RootFault};
use std::alloc::{AllocError, Global};

/// What `get --raw` answers: the value's bytes and nothing else. All else is as of [`answer_get_in`](crate::answer_get_in).
pub fn answer_get_raw<H: ChunkHasher, S: Source>(
    hasher: &H,
    alloc: Global,
    source: &mut S,
    key: &[u8],
) -> Result<Answer, AllocError>
    requires { H.can_hash hasher.now }
    ensures shown { AnswersLookUp S.seen source.old source.new (ShowsGetRaw key.now) result }
    ensures read { AnswersFailedRead S.seen source.old source.new result }
{
    let tree = match check_by(hasher, alloc, source, INPUT_LIMIT) {
        Ok(tree) => tree,
        Err(fault) => return Answer::of_fault(alloc, Fault::Check(fault)),
    };
    raw_shown(alloc, tree.get(key))
}

/// What `get --raw` answers to who names the root: the value's bytes and nothing else. All else is
/// as of [`answer_get_by_root`](crate::answer_get_by_root).
pub fn answer_get_raw_by_root<S: ChunkSource>(
    alloc: Global,
    source: &mut S,
    version: Version,
    root: &Ref,
    key: &[u8],
) -> Result<Answer, AllocError>
    ensures { IfOk result (IsLookUpByRoot (StandsInFile (S.goes_over source.old))
        (IsWay version root.now.0 key.now) ShowsRaw
        (MayRefuse (S.goes_over source.old) version root.now.0 (Key key.now))
        (TellsReads (S.failures source.old) (S.failures source.new))) }
{
    let found = value_in(alloc, source, version, root, key);
    answer_found_raw(alloc, &found)
}

/// The answer of a look-up by the root that came to this: see [`answer_get_raw_by_root`]. All else
/// is as of [`answer_found`](crate::answer_found).
pub fn answer_found_raw(
    alloc: Global,
    found: &Result<Option<Vec<u8>>, RootFault>,
) -> Result<Answer, AllocError>
    ensures { IfOk result (λ answer. ShowsFoundRaw answer found.now) }
{
    match found {
        Ok(value) => raw_shown(alloc, value.as_deref()),
        Err(fault) => Answer::of_fault(alloc, Fault::Root(*fault)),
    }
}

/// The answer of a look-up of a key whose value is wanted as it is: its bytes, or that there is
/// none.
fn raw_shown(alloc: Global, value: Option<&[u8]>) -> Result<Answer, AllocError>
    ensures { IfOk result (λ answer. ShowsRaw answer (option_copied value.entry)) }
{
    match value {
        None => Ok(Answer::of_nothing(alloc)),
        Some(value) => Ok(Answer::of_lines(alloc, Vec::from_slice(alloc, value)?)),
    }
}
