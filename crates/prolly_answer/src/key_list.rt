//! Lists of keys, out of files.
ghost use Rattle.std.specs.Prelude.{◌≡◌, ◌≢◌, true, map, IfErr, IfOk, IsErrOf};
ghost use Rattle.prolly_entry.specs.Keys.{Rising};
ghost use Rattle.prolly_answer.specs.KeyLists.{IsKeyListFault, ReadsKeys};

use crate::input::input_of;
use prolly_fault::Fault;
use prolly_io::Source;
use prolly_text::{Notation, keys_of_lines};
use std::alloc::Global;

/// The keys that the lines of a source stand for, of which each has to be greater than the one before
/// it. The source may begin with no byte order mark.
///
/// Reads at most [`INPUT_LIMIT`](crate::INPUT_LIMIT) bytes, and takes memory for them and for each key.
pub fn read_keys<S: Source>(
    alloc: Global,
    notation: Notation,
    source: &mut S,
) -> Result<Vec<Vec<u8>>, Fault>
    ensures rising { IfOk result (λ keys. Rising (map (λ k. k.items) keys.items)) }
    ensures ok { (S.seen source.old).is_honest ≡ true → IfOk result (λ keys. ReadsKeys notation
        (S.seen source.old).left ((S.seen source.new).failures ≢ (S.seen source.old).failures)
        (map (λ k. k.items) keys.items)) }
    ensures err { (S.seen source.old).is_honest ≡ true → IfErr result (IsKeyListFault notation
        (S.seen source.old).left ((S.seen source.new).failures ≢ (S.seen source.old).failures)) }
    ensures read { (S.seen source.new).failures ≢ (S.seen source.old).failures →
        IsErrOf result Fault.Read }
{
    let text = input_of(alloc, source)?;
    Ok(keys_of_lines(alloc, notation, &text)?)
}
