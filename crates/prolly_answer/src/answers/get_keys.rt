//! The command `get` of many keys, of a checked file.
ghost use Rattle.std.specs.Option.{option_copied};
ghost use Rattle.std.specs.Prelude.{◌≡◌, ◌≢◌, ◌⊎◌, ◌++◌, true, map, IfErr, IfOk, OnErr, OnOk};
ghost use Rattle.prolly_look_up.specs.Content.{Content, IsFileOf};
ghost use Rattle.prolly_answer.specs.KeyLookUps.{AreFoundIn, IsGetKeys, found_at, found_line};
ghost use Rattle.prolly_answer.specs.KeyLookUps.{found_lines};
ghost use Rattle.prolly_answer.specs.LookUps.{ShowsFailedRead};
ghost use Rattle.prolly_answer.specs.Outputs.{IsPart, TookAll, TookBytes, TookUntil};

use crate::lines::append_pair_text;
use prolly_check::{ChunkHasher, Tree, check_by};
use prolly_fault::{Answer, Fault, INPUT_LIMIT, OutputFault};
use prolly_io::{Sink, Source, write_all};
use prolly_text::Notation;
use std::alloc::{AllocError, Global};

/// What `get` answers of many keys: it reads a chunk file from the source, writes a line for each key
/// to the sink, in their order, and shows nothing; or it shows the line of the fault of a file that
/// `check` refuses, and writes nothing. A line has the key and its value, or the key alone where it
/// has none.
///
/// The file is checked first, as by `check`; each look-up touches one chunk a level. Memory is taken
/// for one line, and want of it is shown as a fault. The sink is called once for each key, or more
/// often where it takes only a part, and flushed at the end. An `Err` is want of memory for the line
/// of a fault; the sink is then as it was, or has a part of the lines.
pub fn answer_get_keys<H: ChunkHasher, S: Source, W: Sink>(
    hasher: &H,
    alloc: Global,
    source: &mut S,
    keys: &[Vec<u8>],
    notation: Notation,
    sink: &mut W,
) -> Result<Answer, AllocError>
    requires { H.can_hash hasher.now }
    ensures ok { (S.seen source.old).is_honest ≡ true → IfOk result (IsGetKeys notation
        (map (λ k. k.items) keys.now) (S.seen source.old).left
        ((S.seen source.new).failures ≢ (S.seen source.old).failures)
        (λ bytes. TookAll W.seen bytes sink.old sink.new)
        (λ fault bytes. TookUntil W.seen fault bytes sink.old sink.new) (sink.new ≡ sink.old)) }
    ensures err { (S.seen source.old).is_honest ≡ true → OnErr result ((sink.new ≡ sink.old) ⊎
        IsPart (AreFoundIn (map (λ k. k.items) keys.now) (S.seen source.old).left
        ((S.seen source.new).failures ≢ (S.seen source.old).failures)) (λ fault records.
        TookUntil W.seen fault (found_lines notation records) sink.old sink.new)) }
    ensures read { (S.seen source.new).failures ≢ (S.seen source.old).failures →
        (sink.new ≡ sink.old) × IfOk result ShowsFailedRead }
{
    let tree = match check_by(hasher, alloc, source, INPUT_LIMIT) {
        Ok(tree) => tree,
        Err(fault) => return Answer::of_fault(alloc, Fault::Check(fault)),
    };
    match write_each(alloc, &tree, keys, notation, sink) {
        Ok(()) => Ok(Answer::of_done(alloc)),
        Err(fault) => Answer::of_fault(alloc, Fault::from(fault)),
    }
}

/// Writes the line of each key, and flushes the sink.
fn write_each<W: Sink>(
    alloc: Global,
    tree: &Tree,
    keys: &[Vec<u8>],
    notation: Notation,
    sink: &mut W,
) -> Result<(), OutputFault>
    ensures ok { (content : Content) → IsFileOf tree.now content → OnOk result (TookAll W.seen
        (found_lines notation (found_at content.pairs (map (λ k. k.items) keys.now))) sink.old
        sink.new) }
    ensures err { (content : Content) → IsFileOf tree.now content → IfErr result (λ fault.
        TookUntil W.seen fault (found_lines notation (found_at content.pairs (map (λ k. k.items)
        keys.now))) sink.old sink.new) }
{
    let mut line = Vec::new(alloc);
    for key in keys {
        write_found(&mut line, notation, key, tree.get(key), sink)?;
    }
    sink.flush()?;
    Ok(())
}

/// Writes the line of a key and its value, or of the key alone, which is put together in this room.
pub(crate) fn write_found<W: Sink>(
    line: &mut Vec<u8>,
    notation: Notation,
    key: &[u8],
    value: Option<&[u8]>,
    sink: &mut W,
) -> Result<(), OutputFault>
    ensures ok { OnOk result (TookBytes W.seen (found_line notation
        (record { key = key.now; value = option_copied value.entry })) sink.old sink.new) }
    ensures err { IfErr result (λ fault. TookUntil W.seen fault (found_line notation
        (record { key = key.now; value = option_copied value.entry })) sink.old sink.new) }
    ensures keeping { (W.seen sink.old).is_keeping ≡ true → (W.seen sink.new).is_keeping ≡ true }
{
    line.clear();
    append_found(line, notation, key, value)?;
    write_all(sink, line)?;
    Ok(())
}

/// Appends the line of a key and its value, or of the key alone.
pub(crate) fn append_found(
    line: &mut Vec<u8>,
    notation: Notation,
    key: &[u8],
    value: Option<&[u8]>,
) -> Result<(), AllocError>
    ensures { OnOk result (line.new.items ≡ line.old.items ++ found_line notation
        (record { key = key.now; value = option_copied value.entry })) }
{
    match value {
        None => notation.append(line, key)?,
        Some(value) => append_pair_text(line, notation, key, value)?,
    }
    line.extend_from_slice(b"\n")
}
