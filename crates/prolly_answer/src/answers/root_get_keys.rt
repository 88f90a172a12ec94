//! The command `get` of many keys, of a file of which only the root is believed.
ghost use Rattle.std.specs.Prelude.{◌≡◌, true, map};
ghost use Rattle.prolly_root.specs.ChunkSource.{StandsInFile};
ghost use Rattle.prolly_answer.specs.KeyLookUps.{AreFoundByRoot};
ghost use Rattle.prolly_answer.specs.RootFaults.{MayRefuseFirst, StandsInFileOf, TellsFirstKeyOf};
ghost use Rattle.prolly_answer.specs.RootOutcomes.{IsAnswered, TakesAllFor, TakesFor, TellsReadsOf};

use crate::answers::flushed::settled;
use crate::answers::get_keys::write_found;
use prolly_entry::{Ref, Version};
use prolly_fault::{Answer, Fault, RootOutputFault};
use prolly_io::Sink;
use prolly_root::laws::lawful_files_are_read;
use prolly_root::{ChunkSource, Reader};
use prolly_text::Notation;
use std::alloc::{AllocError, Global};

/// What `get` answers of many keys to who names the root: it writes a line for each key to the sink,
/// in their order, and shows nothing; or it shows the line of the fault that stopped it, and what was
/// found before that was written. A line has the key and its value, or the key alone where it has
/// none. An `Err` is want of memory for that line; the sink then has what was found before.
///
/// The keys are looked up one after another, by one [`Reader`]. So where they rise, the frames of a
/// file are gone over once, and each chunk is read once. What is written of the map with the root is
/// said by [`keys_by_root_are_right`](crate::laws::keys_by_root_are_right). Each chunk of its ways
/// stands in the file that the source goes over. It takes memory for one look-up and one line. The
/// sink is called once for each key, or more often where it takes only a part, and flushed at the
/// end.
pub fn answer_get_keys_by_root<S: ChunkSource, W: Sink>(
    alloc: Global,
    source: &mut S,
    version: Version,
    root: &Ref,
    keys: &[Vec<u8>],
    notation: Notation,
    sink: &mut W,
) -> Result<Answer, AllocError>
    ensures { IsAnswered (λ outcome. AreFoundByRoot (StandsInFile (S.goes_over source.old))
        (MayRefuseFirst (S.goes_over source.old) version root.now.0) version root.now.0 notation
        (map (λ k. k.items) keys.now) (TakesAllFor W.seen sink.old sink.new) outcome ×
        TellsReadsOf (S.failures source.old) (S.failures source.new) outcome) result }
{
    match write_keys(alloc, source, version, root, keys, notation, sink) {
        Ok(()) => Ok(Answer::of_done(alloc)),
        Err(stop) => Answer::of_fault(alloc, Fault::from(stop)),
    }
}

/// Writes the line of each key, and flushes the sink, also where a fault stops that.
fn write_keys<S: ChunkSource, W: Sink>(
    alloc: Global,
    source: &mut S,
    version: Version,
    root: &Ref,
    keys: &[Vec<u8>],
    notation: Notation,
    sink: &mut W,
) -> Result<(), RootOutputFault>
    ensures found { AreFoundByRoot (StandsInFile (S.goes_over source.old))
        (MayRefuseFirst (S.goes_over source.old) version root.now.0) version
        root.now.0 notation (map (λ k. k.items) keys.now) (TakesAllFor W.seen sink.old sink.new)
        result }
    ensures reads { TellsReadsOf (S.failures source.old) (S.failures source.new) result }
{
    // By this law a lawful file has no fault.
    lawful_files_are_read();
    let reader = Reader::open(alloc, source, version, root)?;
    let outcome = write_each(alloc, source, reader, keys, notation, sink);
    settled(sink, outcome)
}

/// Writes the line of each key, as the reader finds what is there.
fn write_each<S: ChunkSource, W: Sink>(
    alloc: Global,
    source: &mut S,
    mut reader: Reader<S::Place>,
    keys: &[Vec<u8>],
    notation: Notation,
    sink: &mut W,
) -> Result<(), RootOutputFault>
    ensures found { AreFoundByRoot (StandsInFileOf S.stands (S.goes_over source.old) reader)
        (TellsFirstKeyOf S.stands (S.goes_over source.old) reader)
        reader.version reader.root notation (map (λ k. k.items) keys.now)
        (TakesFor W.seen sink.old sink.new) result }
    ensures keeping { (W.seen sink.old).is_keeping ≡ true → (W.seen sink.new).is_keeping ≡ true }
    ensures reads { TellsReadsOf (S.failures source.old) (S.failures source.new) result }
{
    let mut line = Vec::new(alloc);
    for key in keys {
        let value = reader.get(alloc, source, key)?;
        write_found(&mut line, notation, key, value.as_deref(), sink)?;
    }
    Ok(())
}
