//! The command `scan` of a file of which only the root is believed.
ghost use Rattle.prolly_look_up.specs.Sought.Sought.{Key};
ghost use Rattle.prolly_root.specs.ChunkSource.{StandsInFile};
ghost use Rattle.prolly_answer.specs.RootFaults.{MayRefuse};
ghost use Rattle.prolly_answer.specs.RootOutcomes.{IsAnswered, IsWrittenByRoot, TakesAllFor};
ghost use Rattle.prolly_answer.specs.RootOutcomes.{TellsReadsOf};
ghost use Rattle.prolly_answer.specs.declared.answers.root_pairs.Portion.TheVariants.{First};

use crate::answers::root_pairs::{Portion, RootPairs, write_pairs};
use prolly_entry::{Ref, Version};
use prolly_fault::{Answer, Fault};
use prolly_io::Sink;
use prolly_look_up::ManyThreads;
use prolly_root::ReadAhead;
use prolly_text::Notation;
use std::alloc::{AllocError, Global};
use std::thread::Threads;

/// What a scan by the root asks for.
#[derive(Clone, Copy)]
pub struct RootScan<'a> {
    /// The version of the tree's chunks.
    pub version: Version,
    /// The root of the tree.
    pub root: &'a Ref,
    /// The key from which on pairs are wanted.
    pub from: &'a [u8],
    /// How many pairs are wanted at most.
    pub limit: u32,
    /// How keys and values are shown.
    pub notation: Notation,
}

/// What `scan` answers to who names the root: it writes a line of key and value to the sink for
/// each of the pairs that are asked for, and shows nothing; or it shows the line of the fault that
/// stopped it, and what was found before that was written. An `Err` is want of memory for that
/// line; the sink then has what was found before.
///
/// It goes on leaf by leaf, and looks each up from the root with one
/// [`Reader`](prolly_root::Reader), which goes over the frames below a chunk once and reads no chunk
/// twice. It takes memory for one look-up, for what the source reads ahead, and for the lines of one
/// leaf, or of as many of its pairs as are still wanted: they are made from where the pairs lie.
/// What the pairs of such look-ups are of the map with the root is said by
/// [`ways_are_right`](prolly_look_up::laws::ways_are_right). Each chunk of their ways stands in the
/// file that the source goes over. The sink is called once for each leaf, or more often where it
/// takes only a part, and flushed at the end. Where the limit is 0, nothing is read.
pub fn answer_scan_by_root<R: Threads + Sync, S: ReadAhead, W: Sink>(
    hasher: &ManyThreads<'_, R>,
    alloc: Global,
    source: &mut S,
    scan: &RootScan<'_>,
    sink: &mut W,
) -> Result<Answer, AllocError>
    ensures { IsAnswered (λ outcome. IsWrittenByRoot (StandsInFile (S.goes_over source.old))
        (λ key. MayRefuse (S.goes_over source.old) scan.now.version scan.now.root.now.0 (Key key))
        scan.now.version scan.now.root.now.0 scan.now.from.now
        (First scan.now.notation scan.now.limit) (TakesAllFor W.seen sink.old sink.new) outcome ×
        TellsReadsOf (S.failures source.old) (S.failures source.new) outcome) result }
{
    let pairs = RootPairs {
        version: scan.version,
        root: scan.root,
        from: scan.from,
        portion: Portion::First(scan.notation, scan.limit),
    };
    match write_pairs(hasher, alloc, source, &pairs, sink) {
        Ok(()) => Ok(Answer::of_done(alloc)),
        Err(stop) => Answer::of_fault(alloc, Fault::from(stop)),
    }
}
