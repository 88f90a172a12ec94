//! The command `dump` of a file of which only the root is believed.
ghost use Rattle.std.specs.Prelude.{[]};
ghost use Rattle.prolly_look_up.specs.Sought.Sought.{Key};
ghost use Rattle.prolly_root.specs.ChunkSource.{StandsInFile};
ghost use Rattle.prolly_answer.specs.RootFaults.{MayRefuse};
ghost use Rattle.prolly_answer.specs.RootOutcomes.{IsAnswered, IsWrittenByRoot, TakesAllFor};
ghost use Rattle.prolly_answer.specs.RootOutcomes.{TellsReadsOf};
ghost use Rattle.prolly_answer.specs.declared.answers.root_pairs.Portion.TheVariants.{Whole};

use crate::answers::root_pairs::{Portion, RootPairs, write_pairs};
use prolly_entry::{Ref, Version};
use prolly_fault::{Answer, Fault};
use prolly_io::Sink;
use prolly_look_up::ManyThreads;
use prolly_root::ReadAhead;
use prolly_text::RecordForm;
use std::alloc::{AllocError, Global};
use std::thread::Threads;

/// What `dump` answers to who names the root: it writes the pairs of the tree with this root to the
/// sink, as records that put them, and shows nothing; or it shows the line of the fault that
/// stopped it, and what was found before that was written. An `Err` is want of memory for that
/// line; the sink then has what was found before.
///
/// It goes on leaf by leaf, as a scan by the root does, and what is written of the map with the root
/// is said by [`dumps_by_root_are_right`](crate::laws::dumps_by_root_are_right). Each chunk of its
/// ways stands in the file that the source goes over. It takes memory for one look-up and for what
/// the source reads ahead, and for lines those of one leaf; a record file is written from where the
/// pairs lie. The sink is called once for each leaf, or more often where it takes only a part, and
/// flushed at the end.
pub fn answer_dump_by_root<R: Threads + Sync, S: ReadAhead, W: Sink>(
    hasher: &ManyThreads<'_, R>,
    alloc: Global,
    source: &mut S,
    version: Version,
    root: &Ref,
    form: RecordForm,
    sink: &mut W,
) -> Result<Answer, AllocError>
    ensures { IsAnswered (λ outcome. IsWrittenByRoot (StandsInFile (S.goes_over source.old))
        (λ key. MayRefuse (S.goes_over source.old) version root.now.0 (Key key))
        version root.now.0 [] (Whole form) (TakesAllFor W.seen sink.old sink.new) outcome ×
        TellsReadsOf (S.failures source.old) (S.failures source.new) outcome) result }
{
    let pairs = RootPairs {
        version,
        root,
        from: &[],
        portion: Portion::Whole(form),
    };
    match write_pairs(hasher, alloc, source, &pairs, sink) {
        Ok(()) => Ok(Answer::of_done(alloc)),
        Err(stop) => Answer::of_fault(alloc, Fault::from(stop)),
    }
}
