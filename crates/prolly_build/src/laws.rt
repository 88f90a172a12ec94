//! Laws of what a build leaves behind a fault, and of the failed reads that are told, as functions
//! that do nothing and whose contracts are the laws.
ghost use Rattle.prolly_io.specs.Sink.{SinkView};
ghost use Rattle.prolly_build.specs.Config.{Settings};
ghost use Rattle.prolly_build.specs.BuiltFile.{NoEndIsBegun};
ghost use Rattle.prolly_build.specs.FailedReads.{AreReadsTrue, AreReadsTrueOver, NoReadIsTold};
ghost use Rattle.prolly_build.specs.FailedReads.{NoReadIsToldOver};
ghost use Rattle.prolly_build.specs.GivenBack.{IsTrueOfReads};

use prolly_io::{Sink, Source};
use prolly_root::ChunkSource;

/// What the sink took of a build that begins no end record does not begin with a header, frames and
/// the first letter of an end record, so it begins with no whole chunk file.
pub fn no_end_is_begun()
    ensures { (settings : Settings) (old new : SinkView) → NoEndIsBegun settings old new }
{}

/// Where no call of an old tree's source failed, as of bytes in memory, no read of the old tree is
/// told to have failed.
pub fn no_failed_read_is_told<D: ChunkSource>()
    ensures { IsTrueOfReads D.goes_over D.failures }
{}

/// A build tells a failed read of a file only where a read of its source failed. So it tells none
/// where no read of a source fails, as of bytes in memory.
pub fn failed_reads_are_true<S: Source, W: Sink>()
    ensures failed { AreReadsTrue S.seen W.seen }
    ensures steady { NoReadIsTold S.seen W.seen }
{}

/// So it is where changes are applied to any map of the root, or there is a clash.
pub fn failed_reads_of_changes_are_true<D: ChunkSource, S: Source, W: Sink>()
    ensures failed { AreReadsTrueOver S.seen W.seen D.goes_over }
    ensures steady { NoReadIsToldOver S.seen W.seen D.goes_over }
{}
