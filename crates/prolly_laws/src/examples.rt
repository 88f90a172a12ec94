//! Worked examples, shown by computation.
ghost use Rattle.prolly_laws.specs.Examples.{TextOfAbc, FileOfNone, FileOfOne, FileOfThree};
ghost use Rattle.prolly_laws.specs.Examples.{MarkedChunks, ChunksOfFive, TwoStagesAtAFault};
ghost use Rattle.prolly_laws.specs.Examples.{MarkedEvents, FaultOfLeastPosition, Removals};

/// The files of no pair, of one and of three are these bytes.
pub fn files_are_these_bytes()
    ensures text { TextOfAbc }
    ensures none { FileOfNone }
    ensures one { FileOfOne }
    ensures three { FileOfThree }
{}

/// The chunks of small maps, and what stages send of them, have these levels.
pub fn chunks_have_these_levels()
    ensures marked { MarkedChunks }
    ensures five { ChunksOfFive }
    ensures fault { TwoStagesAtAFault }
    ensures events { MarkedEvents }
{}

/// Small lists merge so.
pub fn lists_merge_so()
    ensures fault { FaultOfLeastPosition }
    ensures removals { Removals }
{}
