//! What reads leaves before they are asked for.
ghost use Rattle.std.specs.Prelude.{IfErr};
ghost use Rattle.std.specs.Thread.{IsSync};
ghost use Rattle.prolly_root.specs.ChunkSource.{HasAsked};
ghost use Rattle.prolly_root.specs.RootFault.{OnlyRead};

use crate::chunk_source::ChunkSource;
use crate::root_fault::RootFault;
use prolly_entry::Version;
use prolly_look_up::ManyThreads;
use std::alloc::Global;
use std::thread::Threads;

/// A source that can read leaves ahead, for who asks for all of them one behind another. That saves
/// time alone: what a source gives is the same without it.
pub trait ReadAhead: ChunkSource {
    /// Reads leaves, from behind the one that was given last, and tests them in threads as chunks of
    /// this version; or does nothing, as where leaves are left that were read ahead before.
    fn read_ahead<R: Threads + Sync>(
        &mut self,
        hasher: &ManyThreads<'_, R>,
        alloc: Global,
        version: Version,
    ) -> Result<(), RootFault>
        requires sync { IsSync R.row }
        ensures fault { IfErr result OnlyRead }
        ensures asked { HasAsked Self.goes_over Self.failures self.old self.new result };
}
