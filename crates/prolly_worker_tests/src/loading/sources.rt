//! A source that is watched.
use prolly_io::{ScriptSource, Source, SourceFault};

/// A scripted source that remembers the least room that a read had.
#[derive(Drop)]
pub(super) struct Watched {
    script: ScriptSource,
    least_room: usize,
}

impl Watched {
    pub(super) fn new(script: ScriptSource) -> Watched {
        Watched {
            script,
            least_room: usize::MAX,
        }
    }

    /// The least room that a read had.
    pub(super) fn least_room(&self) -> usize {
        self.least_room
    }
}

impl Source for Watched {
    ghost use Rattle.prolly_io.specs.BytesLaws.{bytes_from_test};

    ghost seen = { λ s. ⟦<ScriptSource as Source>⟧.seen s.script };

    ghost left_are_bytes = { λ s. bytes_from_test s.script.left };

    fn read(&mut self, buf: &mut [u8]) -> Result<usize, SourceFault> {
        self.least_room = self.least_room.min(buf.len());
        self.script.read(buf)
    }
}
