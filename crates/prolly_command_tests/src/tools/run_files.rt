//! Files in memory in which sorted runs wait.
use prolly_io::{ScriptSink, ScriptSource};
use prolly_sort::{RunStore, StoreFault};
use std::alloc::Global;

/// Makes files in memory.
#[derive(Drop)]
pub(crate) struct RunFiles {
    alloc: Global,
}

impl RunFiles {
    pub(crate) fn new(alloc: Global) -> RunFiles {
        RunFiles { alloc }
    }
}

impl RunStore<ScriptSink, ScriptSource> for RunFiles {
    ghost use Rattle.std.specs.Prelude.{true};

    ghost keeps = { λ _. true };

    fn create(&mut self) -> Result<ScriptSink, StoreFault> {
        Ok(ScriptSink::new(self.alloc, 4_096, None))
    }

    fn read_back(&mut self, file: ScriptSink) -> Result<ScriptSource, StoreFault> {
        let bytes = Vec::from_slice(self.alloc, file.taken())?;
        Ok(ScriptSource::new(bytes, 4_096, None))
    }
}
