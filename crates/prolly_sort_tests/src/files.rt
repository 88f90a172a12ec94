//! Files in memory in which runs wait.
use prolly_io::{ScriptSink, ScriptSource};
use prolly_sort::{RunStore, StoreFault};
use std::alloc::Global;

/// The call that fails, if any. Files have numbers from 1, in the order in which they were made or
/// opened, and so have the calls on each.
#[derive(Clone, Copy)]
pub(crate) enum Failing {
    Nothing,
    Making(u64),
    Writing { file: u64, call: u64 },
    Opening(u64),
    Reading { file: u64, call: u64 },
}

/// A store of files in memory, which counts them.
#[derive(Drop)]
pub(crate) struct Files {
    alloc: Global,
    failing: Failing,
    pub(crate) made: u64,
    pub(crate) opened: u64,
}

impl Files {
    pub(crate) fn new(alloc: Global, failing: Failing) -> Files {
        Files {
            alloc,
            failing,
            made: 0,
            opened: 0,
        }
    }
}

impl RunStore<ScriptSink, ScriptSource> for Files {
    ghost use Rattle.std.specs.Prelude.{true};

    ghost keeps = { λ _. true };

    fn create(&mut self) -> Result<ScriptSink, StoreFault> {
        self.made = self.made.saturating_add(1);
        let fail_at = match self.failing {
            Failing::Making(file) if file == self.made => return Err(StoreFault::Make),
            Failing::Writing { file, call } if file == self.made => Some(call),
            _ => None,
        };
        Ok(ScriptSink::new(self.alloc, 64, fail_at))
    }

    fn read_back(&mut self, file: ScriptSink) -> Result<ScriptSource, StoreFault> {
        self.opened = self.opened.saturating_add(1);
        let fail_at = match self.failing {
            Failing::Opening(number) if number == self.opened => return Err(StoreFault::Read),
            Failing::Reading { file: number, call } if number == self.opened => Some(call),
            _ => None,
        };
        let bytes = Vec::from_slice(self.alloc, file.taken())?;
        Ok(ScriptSource::new(bytes, 64, fail_at))
    }
}
