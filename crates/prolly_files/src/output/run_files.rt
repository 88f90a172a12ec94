//! The files in which sorted runs wait: beside the output, as long as they have a name.
ghost use Rattle.std.specs.Prelude.{false};

use crate::found::Found;
use crate::output::Output;
use crate::output::place::Replaced;
use crate::output::target::Target;
use crate::refusal::Refusal;
use crate::sinks::buffered;
use prolly_io::{Buffered, FromRead, ToWrite};
use prolly_sort::{RunStore, StoreFault};
use std::fs;
use std::fs::File;
use std::path::PathBuf;

/// A run that is written. The last one takes the output's place.
pub type RunFile<'a> = Buffered<ToWrite<Output<'a>>>;

/// Makes files beside the output. One that is read back has no name any more, so that nothing of it
/// is left, however the program ends.
#[derive(Drop)]
pub struct RunFiles<'a> {
    rt: &'a HostRuntime,
    target: Target<'a>,
    /// What each of the files may replace.
    replaced: Replaced,
    /// The first file, until it is asked for.
    first: Option<Output<'a>>,
    /// The files that were made, but for those that were read back: they have lost their names.
    named: Vec<NamedFile>,
}

impl<'a> RunFiles<'a> {
    /// Files beside this output. The first one is made here, so that an output that can't be made is
    /// told before the input is read.
    pub fn new(rt: &'a HostRuntime, target: Target<'a>) -> Result<RunFiles<'a>, Refusal> {
        let first = Output::open_beside_answer(rt, target)?;
        match RunFiles::beside(rt, target, &first) {
            Ok(mut files) => {
                files.first = Some(first);
                Ok(files)
            }
            Err(refusal) => {
                first.remove(rt);
                Err(refusal)
            }
        }
    }

    /// Files beside this one, which was the first.
    fn beside(
        rt: &'a HostRuntime,
        target: Target<'a>,
        first: &Output<'_>,
    ) -> Result<RunFiles<'a>, Refusal> {
        let mut files = RunFiles {
            rt,
            target,
            replaced: first.replaced(rt)?,
            first: None,
            named: Vec::new(rt.alloc()),
        };
        files.note(first)?;
        Ok(files)
    }

    /// Makes a further file, and notes its name.
    fn make(&mut self) -> Result<Output<'a>, Refusal> {
        let replaced = self.replaced.copied(self.rt)?;
        let output = Output::make_beside(self.rt, self.target, replaced)?;
        if let Err(refusal) = self.note(&output) {
            output.remove(self.rt);
            return Err(refusal);
        }
        Ok(output)
    }

    /// Notes the name of a file.
    fn note(&mut self, output: &Output<'_>) -> Result<(), Refusal> {
        if let Some(name) = output.name_beside() {
            let found = output.found(self.rt)?;
            let name = PathBuf::from_str(self.rt.alloc(), name)?;
            self.named.push(NamedFile { name, found })?;
        }
        Ok(())
    }

    /// Removes all files that have a name but the one of this name.
    pub fn remove_but(&self, kept: Option<&str>) {
        for file in &self.named {
            if Some(file.name.as_str()) != kept {
                file.remove(self.rt);
            }
        }
    }

    /// Forgets the name of a file that has lost it.
    fn forget(&mut self, lost: &str) {
        if let Some(at) = self
            .named
            .iter()
            .position(|file| file.name.as_str() == lost)
        {
            drop(self.named.swap_remove(at));
        }
    }
}

impl<'a> RunStore<RunFile<'a>, FromRead<File>> for RunFiles<'a> {
    // No contract can say what a file keeps.
    ghost keeps = { λ _. false };

    fn create(&mut self) -> Result<RunFile<'a>, StoreFault> {
        let output = match self.first.take() {
            Some(first) => first,
            None => match self.make() {
                Ok(output) => output,
                Err(Refusal::Memory) => return Err(StoreFault::Memory),
                Err(Refusal::Told(_)) => return Err(StoreFault::Make),
            },
        };
        Ok(buffered(self.rt, ToWrite::new(output))?)
    }

    fn read_back(&mut self, file: RunFile<'a>) -> Result<FromRead<File>, StoreFault> {
        let output = file.sink().writer();
        let Some(back) = output.read_back(self.rt) else {
            return Err(StoreFault::Read);
        };
        if let Some(name) = output.name_beside() {
            self.forget(name);
        }
        Ok(FromRead::new(back))
    }
}

/// A file that this run has made, and the name that it was given.
#[derive(Drop)]
struct NamedFile {
    name: PathBuf,
    found: Found,
}

impl NamedFile {
    /// Removes the file where the name is its own still. Where that fails, it stays.
    fn remove(&self, rt: &HostRuntime) {
        if self.found.has_name(rt, self.name.as_str()) {
            let _ = fs::remove_file(rt, &self.name);
        }
    }
}
