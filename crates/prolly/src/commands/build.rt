//! The command `build`.
ghost use Rattle.std.specs.Prelude.{◌≡◌, ◌≤◌};
ghost use Rattle.prolly_entry.specs.Version.{version_byte};
ghost use Rattle.prolly_build.specs.Config.{settings_of};
ghost use Rattle.prolly_line.specs.GivenCommand.{IsWithinLimits};
ghost use Rattle.prolly.specs.Kinds.{IsBuild};
ghost use Rattle.prolly.specs.Requests.{AreInRange};

use crate::commands::bits::chosen_bits;
use crate::commands::record_files::{RecordFiles, held_back_by, look_at_all, target_of};
use crate::commands::watch::Watch;
use crate::host::Host;
use prolly_answer::Sample;
use prolly_build::{Config, FILES_LIMIT};
use prolly_fault::{Answer, Fault};
use prolly_files::{Output, Refusal, Target, buffered};
use prolly_io::{FromRead, Source, ToWrite};
use prolly_line::Command;
use prolly_progress::{CountedSink, CountedSource, CountingGate, Counts};
use prolly_runs::answer_build_into;
use std::alloc::AllocError;
use std::fs::File;
use std::sync::Wait;
use std::thread::Threads;
use std::time::Clock;

/// `build [--bits Q] [--chunk-bytes N] [--stages S] [--capacity C] [--max-records M] [--batch B]
/// [--format V] [--quiet] [--atomic] [--sync] [--force] OUT [FILES...]`
pub fn answer<T: Wait + Threads + Clock + Sync>(
    host: &Host<'_, T>,
    command: Command,
) -> Result<Answer, Refusal>
    requires limits { IsWithinLimits command }
    requires build { IsBuild command }
{
    let Command::Build {
        bits,
        chunk_bytes,
        stages,
        capacity,
        max_records,
        batch,
        version,
        out,
        files,
        quiet,
        mode,
    } = command
    else {
        unreachable!()
    };
    let request = BuildRequest {
        bits,
        chunk_bytes,
        stages,
        capacity,
        max_records,
        batch,
        version,
        quiet,
    };
    let target = target_of(host.rt, &files, FILES_LIMIT, &out, mode)?;
    build_files(host, request, &files, target)
}

/// What is asked of a build: its numbers, of which the bits may have to be chosen so that chunks have
/// so many bytes; and whether nothing is to be shown while it is under way.
#[derive(Clone, Copy)]
pub struct BuildRequest {
    pub bits: u8,
    pub chunk_bytes: Option<u32>,
    pub stages: u8,
    pub capacity: u32,
    pub max_records: u32,
    pub batch: u32,
    pub version: u8,
    pub quiet: bool,
}

impl BuildRequest {
    /// The settings of a build with these bits.
    fn config(self, bits: u8) -> Config
        requires bits { bits ≤ 24 }
        requires numbers { AreInRange self }
        ensures settings { result ≡ settings_of bits self.stages self.capacity self.max_records
            self.batch result.version }
        ensures version { version_byte result.version ≡ self.version }
    {
        let config = Config::new(bits, self.stages, self.capacity, self.max_records).unwrap();
        let config = config.with_batch(self.batch).unwrap();
        config.with_version(self.version).unwrap()
    }
}

/// Builds the tree of the files of these names.
fn build_files<T: Wait + Threads + Clock + Sync>(
    host: &Host<'_, T>,
    request: BuildRequest,
    names: &[String],
    target: Target<'_>,
) -> Result<Answer, Refusal>
    requires { AreInRange request }
{
    let counts = Counts::new();
    let names = look_at_all(host.rt, names)?;
    let files = RecordFiles::open(host.rt, &names, target.found(), &counts)?;
    let mut output = Output::open_beside_answer(host.rt, target)?;
    let watch = Watch {
        counts: &counts,
        total: files.size,
        quiet: request.quiet,
    };
    let answer = build_asked(host, request, watch, files.sources, &mut output);
    output.finish(host.rt, answer)
}

/// Builds the tree of the sources into the file. Where chunks are to have so many bytes, the bits are
/// chosen by what is read first.
fn build_asked<T: Wait + Threads + Clock + Sync>(
    host: &Host<'_, T>,
    request: BuildRequest,
    watch: Watch<'_>,
    mut sources: Vec<CountedSource<'_, FromRead<File>>>,
    output: &mut Output<'_>,
) -> Result<Answer, AllocError>
    requires { AreInRange request }
{
    let rt = host.rt;
    let Some(chunk_bytes) = request.chunk_bytes else {
        let config = request.config(request.bits);
        return build_into(host, &config, watch, &mut sources, output);
    };
    let mut sample = Sample::new();
    let mut sources = match sample.peek_all(rt.alloc(), sources)? {
        Ok(sources) => sources,
        Err(unread) => return Answer::of_fault(rt.alloc(), Fault::Run(unread.fault())),
    };
    let bits = chosen_bits(rt, &sample, chunk_bytes, request.bits)?;
    let config = request.config(bits);
    build_into(host, &config, watch, &mut sources, output)
}

/// Builds the tree of the sources into the file, with these settings, and shows meanwhile how far that
/// is, unless it is to show nothing.
fn build_into<T: Wait + Threads + Clock + Sync, S: Source + Send + Drop>(
    host: &Host<'_, T>,
    config: &Config,
    watch: Watch<'_>,
    sources: &mut Vec<S>,
    output: &mut Output<'_>,
) -> Result<Answer, AllocError> {
    let held_back = held_back_by(output);
    let output = CountedSink::new(ToWrite::new(output), watch.counts);
    let mut sink = buffered(host.rt, output)?;
    let (threads, alloc) = (host.threads, host.rt.alloc());
    let gate = CountingGate::new(watch.counts);
    watch.during(host, || {
        answer_build_into(threads, alloc, config, sources, &mut sink, &gate, held_back)
    })
}
