//! The command `apply`.
ghost use Rattle.std.specs.Prelude.{IfOk};
ghost use Rattle.prolly_runs.specs.Apply.{AgreesWith};
ghost use Rattle.prolly_io.specs.declared.format.header.Header.{Header as HeaderValue};
ghost use Rattle.prolly_line.specs.GivenCommand.{IsWithinLimits};
ghost use Rattle.prolly.specs.Kinds.{IsApply};
ghost use Rattle.prolly.specs.Requests.{IsSetBy};

use crate::commands::record_files::{RecordFiles, held_back_by, look_at_all, target_of};
use crate::commands::version_of;
use crate::commands::watch::Watch;
use crate::host::Host;
use prolly_build::{CHANGES_LIMIT, Config, ConfigFault};
use prolly_entry::{Ref, Version};
use prolly_fault::{Answer, Fault};
use prolly_files::{Chunks, InputName, Output, Refusal, Target, buffered};
use prolly_io::{Blocks, FromFile, FromRead, Header, ToWrite};
use prolly_line::{Command, DEFAULT_BATCH, DEFAULT_CAPACITY, DEFAULT_MAX_RECORDS, DEFAULT_STAGES};
use prolly_progress::{CountedSink, CountedSource, CountingGate, Counts};
use prolly_root::{FileChunks, RootFault, named_header};
use prolly_runs::{agreed_header, answer_apply_into};
use std::alloc::AllocError;
use std::fs::File;
use std::sync::Wait;
use std::thread::Threads;
use std::time::Clock;

/// `apply [--bits Q] [--format V] --root ROOT [--quiet] [--atomic] [--sync] [--force] OLD OUT
/// [CHANGES...]`
pub fn answer<T: Wait + Threads + Clock + Sync>(
    host: &Host<'_, T>,
    command: Command,
) -> Result<Answer, Refusal>
    requires limits { IsWithinLimits command }
    requires apply { IsApply command }
{
    let Command::Apply {
        root,
        bits,
        version,
        old,
        out,
        changes,
        quiet,
        mode,
    } = command
    else {
        unreachable!()
    };
    let request = ApplyRequest {
        root,
        bits,
        version: version.map(version_of),
        quiet,
    };
    let target = target_of(host.rt, &changes, CHANGES_LIMIT, &out, mode)?;
    apply_to(host, request, &old, &changes, target)
}

/// What is asked of a run: the root of the old tree; the bits and the version that its header is to
/// say, where they are given; and whether nothing is to be shown while it is under way.
#[derive(Clone, Copy)]
struct ApplyRequest {
    root: Ref,
    bits: Option<u8>,
    version: Option<Version>,
    quiet: bool,
}

/// Makes the next tree of the old file and the files of changes of these names.
fn apply_to<T: Wait + Threads + Clock + Sync>(
    host: &Host<'_, T>,
    request: ApplyRequest,
    old: &str,
    changes: &[String],
    target: Target<'_>,
) -> Result<Answer, Refusal> {
    let rt = host.rt;
    let old = InputName::look(rt, old)?;
    let changes = look_at_all(rt, changes)?;
    let old = old.open_beside(rt, target.found())?;
    let mut old = Blocks::new(rt.alloc(), old.into_device())?;
    let counts = Counts::new();
    let changes = RecordFiles::open(rt, &changes, target.found(), &counts)?;
    let mut output = Output::open_beside_answer(rt, target)?;
    let watch = Watch {
        counts: &counts,
        total: None,
        quiet: request.quiet,
    };
    let answer = match settings_of(&mut old, request.bits, request.version) {
        Ok(config) => {
            let inputs = Inputs {
                root: request.root,
                old: FileChunks::new(old),
                changes: changes.sources,
            };
            apply_into(host, &config, watch, inputs, &mut output)
        }
        Err(fault) => Answer::of_fault(rt.alloc(), fault),
    };
    output.finish(rt, answer)
}

/// The settings of a run over an old file whose header has to say these bits and this version, where
/// they are given.
fn settings_of(
    old: &mut Blocks<FromFile<File>>,
    bits: Option<u8>,
    version: Option<Version>,
) -> Result<Config, Fault>
    ensures { IfOk result (λ config. (header : HeaderValue) × AgreesWith bits version header ×
        IsSetBy header config) }
{
    let header = agreed_header(named_header(old), bits, version)?;
    // A header that was read is within the limits of a run.
    match config_of(header) {
        Ok(config) => Ok(config),
        Err(_) => Err(Fault::RootOld(RootFault::Header)),
    }
}

/// The settings of a run over a tree with this header. All else is as a `build` has it by default.
fn config_of(header: Header) -> Result<Config, ConfigFault>
    ensures { IfOk result (IsSetBy header) }
{
    Config::new(
        header.bits,
        DEFAULT_STAGES,
        DEFAULT_CAPACITY,
        DEFAULT_MAX_RECORDS,
    )?
    .with_batch(DEFAULT_BATCH)?
    .with_version(header.version.to_byte())
}

/// What a run reads: the old tree's root and chunks, and the changes.
#[derive(Drop)]
struct Inputs<'a> {
    root: Ref,
    old: Chunks,
    changes: Vec<CountedSource<'a, FromRead<File>>>,
}

/// Makes the next tree in the file, and shows meanwhile how far that is, unless it is to show nothing.
fn apply_into<T: Wait + Threads + Clock + Sync>(
    host: &Host<'_, T>,
    config: &Config,
    watch: Watch<'_>,
    inputs: Inputs<'_>,
    output: &mut Output<'_>,
) -> Result<Answer, AllocError> {
    let Inputs {
        root,
        old,
        mut changes,
    } = inputs;
    let held_back = held_back_by(output);
    let output = CountedSink::new(ToWrite::new(output), watch.counts);
    let mut sink = buffered(host.rt, output)?;
    let (threads, alloc) = (host.threads, host.rt.alloc());
    let gate = CountingGate::new(watch.counts);
    watch.during(host, || {
        answer_apply_into(
            threads,
            alloc,
            config,
            &root,
            old,
            &mut changes,
            &mut sink,
            &gate,
            held_back,
        )
    })
}
