//! The command `pack`.
ghost use Rattle.prolly.specs.Kinds.{IsPack};

use crate::host::Host;
use prolly_answer::{SortedPack, answer_pack_in, answer_pack_sorted};
use prolly_fault::Answer;
use prolly_files::{
    Output, OutputKind, Refusal, RunFile, RunFiles, Target, refuse_printed_input, stdin_source,
    tell_of_terminal,
};
use prolly_io::ToWrite;
use prolly_line::{Command, WriteMode};
use prolly_text::LineForm;
use std::sync::Wait;

/// What memory a run is not given, in bytes: for the text that is read, and for readers of runs.
const BESIDE_RUNS: u32 = 4_000_000;

/// The answer of a command that makes a record file of lines.
pub fn answer<T: Wait>(host: &Host<'_, T>, command: Command) -> Result<Answer, Refusal>
    requires { IsPack command }
{
    match command {
        Command::Pack {
            out,
            notation,
            removals,
            mode,
        } => {
            let form = LineForm { notation, removals };
            pack(host.rt, form, target_of(host.rt, &out, mode)?)
        }
        Command::PackSorted {
            out,
            notation,
            removals,
            unique,
            memory,
            mode,
        } => {
            let form = LineForm { notation, removals };
            // A run may become the output, and a pipe or a device can't be one.
            let mode = WriteMode {
                atomic: true,
                ..mode
            };
            let target = target_of(host.rt, &out, mode)?;
            pack_sorted(host, form, unique, budget_of(memory), target)
        }
        _ => unreachable!(),
    }
}

/// The record file of this name, which is to be written of standard input.
fn target_of<'a>(rt: &HostRuntime, out: &'a str, mode: WriteMode) -> Result<Target<'a>, Refusal> {
    let target = Target::look(rt, out, OutputKind::RecordFile, mode);
    target.refuse_input(rt)?;
    refuse_printed_input(rt)?;
    Ok(target)
}

/// `pack [--text] [--removals] [--atomic] [--sync] [--force] OUT`
fn pack(rt: &HostRuntime, form: LineForm, target: Target<'_>) -> Result<Answer, Refusal> {
    let mut output = Output::open_beside_answer(rt, target)?;
    tell_of_terminal(rt);
    let mut sink = ToWrite::new(&mut output);
    let answer = answer_pack_in(rt.alloc(), &mut stdin_source(rt), &mut sink, form);
    output.finish(rt, answer)
}

/// `pack --sort [--unique] [--memory MB] [--text] [--removals] [--atomic] [--sync] [--force] OUT`,
/// where runs take so many bytes of memory.
fn pack_sorted<T: Wait>(
    host: &Host<'_, T>,
    form: LineForm,
    unique: bool,
    budget: u32,
    target: Target<'_>,
) -> Result<Answer, Refusal> {
    let rt = host.rt;
    let mut files = RunFiles::new(rt, target)?;
    tell_of_terminal(rt);
    let sorted = answer_pack_sorted(
        host.threads,
        rt.alloc(),
        &mut stdin_source(rt),
        &mut files,
        form,
        budget,
        unique,
    );
    match sorted {
        Ok(SortedPack { answer, file }) => keep(rt, &files, answer, file),
        Err(refused) => {
            files.remove_but(None);
            Err(refused.into())
        }
    }
}

/// Puts the sorted file in the output's place, where there is one, and takes all others away.
fn keep(
    rt: &HostRuntime,
    files: &RunFiles<'_>,
    answer: Answer,
    file: Option<RunFile<'_>>,
) -> Result<Answer, Refusal> {
    let Some(file) = file else {
        files.remove_but(None);
        return Ok(answer);
    };
    let output = file.sink().writer();
    files.remove_but(output.name_beside());
    output.finish(rt, Ok(answer))
}

/// How many bytes a run may take where so many megabytes of memory may be used: less than the half.
/// While a block of the run grows, the run takes up to three times its budget for a moment. So the
/// peak may be half as much again as was asked for.
fn budget_of(memory: u32) -> u32 {
    (memory.saturating_mul(1_000_000) / 2).saturating_sub(BESIDE_RUNS)
}
