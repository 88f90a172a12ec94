//! The command `scratch`.
ghost use Rattle.std.specs.Prelude.{◌≤◌};
ghost use Rattle.prolly_line.specs.GivenCommand.{IsWithinLimits};
ghost use Rattle.prolly.specs.Kinds.{IsScratch};

use crate::commands::bits::chosen_bits;
use crate::commands::version_of;
use prolly_answer::{Sample, answer_scratch};
use prolly_entry::Version;
use prolly_fault::{Answer, Fault};
use prolly_files::{Output, OutputKind, Refusal, Target, refuse_printed_input, stdin_source};
use prolly_io::{Sink, ToWrite};
use prolly_line::Command;
use std::alloc::AllocError;
use std::fs::File;

/// `scratch [--bits Q] [--chunk-bytes N] [--format V] [--out FILE] [--atomic] [--sync] [--force]`
pub fn answer(rt: &HostRuntime, command: Command) -> Result<Answer, Refusal>
    requires limits { IsWithinLimits command }
    requires scratch { IsScratch command }
{
    let Command::Scratch {
        bits,
        chunk_bytes,
        version,
        out,
        mode,
    } = command
    else {
        unreachable!()
    };
    let version = version_of(version);
    refuse_printed_input(rt)?;
    let Some(out) = out else {
        let mut sink: Option<ToWrite<&File>> = None;
        return Ok(scratch_into(rt, bits, chunk_bytes, version, &mut sink)?);
    };
    let target = Target::look(rt, &out, OutputKind::ChunkFile, mode);
    target.refuse_input(rt)?;
    let mut output = Output::open_beside_answer(rt, target)?;
    let mut sink = Some(ToWrite::new(&mut output));
    let answer = scratch_into(rt, bits, chunk_bytes, version, &mut sink);
    output.finish(rt, answer)
}

/// Makes the tree of standard input, and writes it to the sink, if there is one. Where chunks are to
/// have so many bytes, the bits are chosen by what is read first.
fn scratch_into<W: Sink>(
    rt: &HostRuntime,
    bits: u8,
    chunk_bytes: Option<u32>,
    version: Version,
    sink: &mut Option<W>,
) -> Result<Answer, AllocError>
    requires bits { bits ≤ 24 }
{
    let alloc = rt.alloc();
    let mut records = stdin_source(rt);
    let Some(chunk_bytes) = chunk_bytes else {
        return answer_scratch(alloc, &mut records, bits, version, sink);
    };
    let mut sample = Sample::new();
    let Ok(mut records) = sample.peek(alloc, records)? else {
        return Answer::of_fault(alloc, Fault::Read);
    };
    let bits = chosen_bits(rt, &sample, chunk_bytes, bits)?;
    answer_scratch(alloc, &mut records, bits, version, sink)
}
