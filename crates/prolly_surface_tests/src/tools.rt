//! `prolly_tool`.
use prolly_entry::{Ref, Version};
use prolly_file::{Sink, Source};
use prolly_link::RunFault;
use prolly_stage::Gate;
use prolly_tool::{
    AllStart, Answer, Command, Config, ConfigFault, PackFault, ParseFault, Permit, Report,
    answer_build, answer_check, answer_get, answer_nth, answer_pack, answer_refusal, answer_scan,
    answer_scratch, build, build_with, pack_lines, parse,
};
use std::alloc::{AllocError, Global};
use std::sync::Wait;
use std::test::Fail;
use std::thread::Threads;

mod applying;
mod checked;
mod lines;
mod requests;
mod rooted;
mod runs;

fn config() -> Result<Config, ConfigFault> {
    match Config::new(12, 12, 64, 1000) {
        Ok(config) => config.with_batch(16)?.with_version(2),
        Err(
            fault @ (ConfigFault::BadBits
            | ConfigFault::BadStages
            | ConfigFault::BadCapacity
            | ConfigFault::BadMaxRecords
            | ConfigFault::BadBatch
            | ConfigFault::BadVersion),
        ) => Err(fault),
    }
}

fn built<R: Wait + Threads + Sync, S: Source + Send + Drop, W: Sink, G: Gate, P: Permit>(
    rt: &R,
    alloc: Global,
    config: &Config,
    sources: &mut Vec<S>,
    sink: &mut W,
    gate: &G,
    permit: &P,
) -> Result<(Ref, u64, u64, u8), RunFault> {
    let Report {
        root,
        chunks,
        pairs,
        levels,
    } = build(rt, alloc, config, sources, sink, gate)?;
    build_with(rt, alloc, config, sources, sink, gate, &AllStart)?;
    build_with(rt, alloc, config, sources, sink, gate, permit)?;
    Ok((root, chunks, pairs, levels))
}

fn line_of(fault: PackFault) -> u64 {
    match fault {
        PackFault::Memory => 0,
        PackFault::BadLine { line }
        | PackFault::KeyTooLong { line }
        | PackFault::ValueTooLong { line } => line,
    }
}

fn packed(alloc: Global, text: &[u8], out: &mut Vec<u8>) -> Result<u64, PackFault> {
    pack_lines(alloc, text, out)
}

fn text_of(fault: ParseFault) -> Option<String> {
    match fault {
        ParseFault::Usage(text) | ParseFault::Help(text) => Some(text),
        ParseFault::Memory
        | ParseFault::BadKey
        | ParseFault::BadRoot
        | ParseFault::BadTextKey
        | ParseFault::LoneRoot => None,
    }
}

fn number_of(command: &Command) -> u8 {
    match command {
        Command::Scratch {
            bits: _,
            version: _,
            out: _,
            ..
        } => 1,
        Command::Build {
            bits: _,
            stages: _,
            capacity: _,
            max_records: _,
            batch: _,
            version: _,
            out: _,
            files: _,
            ..
        } => 2,
        Command::Check { file: _, .. } => 3,
        Command::Get {
            file: _,
            key: _,
            ..
        } => 4,
        Command::Scan {
            file: _,
            from: _,
            limit: _,
            ..
        } => 5,
        Command::Nth { file: _, n: _, .. } => 6,
        Command::Pack { out: _, .. } => 7,
        _ => 0,
    }
}

fn answers<S: Source, W: Sink>(
    alloc: Global,
    source: &mut S,
    sink: &mut Option<W>,
    built: &Result<Report, RunFault>,
) -> Result<(u8, Vec<u8>, Vec<u8>), AllocError> {
    answer_scratch(alloc, source, 12, Version::One, sink)?;
    answer_build(alloc, built)?;
    answer_check(alloc, source)?;
    answer_get(alloc, source, b"a")?;
    answer_scan(alloc, source, b"a", 1)?;
    answer_nth(alloc, source, 0)?;
    if let Some(sink) = sink {
        answer_pack(alloc, source, sink)?;
    }
    let Answer { status, out, err } = answer_check(alloc, source)?;
    Ok((status, out, err))
}

#[test]
fn tools_are_named_as_ever(rt: HostRuntime) -> Result<(), Fail> {
    assert!(rt; config().is_ok());
    Ok(())
}

#[test]
fn no_words_are_told_how_to_use_the_program(rt: HostRuntime) -> Result<(), Fail> {
    let refusal = parse(rt.alloc(), &[]).err();
    assert!(rt; refusal.is_some());
    if let Some(refusal) = refusal {
        let answer = answer_refusal(rt.alloc(), refusal)?;
        assert!(rt; answer.status == 2 && answer.out.is_empty() && !answer.err.is_empty());
    }
    Ok(())
}
