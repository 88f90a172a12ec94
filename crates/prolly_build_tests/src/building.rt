//! The build, as its tests call it.
use crate::expect::{expect_bytes, expect_numbers, expect_outcome};
use prolly_build::{Config, ConfigFault, Permit, Report, build, build_with};
use prolly_entry::{Pair, Sha512Cut, Version};
use prolly_file::scratch_as;
use prolly_io::{ScriptSink, ScriptSource};
use prolly_link::RunFault;
use prolly_stage::{Gate, OpenGate};
use std::alloc::Global;
use std::process::Abort;
use std::sync::Wait;
use std::test::Fail;
use std::thread::Threads;

mod applying;
mod faults;
mod gates;
mod growths;
mod merging;
mod old_sources;
mod ranges;
mod refusals;
mod steady;
mod whole;

/// The settings of most tests: each entry closes its chunk.
fn settings(stages: u8) -> Result<Config, Fail> {
    Ok(Config::new(0, stages, 4, 1_000)?)
}

/// Settings: the bits of a boundary, the stages, the capacity of the links, how many items a
/// message has, and the version.
fn settings_of(
    bits: u8,
    stages: u8,
    capacity: u32,
    batch: u32,
    version: Version,
) -> Result<Config, ConfigFault> {
    let config = Config::new(bits, stages, capacity, 1_000)?;
    config.with_batch(batch)?.with_version(version.to_byte())
}

/// The record file of records that are spelled as two bytes each, the key and its value; a minus
/// sign takes the key away.
fn records(alloc: Global, spelled: &[u8]) -> Result<Vec<u8>, Fail> {
    let mut file = Vec::new(alloc);
    for [key, value] in spelled.as_chunks::<2>().0 {
        file.extend_from_slice(&[0, 1, *key])?;
        if *value == b'-' {
            file.extend_from_slice(&[0xFF; 4])?;
        } else {
            file.extend_from_slice(&[0, 0, 0, 1, *value])?;
        }
    }
    Ok(file)
}

/// A source of each record file, spelled like that.
fn sources_of(alloc: Global, files: &[&[u8]]) -> Result<Vec<ScriptSource>, Fail> {
    let mut sources = Vec::new(alloc);
    for spelled in files {
        sources.push(ScriptSource::new(records(alloc, spelled)?, 4_096, None))?;
    }
    Ok(sources)
}

/// A sink that takes all.
fn open_sink(alloc: Global) -> ScriptSink {
    ScriptSink::new(alloc, 65_536, None)
}

/// The pairs of a map, spelled like that.
fn pairs_of(alloc: Global, map: &[u8]) -> Result<Vec<Pair>, Fail> {
    let mut pairs = Vec::new(alloc);
    for [key, value] in map.as_chunks::<2>().0 {
        pairs.push(Pair::copy_of(alloc, &[*key], &[*value])?)?;
    }
    Ok(pairs)
}

/// The chunk file of a map, spelled like that, where each entry closes its chunk.
fn file_of(alloc: Global, map: &[u8]) -> Result<Vec<u8>, Fail> {
    file_cut(alloc, 0, Version::One, map)
}

/// The chunk file of a map, by the builder that works in one thread.
fn file_cut(alloc: Global, bits: u8, version: Version, map: &[u8]) -> Result<Vec<u8>, Fail> {
    let Some(cut) = Sha512Cut::new(bits) else {
        return Err("bits".into());
    };
    let pairs = pairs_of(alloc, map)?;
    let mut file = Vec::new(alloc);
    scratch_as(alloc, cut, version, &pairs, 12, &mut file)?;
    Ok(file)
}

/// Builds from these sources, and fails unless there is this fault, or none, the sources are still
/// there, and the sink has taken these bytes. Answers the report, which there is without a fault.
fn expect_build<R: Wait + Threads + Sync + Abort, G: Gate>(
    rt: &R,
    alloc: Global,
    config: &Config,
    gate: &G,
    sources: &mut Vec<ScriptSource>,
    mut sink: ScriptSink,
    fault: Option<RunFault>,
    bytes: &[u8],
) -> Option<Report> {
    let count = sources.len();
    let built = build(rt, alloc, config, sources, &mut sink, gate);
    let outcome = (built.err(), sources.len(), sink.taken());
    expect_outcome(rt, outcome, (fault, count, bytes));
    built.ok()
}

/// The same where all workers go on, and nothing is asked of the report.
fn expect_taken<R: Wait + Threads + Sync + Abort>(
    rt: &R,
    alloc: Global,
    config: &Config,
    mut sources: Vec<ScriptSource>,
    sink: ScriptSink,
    fault: Option<RunFault>,
    bytes: &[u8],
) {
    expect_build(
        rt,
        alloc,
        config,
        &OpenGate,
        &mut sources,
        sink,
        fault,
        bytes,
    );
}

/// Builds from record files, and compares the chunk file with this one.
fn expect_file<R: Wait + Threads + Sync + Abort, G: Gate>(
    rt: &R,
    alloc: Global,
    config: &Config,
    gate: &G,
    files: &[&[u8]],
    file: &[u8],
) -> Result<Report, Fail> {
    let mut sources = sources_of(alloc, files)?;
    let sink = open_sink(alloc);
    let Some(report) = expect_build(rt, alloc, config, gate, &mut sources, sink, None, file) else {
        return Err("no report".into());
    };
    Ok(report)
}
