//! The record files that become a tree.
use prolly_fault::Fault;
use prolly_files::{Found, InputName, Output, OutputKind, Refusal, Target};
use prolly_io::FromRead;
use prolly_line::WriteMode;
use prolly_link::RunFault;
use prolly_progress::{CountedSource, Counts};
use prolly_runs::HeldBack;
use std::alloc::AllocError;
use std::fs::File;

/// Record files that are open, whose bytes are counted as they are read.
#[derive(Drop)]
pub struct RecordFiles<'a> {
    pub sources: Vec<CountedSource<'a, FromRead<File>>>,
    /// How many bytes they have, where that is known.
    pub size: Option<u64>,
}

impl<'a> RecordFiles<'a> {
    /// The files of these names, where none is the output and no pipe is named twice.
    pub fn open(
        rt: &HostRuntime,
        names: &[InputName<'_>],
        output: Found,
        counts: &'a Counts,
    ) -> Result<RecordFiles<'a>, Refusal> {
        let mut size = Some(0);
        let mut found = Vec::with_capacity(rt.alloc(), names.len())?;
        let mut sources = Vec::with_capacity(rt.alloc(), names.len())?;
        for name in names {
            name.refuse_read_twice(rt, &found)?;
            found.push(name.found())?;
            let input = name.open_beside(rt, output)?;
            size = sum_of(size, input.size());
            sources.push(CountedSource::new(input.into_source(), counts))?;
        }
        Ok(RecordFiles { sources, size })
    }
}

/// Looks at what these names lead to, before any file is opened.
pub fn look_at_all<'a>(
    rt: &HostRuntime,
    names: &'a [String],
) -> Result<Vec<InputName<'a>>, AllocError> {
    let mut inputs = Vec::with_capacity(rt.alloc(), names.len())?;
    for name in names {
        inputs.push(InputName::look(rt, name)?)?;
    }
    Ok(inputs)
}

/// The sum of two sizes, where both are known.
fn sum_of(first: Option<u64>, second: Option<u64>) -> Option<u64> {
    first?.checked_add(second?)
}

/// The chunk file of this name, which is to be written of these record files. More of them than the
/// limit are refused, and where there are none, so is an output that holds something.
pub fn target_of<'a>(
    rt: &HostRuntime,
    files: &[String],
    limit: usize,
    out: &'a str,
    mode: WriteMode,
) -> Result<Target<'a>, Refusal> {
    if files.len() > limit {
        return Err(Refusal::of_fault(rt, Fault::Run(RunFault::TooManyFiles)));
    }
    let target = Target::look(rt, out, OutputKind::ChunkFile, mode);
    if files.is_empty() {
        target.refuse_full(rt)?;
    }
    Ok(target)
}

/// What becomes of what is not written yet where a run into the output ends with a fault. It is lost
/// where the output held bytes: these may be there still.
pub fn held_back_by(output: &Output<'_>) -> HeldBack {
    if output.held_bytes() {
        HeldBack::Lost
    } else {
        HeldBack::Written
    }
}
