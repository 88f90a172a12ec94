//! What the command `build` prints.
ghost use Rattle.std.specs.Prelude.{◌≡◌, IfOk};
ghost use Rattle.prolly_runs.specs.Build.{report_text, ShowsBuild};

use prolly_fault::{Answer, append_number};
use prolly_link::RunFault;
use prolly_report::Report;
use std::alloc::{AllocError, Global};

/// What `build` answers: one line with the text of the root and the numbers of chunks, pairs and
/// levels, or the line of the fault. An `Err` is want of memory for that text.
pub fn answer_build(alloc: Global, built: &Result<Report, RunFault>) -> Result<Answer, AllocError>
    ensures { IfOk result (λ answer. ShowsBuild answer built.now) }
{
    match built {
        Ok(report) => {
            let line = line_of(alloc, report)?;
            Answer::of_line(alloc, &line)
        }
        Err(fault) => Answer::of_fault(alloc, (*fault).into()),
    }
}

/// The line of a report, without its end.
pub(crate) fn line_of(alloc: Global, report: &Report) -> Result<Vec<u8>, AllocError>
    ensures { IfOk result (λ line. line.items ≡ report_text report.now) }
{
    let mut line = Vec::new(alloc);
    line.extend_from_slice(&report.root.to_text())?;
    append_number(alloc, &mut line, report.chunks)?;
    append_number(alloc, &mut line, report.pairs)?;
    append_number(alloc, &mut line, u64::from(report.levels))?;
    Ok(line)
}
