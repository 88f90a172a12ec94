//! What the command `apply` prints, and what it asks of the old file's header.
ghost use Rattle.std.specs.Prelude.{◌≡◌, Ok, IfErr, IfOk};
ghost use Rattle.prolly_runs.specs.Apply.{AgreesWith, IsRefusedHeader, ShowsApply};

use crate::built::line_of;
use prolly_entry::Version;
use prolly_fault::{Answer, Fault};
use prolly_io::Header;
use prolly_report::{ApplyFault, Report};
use prolly_root::RootFault;
use std::alloc::{AllocError, Global};

/// The header of the old file, which says by which bits, and in which version, the next tree is
/// made: those that are given, where some are.
pub fn agreed_header(
    named: Result<Header, RootFault>,
    bits: Option<u8>,
    version: Option<Version>,
) -> Result<Header, Fault>
    ensures ok { IfOk result (λ header. (named ≡ Ok header) × AgreesWith bits version header) }
    ensures err { IfErr result (IsRefusedHeader bits version named) }
{
    let header = named.map_err(Fault::RootOld)?;
    if bits.is_some_and(|bits| bits != header.bits) {
        return Err(Fault::OtherHeader);
    }
    if version.is_some_and(|version| version != header.version) {
        return Err(Fault::OtherHeader);
    }
    Ok(header)
}

/// What `apply` answers: the line that `build` prints, or that of the fault. A fault of the old tree
/// is told as that of the old file. An `Err` is want of memory for that text.
pub fn answer_apply(
    alloc: Global,
    applied: &Result<Report, ApplyFault>,
) -> Result<Answer, AllocError>
    ensures { IfOk result (λ answer. ShowsApply answer applied.now) }
{
    match applied {
        Ok(report) => {
            let line = line_of(alloc, report)?;
            Answer::of_line(alloc, &line)
        }
        Err(ApplyFault::Run(fault)) => Answer::of_fault(alloc, (*fault).into()),
        Err(ApplyFault::Old(fault)) => Answer::of_fault(alloc, Fault::RootOld(*fault)),
        Err(ApplyFault::WrongBits) => Answer::of_fault(alloc, Fault::WrongBits),
    }
}
