//! The end of a run over an old tree: its answer, and the source that is given back.
ghost use Rattle.std.specs.Prelude.{◌≡◌, ◌-◌, Some};
ghost use Rattle.prolly_io.specs.Sink.{SinkView};
ghost use Rattle.prolly_link.specs.Progress.{end_given, HasEnded};
ghost use Rattle.prolly_tree.specs.File.{header};
ghost use Rattle.prolly_build.specs.Applied.{IsTold};
ghost use Rattle.prolly_build.specs.Config.{AreLawful};
ghost use Rattle.prolly_build.specs.OldBase.{IsChangesLink, senders_of};
ghost use Rattle.prolly_build.specs.OldEnd.{IsOldEnded, TellsOf};
ghost use Rattle.prolly_build.specs.WriterState.{HasWritten};

use crate::config::Config;
use crate::end::finish;
use crate::run::{BaseResult, RunResult, meet_old};
use crate::start::{AppliedEnds, OldRead};
use prolly_apply::{OLD_TREE, OldLeaf};
use prolly_entry::Record;
use prolly_io::Sink;
use prolly_link::{ClosedBatch, RunFault};
use prolly_report::{ApplyFault, Report};
use prolly_root::RootFault;
use std::sync::Wait;

/// What laying changes over an old tree gives back.
#[derive(Drop)]
pub struct AppliedChanges<D> {
    /// The report of the new tree, or why there is none.
    pub answer: Result<Report, ApplyFault>,
    /// The source of the old tree, as its loader left it. After `Run(NoThread)` and `Run(Lost)` it
    /// may be gone.
    pub source: Option<D>,
}

/// What is told of a fault of a run, where the old tree was refused or not, and its loader had this
/// fault. `NoThread` and `TooManyFiles` never come from a worker, nor a fault of the old tree without
/// one of its loader. If one does, the answer is `Lost`.
fn told_fault(fault: RunFault, refused: bool, old: Option<RootFault>) -> ApplyFault
    ensures { IsTold fault refused old result }
{
    match fault {
        RunFault::Read { file } => {
            if file != OLD_TREE {
                return ApplyFault::Run(fault);
            }
            if refused {
                return ApplyFault::WrongBits;
            }
            match old {
                Some(old) => ApplyFault::Old(old),
                None => ApplyFault::Run(RunFault::Lost),
            }
        }
        RunFault::NoThread | RunFault::TooManyFiles => ApplyFault::Run(RunFault::Lost),
        _ => ApplyFault::Run(fault),
    }
}

/// What is told where the workers and the writer have made this of a run.
fn told_answer(
    run: Result<Report, RunFault>,
    refused: bool,
    old: Option<RootFault>,
) -> Result<Report, ApplyFault>
    ensures { TellsOf refused old run result }
{
    match run {
        Ok(report) => Ok(report),
        Err(fault) => Err(told_fault(fault, refused, old)),
    }
}

/// Meets the links into the stage of the leaves, and ends the file.
pub(crate) fn end_old<R: Wait, D: Drop, W: Sink>(
    rt: &R,
    config: Config,
    ran: RunResult<AppliedEnds, OldRead<D>, OldLeaf>,
    idle: Option<ClosedBatch<Record>>,
    sink: &mut W,
) -> AppliedChanges<D>
    requires lawful { AreLawful config }
    requires link { ran.out.link ≡ ran.base.wrote.last.link }
    requires ended { HasEnded ran.base.wrote.last.progress }
    requires end { ran.base.wrote.end ≡ end_given ran.base.wrote.last.progress }
    requires leaves { ran.base.sent.link ≡ ran.base.leaves.old.link }
    requires changes { IsChangesLink (senders_of ran.base.closed.items idle)
        ran.base.leaves.changes.link }
    ensures ended { (old : SinkView) →
        HasWritten (header config.version config.bits) (config.stages - 1)
        ran.base.wrote.last.items old (W.seen sink.old) ran.base.wrote.written →
        IsOldEnded config ran.base.leaves.old ran.base.leaves.changes ran.base.leaves.refused
        ran.base.middle.fault ran.base.sent (senders_of ran.base.closed.items idle) ran.out old
        (W.seen sink.new) result.answer }
    ensures source { result.source ≡ Some ran.base.middle.source }
{
    let RunResult { out, base } = ran;
    let BaseResult {
        leaves,
        middle,
        sent,
        closed,
        wrote,
    } = base;
    let OldRead { source, fault } = middle;
    let refused = leaves.refused;
    if let Err(halt) = meet_old(rt, leaves, sent, closed, idle) {
        return AppliedChanges {
            answer: Err(ApplyFault::Run(halt.fault())),
            source: Some(source),
        };
    }
    let run = finish(rt, config, out, wrote, sink);
    AppliedChanges {
        answer: told_answer(run, refused, fault),
        source: Some(source),
    }
}
