//! What `build` and `apply` answer over files that are open: a run into a sink, what becomes of the
//! sink behind it, and what is told of both.
ghost use Rattle.std.specs.Prelude.{vec_len};
ghost use Rattle.prolly_runs.specs.Runs.{AnswersApply, AnswersBuild, IsToldBehind};

use crate::applied::answer_apply;
use crate::held_back::HeldBack;
use prolly_build::{ApplyFault, Config, Report, apply_changes, build};
use prolly_entry::Ref;
use prolly_fault::Answer;
use prolly_io::{Sink, Source};
use prolly_link::RunFault;
use prolly_root::ReadAhead;
use prolly_stage::Gate;
use std::alloc::{AllocError, Global};
use std::sync::Wait;
use std::thread::Threads;

/// What `build` answers over record files that are open. It [builds](build) their tree into the sink,
/// and flushes that; after a fault only where `held_back` says so. A flush that fails is told in place
/// of a tree that was made, or that is too tall; any other fault is told as it is. An `Err` is want of
/// memory for the line that is to be shown.
pub fn answer_build_into<R: Wait + Threads + Sync, S: Source + Send + Drop, W: Sink, G: Gate>(
    rt: &R,
    alloc: Global,
    config: &Config,
    sources: &mut Vec<S>,
    sink: &mut W,
    gate: &G,
    held_back: HeldBack,
) -> Result<Answer, AllocError>
    ensures { AnswersBuild S.seen W.seen config.now held_back (vec_len sources.old) sources.old.items
        sources.new.items sink.old sink.new result }
{
    let built = build(rt, alloc, config, sources, sink, gate);
    let told = flush_behind(sink, built.map_err(ApplyFault::Run), held_back);
    answer_apply(alloc, &told)
}

/// What `apply` answers over an old tree and files of changes that are open. It
/// [applies](apply_changes) these to the tree of the root, into the sink. What it does then is what
/// [`answer_build_into`] does.
pub fn answer_apply_into<
    R: Wait + Threads + Sync,
    D: ReadAhead + Send + Drop,
    S: Source + Send + Drop,
    W: Sink,
    G: Gate,
>(
    rt: &R,
    alloc: Global,
    config: &Config,
    root: &Ref,
    old: D,
    sources: &mut Vec<S>,
    sink: &mut W,
    gate: &G,
    held_back: HeldBack,
) -> Result<Answer, AllocError>
where
    D::Place: Send,
    ensures { AnswersApply S.seen W.seen D.goes_over D.failures config.now held_back
        root.now.0 old (vec_len sources.old) sources.old.items sources.new.items sink.old sink.new
        result }
{
    let applied = apply_changes(rt, alloc, config, root, old, sources, sink, gate);
    let told = flush_behind(sink, applied.answer, held_back);
    answer_apply(alloc, &told)
}

/// Flushes the sink behind a run, or leaves it alone, and gives what is told of both. The outcome of a
/// build is given as that of an `apply`.
fn flush_behind<W: Sink>(
    sink: &mut W,
    outcome: Result<Report, ApplyFault>,
    held_back: HeldBack,
) -> Result<Report, ApplyFault>
    ensures { IsToldBehind W.seen held_back sink.old sink.new outcome result }
{
    if outcome.is_err() && held_back == HeldBack::Lost {
        return outcome;
    }
    match (outcome, sink.flush()) {
        (Ok(_) | Err(ApplyFault::Run(RunFault::TooTall)), Err(_)) => {
            Err(ApplyFault::Run(RunFault::Write))
        }
        (outcome, _) => outcome,
    }
}
