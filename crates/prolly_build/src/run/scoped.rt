//! A run of all workers, from the scope of their threads down.
ghost use Rattle.std.specs.Prelude.{◌≡◌, ◌<◌, ◌≤◌, [], vec_len, IfOk};
ghost use Rattle.prolly_build.specs.Base.{GoesOver, IsBase};
ghost use Rattle.prolly_build.specs.RecordLinks.{IsFed};
ghost use Rattle.prolly_build.specs.RunResult.{HandsOn};
ghost use Rattle.prolly_build.specs.Stages.{HasRun};

use crate::end::Halt;
use crate::links::{NewLink, StageLinks};
use crate::run::base::{Base, RunResult};
use crate::run::stages::run_from_top;
use crate::start::{Context, Input, Job, Lent, Permit, Runtime};
use prolly_chunk::ChunkEvent;
use prolly_io::Sink;
use prolly_stage::Gate;
use std::thread;
use std::thread::Scope;

/// Runs all workers in this scope, and the writer on this thread.
fn run_in<
    's,
    E,
    R: Runtime,
    G: Gate,
    P: Permit,
    T: Send + Drop + 's,
    D: Send + Drop + 's,
    N: Send + Drop + 's,
    L: Job<Item = ChunkEvent, Done = D> + Send + Drop + 's,
    M: Job<Item = T, Done = N> + Send + Drop + 's,
    S: Input + 's,
    W: Sink,
>(
    scope: &'s Scope<'s, E>,
    lent: &Lent<'s, '_, R, G, P>,
    links: StageLinks,
    base: Base<L, M, T>,
    sources: &mut Vec<S>,
    sink: &mut W,
) -> Result<RunResult<D, N, T>, Halt>
    requires levels { vec_len links.events < 12 }
    requires files { (base.feed.files ≡ vec_len sources.old) × (vec_len sources.old ≤ 16) }
    requires leaves { L.IsReady base.leaves }
    requires over { GoesOver (L.Gives base.leaves) }
    requires middle { M.IsReady base.middle }
    requires unsent { base.out.items ≡ [] }
    ensures link { IfOk result (λ ran. ran.out.link ≡ ran.base.wrote.last.link) }
    ensures hands_on { HandsOn lent.now.config links.last.receiver
        (W.seen sink.old) (W.seen sink.new) (sink.new ≡ sink.old) result (λ ran. ran.base.wrote) }
    ensures run { IfOk result (λ ran. HasRun (IsBase (L.Gives base.leaves)
        (M.Gives base.middle base.out.link) (IsFed S.seen lent.now.config.max_records
        sources.old.items sources.new.items base.feed.outs.items) ran.base.leaves ran.base.middle
        ran.base.sent ran.base.closed.items) lent.now.config (vec_len links.events) ran.out.items
        ran.out.end) }
{
    let StageLinks { last, events } = links;
    let NewLink { sender, receiver } = last;
    let site = Context {
        scope,
        rt: lent.rt,
        alloc: lent.alloc,
        gate: lent.gate,
        permit: lent.permit,
        config: lent.config,
    };
    run_from_top(&site, events, base, sender, sources, receiver, sink)
}

/// Runs all workers over these links, and the writer on this thread, until all of them have ended.
/// It gives the sources back.
pub(crate) fn run_scoped<
    R: Runtime,
    G: Gate,
    P: Permit,
    T: Send + Drop,
    D: Send + Drop,
    N: Send + Drop,
    L: Job<Item = ChunkEvent, Done = D> + Send + Drop,
    M: Job<Item = T, Done = N> + Send + Drop,
    S: Input,
    W: Sink,
>(
    lent: &Lent<'_, '_, R, G, P>,
    links: StageLinks,
    base: Base<L, M, T>,
    mut sources: Vec<S>,
    sink: &mut W,
) -> (Result<RunResult<D, N, T>, Halt>, Vec<S>)
    requires levels { vec_len links.events < 12 }
    requires files { (base.feed.files ≡ vec_len sources) × (vec_len sources ≤ 16) }
    requires leaves { L.IsReady base.leaves }
    requires over { GoesOver (L.Gives base.leaves) }
    requires middle { M.IsReady base.middle }
    requires unsent { base.out.items ≡ [] }
    ensures link { IfOk result.0 (λ ran. ran.out.link ≡ ran.base.wrote.last.link) }
    ensures hands_on { HandsOn lent.now.config links.last.receiver
        (W.seen sink.old) (W.seen sink.new) (sink.new ≡ sink.old) result.0 (λ ran. ran.base.wrote) }
    ensures run { IfOk result.0 (λ ran. HasRun (IsBase (L.Gives base.leaves)
        (M.Gives base.middle base.out.link) (IsFed S.seen lent.now.config.max_records
        sources.items result.1.items base.feed.outs.items) ran.base.leaves ran.base.middle
        ran.base.sent ran.base.closed.items) lent.now.config (vec_len links.events) ran.out.items
        ran.out.end) }
{
    let (ran, sources, _sink) = thread::scope(
        thread::scope_env(),
        lent.rt,
        move |scope| -> (Result<RunResult<D, N, T>, Halt>, Vec<S>, &mut W)
            requires levels { vec_len links.events < 12 }
            requires files { (base.feed.files ≡ vec_len sources) × (vec_len sources ≤ 16) }
            requires leaves { L.IsReady base.leaves }
            requires over { GoesOver (L.Gives base.leaves) }
            requires middle { M.IsReady base.middle }
            requires unsent { base.out.items ≡ [] }
            ensures link { IfOk result.0 (λ ran. ran.out.link ≡ ran.base.wrote.last.link) }
            ensures hands_on { HandsOn lent.entry.now.config links.last.receiver
                (W.seen sink.entry.now) (W.seen result.2.now)
                (result.2.now ≡ sink.entry.now) result.0 (λ ran. ran.base.wrote) }
            ensures run { IfOk result.0 (λ ran. HasRun (IsBase (L.Gives base.leaves)
                (M.Gives base.middle base.out.link) (IsFed S.seen lent.entry.now.config.max_records
                sources.items result.1.items base.feed.outs.items) ran.base.leaves
                ran.base.middle ran.base.sent ran.base.closed.items) lent.entry.now.config
                (vec_len links.events) ran.out.items ran.out.end) }
            ensures same { result.2.ghost_name ≡ sink.entry.ghost_name }
        {
            let ran = run_in(scope, lent, links, base, &mut sources, &mut *sink);
            (ran, sources, sink)
        },
    );
    (ran, sources)
}
