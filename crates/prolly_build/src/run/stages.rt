//! The stages of nodes, one above the other, and all workers below them.
ghost use Rattle.std.specs.Prelude.{◌≡◌, ◌<◌, ◌≤◌, [], vec_len, IfOk, IfErr, OnOk};
ghost use Rattle.prolly_link.specs.Progress.{HasEnded};
ghost use Rattle.prolly_link.specs.declared.message.Progress.TheVariants.{Ended};
ghost use Rattle.prolly_build.specs.Base.{GoesOver, IsBase};
ghost use Rattle.prolly_build.specs.RecordLinks.{IsFed};
ghost use Rattle.prolly_build.specs.RunResult.{HandsOn};
ghost use Rattle.prolly_build.specs.Stages.{HasRun};
ghost use Rattle.prolly_build.specs.declared.end.Halt.TheVariants.{Lost};

use crate::end::{Halt, refuse};
use crate::links::{NewLink, meet_link};
use crate::run::base::{Base, RunResult, run_base};
use crate::start::{Context, CutNodes, Input, Job, Permit, Runtime};
use prolly_chunk::ChunkEvent;
use prolly_io::Sink;
use prolly_link::{BatchReceiver, BatchSender, ClosedBatch};
use prolly_stage::Gate;
use std::sync::Wait;

/// Starts a stage of nodes for each link, the highest one first, then all workers below them,
/// writes, joins the stages, and meets the links into them. The output is that of the highest
/// stage, whose level is the number of the links.
pub(crate) fn run_from_top<
    's,
    E,
    R: Runtime,
    G: Gate,
    P: Permit,
    T: Send + Drop + 's,
    D: Send + Drop + 's,
    N: Send + Drop + 's,
    L: Job<Item = ChunkEvent, Done = D> + Send + Drop + 's,
    M: Job<Item = T, Done = N> + Send + Drop + 's,
    S: Input + 's,
    W: Sink,
>(
    site: &Context<'s, '_, E, R, G, P>,
    mut events: Vec<NewLink<ChunkEvent>>,
    base: Base<L, M, T>,
    out: BatchSender<ChunkEvent>,
    sources: &mut Vec<S>,
    last: BatchReceiver<ChunkEvent>,
    sink: &mut W,
) -> Result<RunResult<D, N, T>, Halt>
    requires levels { vec_len events < 12 }
    requires files { (base.feed.files ≡ vec_len sources.old) × (vec_len sources.old ≤ 16) }
    requires leaves { L.IsReady base.leaves }
    requires over { GoesOver (L.Gives base.leaves) }
    requires middle { M.IsReady base.middle }
    requires unsent { (base.out.items ≡ []) × (out.items ≡ []) }
    requires unread { last.items ≡ [] }
    ensures link { IfOk result (λ ran. ran.out.link ≡ out.link) }
    ensures hands_on { HandsOn site.now.config last
        (W.seen sink.old) (W.seen sink.new) (sink.new ≡ sink.old) result (λ ran. ran.base.wrote) }
    ensures run { IfOk result (λ ran. HasRun (IsBase (L.Gives base.leaves)
        (M.Gives base.middle base.out.link) (IsFed S.seen site.now.config.max_records
        sources.old.items sources.new.items base.feed.outs.items) ran.base.leaves ran.base.middle
        ran.base.sent ran.base.closed.items) site.now.config (vec_len events) ran.out.items
        ran.out.end) }
{
    let Some(link) = events.pop() else {
        return run_base(site, base, out, sources, last, sink);
    };
    let level = events.len() as u8 + 1;
    let NewLink { sender, receiver } = link;
    let job = CutNodes {
        level,
        cut: site.config.cut(),
        version: site.config.version(),
        chunks: receiver,
    };
    let Some(handle) = site.start(job, out) else {
        return Err(refuse(site.rt, (events, base, sender), last));
    };
    let ran = run_from_top(site, events, base, sender, sources, last, sink);
    let (input, out) = handle.join(site.rt);
    ran?.up_to_stage(site.rt, input, out)
}

impl<D: Drop, N: Drop, T: Drop> RunResult<D, N, T> {
    /// The result up to the stage above, which gave these ends back: meets the link into it.
    fn up_to_stage<R: Wait>(
        self,
        rt: &R,
        input: BatchReceiver<ChunkEvent>,
        out: ClosedBatch<ChunkEvent>,
    ) -> Result<RunResult<D, N, T>, Halt>
        requires { self.out.link ≡ input.link }
        ensures ran { IfOk result (λ ran. ran ≡ record { out = out; base = self.base }) }
        ensures met { OnOk result (HasEnded input.progress → (input.items ≡ self.out.items) ×
            (input.progress ≡ Ended self.out.end)) }
        ensures lost { IfErr result (λ halt. halt ≡ Lost) }
    {
        let RunResult { out: sent, base } = self;
        meet_link(rt, sent, input)?;
        Ok(RunResult { out, base })
    }
}
