//! The loaders of all files, and the writer below them.
ghost use Rattle.std.specs.Prelude.{◌≡◌, ◌+◌, ◌<◌, ◌≤◌, [], All, vec_len, vec_capacity, OnOk};
ghost use Rattle.prolly_build.specs.RunResult.{HandsOn, IsUnsent, AreLoaded};

use crate::end::{Halt, close_all, refuse};
use crate::run::lists::{pop_first, push_first};
use crate::run::writer::{WriterResult, write_chunks};
use crate::start::{Context, Input, Load, Permit, Runtime};
use prolly_chunk::ChunkEvent;
use prolly_entry::Record;
use prolly_io::Sink;
use prolly_link::{BatchReceiver, BatchSender, ClosedBatch};
use prolly_stage::Gate;

/// Starts a loader for each source, from file number `file` on, then writes, and joins them.
pub(crate) fn load_all<'s, E, R: Runtime, G: Gate, P: Permit, S: Input + 's, W: Sink>(
    site: &Context<'s, '_, E, R, G, P>,
    file: u32,
    mut outs: Vec<BatchSender<Record>>,
    sources: &mut Vec<S>,
    closed: &mut Vec<ClosedBatch<Record>>,
    last: BatchReceiver<ChunkEvent>,
    sink: &mut W,
) -> Result<WriterResult, Halt>
    requires numbers { file + vec_len outs ≤ 16 }
    requires each { vec_len outs ≡ vec_len sources.old }
    requires room { (closed.old.items ≡ []) × (vec_len outs ≤ vec_capacity closed.old) }
    requires unsent { All IsUnsent outs.items }
    requires unread { last.items ≡ [] }
    ensures hands_on { HandsOn site.now.config last
        (W.seen sink.old) (W.seen sink.new) (sink.new ≡ sink.old) result (λ wrote. wrote) }
    ensures loaded { OnOk result (AreLoaded S.seen site.now.config.max_records file
        sources.old.items outs.items sources.new.items closed.new.items) }
    ensures fewer { (vec_len sources.new ≤ vec_len sources.old) ×
        (vec_capacity sources.old ≤ vec_capacity sources.new) }
    ensures filled { (vec_len closed.new ≤ vec_len closed.old + vec_len outs) ×
        (vec_capacity closed.old ≤ vec_capacity closed.new) }
{
    let Some(out) = pop_first(&mut outs) else {
        return Ok(write_chunks(site.rt, site.config, last, sink));
    };
    let Some(source) = pop_first(sources) else {
        unreachable!()
    };
    let limit = site.config.max_records();
    let job = Load {
        file,
        limit,
        source,
    };
    let Some(handle) = site.start(job, out) else {
        close_all(site.rt, outs);
        return Err(refuse(site.rt, (), last));
    };
    let wrote = load_all(site, file + 1, outs, sources, closed, last, sink);
    let (source, out) = handle.join(site.rt);
    push_first(sources, source);
    push_first(closed, out);
    wrote
}
