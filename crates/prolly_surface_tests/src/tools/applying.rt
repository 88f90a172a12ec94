//! Changes over an old tree, by `prolly_tool`.
use prolly_entry::Ref;
use prolly_file::{Header, Sink, Source};
use prolly_link::RunFault;
use prolly_root::{ReadAhead, RootFault};
use prolly_stage::Gate;
use prolly_tool::{
    Answer, AppliedChanges, ApplyFault, CHANGES_LIMIT, Config, FILES_LIMIT, Fault, Permit, Report,
    agreed_header, answer_apply, apply_changes, apply_changes_with,
};
use std::alloc::{AllocError, Global};
use std::sync::Wait;
use std::thread::Threads;

fn applied<
    R: Wait + Threads + Sync,
    D: ReadAhead + Send + Drop,
    S: Source + Send + Drop,
    W: Sink,
    G: Gate,
>(
    rt: &R,
    alloc: Global,
    config: &Config,
    root: &Ref,
    old: D,
    sources: &mut Vec<S>,
    sink: &mut W,
    gate: &G,
) -> AppliedChanges<D>
where
    D::Place: Send,
{
    apply_changes(rt, alloc, config, root, old, sources, sink, gate)
}

fn applied_with<
    R: Wait + Threads + Sync,
    D: ReadAhead + Send + Drop,
    S: Source + Send + Drop,
    W: Sink,
    G: Gate,
    P: Permit,
>(
    rt: &R,
    alloc: Global,
    config: &Config,
    root: &Ref,
    old: D,
    sources: &mut Vec<S>,
    sink: &mut W,
    gate: &G,
    permit: &P,
) -> AppliedChanges<D>
where
    D::Place: Send,
{
    apply_changes_with(rt, alloc, config, root, old, sources, sink, gate, permit)
}

fn told(alloc: Global, applied: &Result<Report, ApplyFault>) -> Result<Answer, AllocError> {
    answer_apply(alloc, applied)
}

fn given_back<D: Drop>(applied: AppliedChanges<D>) -> (Result<Report, ApplyFault>, Option<D>) {
    let AppliedChanges { answer, source } = applied;
    (answer, source)
}

fn agreed(named: Result<Header, RootFault>) -> Result<Header, Fault> {
    agreed_header(named, Some(12), None)
}

fn run_fault(fault: ApplyFault) -> Option<RunFault> {
    match fault {
        ApplyFault::Run(fault) => Some(fault),
        ApplyFault::Old(_) | ApplyFault::WrongBits => None,
    }
}

#[test]
fn so_many_files_are_taken(rt: HostRuntime) {
    assert!(rt; FILES_LIMIT == 16 && CHANGES_LIMIT == 15);
    assert!(rt; run_fault(ApplyFault::WrongBits).is_none());
}
