//! What `prolly_tool` answers of chunk files that are checked first.
use prolly_check::OneThread;
use prolly_file::{Sink, Source};
use prolly_range::KeySet;
use prolly_tool::{
    Answer, INPUT_LIMIT, Notation, RecordForm, StatForm, Stated, answer_check_by, answer_diff,
    answer_dump, answer_get_in, answer_get_keys, answer_get_raw, answer_nth_in, answer_prove,
    answer_prove_set, answer_scan_in, answer_stat, status_behind,
};
use std::alloc::{AllocError, Global};

fn checked<S: Source>(alloc: Global, source: &mut S, status: u8) -> Result<u8, AllocError> {
    let answer = answer_check_by(&OneThread, alloc, source)?;
    Ok(status_behind(status, &answer))
}

fn looked_up<S: Source>(alloc: Global, source: &mut S) -> Result<Answer, AllocError> {
    answer_get_in(&OneThread, alloc, source, b"a", Notation::Hex)?;
    answer_get_raw(&OneThread, alloc, source, b"a")?;
    answer_scan_in(&OneThread, alloc, source, b"a", 1, Notation::Hex)?;
    answer_nth_in(&OneThread, alloc, source, 0, Notation::Text)
}

fn written<S: Source, W: Sink>(
    alloc: Global,
    source: &mut S,
    keys: &[Vec<u8>],
    sink: &mut W,
) -> Result<Answer, AllocError> {
    answer_get_keys(&OneThread, alloc, source, keys, Notation::Hex, sink)?;
    answer_dump(&OneThread, alloc, source, RecordForm::Records, sink)
}

fn proved<S: Source, W: Sink>(
    alloc: Global,
    source: &mut S,
    set: KeySet<'_>,
    sink: &mut W,
) -> Result<Answer, AllocError> {
    answer_prove(&OneThread, alloc, source, b"a", sink)?;
    answer_prove_set(&OneThread, alloc, source, set, sink)
}

fn changes<S: Source, T: Source, W: Sink>(
    alloc: Global,
    old: &mut S,
    new: &mut T,
    sink: &mut W,
) -> Result<Answer, AllocError> {
    let form = Some(RecordForm::Lines(Notation::Hex));
    answer_diff(&OneThread, alloc, old, new, form, false, sink)
}

fn numbers<S: Source>(alloc: Global, source: S, is_json: bool) -> Stated<S> {
    let form = if is_json {
        StatForm::Json
    } else {
        StatForm::Lines(Notation::Hex)
    };
    let Stated { source, answer } = answer_stat(&OneThread, alloc, source, form);
    Stated { source, answer }
}

#[test]
fn a_file_has_at_most_a_gibibyte(rt: HostRuntime) {
    assert!(rt; INPUT_LIMIT == 1 << 30);
}
