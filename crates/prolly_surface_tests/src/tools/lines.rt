//! Lines of `prolly_tool`: records, keys, and what is told of them.
use prolly_file::{Sink, Source, SourceFault};
use prolly_sort::RunStore;
use prolly_tool::{
    Answer, ChosenBits, Fault, KeysFault, LineForm, LinesFault, Notation, OutputFault, PackFault,
    Sample, SortedPack, answer_explain, answer_explain_lines, answer_pack_in, answer_pack_sorted,
    bits_note, keys_of_lines, pack_lines_in, read_keys,
};
use std::alloc::{AllocError, Global};
use std::sync::Wait;
use std::test::Fail;

const FORM: LineForm = LineForm {
    notation: Notation::Text,
    removals: true,
};

fn packed<S: Source, W: Sink>(
    alloc: Global,
    source: &mut S,
    sink: &mut W,
) -> Result<Answer, AllocError> {
    answer_pack_in(alloc, source, sink, FORM)
}

fn sorted<S: Source, T: RunStore<W, B>, W: Sink + Drop, B: Source + Drop, R: Wait>(
    rt: &R,
    alloc: Global,
    source: &mut S,
    store: &mut T,
) -> Result<(Answer, Option<W>), AllocError> {
    let SortedPack { answer, file } = answer_pack_sorted(
        rt, alloc, source, store, FORM, 1_000_000, true,
    )?;
    Ok((answer, file))
}

fn explained<S: Source>(alloc: Global, source: &mut S) -> Result<Answer, AllocError> {
    answer_explain(alloc, source, Notation::Hex)?;
    answer_explain_lines(alloc, source, FORM, true)
}

fn sampled<S: Source>(
    alloc: Global,
    source: &mut S,
) -> Result<Result<Vec<u8>, SourceFault>, AllocError> {
    let mut sample = Sample::new();
    let front = sample.read(alloc, source)?;
    if let Some(ChosenBits { bits, mean }) = sample.bits_for(4_096) {
        bits_note(alloc, 12, Some(ChosenBits { bits, mean }))?;
    }
    Ok(front)
}

fn peeked<S: Source + Drop>(alloc: Global, source: S) -> Result<bool, AllocError> {
    let mut sample = Sample::new();
    let Ok(whole) = sample.peek(alloc, source)? else {
        return Ok(false);
    };
    let mut wholes = Vec::new(alloc);
    wholes.push(whole)?;
    Ok(sample.peek_all(alloc, wholes)?.is_ok())
}

fn keys<S: Source>(alloc: Global, source: &mut S) -> Result<Vec<Vec<u8>>, Fault> {
    read_keys(alloc, Notation::Hex, source)
}

fn line_of_key(fault: KeysFault) -> Option<u64> {
    match fault {
        KeysFault::Memory | KeysFault::ByteOrderMark => None,
        KeysFault::BadLine { line }
        | KeysFault::BadText { line }
        | KeysFault::KeyTooLong { line }
        | KeysFault::NotRising { line } => Some(line),
    }
}

fn line_of_text(fault: LinesFault) -> Option<u64> {
    match fault {
        LinesFault::Pack(PackFault::Memory) | LinesFault::ByteOrderMark => None,
        LinesFault::Pack(
            PackFault::BadLine { line }
            | PackFault::KeyTooLong { line }
            | PackFault::ValueTooLong { line },
        )
        | LinesFault::BadText { line } => Some(line),
    }
}

fn fault_of(fault: OutputFault) -> Fault {
    match fault {
        OutputFault::Memory => Fault::Memory,
        OutputFault::Write => Fault::Write,
    }
}

#[test]
fn lines_are_named_as_ever(rt: HostRuntime) -> Result<(), Fail> {
    let alloc = rt.alloc();
    let mut out = Vec::new(alloc);
    assert!(rt; pack_lines_in(alloc, FORM, b"a\t1\nb\n", &mut out).is_ok());
    let fault = keys_of_lines(alloc, Notation::Hex, b"a\n").err();
    assert!(rt; fault == Some(KeysFault::BadLine { line: 0 }));
    Ok(())
}
