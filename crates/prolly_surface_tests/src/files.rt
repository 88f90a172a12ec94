//! `prolly_file` and `prolly_check`.
ghost use Rattle.std.specs.Prelude.{◌<◌};

use prolly_check::{CheckFault, NoCounts, Tree, check};
use prolly_entry::{Cut, Pair, Ref, Version};
use prolly_file::{
    FileWriter, FromRead, ScratchFault, ScriptSink, ScriptSource, Sink, SinkFault, Source,
    SourceFault, ToWrite, WholeFault, WriteFault, read_whole, scratch, scratch_as,
};
use std::alloc::{AllocError, Global};
use std::io::{Read, Write};
use std::test::Fail;

fn read_one<S: Source>(source: &mut S, buf: &mut [u8]) -> Result<usize, SourceFault> {
    source.read(buf)
}

fn write_one<W: Sink>(sink: &mut W, bytes: &[u8]) -> Result<usize, SinkFault> {
    let count = sink.write(bytes)?;
    sink.flush()?;
    Ok(count)
}

fn over_std<R: Read, W: Write>(reader: R, writer: W) -> (FromRead<R>, ToWrite<W>) {
    (FromRead::new(reader), ToWrite::new(writer))
}

fn whole<S: Source>(alloc: Global, source: &mut S) -> u8 {
    match read_whole(alloc, source, 100) {
        Ok(_) => 0,
        Err(WholeFault::Memory) => 1,
        Err(WholeFault::Read) => 2,
        Err(WholeFault::TooLong) => 3,
    }
}

fn begun<W: Sink>(sink: &mut W, bits: u8) -> Result<(u64, u64), WriteFault> {
    let old = FileWriter::begin(sink, bits)?;
    let new = FileWriter::begin_as(sink, Version::Two, bits)?;
    Ok((old.chunks(), new.chunks()))
}

fn framed<W: Sink>(sink: &mut W, file: &mut FileWriter) -> Result<(), WriteFault> {
    file.chunk(sink, b"\0")
}

fn ended<W: Sink>(sink: &mut W, file: FileWriter, root: &Ref) -> Result<u64, WriteFault>
    requires { file.chunks < 18446744073709551615 }
{
    file.end(sink, root)
}

fn scratched<C: Cut>(
    alloc: Global,
    cut: C,
    pairs: &[Pair],
    out: &mut Vec<u8>,
) -> Result<Ref, ScratchFault> {
    match scratch(alloc, cut, pairs, 12, out) {
        Ok(_) => {}
        Err(ScratchFault::Memory | ScratchFault::TooTall) => {}
        Err(ScratchFault::OutOfOrder { pair: _ }) => {}
    }
    scratch_as(alloc, cut, Version::Two, pairs, 12, out)
}

fn chunk_of(fault: CheckFault) -> Option<u64> {
    match fault {
        CheckFault::Memory
        | CheckFault::Read
        | CheckFault::TooLong
        | CheckFault::BadHeader
        | CheckFault::Truncated
        | CheckFault::Trailing
        | CheckFault::BadEnd => None,
        CheckFault::BadFrame { chunk }
        | CheckFault::BadChunk { chunk }
        | CheckFault::KeysOutOfOrder { chunk }
        | CheckFault::NotCanonical { chunk }
        | CheckFault::Collision { chunk } => Some(chunk as u64),
    }
}

fn looked_up(alloc: Global, tree: &Tree) -> Result<(Ref, u8, u64, Version), AllocError> {
    let value: Option<&[u8]> = tree.get(b"a");
    let pairs: Vec<Pair> = tree.scan(alloc, b"", 1)?;
    let first: Result<Option<(&[u8], &[u8])>, NoCounts> = tree.nth(0);
    let _ = (value.is_some(), pairs.len(), first.is_ok());
    Ok((tree.root(), tree.bits(), tree.chunks(), tree.version()))
}

#[test]
fn files_are_named_as_ever(rt: HostRuntime) -> Result<(), Fail> {
    let alloc = rt.alloc();
    let mut source = ScriptSource::new(b"PRLY".to_vec(alloc)?, 1, None);
    assert!(rt; check(alloc, &mut source, 100).is_err());
    let sink = ScriptSink::new(alloc, 1, None);
    assert!(rt; sink.taken().is_empty());
    Ok(())
}
