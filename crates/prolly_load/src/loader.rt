//! Loading a record file.
ghost use Rattle.std.specs.Prelude.{◌≡◌, ◌≢◌, ◌↔◌, true, IfOk, IsErrOf};
ghost use Rattle.prolly_entry.specs.Record.{IsRecord};
ghost use Rattle.prolly_entry.specs.RecordAt.{LiesIn, record_at};
ghost use Rattle.prolly_link.specs.declared.message.End.TheVariants.{Fault};
ghost use Rattle.prolly_link.specs.declared.fault.RunFault.TheVariants.{Read};
ghost use Rattle.prolly_load.specs.Loaded.{IsLoaded};
ghost use Rattle.prolly_load.specs.Loading.{GoesOn};
ghost use Rattle.prolly_load.specs.Taken.{TakesNext};
ghost use Rattle.prolly_load.specs.Fault.{end_in, fault_of};

use crate::buffer::Buffer;
use prolly_entry::{Flaw, KEY_START, NextRecord, Pair, Record, RecordAt, next_record};
use prolly_io::Source;
use prolly_link::{End, Out, RunFault};
use std::alloc::{AllocError, Global};
use std::sync::Wait;

/// What a loader gives back.
#[derive(Drop)]
pub struct Loaded<S, O: Out<Record>> {
    /// The source, as the reads left it.
    pub source: S,
    /// The output, closed.
    pub out: O::Closed,
}

/// Loads a record file: sends the good records of what the source has left, at most `limit`, and
/// closes the output with how the file ends. A fault names the file by this number, and a record by
/// its place among the file's records, counted from 0.
///
/// It stops where the source has no more bytes, and at the first flaw, failed read or refused
/// memory. What was sent stays sent. The source is not read while the bytes at hand decide a record
/// or a flaw, so a flaw is told even where a further read would fail.
///
/// Takes time linear in the bytes, and copies each record's bytes once. Where the receiver is far
/// behind, it takes the hash of a pair's boundary, which the pair carries then. Holds one buffer of
/// 130 KiB, however long the file is, and offers each read 64 KiB or more.
pub fn load<R: Wait, S: Source, O: Out<Record>>(
    rt: &R,
    alloc: Global,
    file: u32,
    mut source: S,
    limit: u32,
    mut out: O,
) -> Loaded<S, O>
    ensures link { O.closed_link result.out ≡ O.link out }
    ensures loaded { IsLoaded file limit (S.seen source).is_honest (S.seen source).left
        (S.seen result.source).left (O.sent out) (O.all_sent result.out) (O.end_sent result.out) }

    // A failed read is told, and nothing else is told as one.
    ensures read { (O.end_sent result.out ≡ Fault (Read file)) ↔
        ((S.seen result.source).failures ≢ (S.seen source).failures) }
    ensures unfailed { O.end_sent result.out ≢ Fault (Read file) →
        (S.seen result.source).failures ≡ (S.seen source).failures }
    ensures never { (S.seen source).is_steady ≡ true →
        (S.seen result.source).failures ≡ (S.seen source).failures }
    ensures honest { (S.seen source).is_honest ≡ true → (S.seen result.source).is_honest ≡ true }
    ensures steady { (S.seen source).is_steady ≡ true → (S.seen result.source).is_steady ≡ true }
{
    let end = send_records(rt, alloc, file, &mut source, limit, &mut out);
    Loaded {
        source,
        out: out.close(rt, end),
    }
}

/// Sends the good records of what the source has left, and answers the end that follows them.
pub(crate) fn send_records<R: Wait, S: Source, O: Out<Record>>(
    rt: &R,
    alloc: Global,
    file: u32,
    source: &mut S,
    limit: u32,
    out: &mut O,
) -> End
    ensures link { O.link out.new ≡ O.link out.old }
    ensures loaded { IsLoaded file limit (S.seen source.old).is_honest (S.seen source.old).left
        (S.seen source.new).left (O.sent out.old) (O.sent out.new) result }
    ensures read { (result ≡ Fault (RunFault.Read file)) ↔ ((S.seen
        source.new).failures ≢ (S.seen source.old).failures) }
    ensures unfailed { result ≢ Fault (RunFault.Read file) →
        (S.seen source.new).failures ≡ (S.seen source.old).failures }
    ensures never { (S.seen source.old).is_steady ≡ true →
        (S.seen source.new).failures ≡ (S.seen source.old).failures }
    ensures honest { (S.seen source.old).is_honest ≡ true → (S.seen source.new).is_honest ≡ true }
    ensures steady { (S.seen source.old).is_steady ≡ true → (S.seen source.new).is_steady ≡ true }
{
    let Ok(mut buffer) = Buffer::new(alloc) else {
        return End::Fault(RunFault::Memory);
    };
    let mut count = 0;
    loop {
        match next_of(alloc, file, source, &mut buffer, limit, count) {
            Ok(record) => {
                let size = record.size();
                if let Err(_) = out.send_sized(rt, prepared(record, out.is_ahead()), size) {
                    return End::Fault(RunFault::Memory);
                }
                count += 1;
            }
            Err(end) => return end,
        }
    }
}

/// The record behind `count` good ones of a record file, of which at most `limit` are allowed, or
/// the end that is due there. Reads where the bytes in the buffer decide nothing.
pub(crate) fn next_of<S: Source>(
    alloc: Global,
    file: u32,
    source: &mut S,
    buffer: &mut Buffer,
    limit: u32,
    count: u32,
) -> Result<Record, End>
    ensures goes_on { GoesOn file limit count (S.seen source.old).is_honest
        (S.seen source.old).left (S.seen source.new).left buffer.old buffer.new result }
    ensures read { IsErrOf result (Fault (Read file)) ↔
        ((S.seen source.new).failures ≢ (S.seen source.old).failures) }
    ensures never { (S.seen source.old).is_steady ≡ true →
        (S.seen source.new).failures ≡ (S.seen source.old).failures }
    ensures honest { (S.seen source.old).is_honest ≡ true → (S.seen source.new).is_honest ≡ true }
    ensures steady { (S.seen source.old).is_steady ≡ true → (S.seen source.new).is_steady ≡ true }
{
    loop {
        match take_record(alloc, buffer, limit, count) {
            Ok(Taken::Record(record)) => return Ok(record),
            Ok(Taken::Nothing) => match buffer.fill(source) {
                Ok(0) => return Err(end_in(file, buffer, count)),
                Ok(_) => {}
                Err(_) => return Err(End::Fault(RunFault::Read { file })),
            },
            Ok(Taken::Flawed(flaw)) => return Err(End::Fault(fault_of(file, count, flaw))),
            Err(_) => return Err(End::Fault(RunFault::Memory)),
        }
    }
}

/// The end of a file of which no more bytes come: it is cut where some are not parsed.
fn end_in(file: u32, buffer: &Buffer, count: u32) -> End
    ensures { result ≡ end_in file buffer.now.unparsed count }
{
    if buffer.unparsed().is_empty() {
        End::Clean
    } else {
        End::Fault(fault_of(file, count, Flaw::Truncated))
    }
}

/// A record as it is sent. Where the receiver is far behind, it gets its boundary number here: one
/// thread alone cuts the leaves, and this one would wait for it else.
fn prepared(record: Record, is_ahead: bool) -> Record
    ensures { result ≡ «record» }
{
    if is_ahead {
        record.with_boundary_number()
    } else {
        record
    }
}

/// What could be taken out of a buffer.
#[derive(Drop)]
pub(crate) enum Taken {
    /// The next good record.
    Record(Record),
    /// No record: the unparsed bytes are a part of one, or there are none. More bytes will decide.
    Nothing,
    /// No record: the next one is flawed, whatever bytes follow.
    Flawed(Flaw),
}

/// Takes the record behind `count` good ones, of which at most `limit` are allowed. The one copy of
/// its bytes is made here, and takes the memory that may be refused.
pub(crate) fn take_record(
    alloc: Global,
    buffer: &mut Buffer,
    limit: u32,
    count: u32,
) -> Result<Taken, AllocError>
    ensures { IfOk result (λ taken. TakesNext limit count buffer.old buffer.new taken) }
{
    match next_record(limit, count, buffer.kept(), buffer.unparsed()) {
        NextRecord::Record(at) => {
            let record = copy_of(alloc, buffer.unparsed(), at)?;
            buffer.consume_keeping(at.len, KEY_START..at.key_end);
            Ok(Taken::Record(record))
        }
        NextRecord::More => Ok(Taken::Nothing),
        NextRecord::Flawed(flaw) => Ok(Taken::Flawed(flaw)),
    }
}

/// A copy of the record that lies there.
fn copy_of(alloc: Global, bytes: &[u8], at: RecordAt) -> Result<Record, AllocError>
    requires lies { LiesIn bytes.now at }
    requires lawful { IsRecord (record_at bytes.now at) }
    ensures { IfOk result (λ r. r ≡ record_at bytes.now at) }
{
    match at.value(bytes) {
        Some(value) => Ok(Record::put(Pair::copy_of(alloc, at.key(bytes), value)?)),
        None => Record::removal_of(alloc, at.key(bytes)),
    }
}

/// The fault of the file of this number whose record at `place` has a flaw.
pub fn fault_of(file: u32, place: u32, flaw: Flaw) -> RunFault
    ensures { result ≡ fault_of file place flaw }
{
    match flaw {
        Flaw::Truncated => RunFault::Truncated { file, place },
        Flaw::KeyTooLong => RunFault::KeyTooLong { file, place },
        Flaw::ValueTooLong => RunFault::ValueTooLong { file, place },
        Flaw::OutOfOrder => RunFault::OutOfOrder { file, place },
        Flaw::TooManyRecords => RunFault::TooManyRecords { file },
    }
}
