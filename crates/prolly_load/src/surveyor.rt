//! Surveying a record file.
ghost use Rattle.std.specs.Prelude.{◌≡◌, ◌≢◌, ◌↔◌, true, IfOk, IfSome, IsErrOf, OnOk};
ghost use Rattle.prolly_io.specs.declared.device.part_reader.ReadFault.TheVariants.{Read};
ghost use Rattle.prolly_load.specs.Loaded.{ShowsNoFlaw};
ghost use Rattle.prolly_load.specs.Survey.{IsSurvey};
ghost use Rattle.prolly_load.specs.Tally.{HasToldKey, IsCounted, NonePassed, Tells, cut_in};
ghost use Rattle.prolly_load.specs.Skipped.{Skips};

use crate::buffer::Buffer;
use crate::tally::{Survey, Tally, copied, flawed_record};
use prolly_entry::{Flaw, KEY_START, NextRecord, next_record};
use prolly_io::{ReadFault, Source};
use std::alloc::{AllocError, Global};

/// What the bytes that a source has left hold, as a record file of which at most `limit` records
/// are allowed: what is good of them, and what is wrong behind that.
///
/// It stops where the source has no more bytes, and at the first flaw. The source is not read while
/// the bytes at hand decide a record or a flaw, so a flaw is told even where a further read would
/// fail. Of a source that is not honest nothing is known but its failures. Memory is taken for the
/// buffer and for keys.
///
/// One pass, in time linear in the bytes. Copies three keys at most, and holds one buffer of 130
/// KiB, however long the file is.
pub fn survey<S: Source>(alloc: Global, source: &mut S, limit: u32) -> Result<Survey, ReadFault>
    ensures ok { (S.seen source.old).is_honest ≡ true → IfOk result (λ survey.
        IsSurvey (S.seen source.old).left limit survey) }

    // A failed read is told, and nothing else is told as one. Of an honest source it is told only
    // where the bytes that came before it show no flaw.
    ensures read { IsErrOf result Read ↔
        ((S.seen source.new).failures ≢ (S.seen source.old).failures) }
    ensures unfailed { OnOk result
        ((S.seen source.new).failures ≡ (S.seen source.old).failures) }
    ensures no_flaw { (S.seen source.old).is_honest ≡ true → IsErrOf result Read →
        ShowsNoFlaw limit (S.seen source.old).left (S.seen source.new).left }
    ensures honest { (S.seen source.old).is_honest ≡ true → (S.seen source.new).is_honest ≡ true }
    ensures steady { (S.seen source.old).is_steady ≡ true → (S.seen source.new).is_steady ≡ true }
    ensures never { (S.seen source.old).is_steady ≡ true →
        (S.seen source.new).failures ≡ (S.seen source.old).failures }
{
    let mut buffer = Buffer::new(alloc)?;
    let mut tally = Tally {
        records: 0,
        removals: 0,
        bytes: 0,
        first_key: None,
    };
    let flaw = skip_records(alloc, source, limit, &mut buffer, &mut tally)?;
    Ok(told(alloc, tally, &buffer, flaw)?)
}

/// Passes the good records of what a source has left, counts them, and answers the flaw of what is
/// behind them, if there is one.
fn skip_records<S: Source>(
    alloc: Global,
    source: &mut S,
    limit: u32,
    buffer: &mut Buffer,
    tally: &mut Tally,
) -> Result<Option<Flaw>, ReadFault>
    requires { NonePassed tally.old buffer.old }
    ensures ok { (S.seen source.old).is_honest ≡ true → IfOk result
        (IsCounted (S.seen source.old).left limit tally.new buffer.new) }
    ensures keys { IfOk result (λ flaw. IfSome flaw (λ flaw.
        HasToldKey flaw buffer.new.unparsed)) }
    ensures read { IsErrOf result Read ↔
        ((S.seen source.new).failures ≢ (S.seen source.old).failures) }
    ensures unfailed { OnOk result
        ((S.seen source.new).failures ≡ (S.seen source.old).failures) }
    ensures no_flaw { (S.seen source.old).is_honest ≡ true → IsErrOf result Read →
        ShowsNoFlaw limit (S.seen source.old).left (S.seen source.new).left }
    ensures honest { (S.seen source.old).is_honest ≡ true → (S.seen source.new).is_honest ≡ true }
    ensures steady { (S.seen source.old).is_steady ≡ true → (S.seen source.new).is_steady ≡ true }
    ensures never { (S.seen source.old).is_steady ≡ true →
        (S.seen source.new).failures ≡ (S.seen source.old).failures }
{
    loop {
        match skip_record(buffer, limit, tally.records) {
            Skipped::Record { removes, len } => {
                tally.count(alloc, removes, len, buffer.kept())?;
            }
            Skipped::Nothing => {
                if buffer.fill(source)? == 0 {
                    return Ok(cut_in(buffer));
                }
            }
            Skipped::Flawed(flaw) => return Ok(Some(flaw)),
        }
    }
}

/// The flaw of what is left where no more bytes come: the file is cut, or there is none.
fn cut_in(buffer: &Buffer) -> Option<Flaw>
    ensures { result ≡ cut_in buffer.now.unparsed }
{
    if buffer.unparsed().is_empty() {
        None
    } else {
        Some(Flaw::Truncated)
    }
}

/// What was counted, where the next record in the buffer has this flaw.
fn told(
    alloc: Global,
    tally: Tally,
    buffer: &Buffer,
    flaw: Option<Flaw>,
) -> Result<Survey, AllocError>
    requires { IfSome flaw (λ flaw. HasToldKey flaw buffer.now.unparsed) }
    ensures { IfOk result (Tells tally buffer.now flaw) }
{
    let flawed = match flaw {
        None => None,
        Some(flaw) => Some(flawed_record(alloc, flaw, buffer.unparsed())?),
    };
    Ok(Survey {
        records: tally.records,
        removals: tally.removals,
        bytes: tally.bytes,
        first_key: tally.first_key,
        last_key: copied(alloc, buffer.kept())?,
        flawed,
    })
}

/// What could be passed in a buffer.
#[derive(Clone, Copy)]
pub(crate) enum Skipped {
    /// The next good record: whether it removes its key, and how many bytes it takes.
    Record { removes: bool, len: usize },
    /// No record: the unparsed bytes are a part of one, or there are none. More bytes will decide.
    Nothing,
    /// No record: the next one is flawed, whatever bytes follow.
    Flawed(Flaw),
}

/// Passes the record behind `count` good ones, of which at most `limit` are allowed. Nothing is
/// copied.
pub(crate) fn skip_record(buffer: &mut Buffer, limit: u32, count: u32) -> Skipped
    ensures { Skips limit count buffer.old buffer.new result }
{
    match next_record(limit, count, buffer.kept(), buffer.unparsed()) {
        NextRecord::Record(at) => {
            buffer.consume_keeping(at.len, KEY_START..at.key_end);
            Skipped::Record {
                removes: at.value_start.is_none(),
                len: at.len,
            }
        }
        NextRecord::More => Skipped::Nothing,
        NextRecord::Flawed(flaw) => Skipped::Flawed(flaw),
    }
}
