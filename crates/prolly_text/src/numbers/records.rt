//! The numbers of a record file as lines, and what is wrong with a flawed one.
ghost use Rattle.std.specs.Prelude.{◌≡◌, ◌++◌, OnOk, option_map};
ghost use Rattle.std.specs.Option.{option_copied};
ghost use Rattle.std.specs.Fmt.{decimal};
ghost use Rattle.prolly_text.specs.Appending.{Appends};
ghost use Rattle.prolly_text.specs.Records.{records_of};
ghost use Rattle.prolly_text.specs.Flaws.{flaw_text, flawed_text, shortened};
ghost use Rattle.prolly_text.specs.NumberLines.{line_of, optional_line};
ghost use Rattle.prolly_text.specs.KeyForms.{shown_in};

use crate::notation::Notation;
use prolly_entry::Flaw;
use std::alloc::{AllocError, Global};

/// A record file, in numbers, as far as it is good.
#[derive(Clone, Copy)]
pub struct RecordNumbers<'a> {
    /// How many records are good.
    pub records: u32,
    /// How many of them are removals.
    pub removals: u32,
    /// How many bytes they take. A flawed record behind them begins there.
    pub bytes: u64,
    /// The key of the first of them, if there is one.
    pub first_key: Option<&'a [u8]>,
    /// The key of the last of them, if there is one.
    pub last_key: Option<&'a [u8]>,
}

/// Appends the lines of a record file, its keys whole, in time linear in them. An `Err` may leave a
/// part of them behind.
#[tactic(auto, using(crate::proofs::Appended::front_kept), unfolding(crate::specs::Records::records_of))]
pub fn append_records(
    alloc: Global,
    out: &mut Vec<u8>,
    notation: Notation,
    numbers: &RecordNumbers,
) -> Result<(), AllocError>
    ensures { Appends result out.old.items (records_of notation numbers.now) out.new.items }
{
    append_number_line(alloc, out, b"records", u64::from(numbers.records))?;
    append_number_line(alloc, out, b"removals", u64::from(numbers.removals))?;
    append_number_line(alloc, out, b"bytes", numbers.bytes)?;
    let form = KeyForm::Whole(notation);
    form.append_line(alloc, out, b"first", numbers.first_key)?;
    form.append_line(alloc, out, b"last", numbers.last_key)?;
    Ok(())
}

/// Appends the lines that explain the flaw of the record behind the good ones of a file, which has
/// this key, if it can be read; of each key at most the first 64 bytes. They may part a character;
/// its bytes are then shown as escapes. An `Err` may leave a part of the lines behind.
pub fn append_flaw(
    alloc: Global,
    out: &mut Vec<u8>,
    notation: Notation,
    good: &RecordNumbers,
    flaw: Flaw,
    key: Option<&[u8]>,
) -> Result<(), AllocError>
    ensures { Appends result out.old.items
        (flawed_text notation good.now flaw (option_copied key.entry)) out.new.items }
{
    let place = format!(in alloc; "record {} at byte {}", good.records, good.bytes)?;
    out.extend_from_slice(place.as_bytes())?;
    out.extend_from_slice(flaw_text(flaw).as_bytes())?;
    out.push(b'\n')?;
    let form = KeyForm::Shortened(notation);
    form.append_line(alloc, out, b"its key:", key)?;
    form.append_line(alloc, out, b"the key before:", good.last_key)?;
    Ok(())
}

/// What is said of a record with this flaw.
fn flaw_text(flaw: Flaw) -> &'static str
    ensures { result.now ≡ flaw_text flaw }
{
    match flaw {
        Flaw::Truncated => " is cut",
        Flaw::KeyTooLong => ": key too long",
        Flaw::ValueTooLong => ": value too long",
        Flaw::OutOfOrder => ": key out of order",
        Flaw::TooManyRecords => ": too many records",
    }
}

/// Appends the line of a number: its name, a space and the number in decimal.
pub(crate) fn append_number_line(
    alloc: Global,
    out: &mut Vec<u8>,
    name: &[u8],
    number: u64,
) -> Result<(), AllocError>
    ensures { Appends result out.old.items (line_of name.now (decimal number)) out.new.items }
{
    out.extend_from_slice(name)?;
    let rest = format!(in alloc; " {number}\n")?;
    out.extend_from_slice(rest.as_bytes())?;
    Ok(())
}

/// How many bytes of a key are shown at most where it is shortened.
const SHOWN_BYTES: usize = 64;

/// How a key is shown.
#[derive(Clone, Copy)]
pub(crate) enum KeyForm {
    /// Whole, however long it is.
    Whole(Notation),
    /// At most its first 64 bytes, and behind them how many it has where it has more.
    Shortened(Notation),
}

impl KeyForm {
    /// Appends the line of a key, if there is one: its name, a space and the key.
    pub(crate) fn append_line(
        self,
        alloc: Global,
        out: &mut Vec<u8>,
        name: &[u8],
        key: Option<&[u8]>,
    ) -> Result<(), AllocError>
        ensures { Appends result out.old.items (optional_line name.now
            (option_map (shown_in self) (option_copied key.entry))) out.new.items }
    {
        let Some(key) = key else {
            return Ok(());
        };
        out.extend_from_slice(name)?;
        out.push(b' ')?;
        self.append(alloc, out, key)?;
        out.push(b'\n')?;
        Ok(())
    }

    /// Appends a key.
    fn append(self, alloc: Global, out: &mut Vec<u8>, key: &[u8]) -> Result<(), AllocError>
        ensures { Appends result out.old.items (shown_in self key.now) out.new.items }
    {
        match self {
            KeyForm::Whole(notation) => notation.append(out, key),
            KeyForm::Shortened(notation) => append_shortened(alloc, out, notation, key),
        }
    }
}

/// Appends a key, or its front and how many bytes it has.
fn append_shortened(
    alloc: Global,
    out: &mut Vec<u8>,
    notation: Notation,
    key: &[u8],
) -> Result<(), AllocError>
    ensures { Appends result out.old.items (shortened notation key.now) out.new.items }
{
    if key.len() <= SHOWN_BYTES {
        return notation.append(out, key);
    }
    let (front, _) = key.split_at(SHOWN_BYTES);
    notation.append(out, front)?;
    let length = format!(in alloc; "... ({} bytes)", key.len())?;
    out.extend_from_slice(length.as_bytes())?;
    Ok(())
}
