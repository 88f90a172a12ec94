//! How lines are written and read, and how records are written.
#![tactic(auto, using(crate::proofs::Appended::front_kept))]

ghost use Rattle.std.specs.Prelude.{◌≡◌, ◌≢◌, ◌++◌, None, OnOk, OnErr};
ghost use Rattle.std.specs.Io.{StartsWith};
ghost use Rattle.std.specs.Option.{option_copied};
ghost use Rattle.prolly_entry.specs.Record.{IsRecord};
ghost use Rattle.prolly_text.specs.Appending.{Appends};
ghost use Rattle.prolly_text.specs.Lines.{hex_lines, reads_bare_keys};
ghost use Rattle.prolly_text.specs.RecordForms.{change_text, record_line, removal_mark, spelled_in};

use crate::notation::Notation;
use prolly_entry::append_record_of;
use std::alloc::AllocError;

/// How lines are written: `HEXKEY HEXVALUE`, or `HEXKEY -` for a removal; or in text a key, a tab
/// and a value, or a key alone for a removal.
#[derive(Clone, Copy)]
pub struct LineForm {
    /// How keys and values are written.
    pub notation: Notation,
    /// Whether in text a line that is a key alone is its removal. It is ignored for lines in
    /// hexadecimal, where a dash marks a removal.
    pub removals: bool,
}

impl LineForm {
    /// Lines in hexadecimal.
    pub fn hex() -> LineForm
        ensures { result ≡ hex_lines }
    {
        LineForm {
            notation: Notation::Hex,
            removals: false,
        }
    }

    /// Whether a line that is a key alone is read as its removal.
    pub(crate) fn reads_bare_keys(self) -> bool
        ensures { result ≡ reads_bare_keys self.notation self.removals }
    {
        match self.notation {
            Notation::Hex => false,
            Notation::Text => self.removals,
        }
    }
}

/// How records are written: the value that is put at a key, or that the key is removed.
#[derive(Clone, Copy)]
pub enum RecordForm {
    /// A line, as `pack` reads it: in hexadecimal a key, a space, and a value or a dash; in text a
    /// key, a tab and a value, or a key alone.
    Lines(Notation),
    /// A record, as in a record file.
    Records,
}

/// Appends a change in this form, or nothing where there is none.
pub fn append_change(
    out: &mut Vec<u8>,
    form: Option<RecordForm>,
    key: &[u8],
    value: Option<&[u8]>,
) -> Result<(), AllocError>
    requires { IsRecord (record { key = key.now; value = option_copied value }) }
    ensures ok { OnOk result (out.new.items ≡ out.old.items ++ spelled_in form
        (record { key = key.now; value = option_copied value.entry })) }
    ensures err { OnErr result (form ≢ None) }
    ensures kept { OnErr result (StartsWith out.new.items out.old.items) }
{
    match form {
        None => Ok(()),
        Some(RecordForm::Lines(notation)) => append_line(out, notation, key, value),
        Some(RecordForm::Records) => append_record_of(out, key, value),
    }
}

/// Appends the line of a change.
pub fn append_line(
    out: &mut Vec<u8>,
    notation: Notation,
    key: &[u8],
    value: Option<&[u8]>,
) -> Result<(), AllocError>
    ensures { Appends result out.old.items (record_line notation
        (record { key = key.now; value = option_copied value.entry })) out.new.items }
{
    notation.append(out, key)?;
    append_change_text(out, notation, value)?;
    out.extend_from_slice(b"\n")
}

/// Appends what a line has behind its key.
fn append_change_text(
    out: &mut Vec<u8>,
    notation: Notation,
    value: Option<&[u8]>,
) -> Result<(), AllocError>
    ensures { Appends result out.old.items (change_text notation (option_copied value.entry))
        out.new.items }
{
    match value {
        Some(value) => {
            out.push(notation.separator())?;
            notation.append(out, value)
        }
        None => out.extend_from_slice(removal_mark(notation)),
    }
}

/// What marks a removal behind its key.
fn removal_mark(notation: Notation) -> &'static [u8]
    ensures { result.now ≡ removal_mark notation }
{
    match notation {
        Notation::Hex => b" -",
        Notation::Text => b"",
    }
}
