//! Parts of the lines that the program prints.
ghost use Rattle.std.specs.Fmt.{decimal};
ghost use Rattle.std.specs.Prelude.{◌≡◌, ◌++◌, ◌∷◌, [], List, ℕ, OnOk, codes};
ghost use Rattle.prolly_fault.specs.Faults.{fault_line};
ghost use Rattle.prolly_text.specs.Names.{shown_name};

use prolly_text::append_name;
use std::alloc::{AllocError, Global};

/// With what the line of a fault, or of a note, begins: the program's name.
pub const LINE_START: &str = "prolly: ";

/// Appends a space, and the number in decimal.
pub fn append_number(alloc: Global, line: &mut Vec<u8>, number: u64) -> Result<(), AllocError>
    ensures { OnOk result (line.new.items ≡ line.old.items ++ 0x20 ∷ decimal number) }
{
    let text = format!(in alloc; " {number}")?;
    line.extend_from_slice(text.as_bytes())?;
    Ok(())
}

/// Appends a line with two spaces and a name behind its text; where there is no line, nothing.
pub(crate) fn append_named_line(
    out: &mut Vec<u8>,
    line: &[u8],
    name: &str,
) -> Result<(), AllocError>
    ensures some { (text : List ℕ) → line.now ≡ text ++ 0x0A ∷ [] → OnOk result (out.new.items
        ≡ out.old.items ++ text ++ codes "  " ++ shown_name name.now ++ 0x0A ∷ []) }
    ensures none { line.now ≡ [] → OnOk result (out.new.items ≡ out.old.items) }
{
    let Some((_, text)) = line.split_last() else {
        return Ok(());
    };
    out.extend_from_slice(text)?;
    out.extend_from_slice(b"  ")?;
    append_name(out, name)?;
    out.push(b'\n')?;
    Ok(())
}

/// Appends the line of a fault with a name and a colon before its text; where there is no line,
/// nothing.
pub(crate) fn append_named_fault(
    out: &mut Vec<u8>,
    line: &[u8],
    name: &str,
) -> Result<(), AllocError>
    ensures some { (text : List ℕ) → line.now ≡ fault_line text → OnOk result (out.new.items
        ≡ out.old.items ++ fault_line (shown_name name.now ++ codes ": " ++ text)) }
    ensures none { line.now ≡ [] → OnOk result (out.new.items ≡ out.old.items) }
{
    let Some(text) = line.strip_prefix(LINE_START.as_bytes()) else {
        return Ok(());
    };
    out.extend_from_slice(LINE_START.as_bytes())?;
    append_name(out, name)?;
    out.extend_from_slice(b": ")?;
    out.extend_from_slice(text)
}
