//! The names of files, as lines show them.
ghost use Rattle.std.specs.Prelude.{◌≡◌, ◌++◌, OnOk};
ghost use Rattle.prolly_text.specs.Appending.{Appends};
ghost use Rattle.prolly_text.specs.Names.{shown_in_name, shown_name};

use crate::notation::escape::append_plain;
use std::alloc::{AllocError, Global};

/// Appends a file's name, in which control characters, byte order marks and backslashes are
/// escaped, so that a line stays one line. An `Err` may leave a part of it behind.
pub fn append_name(out: &mut Vec<u8>, name: &str) -> Result<(), AllocError>
    ensures { Appends result out.old.items (shown_name name.now) out.new.items }
{
    for character in name.chars() {
        append_shown(out, character)?;
    }
    Ok(())
}

/// Appends a character of a name.
fn append_shown(out: &mut Vec<u8>, character: char) -> Result<(), AllocError>
    ensures { Appends result out.old.items (shown_in_name character) out.new.items }
{
    if character == '\\' {
        return out.extend_from_slice(b"\\\\");
    }
    append_plain(out, character)
}
