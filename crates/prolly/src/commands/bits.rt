//! The bits of a tree whose chunks are to have so many bytes.
ghost use Rattle.std.specs.Prelude.{◌≤◌, IfOk};
ghost use Rattle.prolly.specs.Requests.{AreChosen};

use prolly_answer::{Sample, bits_note};
use prolly_files::Patient;
use std::alloc::AllocError;
use std::io::Write;

/// The bits by which chunks have about so many bytes, by the records that were seen, or the default
/// where there were none. A line on standard error says which; where that fails there is no one to
/// tell.
pub fn chosen_bits(
    rt: &HostRuntime,
    sample: &Sample,
    chunk_bytes: u32,
    default: u8,
) -> Result<u8, AllocError>
    requires { default ≤ 24 }
    ensures range { IfOk result (λ bits. bits ≤ 24) }
    ensures chosen { IfOk result (AreChosen sample.now chunk_bytes default) }
{
    let chosen = sample.bits_for(chunk_bytes);
    let note = bits_note(rt.alloc(), default, chosen)?;
    let _ = Patient::new(rt, rt.stderr()).write_all(&note);
    match chosen {
        None => Ok(default),
        Some(chosen) => Ok(chosen.bits),
    }
}
