//! Building a chunk file of a record file.
ghost use Rattle.std.specs.Prelude.{◌≡◌, ◌≢◌, ◌⊎◌, ◌<◌, ◌≤◌, length, take, drop};
ghost use Rattle.prolly_c.specs.Built.{HasBuilt, IsBuilt, IsRefusedRecords};

use crate::put::put_bytes;
use crate::status::{DONE, MEMORY, NO_ROOM, USAGE, record_status, tell};
use prolly_entry::{Sha512Cut, Version, records};
use prolly_file::scratch_as;
use std::alloc::Global;

/// The chunk file of the records of a record file, cut by a number of bits from 0 to 24, in version
/// 1 or 2. It is written to the start of `out`, `count` is its length, and `root` the reference of
/// its root.
///
/// Where there is less room, `count` is the length that is needed, and nothing else is written. So a
/// call without room asks for the length; it takes as long. A fault of the records names the record
/// in `place`, counted from 0.
///
/// Takes memory for the pairs, and for the file twice. Hashes each pair and each chunk once.
#[unsafe(no_mangle)]
pub extern "C" fn prolly_scratch(
    alloc: Global,
    version: u8,
    bits: u8,
    record_file: &[u8],
    out: &mut [u8],
    count: &mut usize,
    root: &mut [u8; 20],
    place: &mut u64,
) -> u32
    ensures built { result ≡ 0 →
        IsBuilt version bits record_file.now (take count.new out.new) root.new }
    ensures within { result ≡ 0 → count.new ≤ length out.new }
    ensures behind { result ≡ 0 → drop count.new out.new ≡ drop count.new out.old }
    ensures room { result ≡ 3 → (length out.new < count.new) ×
        HasBuilt version bits record_file.now count.new }
    ensures refused { (result ≡ 0) ⊎ ((result ≡ 2) ⊎ ((result ≡ 3) ⊎ ((result ≡ 6) ⊎
        IsRefusedRecords record_file.now result place.new))) }
    ensures stays { result ≢ 0 → (out.new ≡ out.old) × (root.new ≡ root.old) }
    ensures uncounted { result ≢ 0 → result ≢ 3 → count.new ≡ count.old }
    ensures unnamed { result ≤ 6 → place.new ≡ place.old }
    ensures usage { result ≡ 6 → (24 < bits) ⊎ ((version ≡ 1 → ⊥) × (version ≡ 2 → ⊥)) }
    ensures version { (version ≡ 1) ⊎ ((version ≡ 2) ⊎ (result ≡ 6)) }
    ensures bits { (bits ≤ 24) ⊎ (result ≡ 6) }
{
    let (Some(cut), Some(format)) = (Sha512Cut::new(bits), Version::of(version)) else {
        return USAGE;
    };
    let pairs = match records(alloc, record_file, u32::MAX) {
        Ok(pairs) => pairs,
        Err(fault) => return tell(record_status(fault), place),
    };
    let mut file = Vec::new(alloc);
    let Ok(reference) = scratch_as(alloc, cut, format, &pairs, u8::MAX, &mut file) else {
        // The keys rise, and no tree of so few pairs has more levels: memory was refused.
        return MEMORY;
    };
    *count = file.len();
    if file.len() > out.len() {
        return NO_ROOM;
    }
    put_bytes(&file, out, 0);
    let first = reference.0;
    *root = first;
    DONE
}
