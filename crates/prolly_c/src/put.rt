//! Writing into the caller's memory.
ghost use Rattle.std.specs.Prelude.{◌≡◌, ◌≤◌, ◌+◌, ◌++◌, length, take, drop};
ghost use Rattle.prolly_entry.specs.Spelling.{pair_spelling};

/// Writes the spelling of a pair behind the first `start` bytes.
pub(crate) fn put_pair(key: &[u8], value: &[u8], out: &mut [u8], start: usize)
    requires key { length key.now ≤ 1024 }
    requires value { length value.now ≤ 65536 }
    requires room { start + (6 + length key.now + length value.now) ≤ length out.old }
    ensures written { take (start + (6 + length key.now + length value.now)) out.new ≡
        take start out.old ++ pair_spelling (record { key = key.now; value = value.now }) }
    ensures behind { drop (start + (6 + length key.now + length value.now)) out.new ≡
        drop (start + (6 + length key.now + length value.now)) out.old }
    ensures len { length out.new ≡ length out.old }
{
    let key_start = start + 2;
    let value_length_start = key_start + key.len();
    let value_start = value_length_start + 4;
    put_bytes(&(key.len() as u16).to_be_bytes(), out, start);
    put_bytes(key, out, key_start);
    put_bytes(&(value.len() as u32).to_be_bytes(), out, value_length_start);
    put_bytes(value, out, value_start);
}

/// Writes bytes behind the first `start` ones.
pub(crate) fn put_bytes(bytes: &[u8], out: &mut [u8], start: usize)
    requires { start + length bytes.now ≤ length out.old }
    ensures written { take (start + length bytes.now) out.new ≡ take start out.old ++ bytes.now }
    ensures behind { drop (start + length bytes.now) out.new ≡
        drop (start + length bytes.now) out.old }
    ensures len { length out.new ≡ length out.old }
{
    out[start..start + bytes.len()].copy_from_slice(bytes);
}
