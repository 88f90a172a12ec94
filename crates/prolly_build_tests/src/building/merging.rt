//! What is built of several files.
use super::*;

const SIXTEEN_FILES: &[&[u8]] = &[
    b"a1", b"b1", b"c1", b"d1", b"e1", b"f1", b"g1", b"h1", b"i1", b"j1", b"k1", b"l1", b"m1",
    b"n1", b"o1", b"p1",
];

/// Record files, and the map that they come to.
const MERGED_FILES: [(&[&[u8]], &[u8]); 7] = [
    (&[], b""),
    (&[b""], b""),
    (&[b"a1c1", b"b2", b"a3"], b"a3b2c1"),
    (&[b"a1b1c1", b"b-", b"c-d-", b"c4"], b"a1c4"),
    (&[b"a1", b"a2", b"a3", b"a4", b"a-"], b""),
    (&[b"a0c0e0", b"a1b1c1d1e1"], b"a1b1c1d1e1"),
    (SIXTEEN_FILES, b"a1b1c1d1e1f1g1h1i1j1k1l1m1n1o1p1"),
];

/// The bits of a boundary, the capacity of the links, the size of a batch, and the version.
const SETTINGS: [(u8, u32, u32, Version); 4] = [
    (0, 1, 1, Version::One),
    (0, 1, 16, Version::Two),
    (1, 64, 1, Version::Two),
    (2, 64, 16, Version::One),
];

#[test]
fn later_files_win_and_removals_take_away(rt: HostRuntime) -> Result<(), Fail> {
    for &(files, map) in &MERGED_FILES {
        for &(bits, capacity, batch, version) in &SETTINGS {
            let config = settings_of(bits, 12, capacity, batch, version)?;
            let file = file_cut(rt.alloc(), bits, version, map)?;
            expect_file(&rt, rt.alloc(), &config, &OpenGate, files, &file)?;
        }
    }
    Ok(())
}
