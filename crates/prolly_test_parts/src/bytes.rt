//! Bytes put together from parts, and a chunk file from the format alone.
use prolly_entry::Ref;
use std::alloc::{AllocError, Global};

/// Parts, one after another.
pub fn joined(alloc: Global, parts: &[&[u8]]) -> Result<Vec<u8>, AllocError> {
    let mut all = Vec::new(alloc);
    for part in parts {
        all.extend_from_slice(part)?;
    }
    Ok(all)
}

/// The file of these chunks, of which the last is the root. Its head is the version and the bits.
pub fn chunk_file(alloc: Global, head: [u8; 2], chunks: &[&[u8]]) -> Result<Vec<u8>, AllocError> {
    let mut file = joined(alloc, &[b"PRLY", &head])?;
    let mut root = Ref::of(b"");
    for chunk in chunks {
        file.push(b'C')?;
        file.extend_from_slice(&(chunk.len() as u64).to_be_bytes())?;
        file.extend_from_slice(chunk)?;
        root = Ref::of(chunk);
    }
    file.push(b'E')?;
    file.extend_from_slice(&root.0)?;
    file.extend_from_slice(&(chunks.len() as u64).to_be_bytes())?;
    Ok(file)
}

/// Flips the highest bit of the byte in this place, if there is one.
pub fn flip(bytes: &mut [u8], place: usize) {
    if let Some(byte) = bytes.get_mut(place) {
        *byte ^= 0x80;
    }
}
