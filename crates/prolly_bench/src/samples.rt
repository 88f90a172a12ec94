//! What is timed: numbered entries, whose keys of 16 bytes rise.
use std::alloc::{AllocError, Global};

/// How many bytes the values have, so that an entry has 38, where nothing else is asked for.
pub const VALUE_BYTES: u32 = 16;

/// The key of 16 bytes of a number.
fn numbered_key(number: u32) -> [u8; 16] {
    let mut key = [0; 16];
    key[..4].copy_from_slice(&number.to_be_bytes());
    key
}

/// The spelling of a numbered pair, in a buffer that is used again for the next one.
#[derive(Drop)]
pub struct Entry {
    spelling: Vec<u8>,
    value: Vec<u8>,
    value_bytes: u32,
}

impl Entry {
    /// One whose value has so many bytes.
    pub fn new(alloc: Global, value_bytes: u32) -> Result<Entry, AllocError> {
        let mut value = Vec::new(alloc);
        value.resize(value_bytes as usize, 0x5A)?;
        Ok(Entry {
            spelling: Vec::new(alloc),
            value,
            value_bytes,
        })
    }

    /// Makes it that of a number.
    pub fn spell(&mut self, number: u32) -> Result<(), AllocError> {
        self.spelling.clear();
        self.spelling.extend_from_slice(&[0, 16])?;
        self.spelling.extend_from_slice(&numbered_key(number))?;
        self.spelling
            .extend_from_slice(&self.value_bytes.to_be_bytes())?;
        self.spelling.extend_from_slice(&self.value)
    }

    /// Its bytes.
    pub fn bytes(&self) -> &[u8] {
        &self.spelling
    }
}
