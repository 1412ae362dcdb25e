//! Bytes as a dump prints them.

use std::alloc::{AllocError, Global};

pub fn bytes_of(alloc: Global, words: &[u32]) -> Result<Vec<u8>, AllocError> {
    let mut bytes = Vec::new(alloc);
    put_words(&mut bytes, words)?;
    Ok(bytes)
}

/// Appends words.
pub fn put_words(out: &mut Vec<u8>, words: &[u32]) -> Result<(), AllocError> {
    for word in words {
        out.extend_from_slice(&word.to_be_bytes())?;
    }
    Ok(())
}
