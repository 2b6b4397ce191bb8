// Long texts.
use std::alloc::{AllocError, Global};

/// A front, a piece this number of times, and a back.
pub fn repeated(
    alloc: Global,
    front: &[u8],
    piece: &[u8],
    count: u32,
    back: &[u8],
) -> Result<Vec<u8>, AllocError> {
    let mut text = Vec::from_slice(alloc, front)?;
    for _ in 0..count {
        text.extend_from_slice(piece)?;
    }
    text.extend_from_slice(back)?;
    Ok(text)
}
