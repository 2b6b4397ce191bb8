// What the other modules share.
use std::alloc::{AllocError, Global};
use std::test::Fail;

/// A front, a number of pieces, and a back.
pub(crate) fn repeated(
    alloc: Global,
    front: &[u8],
    piece: &[u8],
    count: u32,
    back: &[u8],
) -> Result<Vec<u8>, AllocError> {
    let mut text = Vec::from_slice(alloc, front)?;
    for _ in 0..count {
        text.extend_from_slice(piece)?;
    }
    text.extend_from_slice(back)?;
    Ok(text)
}

/// Passes where there is no wrong row, and else reports the row's text.
pub(crate) fn no_wrong(row: Option<&'static str>) -> Result<(), Fail> {
    match row {
        Some(text) => Err(text.into()),
        None => Ok(()),
    }
}
