// What was read or written, compared with the bytes that it should be.
use std::alloc::Global;
use tib_io::{FileError, Files, GrowingSink, read_file, write_and_finish};

/// Whether a file that was read whole has the bytes that it should have, or why it was not read.
pub(crate) type Compared = Result<bool, FileError>;

// Reads the file of a name, which should have these bytes.
pub(crate) fn compare_file<F: Files>(
    alloc: Global,
    files: &mut F,
    name: &str,
    bytes: &[u8],
) -> Compared {
    match read_file(alloc, files, name) {
        Ok(read) => Ok(read.as_slice() == bytes),
        Err(error) => Err(error),
    }
}

// Whether a sink that grows takes these bytes, and has them then.
pub(crate) fn is_grown(alloc: Global, bytes: &[u8]) -> bool {
    let mut sink = GrowingSink::new(alloc);
    let taken = write_and_finish(&mut sink, bytes).is_ok();
    taken & (sink.bytes() == bytes)
}
