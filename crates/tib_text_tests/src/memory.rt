// Files and sinks in memory, read and written at each of their limits.
ghost use Rattle.std.specs.Prelude.{◌<◌};

use crate::compared::{Compared, compare_file, is_grown};
use std::alloc::{AllocError, Global};
use tib_io::{
    Failed, FileError, Files, MemoryFiles, MemorySink, Sink, read_file, write_and_finish,
    write_whole,
};

// A table of one file, "f", with these bytes.
fn one_file(alloc: Global, bytes: Vec<u8>) -> Result<Vec<(String, Vec<u8>)>, AllocError> {
    let name = String::from_str(alloc, "f")?;
    let mut files = Vec::new(alloc);
    files.push((name, bytes))?;
    Ok(files)
}

// A table of one file, "f", with a copy of these bytes.
fn copied(alloc: Global, bytes: &[u8]) -> Result<Vec<(String, Vec<u8>)>, AllocError> {
    one_file(alloc, bytes.to_vec(alloc)?)
}

// The file "f" with the bytes "abc", where the listed calls fail.
fn failing_at(alloc: Global, calls: &[u64]) -> Result<MemoryFiles, AllocError> {
    let calls = calls.to_vec(alloc)?;
    Ok(MemoryFiles::new(copied(alloc, b"abc")?, calls))
}

// Reads two files, each of which should have the bytes "abc".
fn compare_two<F: Files>(alloc: Global, files: &mut F, first: &str, second: &str) -> [Compared; 2] {
    let first = compare_file(alloc, files, first, b"abc");
    [first, compare_file(alloc, files, second, b"abc")]
}

// Whether a file that is there is read, and one that isn't is a fault.
fn is_one_there(alloc: Global) -> bool {
    let Ok(mut files) = failing_at(alloc, &[]) else {
        return false;
    };
    compare_two(alloc, &mut files, "f", "g") == [Ok(true), Err(FileError::ReadFault)]
}

// Whether a call that fails is a fault, and the next reading is none.
fn is_one_read(alloc: Global) -> bool {
    let Ok(mut files) = failing_at(alloc, &[1]) else {
        return false;
    };
    compare_two(alloc, &mut files, "f", "f") == [Err(FileError::ReadFault), Ok(true)]
}

#[test]
fn a_file_is_read_whole_or_its_fault_is_told(rt: HostRuntime) {
    assert!(rt; is_one_there(rt.alloc()));
    assert!(rt; is_one_read(rt.alloc()));
}

// The file "f" of this many bytes.
fn long_file(alloc: Global, length: usize) -> Result<MemoryFiles, AllocError> {
    let bytes = vec![in alloc; b'%'; length]?;
    Ok(MemoryFiles::new(one_file(alloc, bytes)?, Vec::new(alloc)))
}

// How many bytes are read of the file "f".
fn length_read<F: Files>(alloc: Global, files: &mut F) -> Result<usize, FileError> {
    match read_file(alloc, files, "f") {
        Ok(bytes) => Ok(bytes.len()),
        Err(error) => Err(error),
    }
}

// Whether reading a file of this many bytes returns this.
fn is_length_read(alloc: Global, length: usize, want: Result<usize, FileError>) -> bool {
    match long_file(alloc, length) {
        Ok(mut files) => length_read(alloc, &mut files) == want,
        Err(_) => false,
    }
}

#[test]
fn a_file_has_a_greatest_length(rt: HostRuntime) {
    assert!(rt; is_length_read(rt.alloc(), 8_388_608, Ok(8_388_608)));
    assert!(rt; is_length_read(rt.alloc(), 8_388_609, Err(FileError::TooLong)));
}

// Whether a sink with room for four bytes, of which the third call fails, takes what it has room
// for.
fn is_filled<S: Sink>(sink: &mut S) -> bool {
    let two = sink.write(b"ab");
    let none = sink.write(b"");
    let one = sink.write(b"c");
    let rest = sink.write(b"cde");
    [two, none, one, rest] == [Ok(2), Ok(0), Err(Failed), Ok(2)]
}

// Whether a sink that is full takes no byte more, and ends well.
fn is_full<S: Sink>(sink: &mut S) -> bool {
    let byte = write_whole(sink, b"f");
    [byte, sink.finish()] == [Err(Failed), Ok(())]
}

// An empty sink with room for four bytes, of which the third call fails.
fn small_sink(alloc: Global) -> Result<MemorySink, AllocError> {
    MemorySink::new(alloc, [2].to_vec(alloc)?, 4)
}

// Whether a small sink is filled, and has the bytes that it took then.
fn is_small_filled(alloc: Global) -> bool {
    let Ok(mut sink) = small_sink(alloc) else {
        return false;
    };
    let filled = is_filled(&mut sink);
    let full = is_full(&mut sink);
    filled & full & (sink.bytes() == b"abcd".as_slice())
}

#[test]
fn sinks_take_what_they_have_room_for(rt: HostRuntime) {
    assert!(rt; is_small_filled(rt.alloc()));
    assert!(rt; is_grown(rt.alloc(), b"abc"));
}

// Whether the bytes "abcdefg" are read in pieces of at most `most` bytes.
fn is_read_in_pieces(alloc: Global, most: u32) -> bool
    requires { 0 < most }
{
    let Ok(file) = copied(alloc, b"abcdefg") else {
        return false;
    };
    let mut files = MemoryFiles::short(file, Vec::new(alloc), most);
    compare_file(alloc, &mut files, "f", b"abcdefg") == Ok(true)
}

// Whether the bytes "abcdefg" are written in pieces of at most `most` bytes.
fn is_written_in_pieces(alloc: Global, most: u32) -> bool
    requires { 0 < most }
{
    let Ok(mut sink) = MemorySink::short(alloc, Vec::new(alloc), 7, most) else {
        return false;
    };
    let taken = write_and_finish(&mut sink, b"abcdefg").is_ok();
    taken & (sink.bytes() == b"abcdefg".as_slice())
}

#[test]
fn short_pieces_change_nothing(rt: HostRuntime) {
    let alloc = rt.alloc();
    let one = is_read_in_pieces(alloc, 1) & is_written_in_pieces(alloc, 1);
    let two = is_read_in_pieces(alloc, 2) & is_written_in_pieces(alloc, 2);
    let all = is_read_in_pieces(alloc, 7) & is_written_in_pieces(alloc, 7);
    assert!(rt; one & two & all);
}
