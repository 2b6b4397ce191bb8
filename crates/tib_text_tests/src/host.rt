// Files of the system, read from a place and whole, and written.
use crate::compared::{compare_file, is_grown};
use std::fs;
use std::rt::Files as System;
use tib_io::{Files, HostFiles, HostSink, write_and_finish};

/// A read: the name, the place, how many bytes it gives, and what is in the buffer then.
type Row = (&'static str, u8, usize, &'static [u8; 4]);

const FULL: &str = "tib_io_full";

const EMPTY: &str = "tib_io_empty";

static ROWS: [Row; 7] = [
    (FULL, 0, 4, b"some"),
    (FULL, 4, 4, b" byt"),
    (FULL, 5, 4, b"byte"),
    (EMPTY, 0, 0, b"byte"),
    (FULL, 0, 4, b"some"),
    (EMPTY, 4, 0, b"some"),
    (FULL, 8, 2, b"esme"),
];

// The reads, one after the other.
fn rows() -> &'static [Row] {
    &ROWS
}

// Whether a read into this buffer gives what its row says.
fn gives<F: Files>(files: &mut F, buffer: &mut [u8; 4], row: &Row) -> bool {
    let (name, at, count, bytes) = *row;
    files.read(name, at as u64, buffer) == Ok(count) && *buffer == *bytes
}

// Whether each read gives what its row says.
fn give_all<F: Files>(files: &mut F) -> bool {
    let mut buffer = [0; 4];
    for row in rows() {
        if !gives(files, &mut buffer, row) {
            return false;
        }
    }
    true
}

// Whether a file of these bytes could be made.
fn is_made<R: System>(rt: &R, name: &str, bytes: &[u8]) -> bool {
    fs::write(rt, name, bytes).is_ok()
}

// Whether a file could be removed.
fn is_removed<R: System>(rt: &R, name: &str) -> bool {
    fs::remove_file(rt, name).is_ok()
}

// Makes two files, reads them row by row, and removes them.
fn are_read_by_rows<R: System + AllocGlobal>(rt: &R) -> bool {
    let made = is_made(rt, FULL, b"some bytes") & is_made(rt, EMPTY, b"");
    let read = give_all(&mut HostFiles::new(rt));
    made & read & is_removed(rt, FULL) & is_removed(rt, EMPTY)
}

#[test]
fn a_name_is_read_from_its_place(rt: HostRuntime) {
    assert!(rt; are_read_by_rows(&rt));
}

// Whether a file takes these bytes.
fn is_written<R: System>(rt: &R, name: &str, bytes: &[u8]) -> bool {
    match fs::create(rt, name) {
        Ok(file) => write_and_finish(&mut HostSink::new(file), bytes).is_ok(),
        Err(_) => false,
    }
}

// Writes a file of these bytes, reads it, and removes it.
fn is_kept<R: System + AllocGlobal>(rt: &R, bytes: &[u8]) -> bool {
    let name = "tib_io_large";
    let written = is_written(rt, name, bytes);
    let held = compare_file(rt.alloc(), &mut HostFiles::new(rt), name, bytes);
    written & is_removed(rt, name) & (held == Ok(true))
}

// Whether more bytes than a buffer has go through a file, and into a sink that grows.
fn are_many_kept<R: System + AllocGlobal>(rt: &R) -> bool {
    match vec![in rt.alloc(); b'%'; 70_000] {
        Ok(bytes) => is_kept(rt, &bytes) & is_grown(rt.alloc(), &bytes),
        Err(_) => false,
    }
}

#[test]
fn a_large_file_is_read_and_written_whole(rt: HostRuntime) {
    assert!(rt; are_many_kept(&rt));
}
