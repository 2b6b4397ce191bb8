// Files of one tree, of none and of several.
ghost use Rattle.std.specs.Prelude.{◌≡◌, ◌≤◌, [], length};
ghost use Rattle.tib_lex.specs.Limits.{most_bytes};

use std::alloc::Global;
use tib_lex::{FaultKind, FileFault, ReadError};
use tib_tree::{Labels, Tree, read_one_tree};

// The label of a tree, or the line and the kind of a fault.
type Wanted = Result<&'static str, (u32, FaultKind)>;

// A file, and what is read of it.
type Row = (&'static [u8], Wanted);

static ROWS: [Row; 12] = [
    (b"A(a)", Ok("A")),
    (b"\n% none\n \t\r\nS(a b)\n\n", Ok("S")),
    (b"", Err((1, FaultKind::BadTree))),
    (b"\n\n % none", Err((1, FaultKind::BadTree))),
    (b"A(a)\na", Err((2, FaultKind::BadTree))),
    (b"\na\n\n% none\n\nb", Err((6, FaultKind::BadTree))),
    (b"a\nb\nc\nd\n", Err((2, FaultKind::BadTree))),
    (b"a\nb\n(", Err((3, FaultKind::BadTree))),
    (b"a\nb\nc\n\"d", Err((4, FaultKind::BadToken))),
    (b"\n(", Err((2, FaultKind::BadTree))),
    (b"a b", Err((1, FaultKind::BadTree))),
    (b"\"", Err((1, FaultKind::BadToken))),
];

// Whether a tree has nodes, and its first label is the first of the table.
fn begins_with(tree: &Tree, labels: &Labels, label: &str) -> bool {
    if tree.nodes().len() == 0 {
        return false;
    }
    match labels.find(label.as_bytes()) {
        Some(number) => number == 0,
        None => false,
    }
}

// Whether such a tree was wanted.
fn is_wanted(tree: &Tree, labels: &Labels, want: &Wanted) -> bool {
    match want {
        Ok(label) => begins_with(tree, labels, *label),
        Err(_) => false,
    }
}

// Whether such an error was wanted.
fn is_fault(error: ReadError, want: &Wanted) -> bool {
    match want {
        Ok(_) => false,
        Err((line, kind)) => error == fault_of(*line, *kind),
    }
}

fn fault_of(line: u32, kind: FaultKind) -> ReadError {
    ReadError::Fault(FileFault { line, kind })
}

// Whether a file is read as it is wanted, into a table without labels.
fn reads_into(alloc: Global, bytes: &[u8], want: &Wanted, labels: &mut Labels) -> bool
    requires short { length bytes.now ≤ most_bytes }
    requires new { labels.old ≡ [] }
{
    match read_one_tree(alloc, bytes, labels) {
        Ok(tree) => is_wanted(&tree, labels, want),
        Err(error) => is_fault(error, want),
    }
}

// Whether the file of a row is read as the row says.
fn reads(alloc: Global, row: &Row) -> bool {
    if row.0.len() > 8_388_608 {
        return false;
    }
    reads_into(alloc, row.0, &row.1, &mut Labels::new(alloc))
}

#[test]
fn a_file_gives_its_one_tree_or_its_fault(rt: HostRuntime) {
    for row in &ROWS {
        assert!(rt; reads(rt.alloc(), row));
    }
}
