// Tree files that are read, refused and printed.
ghost use Rattle.std.specs.Prelude.{◌≡◌, ◌≤◌, [], length};
ghost use Rattle.tib_lex.specs.Limits.{most_bytes};
ghost use Rattle.tib_lex.specs.Lists.{Each};
ghost use Rattle.tib_tree.specs.Growth.{HasLabels};

use crate::texts::repeated;
use std::alloc::{AllocError, Global};
use tib_io::{Failed, GrowingSink};
use tib_lex::{FaultKind, FileFault, ReadError};
use tib_tree::{Labels, Node, ShapeError, Tree, needs_quotes, print_tree, read_trees};

// How many trees a file has, or the line and the kind of its fault.
type Wanted = Result<usize, (u32, FaultKind)>;

// A file, and what is read of it.
type Row = (&'static [u8], Wanted);

static ROWS: [Row; 6] = [
    (b"", Ok(0)),
    (b"S(a a)\n\n% none\n \t\r\na()\r\n\"a b\"", Ok(3)),
    (b"a\nS(\n\"a", Err((2, FaultKind::BadTree))),
    (b"a b\n", Err((1, FaultKind::BadTree))),
    (b"a(-> b)\n", Err((1, FaultKind::BadTree))),
    (b"\n) \"a", Err((2, FaultKind::BadToken))),
];

// Whether this many trees were wanted.
fn are_wanted(count: usize, want: &Wanted) -> bool {
    match want {
        Ok(wanted) => count == *wanted,
        Err(_) => false,
    }
}

// Whether such an error was wanted.
fn is_fault(error: ReadError, want: &Wanted) -> bool {
    match want {
        Ok(_) => false,
        Err((line, kind)) => error == fault_of(*line, *kind),
    }
}

fn fault_of(line: u32, kind: FaultKind) -> ReadError {
    ReadError::Fault(FileFault { line, kind })
}

// Whether a file is read as it is wanted, into a table without labels.
fn reads_into(alloc: Global, bytes: &[u8], want: &Wanted, labels: &mut Labels) -> bool
    requires short { length bytes.now ≤ most_bytes }
    requires new { labels.old ≡ [] }
{
    match read_trees(alloc, bytes, labels) {
        Ok(trees) => are_wanted(trees.len(), want),
        Err(error) => is_fault(error, want),
    }
}

// Whether a file is read as it is wanted.
fn reads(alloc: Global, bytes: &[u8], want: &Wanted) -> bool {
    if bytes.len() > 8_388_608 {
        return false;
    }
    reads_into(alloc, bytes, want, &mut Labels::new(alloc))
}

#[test]
fn a_tree_file_gives_its_trees_or_its_first_fault(rt: HostRuntime) {
    for (bytes, want) in &ROWS {
        assert!(rt; reads(rt.alloc(), *bytes, want));
    }
}

// How many children the only tree of a file has, and what is read of the file.
static WIDE: [(u32, Wanted); 2] = [(9999, Ok(1)), (10000, Err((1, FaultKind::TooManyNodes)))];

// Whether a file of one tree with this many children is read as it is wanted.
fn reads_wide(alloc: Global, children: u32, want: &Wanted) -> bool {
    match repeated(alloc, b"f(", b"a ", children, b")") {
        Ok(bytes) => reads(alloc, &bytes, want),
        Err(_) => false,
    }
}

#[test]
fn a_tree_of_10001_nodes_is_too_large(rt: HostRuntime) {
    for (children, want) in &WIDE {
        assert!(rt; reads_wide(rt.alloc(), *children, want));
    }
}

// The last digit of a number to the base 32, from the byte of `@` on.
fn digit(number: u32) -> u8 {
    b'@' + (number % 32) as u8
}

// A file of this many trees, each one label of its own.
fn many_trees(alloc: Global, count: u32) -> Result<Vec<u8>, AllocError> {
    let mut bytes = Vec::new(alloc);
    for n in 0..count {
        let name = [digit(n), digit(n / 32), digit(n / 1024), digit(n / 32_768)];
        bytes.extend_from_slice(&name)?;
        bytes.push(b'\n')?;
    }
    Ok(bytes)
}

// Whether a file has 70,000 trees and as many labels, of which `A@@@` is the second.
fn has_all_trees(alloc: Global, bytes: &[u8]) -> bool {
    if bytes.len() > 8_388_608 {
        return false;
    }
    let mut labels = Labels::new(alloc);
    reads_into(alloc, bytes, &Ok(70_000), &mut labels) && has_all_labels(&labels)
}

fn has_all_labels(labels: &Labels) -> bool {
    labels.len() == 70_000 && labels.find(b"A@@@") == Some(1)
}

// Whether a file of 70,000 trees is read.
fn reads_long_file(alloc: Global) -> bool {
    match many_trees(alloc, 70_000) {
        Ok(bytes) => has_all_trees(alloc, &bytes),
        Err(_) => false,
    }
}

#[test]
fn a_long_file_is_read_whole(rt: HostRuntime) {
    assert!(rt; reads_long_file(rt.alloc()));
}

#[test]
fn a_list_of_nodes_is_one_tree(rt: HostRuntime) {
    let missing = Tree::from_preorder(rt.alloc(), &[(0, 2), (1, 0)]);
    assert!(rt; matches!(missing, Err(ShapeError::NotATree)));
}

// A node's label, rank, size and depth.
static NODES: [(u32, u32, u32, u32); 4] = [(0, 2, 4, 0), (1, 1, 2, 1), (2, 0, 1, 2), (1, 0, 1, 1)];

fn is_of(node: &Node, want: &(u32, u32, u32, u32)) -> bool {
    (node.label, node.rank, node.size, node.depth) == *want
}

fn are_of(nodes: &[Node], want: &[(u32, u32, u32, u32)]) -> bool {
    for (node, want) in nodes.iter().zip(want) {
        if !is_of(node, want) {
            return false;
        }
    }
    nodes.len() == want.len()
}

// Whether the tree of these labels and ranks has the nodes of the table.
fn makes_nodes(alloc: Global) -> bool {
    match Tree::from_preorder(alloc, &[(0, 2), (1, 1), (2, 0), (1, 0)]) {
        Ok(tree) => are_of(tree.nodes(), &NODES),
        Err(_) => false,
    }
}

#[test]
fn nodes_have_sizes_and_depths(rt: HostRuntime) {
    assert!(rt; makes_nodes(rt.alloc()));
}

fn print_first(trees: &[Tree], labels: &Labels, out: &mut GrowingSink) -> Result<(), Failed>
    requires { Each (HasLabels labels.now) trees.now }
{
    match trees {
        [first, ..] => print_tree(first, labels, out),
        [] => Ok(()),
    }
}

// Whether the first of the trees is printed as this text.
fn is_printed(alloc: Global, trees: &[Tree], labels: &Labels, text: &[u8]) -> bool
    requires { Each (HasLabels labels.now) trees.now }
{
    let mut out = GrowingSink::new(alloc);
    print_first(trees, labels, &mut out).is_ok() && out.bytes() == text
}

// Whether a text is read into a table without labels, and its first tree is printed as the text.
fn prints_from(alloc: Global, text: &[u8], labels: &mut Labels) -> bool
    requires short { length text.now ≤ most_bytes }
    requires new { labels.old ≡ [] }
{
    match read_trees(alloc, text, labels) {
        Ok(trees) => is_printed(alloc, &trees, labels, text),
        Err(_) => false,
    }
}

// Whether the tree of a text is printed as the text, and has this many labels.
fn prints_as_read(alloc: Global, text: &[u8], count: usize) -> bool {
    if text.len() > 8_388_608 {
        return false;
    }
    let mut labels = Labels::new(alloc);
    prints_from(alloc, text, &mut labels) && labels.len() == count
}

// The text of a tree, and how many labels it has.
static PRINTED: [(&[u8], usize); 2] = [
    (
        b"f(\"a b\" g(\"\\\"x\\\\\" h(\"->\")) \"\" \"1\xff)\" f)",
        8,
    ),
    // Labels that come again keep their numbers.
    (b"f(\"\" a abcdefg abcdefgh a(abcdefgh abcdefg) \"\" f)", 5),
];

#[test]
fn a_printed_tree_is_its_text_and_its_labels_are_numbered_once(rt: HostRuntime) {
    for (text, count) in &PRINTED {
        assert!(rt; prints_as_read(rt.alloc(), *text, *count));
    }
}

#[test]
fn an_arrow_alone_needs_quotes(rt: HostRuntime) {
    assert!(rt; needs_quotes(b"->") && !needs_quotes(b"->>"));
}
