// The text of a tree.
ghost use Rattle.std.specs.Prelude.{◌≡◌, ℕ, ◌<◌, ◌≤◌, List, [], ◌∷◌, ◌++◌, length, take, not, IsTrue, false, replicate, All, IfSome};
ghost use Rattle.std.specs.List.{prefix_len};
ghost use Rattle.tib_lex.specs.Grammar.{IsName, is_name as is_name_text, escape, spelling, label};
ghost use Rattle.tib_tree.specs.Printed.{label_text, tree_text, is_plain_byte, IsRun, backslash_for, gap_text, text_from};
ghost use Rattle.tib_tree.specs.Growth.{text_at, HasLabels};
ghost use Rattle.tib_io.specs.Wrote.{Wrote};

use crate::labels::Labels;
use crate::preorder::{Node, Tree};
use tib_io::{Failed, Sink, write_whole};
use tib_lex::is_name;

/// Whether a label is written in quotes: if it is empty, has a byte that is no name byte, or is
/// `->`. Takes no memory. Worst case: O(n) steps for n bytes.
pub fn needs_quotes(text: &[u8]) -> bool
    ensures value { result ≡ not (is_name_text text.now) }
    ensures yes { IsTrue result → IsName text.now → ⊥ }
    ensures no { result ≡ false → IsName text.now }
{
    !is_name(text)
}

// Writes a piece.
fn print_piece<W: Sink>(out: &mut W, piece: &[u8]) -> Result<(), Failed>
    ensures { Wrote (W.seen out.old) (W.seen out.new) piece.now result }
{
    write_whole(out, piece)
}

fn is_plain(byte: u8) -> bool
    ensures { result ≡ is_plain_byte byte }
{
    byte != b'"' && byte != b'\\'
}

// How many bytes at the front need no backslash.
fn count_plain(bytes: &[u8]) -> usize
    ensures count { result ≡ prefix_len is_plain_byte bytes.now }
    ensures within { result ≤ length bytes.now }
{
    let mut count = 0;
    while count < bytes.len() && is_plain(bytes[count]) {
        count += 1;
    }
    count
}

// How many bytes at the front are written in one piece.
fn run_length(bytes: &[u8]) -> usize
    requires { 0 < length bytes.now }
    ensures some { 0 < result }
    ensures within { result ≤ length bytes.now }
    ensures run { IsRun (take result bytes.now) }
{
    1 + count_plain(&bytes[1..])
}

fn print_backslash<W: Sink>(out: &mut W, run: &[u8]) -> Result<(), Failed>
    requires { 0 < length run.now }
    ensures { Wrote (W.seen out.old) (W.seen out.new) (backslash_for run.now) result }
{
    if is_plain(run[0]) {
        return print_piece(out, &run[..0]);
    }
    print_piece(out, b"\\")
}

// Writes one piece of the bytes in quotes, of which the first may need a backslash.
fn print_run<W: Sink>(out: &mut W, run: &[u8]) -> Result<(), Failed>
    requires some { 0 < length run.now }
    requires run { IsRun run.now }
    ensures { Wrote (W.seen out.old) (W.seen out.new) (escape run.now) result }
{
    match print_backslash(out, run) {
        Ok(()) => print_piece(out, run),
        Err(Failed) => Err(Failed),
    }
}

// Writes the bytes of a label as they are in quotes.
fn print_escaped<W: Sink>(out: &mut W, text: &[u8]) -> Result<(), Failed>
    ensures { Wrote (W.seen out.old) (W.seen out.new) (escape text.now) result }
{
    let mut at = 0;
    while at < text.len() {
        let end = at + run_length(&text[at..]);
        match print_run(out, &text[at..end]) {
            Ok(()) => at = end,
            Err(Failed) => return Err(Failed),
        }
    }
    Ok(())
}

fn print_quoted<W: Sink>(out: &mut W, text: &[u8]) -> Result<(), Failed>
    ensures { Wrote (W.seen out.old) (W.seen out.new) (spelling (label text.now)) result }
{
    match print_piece(out, b"\"") {
        Ok(()) => match print_escaped(out, text) {
            Ok(()) => print_piece(out, b"\""),
            Err(Failed) => Err(Failed),
        },
        Err(Failed) => Err(Failed),
    }
}

/// Writes a label: its bytes, or in quotes with `\"` and `\\` where it needs quotes. It fails only
/// where the sink does, and then a front of the text was written. Takes no memory. Worst case: O(n)
/// steps for n bytes.
pub fn print_label<W: Sink>(out: &mut W, text: &[u8]) -> Result<(), Failed>
    ensures { Wrote (W.seen out.old) (W.seen out.new) (label_text text.now) result }
{
    if needs_quotes(text) {
        return print_quoted(out, text);
    }
    print_piece(out, text)
}

fn print_closes<W: Sink>(out: &mut W, count: u32) -> Result<(), Failed>
    ensures { Wrote (W.seen out.old) (W.seen out.new) (replicate count 41) result }
{
    let mut done = 0;
    while done < count {
        match print_piece(out, b")") {
            Ok(()) => done += 1,
            Err(Failed) => return Err(Failed),
        }
    }
    Ok(())
}

// The parentheses that close a few nodes, and the space after them.
fn short_gap(closes: u32) -> Option<&'static [u8]>
    ensures { IfSome result (λ text. text.now ≡ replicate closes 41 ++ 32 ∷ []) }
{
    match closes {
        0 => Some(&b" "[..]),
        1 => Some(&b") "[..]),
        2 => Some(&b")) "[..]),
        3 => Some(&b"))) "[..]),
        4 => Some(&b")))) "[..]),
        _ => None,
    }
}

// Writes what comes between the label of a node and that of the next one.
fn print_gap<W: Sink>(out: &mut W, above: u32, depth: u32) -> Result<(), Failed>
    ensures { Wrote (W.seen out.old) (W.seen out.new) (gap_text above depth) result }
{
    if above < depth {
        return print_piece(out, b"(");
    }
    let closes = above - depth;
    if let Some(gap) = short_gap(closes) {
        return print_piece(out, gap);
    }
    match print_closes(out, closes) {
        Ok(()) => print_piece(out, b" "),
        Err(Failed) => Err(Failed),
    }
}

// Writes a node after one at the depth `above`.
fn print_node<W: Sink>(out: &mut W, labels: &Labels, above: u32, node: Node) -> Result<(), Failed>
    requires { node.label < length labels.now }
    ensures { Wrote (W.seen out.old) (W.seen out.new)
        (gap_text above node.depth ++ label_text (text_at labels.now node.label)) result }
{
    match print_gap(out, above, node.depth) {
        Ok(()) => print_label(out, labels.text(node.label)),
        Err(Failed) => Err(Failed),
    }
}

// Writes the nodes after the root, whose label was printed.
fn print_nodes<W: Sink>(out: &mut W, labels: &Labels, nodes: &[Node]) -> Result<(), Failed>
    requires labels { All (λ n. n.label < length labels.now) nodes.now }
    ensures { Wrote (W.seen out.old) (W.seen out.new) (text_from labels.now 0 nodes.now) result }
{
    let mut above = 0;
    let mut i = 0;
    while i < nodes.len() {
        let node = nodes[i];
        match print_node(out, labels, above, node) {
            Ok(()) => {
                above = node.depth;
                i += 1;
            }
            Err(Failed) => return Err(Failed),
        }
    }
    print_closes(out, above)
}

/// Writes a tree: its label, and if it has children, these in parentheses with one space between
/// them. Labels are written as `print_label` does. It fails only where the sink does, and then a
/// front of the text was written. Takes no memory. Worst case: O(b) steps for b bytes of text.
pub fn print_tree<W: Sink>(tree: &Tree, labels: &Labels, out: &mut W) -> Result<(), Failed>
    requires { HasLabels labels.now tree.now }
    ensures { Wrote (W.seen out.old) (W.seen out.new) (tree_text labels.now tree.now) result }
{
    let nodes = tree.nodes();
    match print_label(out, labels.text(nodes[0].label)) {
        Ok(()) => print_nodes(out, labels, &nodes[1..]),
        Err(Failed) => Err(Failed),
    }
}
