// A tree from its line, and the limit on its nodes.
ghost use Rattle.std.specs.Prelude.{◌≡◌, ◌≤◌, ◌<◌, ◌+◌, ◌-◌, ◌^◌, ℕ, length, IfOk, OnErr, Some, slice_get, All, map};
ghost use Rattle.tib_lex.specs.Line.{word_at, text_of, Lies};
ghost use Rattle.tib_lex.specs.Lines.{HasNoFeed};
ghost use Rattle.tib_tree.specs.Grows.{Grows, Adds, AddsAll};
ghost use Rattle.tib_tree.specs.Lines.{tree_line, texts_in, IsLine};
ghost use Rattle.tib_tree.specs.Nodes.{IsNode, AreNodes};
ghost use Rattle.tib_tree.specs.Trees.{most_nodes};
ghost use Rattle.tib_tree.specs.Pairs.{pair_of, pairs_of};
ghost use Rattle.tib_tree.specs.Shape.{item_at, items_back, PlaceLies};
ghost use Rattle.tib_tree.specs.Shaped.{blank, blank_of, blanks_back};
ghost use Rattle.tib_lex.specs.Limits.{most_bytes};

use crate::labels::Labels;
use crate::preorder::{Node, Tree, tree_of};
use crate::shape::{Place, Reader};
use std::alloc::{AllocError, Global};
use tib_lex::{FaultKind, LineError, Token, name_text, read_text, read_tokens};

/// The most nodes that a tree in a file may have.
pub const MOST_NODES: usize = 10_000;

/// `MOST_NODES` is the limit that clauses cite.
pub fn trees_have_a_limit()
    ensures { MOST_NODES ≡ most_nodes }
{}

/// The number of the text of a token, which is added after the others if it is new. Err only if
/// memory is refused; the table keeps its texts. `text` is room for the text of a quoted token.
/// Cost: that of `Labels::intern`, and one pass over a quoted token.
pub fn intern_token(
    line: &[u8],
    token: Token,
    labels: &mut Labels,
    text: &mut Vec<u8>,
) -> Result<u32, AllocError>
    requires lies { Lies (length line.now) token }
    requires plain { HasNoFeed line.now }
    requires room { length labels.old < 2 ^ 32 - 1 }
    ensures named { IfOk result (λ n. slice_get labels.new n
        ≡ Some (text_of (word_at line.now token))) }
    ensures added { IfOk result (λ _. Adds labels.old (text_of (word_at line.now token))
        labels.new) }
    ensures err { OnErr result (labels.new ≡ labels.old) }
    ensures grows { Grows labels.old labels.new }
{
    if let Some(name) = name_text(line, token) {
        return labels.intern(name);
    }
    read_text(line, token, text)?;
    labels.intern(text)
}

fn read_node(
    line: &[u8],
    place: Place,
    labels: &mut Labels,
    text: &mut Vec<u8>,
) -> Result<Node, AllocError>
    requires lies { PlaceLies (length line.now) place }
    requires plain { HasNoFeed line.now }
    requires room { length labels.old < 2 ^ 32 - 1 }
    ensures node { IfOk result (λ n. IsNode labels.new (pair_of n) (item_at line.now place)) }
    ensures shape { IfOk result (λ n. blank n ≡ blank_of place) }
    ensures added { IfOk result (λ _. Adds labels.old (item_at line.now place).text labels.new) }
    ensures err { OnErr result (labels.new ≡ labels.old) }
    ensures grows { Grows labels.old labels.new }
{
    let label = intern_token(line, place.token, labels, text)?;
    let rank = place.kids.unwrap_or(0);
    Ok(Node {
        label,
        rank,
        size: place.size,
        depth: place.depth,
    })
}

// The nodes at some places, of which the last is the root's.
fn read_nodes(
    alloc: Global,
    line: &[u8],
    places: &[Place],
    labels: &mut Labels,
    text: &mut Vec<u8>,
) -> Result<Vec<Node>, AllocError>
    requires lie { All (PlaceLies (length line.now)) places.now }
    requires plain { HasNoFeed line.now }
    requires room { length labels.old + length places.now < 2 ^ 32 - 1 }
    ensures nodes { IfOk result (λ nodes. AreNodes labels.new (pairs_of nodes.items)
        (items_back line.now places.now)) }
    ensures shape { IfOk result (λ nodes. map blank nodes.items ≡ blanks_back places.now) }
    ensures added { IfOk result (λ _. AddsAll labels.old (map (λ i.
        i.text) (items_back line.now places.now)) labels.new) }
    ensures few { length labels.new ≤ length labels.old + length places.now }
    ensures grows { Grows labels.old labels.new }
{
    let mut nodes = Vec::with_capacity(alloc, places.len())?;
    let mut i = places.len();
    while i > 0 {
        i -= 1;
        let node = read_node(line, places[i], labels, text)?;
        nodes.push(node)?;
    }
    Ok(nodes)
}

/// Reads lines of a tree file, with room that is used again for each.
#[derive(Drop)]
pub struct LineReader {
    tokens: Vec<Token>,
    reader: Reader,
    text: Vec<u8>,
}

impl LineReader {
    /// A reader that has read nothing. Takes no memory.
    pub fn new(alloc: Global) -> LineReader {
        LineReader {
            tokens: Vec::new(alloc),
            reader: Reader::new(alloc),
            text: Vec::new(alloc),
        }
    }

    /// The tree of a line, if it has tokens. The table grows by the tree's labels that are new. The
    /// fault is `BadToken`, or else `BadTree`, or else `TooManyNodes`; `OutOfMemory`, if memory is
    /// refused, says nothing of the line. After an error the table may hold further texts of the
    /// line's labels. Worst case: O(n) steps for n bytes, where a look-up by hash counts once.
    pub fn read(
        &mut self,
        alloc: Global,
        line: &[u8],
        labels: &mut Labels,
    ) -> Result<Option<Tree>, LineError>
        requires short { length line.now ≤ most_bytes }
        requires plain { HasNoFeed line.now }
        requires room { length labels.old + length line.now < 2 ^ 32 - 1 }
        ensures line { IsLine labels.new result (tree_line line.now) }
        ensures added { IfOk result (λ _. AddsAll labels.old (texts_in (tree_line line.now))
            labels.new) }
        ensures few { length labels.new ≤ length labels.old + length line.now }
        ensures grows { Grows labels.old labels.new }
    {
        if !read_tokens(line, &mut self.tokens)? {
            return Err(LineError::Fault(FaultKind::BadToken));
        }
        if self.tokens.is_empty() {
            return Ok(None);
        }
        if !self.reader.read(&self.tokens)? {
            return Err(LineError::Fault(FaultKind::BadTree));
        }
        if self.reader.places.len() > MOST_NODES {
            return Err(LineError::Fault(FaultKind::TooManyNodes));
        }
        let nodes = read_nodes(alloc, line, &self.reader.places, labels, &mut self.text)?;
        Ok(Some(tree_of(nodes)))
    }
}
