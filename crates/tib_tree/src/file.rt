// The trees of a tree file, line by line.
ghost use Rattle.std.specs.Prelude.{◌≡◌, ◌<◌, ◌+◌, ◌-◌, ◌^◌, OnOk, take, drop, ◌≤◌, ℕ, length, not, ◌==◌, IfOk, List, [], ◌∷◌, ◌++◌};
ghost use Rattle.std.specs.List.{prefix_len};
ghost use Rattle.tib_tree.specs.File.{trees_of, texts_in_file, AddsLine, IsFile, Pushes};
ghost use Rattle.tib_tree.specs.Grows.{Grows, AddsAll};
ghost use Rattle.tib_tree.specs.Lines.{tree_line, texts_in};
ghost use Rattle.tib_tree.specs.TreesText.{ReadsTrees};
ghost use Rattle.tib_tree.specs.Growth.{HasLabels, label_texts};
ghost use Rattle.tib_lex.specs.Lines.{HasNoFeed};
ghost use Rattle.tib_lex.specs.Lists.{Each};
ghost use Rattle.tib_lex.specs.Limits.{most_bytes};

use crate::labels::Labels;
use crate::preorder::Tree;
use crate::trees::LineReader;
use std::alloc::{AllocError, Global};
use tib_lex::{LineError, ReadError, file_error, line_bytes, next_line};

// Reads a line, and adds its tree if it has one.
fn add_line(
    alloc: Global,
    reader: &mut LineReader,
    line: &[u8],
    labels: &mut Labels,
    trees: &mut Vec<Tree>,
) -> Result<(), LineError>
    requires short { length line.now ≤ most_bytes }
    requires plain { HasNoFeed line.now }
    requires room { length labels.old + length line.now < 2 ^ 32 - 1 }
    ensures line { AddsLine labels.new trees.old.items trees.new.items result (tree_line line.now) }
    ensures added { OnOk result (AddsAll labels.old (texts_in (tree_line line.now)) labels.new) }
    ensures few { length labels.new ≤ length labels.old + length line.now }
    ensures grows { Grows labels.old labels.new }
{
    match reader.read(alloc, line, labels) {
        Ok(Some(tree)) => push_tree(trees, tree),
        Ok(None) => Ok(()),
        Err(e) => Err(e),
    }
}

fn push_tree(trees: &mut Vec<Tree>, tree: Tree) -> Result<(), LineError>
    ensures { Pushes trees.old.items trees.new.items tree result }
{
    push(trees, tree)?;
    Ok(())
}

fn push(trees: &mut Vec<Tree>, tree: Tree) -> Result<(), AllocError>
    ensures { IfOk result (λ _. trees.new.items ≡ trees.old.items ++ tree ∷ []) }
{
    trees.push(tree)?;
    Ok(())
}

// The trees of a file, by the function that says what it holds.
fn read_lines(alloc: Global, bytes: &[u8], labels: &mut Labels) -> Result<Vec<Tree>, ReadError>
    requires short { length bytes.now ≤ most_bytes }
    requires room { length labels.old + length bytes.now < 2 ^ 32 - 1 }
    ensures trees { IsFile labels.new result (trees_of bytes.now) }
    ensures added { IfOk result (λ _. AddsAll labels.old (texts_in_file (trees_of bytes.now))
        labels.new) }
    ensures few { length labels.new ≤ length labels.old + length bytes.now }
    ensures grows { Grows labels.old labels.new }
{
    let mut reader = LineReader::new(alloc);
    let mut trees = Vec::new(alloc);
    let mut at: u32 = 0;
    let mut number: u32 = 1;
    while let Some(line) = next_line(bytes, number, at) {
        match add_line(
            alloc,
            &mut reader,
            line_bytes(bytes, line),
            labels,
            &mut trees,
        ) {
            Ok(()) => {}
            Err(error) => return Err(file_error(line.number, error)),
        }
        at = line.next;
        number += 1;
    }
    Ok(trees)
}

/// The trees of a file, one a line, over a table that grows by just their labels, in the order of
/// first sight. Lines without tokens are skipped. The fault is that of the first line that has one:
/// `BadToken`, or else `BadTree`, or else `TooManyNodes` where its tree has more than 10,000 nodes.
/// After any error the table may hold further texts, and those that it held keep their numbers.
/// `OutOfMemory`, if memory is refused, says nothing of the file. Worst case: O(b) steps for b
/// bytes, where a look-up by hash counts once.
pub fn read_trees(alloc: Global, bytes: &[u8], labels: &mut Labels) -> Result<Vec<Tree>, ReadError>
    requires short { length bytes.now ≤ most_bytes }
    requires room { length labels.old + length bytes.now < 2 ^ 32 - 1 }
    ensures trees { ReadsTrees labels.new bytes.now result }
    ensures file { IsFile labels.new result (trees_of bytes.now) }
    ensures labels { IfOk result (λ trees. Each (HasLabels labels.new) trees.items) }
    ensures added { IfOk result (λ trees. AddsAll labels.old (label_texts labels.new trees.items)
        labels.new) }
    ensures few { length labels.new ≤ length labels.old + length bytes.now }
    ensures grows { Grows labels.old labels.new }
{
    read_lines(alloc, bytes, labels)
}
