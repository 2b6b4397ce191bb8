// The one tree of a tree file.
ghost use Rattle.std.specs.Prelude.{◌≡◌, ◌<◌, ◌+◌, ◌-◌, ◌^◌, ◌≤◌, [], ◌∷◌, length, IfOk, OnOk};
ghost use Rattle.tib_lex.specs.Limits.{most_bytes};
ghost use Rattle.tib_lex.specs.Lines.{HasNoFeed};
ghost use Rattle.tib_tree.specs.Grows.{Grows, AddsAll};
ghost use Rattle.tib_tree.specs.Growth.{label_texts};
ghost use Rattle.tib_tree.specs.Lines.{tree_line, texts_in};
ghost use Rattle.tib_tree.specs.TreesRead.{CountsLine};
ghost use Rattle.tib_tree.specs.OneTree.{ReadsOneTree};

use crate::trees_read::TreesRead;
use crate::{Labels, LineReader, Tree};
use std::alloc::Global;
use tib_lex::{FaultKind, FileFault, LineError, ReadError, file_error, line_bytes, next_line};

// Reads a line, and counts its tree if it has one.
fn read_line(
    alloc: Global,
    reader: &mut LineReader,
    line: &[u8],
    number: u32,
    labels: &mut Labels,
    found: &mut TreesRead,
) -> Result<(), LineError>
    requires short { length line.now ≤ most_bytes }
    requires plain { HasNoFeed line.now }
    requires room { length labels.old + length line.now < 2 ^ 32 - 1 }
    ensures line { CountsLine labels.new number found.old found.new result (tree_line line.now) }
    ensures added { OnOk result (AddsAll labels.old (texts_in (tree_line line.now)) labels.new) }
    ensures few { length labels.new ≤ length labels.old + length line.now }
    ensures grows { Grows labels.old labels.new }
{
    match reader.read(alloc, line, labels) {
        Ok(Some(tree)) => {
            found.add(tree, number);
            Ok(())
        }
        Ok(None) => Ok(()),
        Err(error) => Err(error),
    }
}

/// The one tree of a file, over a table that grows by the labels of its trees. Lines without tokens
/// are skipped. The fault is that of the first line that has one, as in any file of trees; else, if
/// the file has no tree, `BadTree` in line 1, and if it has several, `BadTree` in the line of the
/// second. After any error the table may hold further texts, and those that it held keep their
/// numbers. `OutOfMemory`, if memory is refused, says nothing of the file. Only the first tree is
/// kept, and one line at a time is read. Worst case: O(b) steps for b bytes, where a look-up by
/// hash counts once.
pub fn read_one_tree(alloc: Global, bytes: &[u8], labels: &mut Labels) -> Result<Tree, ReadError>
    requires short { length bytes.now ≤ most_bytes }
    requires room { length labels.old + length bytes.now < 2 ^ 32 - 1 }
    ensures tree { ReadsOneTree labels.new bytes.now result }
    ensures added { IfOk result (λ t. AddsAll labels.old (label_texts labels.new (t ∷ []))
        labels.new) }
    ensures few { length labels.new ≤ length labels.old + length bytes.now }
    ensures grows { Grows labels.old labels.new }
{
    let mut reader = LineReader::new(alloc);
    let mut found = TreesRead::Nothing;
    let mut at: u32 = 0;
    let mut number: u32 = 1;
    while let Some(line) = next_line(bytes, number, at) {
        match read_line(
            alloc,
            &mut reader,
            line_bytes(bytes, line),
            number,
            labels,
            &mut found,
        ) {
            Ok(()) => {}
            Err(error) => return Err(file_error(line.number, error)),
        }
        at = line.next;
        number += 1;
    }
    let kind = FaultKind::BadTree;
    match found {
        TreesRead::One(tree) => Ok(tree),
        TreesRead::Nothing => Err(ReadError::Fault(FileFault { line: 1, kind })),
        TreesRead::Second(line) => Err(ReadError::Fault(FileFault { line, kind })),
    }
}
