// Prints trees, however their labels and leaves are written.
ghost use Rattle.std.specs.Prelude.{◌≡◌, ◌≤◌, ◌<◌, ◌+◌, ◌++◌, ℕ, List, length, drop, IfOk, All};
ghost use Rattle.tib_tree.specs.Trees.{Trees, preorder, count as count_of};
ghost use Rattle.tib_grammar.specs.Items.{pair_of, pairs_of};
ghost use Rattle.tib_grammar.specs.Sides.{Symbol};
ghost use Rattle.tib_io.specs.Wrote.{Wrote};
ghost use Rattle.tib_grammar_file.specs.TreeText.{IsWithin, IsSideWithin, space, opening, symbol_text, trees_text, side_text};

use crate::pieces::{put_closing, put_opening, put_space};
use tib_grammar::{Item, Names, Side};
use tib_io::{Failed, Sink};
use tib_tree::Labels;

/// How a format writes the labels and the leaves of a side.
pub trait Notation {
    /// What a leaf carries.
    type Leaf;

    // The text of a label, over the names of states and the label's own text.
    ghost label_text: { List (List ℕ) → List ℕ → List ℕ };

    // The text of a leaf, over the names of states and the texts of labels.
    ghost leaf_text: { List (List ℕ) → List (List ℕ) → Self.Leaf → List ℕ };

    // The texts that a leaf needs are there.
    ghost fits: { List (List ℕ) → List (List ℕ) → Self.Leaf → Type 0 };

    /// Appends a label of this text. If the sink fails, a front of what is written for it was
    /// appended.
    fn put_label<W: Sink>(out: &mut W, names: &Names, text: &[u8]) -> Result<(), Failed>
        ensures { Wrote (W.seen out.old) (W.seen out.new) (label_text names.now text.now) result };

    /// Appends a leaf. If the sink fails, a front of its text was appended.
    fn put_leaf<W: Sink>(
        out: &mut W,
        leaf: &Self::Leaf,
        names: &Names,
        labels: &Labels,
    ) -> Result<(), Failed>
        requires { fits names.now labels.now leaf.now }
        ensures { Wrote (W.seen out.old) (W.seen out.new)
            (leaf_text names.now labels.now leaf.now) result };
}

fn put_symbol<N: Notation, W: Sink>(
    out: &mut W,
    item: &Item<N::Leaf>,
    names: &Names,
    labels: &Labels,
) -> Result<(), Failed>
    requires { IsWithin (N.fits names.now labels.now) (length labels.now) item.now }
    ensures { Wrote (W.seen out.old) (W.seen out.new)
        (symbol_text (N.label_text names.now) (N.leaf_text names.now labels.now) labels.now
        (pair_of item.now).0) result }
{
    match item {
        Item::Label { label, .. } => N::put_label(out, names, labels.text(*label)),
        Item::Hole(leaf) => N::put_leaf(out, leaf, names, labels),
    }
}

fn rank_of<P>(item: &Item<P>) -> u32
    ensures { result ≡ (pair_of item.now).1 }
{
    match item {
        Item::Label { rank, .. } => *rank,
        Item::Hole(_) => 0,
    }
}

fn put_spaced<N: Notation, W: Sink>(
    out: &mut W,
    k: u32,
    item: &Item<N::Leaf>,
    names: &Names,
    labels: &Labels,
) -> Result<(), Failed>
    requires { IsWithin (N.fits names.now labels.now) (length labels.now) item.now }
    ensures { Wrote (W.seen out.old) (W.seen out.new)
        (space k ++ symbol_text (N.label_text names.now) (N.leaf_text names.now labels.now)
        labels.now (pair_of item.now).0) result }
{
    match put_space(out, k) {
        Ok(()) => put_symbol::<N, W>(out, item, names, labels),
        Err(Failed) => Err(Failed),
    }
}

// Appends what comes before a node's children.
fn put_head<N: Notation, W: Sink>(
    out: &mut W,
    k: u32,
    item: &Item<N::Leaf>,
    names: &Names,
    labels: &Labels,
) -> Result<(), Failed>
    requires { IsWithin (N.fits names.now labels.now) (length labels.now) item.now }
    ensures { Wrote (W.seen out.old) (W.seen out.new)
        ((space k ++ symbol_text (N.label_text names.now) (N.leaf_text names.now labels.now)
        labels.now (pair_of item.now).0) ++ opening (pair_of item.now).1) result }
{
    match put_spaced::<N, W>(out, k, item, names, labels) {
        Ok(()) => put_opening(out, rank_of(item)),
        Err(Failed) => Err(Failed),
    }
}

// Appends a number of trees from an index of a preorder on, with a space between them. It returns
// the index after them.
fn put_trees<N: Notation, W: Sink>(
    out: &mut W,
    items: &[Item<N::Leaf>],
    at: usize,
    count: u32,
    names: &Names,
    labels: &Labels,
) -> Result<usize, Failed>
    requires place { at ≤ length items.now }
    requires within { All (IsWithin (N.fits names.now labels.now) (length labels.now)) items.now }
    requires trees { (ts : Trees (Symbol ℕ N.Leaf)) × (ys : List (Symbol ℕ N.Leaf × ℕ))
        × (pairs_of (drop at items.now) ≡ preorder ts ++ ys) × (count_of ts ≡ count) }
    ensures next { IfOk result (λ n.
        (ts : Trees (Symbol ℕ N.Leaf)) (ys : List (Symbol ℕ N.Leaf × ℕ)) →
        pairs_of (drop at items.now) ≡ preorder ts ++ ys → count_of ts ≡ count →
        n ≡ at + length (preorder ts)) }
    ensures prints { (ts : Trees (Symbol ℕ N.Leaf)) (ys : List (Symbol ℕ N.Leaf × ℕ)) → pairs_of
        (drop at items.now) ≡ preorder ts ++ ys → count_of ts ≡ count → Wrote (W.seen out.old)
        (W.seen out.new) (trees_text (symbol_text (N.label_text names.now) (N.leaf_text names.now
        labels.now) labels.now) ts 0) result }
{
    let mut next = at;
    for k in 0..count {
        let item = &items[next];
        let rank = rank_of(item);
        match put_head::<N, W>(out, k, item, names, labels) {
            Ok(()) => {}
            Err(Failed) => return Err(Failed),
        }
        match put_trees::<N, W>(out, items, next + 1, rank, names, labels) {
            Ok(behind) => next = behind,
            Err(Failed) => return Err(Failed),
        }
        match put_closing(out, rank) {
            Ok(()) => {}
            Err(Failed) => return Err(Failed),
        }
    }
    Ok(next)
}

/// Appends a side, which is one tree: each label or leaf as `N` writes it, then its children in
/// parentheses, if it has some, with a space between them. If the sink fails, a front of this was
/// appended. It takes no memory; its calls nest as deep as the side. Worst case: O(n) steps for n
/// nodes, and what `N` takes to write each of them.
pub fn put_side<N: Notation, W: Sink>(
    out: &mut W,
    side: &Side<N::Leaf>,
    names: &Names,
    labels: &Labels,
) -> Result<(), Failed>
    requires { IsSideWithin (N.fits names.now labels.now) (length labels.now) side.now }
    ensures { Wrote (W.seen out.old) (W.seen out.new)
        (side_text (symbol_text (N.label_text names.now) (N.leaf_text names.now labels.now)
        labels.now) side.now) result }
{
    match put_trees::<N, W>(out, side.items(), 0, 1, names, labels) {
        Ok(_) => Ok(()),
        Err(Failed) => Err(Failed),
    }
}
