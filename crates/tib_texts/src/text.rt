// The text of weighed trees.
ghost use Rattle.std.specs.Prelude.{◌≡◌, ◌+◌, ◌<◌, ◌++◌, length, IfOk, OnOk};
ghost use Rattle.std.specs.Thread.{IsSync};
ghost use Rattle.tib_io.specs.Wrote.{Wrote};
ghost use Rattle.tib_lex.specs.Lists.{Each};
ghost use Rattle.tib_tree.specs.Growth.{HasLabels};
ghost use Rattle.tib_operations.specs.Text.{cost_text, weighed_line, weighed_lines};

use crate::pieces::write_about;
use std::alloc::Global;
use std::thread::{Threads, join};
use tib_cost::{Cost, Semiring};
use tib_io::{Failed, GrowingSink, Sink, write_whole};
use tib_tree::{Labels, Tree, print_tree};
use tib_weigh::{LEAST_PIECE, halvings, middle_of};

/// Writes what follows a tree or a state: its cost, which in Boolean is not printed, or that it has
/// none. It fails only where the output does; a front of the text is then written.
pub fn print_cost<S: Semiring, W: Sink>(cost: Option<Cost>, out: &mut W) -> Result<(), Failed>
    ensures { Wrote (W.seen out.old) (W.seen out.new) (cost_text S.SCALE cost) result }
{
    match cost {
        None => write_whole(out, b" # none\n"),
        Some(cost) => {
            if S::SCALE.is_weighted() {
                write_about(out, b" # ", S::weight(cost).get(), b"\n")
            } else {
                write_whole(out, b"\n")
            }
        }
    }
}

// Writes the line of a weighed tree.
fn print_line<S: Semiring, W: Sink>(
    tree: &Tree,
    labels: &Labels,
    cost: Option<Cost>,
    out: &mut W,
) -> Result<(), Failed>
    requires { HasLabels labels.now tree.now }
    ensures { Wrote (W.seen out.old) (W.seen out.new)
        (weighed_line S.SCALE labels.now tree.now cost) result }
{
    match print_tree(tree, labels, out) {
        Ok(()) => print_cost::<S, W>(cost, out),
        Err(Failed) => Err(Failed),
    }
}

// Adds the line of a weighed tree to a text.
pub(crate) fn add_line<S: Semiring>(
    text: &mut GrowingSink,
    tree: &Tree,
    labels: &Labels,
    cost: Option<Cost>,
) -> Result<(), Failed>
    requires { HasLabels labels.now tree.now }
    ensures { OnOk result (text.new.bytes ≡ text.old.bytes ++ weighed_line S.SCALE labels.now
        tree.now cost) }
{
    print_line::<S, GrowingSink>(tree, labels, cost, text)
}

// The lines of the trees with their costs, in this thread.
fn lines_of_each<S: Semiring>(
    alloc: Global,
    trees: &[Tree],
    labels: &Labels,
    costs: &[Option<Cost>],
) -> Result<GrowingSink, Failed>
    requires labels { Each (HasLabels labels.now) trees.now }
    requires many { length costs.now ≡ length trees.now }
    ensures { IfOk result (λ text. text.bytes ≡ weighed_lines S.SCALE labels.now trees.now
        costs.now) }
{
    let mut text = GrowingSink::new(alloc);
    for i in 0..trees.len() {
        add_line::<S>(&mut text, &trees[i], labels, costs[i])?;
    }
    Ok(text)
}

// Appends a text to another one.
fn add_text(text: &mut GrowingSink, rest: &GrowingSink) -> Result<(), Failed>
    ensures { OnOk result (text.new.bytes ≡ text.old.bytes ++ rest.now.bytes) }
{
    write_whole(text, rest.bytes())
}

// The lines of the trees with their costs. The work is halved by nodes `times` times, and each half
// has a thread of its own.
#[cycle(lines)]
fn lines_of_halves<S: Semiring + Sync, R: Threads + Sync>(
    rt: &R,
    alloc: Global,
    trees: &[Tree],
    labels: &Labels,
    costs: &[Option<Cost>],
    times: u32,
) -> Result<GrowingSink, Failed>
    requires labels { Each (HasLabels labels.now) trees.now }
    requires many { length costs.now ≡ length trees.now }
    ensures { IfOk result (λ text. text.bytes ≡ weighed_lines S.SCALE labels.now trees.now
        costs.now) }
{
    let Some(middle) = middle_of(trees, times, LEAST_PIECE) else {
        return lines_of_each::<S>(alloc, trees, labels, costs);
    };
    let (front, back) = trees.split_at(middle);
    let (front_costs, back_costs) = costs.split_at(middle);
    let of_front = move || -> Result<GrowingSink, Failed>
        requires { IsSync R.row × IsSync S.row × (0 < times) × Each (HasLabels labels.now)
            front.now × (length front_costs.now ≡ length front.now) }
        ensures { IfOk result (λ text. text.bytes ≡ weighed_lines S.SCALE labels.entry.now
            front.entry.now front_costs.entry.now) }
    { lines_of_halves::<S, R>(rt, alloc, front, labels, front_costs, times - 1) };
    let of_back = move || -> Result<GrowingSink, Failed>
        requires { IsSync R.row × IsSync S.row × (0 < times) × Each (HasLabels labels.now)
            back.now × (length back_costs.now ≡ length back.now) }
        ensures { IfOk result (λ text. text.bytes ≡ weighed_lines S.SCALE labels.entry.now
            back.entry.now back_costs.entry.now) }
    { lines_of_halves::<S, R>(rt, alloc, back, labels, back_costs, times - 1) };
    let (first, second) = join(rt, of_front, of_back);
    let mut text = first?;
    let rest = second?;
    add_text(&mut text, &rest)?;
    Ok(text)
}

/// The lines of the trees with their costs, printed in several threads. It fails only if memory is
/// refused. Worst case: one pass over the nodes, and each byte is moved once for each time that the
/// trees are parted, seven times at most.
pub fn weighed_text<S: Semiring + Sync, R: Threads + Sync>(
    rt: &R,
    alloc: Global,
    trees: &[Tree],
    labels: &Labels,
    costs: &[Option<Cost>],
) -> Result<GrowingSink, Failed>
    requires labels { Each (HasLabels labels.now) trees.now }
    requires many { length costs.now ≡ length trees.now }
    ensures { IfOk result (λ text. text.bytes ≡ weighed_lines S.SCALE labels.now trees.now
        costs.now) }
{
    lines_of_halves::<S, R>(rt, alloc, trees, labels, costs, halvings(rt))
}
