// Small grammars read from texts, and trees as text: each node as its label and its number of
// children. A label's number is its place at first sight.
ghost use Rattle.std.specs.Prelude.{[], ◌≡◌, IfSome, length};
ghost use Rattle.tib_grammar_file.specs.Printed.{AreLabelled};

use std::alloc::{AllocError, Global};
use tib_cost::{Cost, Semiring};
use tib_grammar_file::read_grammar;
use tib_k_best::{KBestError, List, Ranked};
use tib_normal::Normal;
use tib_tree::{Labels, Tree};

pub(crate) fn write_number(text: &mut String, number: u64) -> Result<(), AllocError> {
    let digits = number.to_string(*text.allocator())?;
    text.push_str(digits.as_str())
}

fn write_tree(text: &mut String, tree: &Tree) -> Result<(), AllocError> {
    for node in tree.nodes() {
        write_number(text, u64::from(node.label))?;
        text.push_str("/")?;
        write_number(text, u64::from(node.rank))?;
        text.push_str(" ")?;
    }
    Ok(())
}

// A tree, or the number of its nodes where it has 20 or more, and its cost.
pub(crate) fn write_entry(text: &mut String, tree: &Tree, cost: Cost) -> Result<(), AllocError> {
    if tree.nodes().len() < 20 {
        write_tree(text, tree)?;
    } else {
        write_number(text, tree.nodes().len() as u64)?;
        text.push_str(" nodes ")?;
    }
    text.push_str("# ")?;
    write_number(text, cost.get())?;
    text.push_str("; ")
}

pub(crate) fn write_list(text: &mut String, list: &List) -> Result<(), AllocError> {
    for i in 0..list.len() {
        let tree = list.tree(*text.allocator(), i)?;
        write_entry(text, &tree, list.cost(i))?;
    }
    Ok(())
}

fn write_ranked(text: &mut String, list: &Ranked) -> Result<(), AllocError> {
    for i in 0..list.len() {
        let tree = list.tree(*text.allocator(), i)?;
        write_entry(text, &tree, list.cost(i))?;
    }
    Ok(())
}

pub(crate) fn write_fault(text: &mut String, error: KBestError) -> Result<(), AllocError> {
    let KBestError::TreeTooLarge { state } = error else {
        return Err(AllocError);
    };
    text.push_str("too large: ")?;
    write_number(text, u64::from(state))
}

pub(crate) fn write_answer(
    text: &mut String,
    answer: Result<Ranked, KBestError>,
) -> Result<(), AllocError> {
    match answer {
        Ok(list) => write_ranked(text, &list),
        Err(error) => write_fault(text, error),
    }
}

// A word and the number of a state.
fn write_state(text: &mut String, word: &str, state: u64) -> Result<(), AllocError> {
    text.push_str(word)?;
    write_number(text, state)
}

// The rule of a state over two of the next.
fn write_doubling(text: &mut String, state: u64, next: u64) -> Result<(), AllocError> {
    write_state(text, "p", state)?;
    write_state(text, " -> f(p", next)?;
    write_state(text, " p", next)?;
    text.push_str(")\n")
}

// Some lines, and states p0 to the last one, each with a rule over two of the next, and a leaf.
pub(crate) fn write_doublings(text: &mut String, before: &str, last: u8) -> Result<(), AllocError> {
    text.push_str(before)?;
    for i in 0..last {
        let state = u64::from(i);
        write_doubling(text, state, state.wrapping_add(1))?;
    }
    write_state(text, "p", u64::from(last))?;
    text.push_str(" -> a\n")
}

// The grammar of a text, where it is in normal form. Its labels go into a table that had none.
pub(crate) fn read<S: Semiring + Drop>(
    alloc: Global,
    text: &str,
    labels: &mut Labels,
) -> Option<Normal<S>>
    requires { labels.old ≡ [] }
    ensures { IfSome result (λ n. AreLabelled (length labels.new) n.rules) }
{
    let bytes = text.as_bytes();
    if bytes.len() > 10_000 {
        return None;
    }
    match read_grammar::<S>(alloc, bytes, labels) {
        Ok(grammar) => match Normal::new(alloc, grammar) {
            Ok(Some(normal)) => Some(normal),
            _ => None,
        },
        Err(_) => None,
    }
}
