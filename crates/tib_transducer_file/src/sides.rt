// The sides of a rule.
ghost use Rattle.std.specs.Prelude.{◌≡◌, ◌≤◌, ◌<◌, ◌+◌, ◌-◌, ◌^◌, ℕ, List, [], ◌∷◌, length, map, All, IfOk, Some, slice_get, Option, false};
ghost use Rattle.std.specs.List.{flat_map};
ghost use Rattle.indexmap.specs.IndexSet.{keys};
ghost use Rattle.tib_lex.specs.Line.{Lies};
ghost use Rattle.tib_lex.specs.Lines.{HasNoFeed};
ghost use Rattle.tib_lex.specs.Lists.{Along};
ghost use Rattle.tib_tree.specs.Grows.{Grows, Adds, AddsAll};
ghost use Rattle.tib_tree.specs.Shape.{items_back, item_at, PlaceLies};
ghost use Rattle.tib_tree.specs.Trees.{preorder_of, most_nodes, IsOneTree};
ghost use Rattle.tib_tree.specs.Written.{Item as ItemOf};
ghost use Rattle.tib_grammar.specs.Items.{pair_of, pairs_of, holes_in};
ghost use Rattle.tib_transducer.specs.Range.{AreNumbered};
ghost use Rattle.tib_transducer.specs.Rules.{variables_of};
ghost use Rattle.tib_transducer_file.specs.Added.{asked_as, on_left, on_right, left_labels};
ghost use Rattle.tib_transducer_file.specs.Forms.{pair_in as spec_pair_in};
ghost use Rattle.tib_transducer_file.specs.Rule.{is_unknown};
ghost use Rattle.tib_transducer_file.specs.Found.{IsRootAt, parts_with, bytes_at};
ghost use Rattle.tib_transducer_file.specs.Value.{IsAsked, IsRootItem, IsLeftNode, IsRightNode, IsLeftSide, right_text, states_in, state_before};
ghost use Rattle.tib_transducer_file.specs.Built.{AreOneTree, AreKnown};
ghost use Rattle.tib_grammar_file.specs.Found.{text_at, WeightLies};
ghost use Rattle.tib_transducer_file.specs.Forms.{written_label};
ghost use Rattle.tib_transducer_file.specs.Sides.{PushesLeft};

use crate::forms::{RootToken, label_token, pair_in, variable_in};
use crate::right::RightReader;
use indexmap::IndexSet;
use std::alloc::{AllocError, Global};
use tib_grammar::{Item, Side};
use tib_grammar_file::read_name;
use tib_lex::Token;
use tib_transducer::{Pair, Variable};
use tib_tree::{Labels, Place, ShapeError};

// The number of the label that a variable asks for, if it asks for one.
fn read_asked(
    line: &[u8],
    label: Option<Token>,
    labels: &mut Labels,
    text: &mut Vec<u8>,
) -> Result<Option<u32>, AllocError>
    requires lies { WeightLies (length line.now) label }
    requires plain { HasNoFeed line.now }
    requires room { length labels.old < 2 ^ 32 - 1 }
    ensures asked { IfOk result (λ n. IsAsked labels.new n (text_at line.now label)) }
    ensures texts { IfOk result (λ _. AddsAll labels.old (asked_as (text_at line.now label))
        labels.new) }
    ensures grows { Grows labels.old labels.new }
    ensures few { length labels.new ≤ length labels.old + 1 }
{
    match label {
        None => Ok(None),
        Some(token) => {
            let number = read_name(line, token, labels, text)?;
            Ok(Some(number))
        }
    }
}

// A node below the root of a left side. A variable gets this number.
fn left_item(
    line: &[u8],
    place: Place,
    number: u32,
    labels: &mut Labels,
    text: &mut Vec<u8>,
) -> Result<Item<Variable>, AllocError>
    requires lies { PlaceLies (length line.now) place }
    requires plain { HasNoFeed line.now }
    requires room { length labels.old < 2 ^ 32 - 1 }
    ensures item { IfOk result (λ s. IsLeftNode labels.new (pair_of s) (item_at line.now place)) }
    ensures numbered { IfOk result (λ s. AreNumbered number (holes_in (s ∷ []))) }
    ensures texts { IfOk result (λ _. AddsAll labels.old (on_left (item_at line.now place))
        labels.new) }
    ensures grows { Grows labels.old labels.new }
    ensures few { length labels.new ≤ length labels.old + 1 }
{
    if let Some(variable) = variable_in(line, place) {
        let label = read_asked(line, variable.label, labels, text)?;
        return Ok(Item::Hole(Variable { number, label }));
    }
    let label = read_name(line, place.token, labels, text)?;
    let rank = place.kids.unwrap_or(0);
    Ok(Item::Label { label, rank })
}

// The number of the next variable after an item.
fn number_behind(item: &Item<Variable>, number: u32) -> u32
    requires { number < 2 ^ 32 - 1 }
    ensures { result ≡ number + length (holes_in (item.now ∷ [])) }
{
    match item {
        Item::Label { .. } => number,
        Item::Hole(_) => number + 1,
    }
}

// The root of a left side.
fn root_item(
    line: &[u8],
    place: Place,
    root: RootToken,
    labels: &mut Labels,
    text: &mut Vec<u8>,
) -> Result<Item<Variable>, AllocError>
    requires lies { Lies (length line.now) root.behind }
    requires plain { HasNoFeed line.now }
    requires room { length labels.old < 2 ^ 32 - 1 }
    ensures item { IfOk result (λ s. IsRootItem labels.new (pair_of s)
        (written_label (bytes_at line.now root.behind)) place.kids) }
    ensures numbered { IfOk result (λ s. holes_in (s ∷ []) ≡ []) }
    ensures text { IfOk result (λ _. Adds labels.old
        (written_label (bytes_at line.now root.behind)) labels.new) }
    ensures grows { Grows labels.old labels.new }
    ensures few { length labels.new ≤ length labels.old + 1 }
{
    let token = label_token(line, root.behind.start, root.behind.end);
    let label = read_name(line, token, labels, text)?;
    let rank = place.kids.unwrap_or(0);
    Ok(Item::Label { label, rank })
}

// The nodes of a left side below its root go after it.
fn push_below(
    line: &[u8],
    below: &[Place],
    items: &mut Vec<Item<Variable>>,
    labels: &mut Labels,
    text: &mut Vec<u8>,
) -> Result<(), AllocError>
    requires lie { All (PlaceLies (length line.now)) below.now }
    requires plain { HasNoFeed line.now }
    requires few { length below.now ≤ most_nodes }
    requires room { length labels.old + length below.now < 2 ^ 32 - 1 }
    ensures items { IfOk result (λ _. PushesLeft labels.new items.old.items items.new.items
        (items_back line.now below.now)) }
    ensures texts { IfOk result (λ _. AddsAll labels.old
        (flat_map on_left (items_back line.now below.now)) labels.new) }
    ensures grows { Grows labels.old labels.new }
    ensures few { length labels.new ≤ length labels.old + length below.now }
{
    let mut number: u32 = 0;
    let mut i = below.len();
    while i > 0 {
        i -= 1;
        let item = left_item(line, below[i], number, labels, text)?;
        number = number_behind(&item, number);
        items.push(item)?;
    }
    Ok(())
}

fn left_side(items: Vec<Item<Variable>>) -> Side<Variable>
    requires few { length items.items ≤ most_nodes }
    requires tree { IsOneTree (pairs_of items.items) }
    ensures { preorder_of result ≡ pairs_of items.items }
{
    match Side::from_preorder(items) {
        Ok(side) => side,
        Err(ShapeError::NotATree) => unreachable!(),
        Err(ShapeError::OutOfMemory) => unreachable!(),
    }
}

/// The left side of a rule, whose variables are numbered anew in preorder. The texts of labels go
/// into the table. Err only if memory is refused. It takes time in proportion to the nodes and
/// their texts.
pub(crate) fn read_left(
    alloc: Global,
    line: &[u8],
    places: &[Place],
    root: RootToken,
    labels: &mut Labels,
    text: &mut Vec<u8>,
) -> Result<Side<Variable>, AllocError>
    requires root { (r : ItemOf) × (below : List ItemOf)
        × (items_back line.now places.now ≡ r ∷ below) × IsRootAt line.now r.text root }
    requires tree { AreOneTree (items_back line.now places.now) }
    requires lie { All (PlaceLies (length line.now)) places.now }
    requires plain { HasNoFeed line.now }
    requires few { length places.now ≤ most_nodes }
    requires room { length labels.old + length places.now < 2 ^ 32 - 1 }
    ensures side { IfOk result (λ s. (right : List ItemOf) (weight : Option (List ℕ)) →
        IsLeftSide labels.new (preorder_of s) (parts_with (items_back line.now places.now) right
        weight)) }
    ensures numbered { IfOk result (λ s. AreNumbered 0 (variables_of s)) }
    ensures texts { IfOk result (λ _. (right : List ItemOf) (weight : Option (List ℕ)) → AddsAll
        labels.old (left_labels (parts_with (items_back line.now places.now) right weight))
        labels.new) }
    ensures grows { Grows labels.old labels.new }
    ensures few { length labels.new ≤ length labels.old + length places.now }
{
    let last = places.len() - 1;
    let mut items = Vec::with_capacity(alloc, places.len())?;
    let first = root_item(line, places[last], root, labels, text)?;
    items.push(first)?;
    push_below(line, &places[..last], &mut items, labels, text)?;
    Ok(left_side(items))
}

// The place of a number among those of the variables.
fn place_of(variables: &IndexSet<u32>, number: u32) -> u32
    requires known { is_unknown (keys variables.now) (Some ([], number)) ≡ false }
    requires few { length (keys variables.now) ≤ most_nodes }
    ensures { slice_get (keys variables.now) result ≡ Some number }
{
    match variables.get_index_of(&number) {
        Some(place) => place as u32,
        None => unreachable!(),
    }
}

/// A node of a right side: a pair, whose variable goes by its place among those of the left side,
/// or a label with its number of children. Their texts go into the tables, which keep the numbers
/// of the texts that they held; `text` is room for the text of a quoted token. Err only if memory
/// is refused, and then each table has the texts that it had, or one more. Worst case: O(n) steps
/// for a token of n bytes, where a look-up by hash counts once.
pub fn right_item(
    line: &[u8],
    place: Place,
    variables: &IndexSet<u32>,
    names: &mut Labels,
    labels: &mut Labels,
    text: &mut Vec<u8>,
) -> Result<Item<Pair<u32>>, AllocError>
    requires lies { PlaceLies (length line.now) place }
    requires plain { HasNoFeed line.now }
    requires known { is_unknown (keys variables.now) (spec_pair_in (item_at line.now place))
        ≡ false }
    requires variables { length (keys variables.now) ≤ most_nodes }
    requires names { length names.old < 2 ^ 32 - 1 }
    requires labels { length labels.old < 2 ^ 32 - 1 }
    ensures item { IfOk result (λ s. IsRightNode names.new labels.new (keys variables.now)
        (pair_of s) (item_at line.now place)) }
    ensures states { IfOk result (λ _. AddsAll names.old
        (state_before (spec_pair_in (item_at line.now place)) []) names.new) }
    ensures texts { IfOk result (λ _. AddsAll labels.old (right_text
        (spec_pair_in (item_at line.now place)) (item_at line.now place).text) labels.new) }
    ensures names { Grows names.old names.new }
    ensures labels { Grows labels.old labels.new }
    ensures few_names { length names.new ≤ length names.old + 1 }
    ensures few_labels { length labels.new ≤ length labels.old + 1 }
{
    if let Some(pair) = pair_in(line, place) {
        let variable = place_of(variables, pair.number);
        let state = read_name(line, pair.state, names, text)?;
        return Ok(Item::Hole(Pair { state, variable }));
    }
    let label = read_name(line, place.token, labels, text)?;
    let rank = place.kids.unwrap_or(0);
    Ok(Item::Label { label, rank })
}

/// The nodes of a right side, whose pairs have variables of the left side. Their texts go into the
/// tables. Err only if memory is refused. It takes time in proportion to the nodes and their texts.
pub(crate) fn right_nodes<R: RightReader>(
    alloc: Global,
    line: &[u8],
    places: &[Place],
    variables: &IndexSet<u32>,
    names: &mut Labels,
    labels: &mut Labels,
    text: &mut Vec<u8>,
) -> Result<Vec<R::Node>, AllocError>
    requires nodes { All R.is_node places.now }
    requires lie { All (PlaceLies (length line.now)) places.now }
    requires plain { HasNoFeed line.now }
    requires known { AreKnown (keys variables.now) (items_back line.now places.now) }
    requires variables { length (keys variables.now) ≤ most_nodes }
    requires names { length names.old + length places.now < 2 ^ 32 - 1 }
    requires labels { length labels.old + length places.now < 2 ^ 32 - 1 }
    ensures nodes { IfOk result (λ s. Along (IsRightNode names.new labels.new (keys variables.now))
        (map R.symbol_of s.items) (items_back line.now places.now)) }
    ensures states { IfOk result (λ _. AddsAll names.old
        (states_in (items_back line.now places.now)) names.new) }
    ensures texts { IfOk result (λ _. AddsAll labels.old
        (flat_map on_right (items_back line.now places.now)) labels.new) }
    ensures names { Grows names.old names.new }
    ensures labels { Grows labels.old labels.new }
    ensures few_names { length names.new ≤ length names.old + length places.now }
    ensures few_labels { length labels.new ≤ length labels.old + length places.now }
{
    let mut nodes = Vec::with_capacity(alloc, places.len())?;
    let mut i = places.len();
    while i > 0 {
        i -= 1;
        let node = R::read_node(line, places[i], variables, names, labels, text)?;
        nodes.push(node)?;
    }
    Ok(nodes)
}
