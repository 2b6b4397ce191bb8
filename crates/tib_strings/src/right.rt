// Right sides that are lists of words and pairs.
ghost use Rattle.std.specs.Prelude.{◌≡◌, ◌≤◌, ◌<◌, ◌+◌, ◌-◌, ◌^◌, ℕ, List, [], length, map, if◌then◌else◌, All, IfOk, None, Some, false};
ghost use Rattle.indexmap.specs.IndexSet.{keys};
ghost use Rattle.tib_lex.specs.Line.{Lies, words_at};
ghost use Rattle.tib_lex.specs.Lines.{HasNoFeed};
ghost use Rattle.tib_tree.specs.Grows.{Grows, AddsAll};
ghost use Rattle.tib_tree.specs.Shape.{items_back, item_at, PlaceLies};
ghost use Rattle.tib_tree.specs.Trees.{most_nodes};
ghost use Rattle.tib_grammar.specs.Items.{pair_of};
ghost use Rattle.tib_transducer_file.specs.Forms.{pair_in as spec_pair_in};
ghost use Rattle.tib_transducer_file.specs.Reader.{IsWholeSide};
ghost use Rattle.tib_transducer_file.specs.Rule.{is_unknown};
ghost use Rattle.tib_transducer_file.specs.Value.{IsRightNode, right_text, state_before, view_of};
ghost use Rattle.tib_strings.specs.Listed.{list_in, item_of};
ghost use Rattle.tib_strings.specs.RuleValue.{IsLeaf, AreAnyItems, node_of, string_view};

use crate::list::{are_entries, is_mark_alone};
use crate::{StringRule, Word, Words};
use indexmap::IndexSet;
use std::alloc::{AllocError, Global};
use tib_cost::Cost;
use tib_grammar::{Item, Side};
use tib_lex::Token;
use tib_transducer::{Pair, Variable};
use tib_transducer_file::{RightReader, right_item};
use tib_tree::{Labels, Place};

/// Reads right sides that are lists.
#[derive(Drop)]
pub(crate) struct Lists {
    pub places: Vec<Place>,
}

// The place of a token in a list.
fn leaf_at(token: Token) -> Place
    ensures token { result.token ≡ token }
    ensures kids { result.kids ≡ None }
{
    Place {
        token,
        kids: None,
        size: 1,
        depth: 0,
    }
}

// The places of some tokens, the last one first.
fn push_leaves(tokens: &[Token], places: &mut Vec<Place>) -> Result<(), AllocError>
    requires { places.old.items ≡ [] }
    ensures items { (line : List ℕ) → IfOk result (λ _. items_back line places.new.items
        ≡ map item_of (words_at line tokens.now)) }
    ensures lie { (long : ℕ) → All (Lies long) tokens.now →
        IfOk result (λ _. All (PlaceLies long) places.new.items) }
    ensures leaves { IfOk result (λ _. All IsLeaf places.new.items) }
{
    let mut i = tokens.len();
    while i > 0 {
        i -= 1;
        places.push(leaf_at(tokens[i]))?;
    }
    Ok(())
}

// Reads the list of a right side, if its tokens are one.
fn read_places(line: &[u8], tokens: &[Token], places: &mut Vec<Place>) -> Result<bool, AllocError>
    requires { All (Lies (length line.now)) tokens.now }
    ensures list { IfOk result (λ ok. list_in (words_at line.now tokens.now)
        ≡ (if ok then Some (items_back line.now places.new.items) else None)) }
    ensures lie { IfOk result (λ _. All (PlaceLies (length line.now)) places.new.items) }
    ensures leaves { IfOk result (λ _. All IsLeaf places.new.items) }
{
    places.clear();
    if is_mark_alone(line, tokens) {
        return Ok(true);
    }
    if !are_entries(line, tokens) {
        return Ok(false);
    }
    push_leaves(tokens, places)?;
    Ok(true)
}

// A leaf of a tree as a word or a pair.
fn word_of(item: Item<Pair<u32>>) -> Word<u32>
    requires { (pair_of item).1 ≡ 0 }
    ensures { node_of result ≡ pair_of item }
{
    match item {
        Item::Label { label, .. } => Word::Word(label),
        Item::Hole(pair) => Word::Hole(pair),
    }
}

// A token of a right side.
fn right_word(
    line: &[u8],
    place: Place,
    variables: &IndexSet<u32>,
    names: &mut Labels,
    labels: &mut Labels,
    text: &mut Vec<u8>,
) -> Result<Word<u32>, AllocError>
    requires leaf { place.kids ≡ None }
    requires lies { PlaceLies (length line.now) place }
    requires plain { HasNoFeed line.now }
    requires known { is_unknown (keys variables.now) (spec_pair_in (item_at line.now place))
        ≡ false }
    requires variables { length (keys variables.now) ≤ most_nodes }
    requires names { length names.old < 2 ^ 32 - 1 }
    requires labels { length labels.old < 2 ^ 32 - 1 }
    ensures item { IfOk result (λ s. IsRightNode names.new labels.new (keys variables.now)
        (node_of s) (item_at line.now place)) }
    ensures states { IfOk result (λ _. AddsAll names.old
        (state_before (spec_pair_in (item_at line.now place)) []) names.new) }
    ensures texts { IfOk result (λ _. AddsAll labels.old (right_text
        (spec_pair_in (item_at line.now place)) (item_at line.now place).text) labels.new) }
    ensures names { Grows names.old names.new }
    ensures labels { Grows labels.old labels.new }
    ensures few_names { length names.new ≤ length names.old + 1 }
    ensures few_labels { length labels.new ≤ length labels.old + 1 }
{
    let item = right_item(line, place, variables, names, labels, text)?;
    Ok(word_of(item))
}

impl RightReader for Lists {
    ghost use Rattle.tib_strings.specs.Entries.{lists};
    ghost use Rattle.tib_strings.specs.Listed.{SpellsList, list_in};
    ghost use Rattle.tib_strings.specs.RuleValue.{IsLeaf, AreAnyItems, node_of, string_view};

    type Node = Word<u32>;

    type Rule = StringRule<u32>;

    ghost spells = { SpellsList };

    ghost reads = { list_in };

    ghost is_whole = { AreAnyItems };

    ghost is_node = { IsLeaf };

    ghost places_of = { λ r. r.places.items };

    ghost symbol_of = { node_of };

    ghost view = { string_view };

    fn new(alloc: Global) -> Lists {
        Lists {
            places: Vec::new(alloc),
        }
    }

    fn read_right(&mut self, line: &[u8], tokens: &[Token]) -> Result<bool, AllocError> {
        read_places(line, tokens, &mut self.places)
    }

    fn places(&self) -> &[Place] {
        &self.places
    }

    fn read_node(
        line: &[u8],
        place: Place,
        variables: &IndexSet<u32>,
        names: &mut Labels,
        labels: &mut Labels,
        text: &mut Vec<u8>,
    ) -> Result<Word<u32>, AllocError> {
        right_word(line, place, variables, names, labels, text)
    }

    fn rule(state: u32, left: Side<Variable>, nodes: Vec<Word<u32>>, cost: Cost) -> StringRule<u32>
        requires few { length nodes.items ≤ most_nodes }
        requires whole { IsWholeSide AreAnyItems (map node_of nodes.items) }
        ensures { string_view result ≡ view_of state left (map node_of nodes.items) cost }
    {
        StringRule {
            state,
            left,
            right: Words::from_list(nodes),
            cost,
        }
    }

    ghost format = { lists };
}
