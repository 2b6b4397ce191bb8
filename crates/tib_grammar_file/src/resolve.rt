// Name resolution: a leaf without quotes is a state if its text is the name of one, and otherwise a
// label.
ghost use Rattle.std.specs.Prelude.{◌≡◌, ◌≤◌, ◌<◌, ◌+◌, ◌-◌, ◌^◌, ℕ, List, length, take, drop, IfOk, IfSome, Some, None, slice_get, All};
ghost use Rattle.tib_lex.specs.Lines.{HasNoFeed};
ghost use Rattle.tib_lex.specs.Lists.{Along, Each};
ghost use Rattle.tib_tree.specs.Grows.{Grows};
ghost use Rattle.tib_tree.specs.Written.{Item as ItemOf};
ghost use Rattle.tib_grammar.specs.Items.{pair_of, pairs_of};
ghost use Rattle.tib_tree.specs.Trees.{preorder_of, most_nodes};
ghost use Rattle.tib_grammar_file.specs.Added.{AddsSymbol, AddsSymbols, AddsRules};
ghost use Rattle.tib_grammar_file.specs.Raw.{IsRaw, IsRawRule};
ghost use Rattle.tib_grammar_file.specs.Resolve.{IsFoundRaw, AreStatesOf, IsRawTree, IsRawGrammarOf};
ghost use Rattle.tib_grammar_file.specs.Rule.{RuleLine};
ghost use Rattle.tib_grammar_file.specs.Value.{IsNode, IsRule};

use crate::raw::{RawItem, RawRule, RawRules};
use smallvec::SmallVec;
use std::alloc::{AllocError, Global};
use tib_grammar::{Item, Rule, Side};
use tib_tree::{Labels, ShapeError};

/// The tables of a file: the names of its states, the texts of its nodes, and for each of these
/// texts the state whose name it is, so that each is looked up once.
#[derive(Drop)]
struct Tables<'f> {
    names: &'f Labels,
    texts: &'f Labels,
    states: Vec<Option<u32>>,
}

// For each text the state whose name it is.
fn states_of(alloc: Global, names: &Labels, texts: &Labels) -> Result<Vec<Option<u32>>, AllocError>
    ensures { IfOk result (λ states. AreStatesOf names.now states.items texts.now) }
{
    let count = texts.len();
    let mut states = Vec::with_capacity(alloc, count)?;
    for n in 0..count {
        let text = texts.text(n as u32);
        let state = names.find(text);
        states.push(state)?;
    }
    Ok(states)
}

// The state that a leaf is.
fn state_of(item: RawItem, tables: &Tables) -> Option<u32>
    requires text { item.text < length tables.now.texts.now }
    requires states { AreStatesOf tables.now.names.now tables.now.states.items
        tables.now.texts.now }
    ensures { (text : List ℕ) → slice_get tables.now.texts.now item.text ≡ Some text →
        IsFoundRaw tables.now.names.now text result item }
{
    if item.quoted {
        return None;
    }
    match item.kids {
        None => tables.states[item.text as usize],
        Some(_) => None,
    }
}

fn resolve_item(
    item: RawItem,
    tables: &Tables,
    labels: &mut Labels,
) -> Result<Item<u32>, AllocError>
    requires text { item.text < length tables.now.texts.now }
    requires plain { Each HasNoFeed tables.now.texts.now }
    requires states { AreStatesOf tables.now.names.now tables.now.states.items
        tables.now.texts.now }
    requires room { length labels.old < 2 ^ 32 - 1 }
    ensures item { IfOk result (λ s. (i : ItemOf) → IsRaw tables.now.texts.now item i →
        IsNode tables.now.names.now labels.new (pair_of s) i) }
    ensures added { IfOk result (λ s. AddsSymbol labels.old (pair_of s).0 labels.new) }
    ensures few { length labels.new ≤ length labels.old + 1 }
    ensures grows { Grows labels.old labels.new }
{
    if let Some(state) = state_of(item, tables) {
        return Ok(Item::Hole(state));
    }
    let text = tables.texts.text(item.text);
    let label = labels.intern(text)?;
    let rank = item.kids.unwrap_or(0);
    Ok(Item::Label { label, rank })
}

fn resolve_items(
    alloc: Global,
    items: &[RawItem],
    tables: &Tables,
    labels: &mut Labels,
) -> Result<SmallVec<Item<u32>, 3>, AllocError>
    requires texts { All (λ r. r.text < length tables.now.texts.now) items.now }
    requires plain { Each HasNoFeed tables.now.texts.now }
    requires states { AreStatesOf tables.now.names.now tables.now.states.items
        tables.now.texts.now }
    requires room { length labels.old + length items.now < 2 ^ 32 - 1 }
    ensures items { IfOk result (λ ss. (is : List ItemOf) →
        Along (IsRaw tables.now.texts.now) items.now is →
        Along (IsNode tables.now.names.now labels.new) (pairs_of ss.items) is) }
    ensures long { IfOk result (λ ss. length ss.items ≡ length items.now) }
    ensures added { IfOk result (λ ss. AddsSymbols labels.old (pairs_of ss.items) labels.new) }
    ensures few { length labels.new ≤ length labels.old + length items.now }
    ensures grows { Grows labels.old labels.new }
{
    let mut side = SmallVec::with_capacity(alloc, items.len())?;
    for item in items {
        let resolved = resolve_item(*item, tables, labels)?;
        side.push(resolved)?;
    }
    Ok(side)
}

// The side of nodes that are a tree.
fn resolve_side(
    alloc: Global,
    items: &[RawItem],
    tables: &Tables,
    labels: &mut Labels,
) -> Result<Side<u32>, AllocError>
    requires tree { IsRawTree tables.now.texts.now items.now }
    requires few { length items.now ≤ most_nodes }
    requires plain { Each HasNoFeed tables.now.texts.now }
    requires states { AreStatesOf tables.now.names.now tables.now.states.items
        tables.now.texts.now }
    requires room { length labels.old + length items.now < 2 ^ 32 - 1 }
    ensures side { IfOk result (λ s. (is : List ItemOf) →
        Along (IsRaw tables.now.texts.now) items.now is →
        Along (IsNode tables.now.names.now labels.new) (preorder_of s) is) }
    ensures added { IfOk result (λ s. AddsSymbols labels.old (preorder_of s) labels.new) }
    ensures few { length labels.new ≤ length labels.old + length items.now }
    ensures grows { Grows labels.old labels.new }
{
    let resolved = resolve_items(alloc, items, tables, labels)?;
    match Side::from_items(resolved) {
        Ok(side) => Ok(side),
        Err(ShapeError::NotATree) => unreachable!(),
        Err(ShapeError::OutOfMemory) => unreachable!(),
    }
}

fn resolve_rule(
    alloc: Global,
    rule: RawRule,
    items: &[RawItem],
    tables: &Tables,
    labels: &mut Labels,
) -> Result<Rule<u32>, AllocError>
    requires tree { IsRawTree tables.now.texts.now items.now }
    requires few { length items.now ≤ most_nodes }
    requires plain { Each HasNoFeed tables.now.texts.now }
    requires states { AreStatesOf tables.now.names.now tables.now.states.items
        tables.now.texts.now }
    requires room { length labels.old + length items.now < 2 ^ 32 - 1 }
    ensures rule { IfOk result (λ r. (line : RuleLine) → IsRawRule tables.now.names.now rule line →
        Along (IsRaw tables.now.texts.now) items.now line.nodes →
        IsRule tables.now.names.now labels.new r line) }
    ensures added { IfOk result (λ r. AddsSymbols labels.old (preorder_of r.right) labels.new) }
    ensures few { length labels.new ≤ length labels.old + length items.now }
    ensures grows { Grows labels.old labels.new }
{
    let right = resolve_side(alloc, items, tables, labels)?;
    Ok(Rule {
        left: rule.left,
        right,
        cost: rule.cost,
    })
}

// A number of nodes from a place on.
fn nodes_at(nodes: &[RawItem], at: usize, count: u32) -> &[RawItem]
    requires { at + count ≤ length nodes.now }
    ensures { result.now ≡ take count (drop at nodes.now) }
{
    let rest = &nodes[at..];
    &rest[..count as usize]
}

// Resolves the leaves of all rules by the tables of their file.
fn resolve_each(
    alloc: Global,
    raw: &RawRules,
    tables: &Tables,
    labels: &mut Labels,
) -> Result<Vec<Rule<u32>>, AllocError>
    requires raw { (lines : List RuleLine)
        × IsRawGrammarOf tables.now.names.now tables.now.texts.now raw.now lines }
    requires plain { Each HasNoFeed tables.now.texts.now }
    requires states { AreStatesOf tables.now.names.now tables.now.states.items
        tables.now.texts.now }
    requires room { length labels.old + length raw.now.nodes.items < 2 ^ 32 - 1 }
    ensures rules { IfOk result (λ rs. (lines : List RuleLine) →
        IsRawGrammarOf tables.now.names.now tables.now.texts.now raw.now lines →
        Along (IsRule tables.now.names.now labels.new) rs.items lines) }
    ensures added { IfOk result (λ rs. AddsRules labels.old rs.items labels.new) }
    ensures few { length labels.new ≤ length labels.old + length raw.now.nodes.items }
    ensures grows { Grows labels.old labels.new }
{
    let mut rules = Vec::with_capacity(alloc, raw.rules.len())?;
    let mut at = 0;
    for rule in &raw.rules {
        let nodes = nodes_at(&raw.nodes, at, rule.nodes);
        let resolved = resolve_rule(alloc, *rule, nodes, tables, labels)?;
        rules.push(resolved)?;
        at += rule.nodes as usize;
    }
    Ok(rules)
}

/// Resolves the leaves of all rules: each is a state or a label.
pub(crate) fn resolve_rules(
    alloc: Global,
    raw: &RawRules,
    names: &Labels,
    texts: &Labels,
    labels: &mut Labels,
) -> Result<Vec<Rule<u32>>, AllocError>
    requires raw { (lines : List RuleLine) × IsRawGrammarOf names.now texts.now raw.now lines }
    requires plain { Each HasNoFeed texts.now }
    requires room { length labels.old + length raw.now.nodes.items < 2 ^ 32 - 1 }
    ensures rules { IfOk result (λ rs. (lines : List RuleLine) →
        IsRawGrammarOf names.now texts.now raw.now lines →
        Along (IsRule names.now labels.new) rs.items lines) }
    ensures added { IfOk result (λ rs. AddsRules labels.old rs.items labels.new) }
    ensures few { length labels.new ≤ length labels.old + length raw.now.nodes.items }
    ensures grows { Grows labels.old labels.new }
{
    let states = states_of(alloc, names, texts)?;
    let tables = Tables {
        names,
        texts,
        states,
    };
    resolve_each(alloc, raw, &tables, labels)
}
