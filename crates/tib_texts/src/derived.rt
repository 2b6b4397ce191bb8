// Prints the transducer of the derivations of a grammar from the grammar alone.
ghost use Rattle.std.specs.Prelude.{◌≡◌, ◌≤◌, ◌<◌, ◌+◌, ◌^◌, ◌++◌, ℕ, List, [], ◌∷◌, length, take, drop, decimal, slice_get, Some, IfOk, All};
ghost use Rattle.std.proofs.Common.{get_or};
ghost use Rattle.tib_io.specs.Wrote.{Wrote};
ghost use Rattle.tib_tree.specs.Grows.{Grows};
ghost use Rattle.tib_tree.specs.Trees.{Trees, preorder, count as count_of, preorder_of, most_nodes};
ghost use Rattle.tib_grammar.specs.Items.{pair_of, pairs_of, holes_in};
ghost use Rattle.tib_grammar.specs.Sides.{Symbol, holes_of, leaves};
ghost use Rattle.tib_grammar_file.specs.TreeText.{space, opening, closing, trees_text, IsWithin};
ghost use Rattle.tib_grammar_file.specs.Printed.{IsStateWithin, IsSideWithin, IsRuleWithin, AreLabelled};
ghost use Rattle.tib_grammar_file.specs.GrammarText.{IsSmallRule, AreSmallRules};
ghost use Rattle.tib_transducer.specs.TransducerOf.{TransducerOf};
ghost use Rattle.tib_transducer.specs.declared.Pair.{Pair as PairOf};
ghost use Rattle.tib_transducer.specs.declared.TransducerRule.{TransducerRule};
ghost use Rattle.tib_transducer_file.specs.Printed.{variable_text, pair_text, symbol_text, side_text, rules_text, transducer_text};
ghost use Rattle.tib_rulewise.specs.Placed.{placed_items, placed_side, item_with, variables_from};
ghost use Rattle.tib_rulewise.specs.Derivations.{read_from, AreDerivationRules, IsDerivations};
ghost use Rattle.tib_texts.specs.RuleLines.{right_line, arrow_line, below_line, root_line, derivation_line};

use tib_cost::{Scale, Semiring};
use tib_grammar::{Grammar, Item, Names, Rule, Side};
use tib_grammar_file::{put, put_closing, put_end, put_number, put_opening, put_space};
use tib_io::{Failed, Sink};
use tib_transducer_file::put_label;
use tib_tree::Labels;

// What follows the state of a pair.
fn put_number_read<W: Sink>(out: &mut W, variable: u32) -> Result<(), Failed>
    ensures { Wrote (W.seen out.old) (W.seen out.new) (46 ∷ (120 ∷ []) ++ decimal variable) result }
{
    match put(out, b".x") {
        Ok(()) => put_number(out, variable as u64),
        Err(Failed) => Err(Failed),
    }
}

// A state that reads on from the variable with a number.
fn put_pair<W: Sink>(out: &mut W, state: u32, variable: u32, names: &Names) -> Result<(), Failed>
    requires { state < length names.now }
    ensures { Wrote (W.seen out.old) (W.seen out.new)
        (get_or names.now state [] ++ (46 ∷ (120 ∷ []) ++ decimal variable)) result }
{
    match put(out, names.text(state)) {
        Ok(()) => put_number_read(out, variable),
        Err(Failed) => Err(Failed),
    }
}

// A label, or a state that reads on from the variable with a number.
fn put_symbol<W: Sink>(
    out: &mut W,
    item: &Item<u32>,
    variable: u32,
    names: &Names,
    labels: &Labels,
) -> Result<(), Failed>
    requires { IsWithin (IsStateWithin names.now labels.now) (length labels.now) item.now }
    ensures { Wrote (W.seen out.old) (W.seen out.new)
        (symbol_text (pair_text names.now labels.now) labels.now
        (pair_of (item_with (read_from variable) item.now)).0) result }
{
    match item {
        Item::Label { label, .. } => put_label(out, labels.text(*label)),
        Item::Hole(state) => put_pair(out, *state, variable, names),
    }
}

fn put_spaced<W: Sink>(
    out: &mut W,
    k: u32,
    item: &Item<u32>,
    variable: u32,
    names: &Names,
    labels: &Labels,
) -> Result<(), Failed>
    requires { IsWithin (IsStateWithin names.now labels.now) (length labels.now) item.now }
    ensures { Wrote (W.seen out.old) (W.seen out.new)
        (space k ++ symbol_text (pair_text names.now labels.now) labels.now
        (pair_of (item_with (read_from variable) item.now)).0) result }
{
    match put_space(out, k) {
        Ok(()) => put_symbol(out, item, variable, names, labels),
        Err(Failed) => Err(Failed),
    }
}

fn rank_of(item: &Item<u32>) -> u32
    ensures { (variable : ℕ) →
        result ≡ (pair_of (item_with (read_from variable) item.now)).1 }
{
    match item {
        Item::Label { rank, .. } => *rank,
        Item::Hole(_) => 0,
    }
}

// What comes before the children of a node.
fn put_head<W: Sink>(
    out: &mut W,
    k: u32,
    item: &Item<u32>,
    variable: u32,
    names: &Names,
    labels: &Labels,
) -> Result<(), Failed>
    requires { IsWithin (IsStateWithin names.now labels.now) (length labels.now) item.now }
    ensures { Wrote (W.seen out.old) (W.seen out.new)
        ((space k ++ symbol_text (pair_text names.now labels.now) labels.now
        (pair_of (item_with (read_from variable) item.now)).0)
        ++ opening (pair_of (item_with (read_from variable) item.now)).1) result }
{
    match put_spaced(out, k, item, variable, names, labels) {
        Ok(()) => put_opening(out, rank_of(item)),
        Err(Failed) => Err(Failed),
    }
}

// The number of the next variable after an item.
fn after_item(item: &Item<u32>, variable: u32) -> u32
    requires { variable + 1 < 2 ^ 32 }
    ensures { result ≡ variable + length (holes_in (item.now ∷ [])) }
{
    match item {
        Item::Label { .. } => variable,
        Item::Hole(_) => variable + 1,
    }
}

// Appends a number of trees from an index of a preorder on, with a space between them. Each state
// reads on from the variable with the number of states before it. It returns the index after the
// trees, and how many states are before that.
fn put_trees<W: Sink>(
    out: &mut W,
    items: &[Item<u32>],
    at: usize,
    first: u32,
    count: u32,
    names: &Names,
    labels: &Labels,
) -> Result<(usize, u32), Failed>
    requires place { at ≤ length items.now }
    requires few { length items.now < 2 ^ 32 }
    requires variable { first ≡ length (holes_in (take at items.now)) }
    requires within { All (IsWithin (IsStateWithin names.now labels.now) (length labels.now))
        items.now }
    requires trees { (ts : Trees (Symbol ℕ (PairOf ℕ))) × (ys : List (Symbol ℕ (PairOf ℕ) × ℕ))
        × (pairs_of (drop at (placed_items read_from 0 items.now)) ≡ preorder ts ++ ys)
        × (count_of ts ≡ count) }
    ensures next { IfOk result (λ n.
        (ts : Trees (Symbol ℕ (PairOf ℕ))) (ys : List (Symbol ℕ (PairOf ℕ) × ℕ)) →
        pairs_of (drop at (placed_items read_from 0 items.now)) ≡ preorder ts ++ ys →
        count_of ts ≡ count → n.0 ≡ at + length (preorder ts)) }
    ensures later { IfOk result (λ n. n.1 ≡ length (holes_in (take n.0 items.now))) }
    ensures prints { (ts : Trees (Symbol ℕ (PairOf ℕ))) (ys : List (Symbol ℕ (PairOf ℕ) × ℕ)) →
        pairs_of (drop at (placed_items read_from 0 items.now)) ≡ preorder ts ++ ys →
        count_of ts ≡ count → Wrote (W.seen out.old) (W.seen out.new)
        (trees_text (symbol_text (pair_text names.now labels.now) labels.now) ts 0) result }
{
    let mut next = at;
    let mut variable = first;
    for k in 0..count {
        let item = &items[next];
        let rank = rank_of(item);
        match put_head(out, k, item, variable, names, labels) {
            Ok(()) => {}
            Err(Failed) => return Err(Failed),
        }
        let below = after_item(item, variable);
        match put_trees(out, items, next + 1, below, rank, names, labels) {
            Ok((behind, later)) => {
                next = behind;
                variable = later;
            }
            Err(Failed) => return Err(Failed),
        }
        match put_closing(out, rank) {
            Ok(()) => {}
            Err(Failed) => return Err(Failed),
        }
    }
    Ok((next, variable))
}

// Appends a right-hand side, each state of which reads on from the variable at its place.
fn put_output<W: Sink>(
    out: &mut W,
    side: &Side<u32>,
    names: &Names,
    labels: &Labels,
) -> Result<(), Failed>
    requires within { IsSideWithin names.now labels.now side.now }
    requires small { length (preorder_of side.now) ≤ most_nodes }
    ensures { Wrote (W.seen out.old) (W.seen out.new)
        (side_text (pair_text names.now labels.now) labels.now
        (placed_side read_from side.now)) result }
{
    match put_trees(out, side.items(), 0, 0, 1, names, labels) {
        Ok(_) => Ok(()),
        Err(Failed) => Err(Failed),
    }
}

// How many states a right-hand side has.
fn count_states(side: &Side<u32>) -> u32
    requires { length (preorder_of side.now) ≤ most_nodes }
    ensures { result ≡ length (holes_of side.now) }
{
    let items = side.items();
    let mut count: u32 = 0;
    for item in items {
        count = after_item(item, count);
    }
    count
}

// The x of a variable, after k others.
fn put_x<W: Sink>(out: &mut W, k: u32) -> Result<(), Failed>
    ensures { Wrote (W.seen out.old) (W.seen out.new) (space k ++ 120 ∷ []) result }
{
    if k == 0 {
        put(out, b"x")
    } else {
        put(out, b" x")
    }
}

fn put_colon<W: Sink>(out: &mut W, variable: u32) -> Result<(), Failed>
    ensures { Wrote (W.seen out.old) (W.seen out.new) (decimal variable ++ 58 ∷ []) result }
{
    match put_number(out, variable as u64) {
        Ok(()) => put(out, b":"),
        Err(Failed) => Err(Failed),
    }
}

// A variable of a left-hand side, after as many others as its number.
fn put_variable<W: Sink>(out: &mut W, k: u32) -> Result<(), Failed>
    ensures { Wrote (W.seen out.old) (W.seen out.new)
        ((space k ++ 120 ∷ []) ++ (decimal k ++ 58 ∷ [])) result }
{
    match put_x(out, k) {
        Ok(()) => put_colon(out, k),
        Err(Failed) => Err(Failed),
    }
}

// The variables 0, 1 and so on, this many.
fn put_variables<W: Sink>(out: &mut W, count: u32) -> Result<(), Failed>
    ensures { Wrote (W.seen out.old) (W.seen out.new) (trees_text
        (symbol_text (variable_text [] []) []) (leaves (variables_from 0 count)) 0) result }
{
    for k in 0..count {
        match put_variable(out, k) {
            Ok(()) => {}
            Err(Failed) => return Err(Failed),
        }
    }
    Ok(())
}

fn put_closed<W: Sink>(out: &mut W, count: u32) -> Result<(), Failed>
    ensures { Wrote (W.seen out.old) (W.seen out.new) (trees_text
        (symbol_text (variable_text [] []) []) (leaves (variables_from 0 count)) 0
        ++ closing count) result }
{
    match put_variables(out, count) {
        Ok(()) => put_closing(out, count),
        Err(Failed) => Err(Failed),
    }
}

// What is below the root of a left-hand side: the variables 0, 1 and so on, this many.
fn put_below<W: Sink>(out: &mut W, count: u32) -> Result<(), Failed>
    ensures { Wrote (W.seen out.old) (W.seen out.new) (opening count ++ (trees_text
        (symbol_text (variable_text [] []) []) (leaves (variables_from 0 count)) 0
        ++ closing count)) result }
{
    match put_opening(out, count) {
        Ok(()) => put_closed(out, count),
        Err(Failed) => Err(Failed),
    }
}

fn put_right<W: Sink>(
    out: &mut W,
    scale: Scale,
    rule: &Rule<u32>,
    names: &Names,
    labels: &Labels,
) -> Result<(), Failed>
    requires within { IsSideWithin names.now labels.now rule.now.right }
    requires small { IsSmallRule rule.now }
    ensures { Wrote (W.seen out.old) (W.seen out.new)
        (right_line scale names.now labels.now rule.now) result }
{
    match put_output(out, &rule.right, names, labels) {
        Ok(()) => put_end(out, scale, rule.cost),
        Err(Failed) => Err(Failed),
    }
}

fn put_arrow<W: Sink>(
    out: &mut W,
    scale: Scale,
    rule: &Rule<u32>,
    names: &Names,
    labels: &Labels,
) -> Result<(), Failed>
    requires within { IsSideWithin names.now labels.now rule.now.right }
    requires small { IsSmallRule rule.now }
    ensures { Wrote (W.seen out.old) (W.seen out.new)
        (arrow_line scale names.now labels.now rule.now) result }
{
    match put(out, b" -> ") {
        Ok(()) => put_right(out, scale, rule, names, labels),
        Err(Failed) => Err(Failed),
    }
}

// What follows the root of a left-hand side.
fn put_reader<W: Sink>(
    out: &mut W,
    scale: Scale,
    rule: &Rule<u32>,
    names: &Names,
    labels: &Labels,
) -> Result<(), Failed>
    requires within { IsSideWithin names.now labels.now rule.now.right }
    requires small { IsSmallRule rule.now }
    ensures { Wrote (W.seen out.old) (W.seen out.new)
        (below_line scale names.now labels.now rule.now) result }
{
    match put_below(out, count_states(&rule.right)) {
        Ok(()) => put_arrow(out, scale, rule, names, labels),
        Err(Failed) => Err(Failed),
    }
}

// A full stop, and the label of the rule with a number.
fn put_root<W: Sink>(out: &mut W, number: u32) -> Result<(), Failed>
    ensures { Wrote (W.seen out.old) (W.seen out.new) (46 ∷ (114 ∷ []) ++ decimal number) result }
{
    match put(out, b".r") {
        Ok(()) => put_number(out, number as u64),
        Err(Failed) => Err(Failed),
    }
}

// What follows the state of a rule.
fn put_read<W: Sink>(
    out: &mut W,
    scale: Scale,
    number: u32,
    rule: &Rule<u32>,
    names: &Names,
    labels: &Labels,
) -> Result<(), Failed>
    requires within { IsSideWithin names.now labels.now rule.now.right }
    requires small { IsSmallRule rule.now }
    ensures { Wrote (W.seen out.old) (W.seen out.new)
        (root_line scale names.now labels.now number rule.now) result }
{
    match put_root(out, number) {
        Ok(()) => put_reader(out, scale, rule, names, labels),
        Err(Failed) => Err(Failed),
    }
}

// The line of the rule of the derivations that begin with a rule, which has this number.
fn put_line<W: Sink>(
    out: &mut W,
    scale: Scale,
    number: u32,
    rule: &Rule<u32>,
    names: &Names,
    labels: &Labels,
) -> Result<(), Failed>
    requires within { IsRuleWithin names.now labels.now rule.now }
    requires small { IsSmallRule rule.now }
    ensures { Wrote (W.seen out.old) (W.seen out.new)
        (derivation_line scale names.now labels.now number rule.now) result }
{
    match put(out, names.text(rule.left)) {
        Ok(()) => put_read(out, scale, number, rule, names, labels),
        Err(Failed) => Err(Failed),
    }
}

// The lines of the rules of the derivations that begin with some rules, which are numbered from 1:
// the same over each table that has the labels of these rules.
fn put_lines<W: Sink>(
    out: &mut W,
    scale: Scale,
    rules: &[Rule<u32>],
    names: &Names,
    labels: &Labels,
) -> Result<(), Failed>
    requires few { length rules.now < 2 ^ 32 }
    requires within { All (IsRuleWithin names.now labels.now) rules.now }
    requires labelled { AreLabelled (length labels.now) rules.now }
    requires small { AreSmallRules rules.now }
    ensures { (all : List (List ℕ)) (derived : List (TransducerRule ℕ)) →
        Grows labels.now all → AreDerivationRules all rules.now derived →
        Wrote (W.seen out.old) (W.seen out.new) (rules_text scale names.now all derived) result }
{
    let mut number: u32 = 0;
    for rule in rules {
        number += 1;
        match put_line(out, scale, number, rule, names, labels) {
            Ok(()) => {}
            Err(Failed) => return Err(Failed),
        }
    }
    Ok(())
}

// The line of the start.
fn put_start<W: Sink>(out: &mut W, names: &Names) -> Result<(), Failed>
    requires { 0 < length names.now }
    ensures { Wrote (W.seen out.old) (W.seen out.new) (get_or names.now 0 [] ++ 10 ∷ []) result }
{
    match put(out, names.text(0)) {
        Ok(()) => put(out, b"\n"),
        Err(Failed) => Err(Failed),
    }
}

/// Prints the transducer of the derivations of a grammar whose labels are in range of the table,
/// and no right-hand side of which has more than 10,000 nodes. The text is that over each table
/// that has these labels and those of the rules; the transducer and such a table are not made. It
/// fails only where the sink does, and a front of the text was then appended. It takes no memory;
/// its calls nest as deep as the deepest right-hand side. Worst case: O(b) steps for b bytes of
/// text.
pub(crate) fn print_derivations<S: Semiring, W: Sink>(
    grammar: &Grammar<S>,
    labels: &Labels,
    out: &mut W,
) -> Result<(), Failed>
    requires labelled { AreLabelled (length labels.now) grammar.now.rules }
    requires small { AreSmallRules grammar.now.rules }
    ensures { (all : List (List ℕ)) (t : TransducerOf) → Grows labels.now all →
        IsDerivations all grammar.now t → Wrote (W.seen out.old) (W.seen out.new)
        (transducer_text S.SCALE all t) result }
{
    grammar.is_sound();
    let names = grammar.names();
    match put_start(out, names) {
        Ok(()) => put_lines(out, S::SCALE, grammar.rule_list(), names, labels),
        Err(Failed) => Err(Failed),
    }
}
