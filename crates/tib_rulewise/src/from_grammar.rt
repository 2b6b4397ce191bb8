// The transducer of the derivations of a grammar.
ghost use Rattle.std.specs.Prelude.{◌≡◌, ◌<◌, ◌^◌, true, false, length, IfOk};
ghost use Rattle.tib_tree.specs.Grows.{Grows, AddsAll};
ghost use Rattle.tib_transducer.specs.Outside.{demands, AllMeet};
ghost use Rattle.tib_rulewise.specs.Placed.{placed_side, placed_items};
ghost use Rattle.tib_rulewise.specs.Derivations.{rule_texts, read_from, derivation_rule as rule_for, AreDerivationRules, IsDerivations};
ghost use Rattle.tib_rulewise.specs.DerivationSeries.{GivesDerivations, HaveOneCost, KeepsSeries};

use crate::labels::label_of_rule;
use crate::sides::{count_holes, over_variables, side_of};
use smallvec::SmallVec;
use std::alloc::{AllocError, Global};
use tib_cost::Semiring;
use tib_grammar::{Grammar, Item, Rule, Side};
use tib_transducer::{Pair, Transducer, TransducerRule};
use tib_tree::{Label, Labels};

// The items, with each state read on from the variable at its place.
fn output_items(
    alloc: Global,
    items: &[Item<u32>],
) -> Result<SmallVec<Item<Pair<u32>>, 3>, AllocError>
    requires { length items.now < 2 ^ 32 }
    ensures { IfOk result (λ v. v.items ≡ placed_items read_from 0 items.now) }
{
    let mut output = SmallVec::with_capacity(alloc, items.len())?;
    let mut next: u32 = 0;
    for item in items {
        match item {
            Item::Label { label, rank } => {
                output.push(Item::Label {
                    label: *label,
                    rank: *rank,
                })?;
            }
            Item::Hole(state) => {
                output.push(Item::Hole(Pair {
                    state: *state,
                    variable: next,
                }))?;
                next += 1;
            }
        }
    }
    Ok(output)
}

// The side, with each state read on from the variable at its place.
fn output_side(alloc: Global, side: &Side<u32>) -> Result<Side<Pair<u32>>, AllocError>
    ensures { IfOk result (λ s. s ≡ placed_side read_from side.now) }
{
    let items = side.items();
    if items.len() > 4_294_967_295 {
        return Err(AllocError);
    }
    let output = output_items(alloc, items)?;
    side_of(output)
}

// The rule of the derivations that begin with a rule, which has this label.
fn derivation_rule(
    alloc: Global,
    label: Label,
    rule: &Rule<u32>,
) -> Result<TransducerRule<u32>, AllocError>
    ensures { IfOk result (λ r. r ≡ rule_for label rule.now) }
{
    let count = count_holes(rule.right.items());
    if count > 4_294_967_295 {
        return Err(AllocError);
    }
    let left = over_variables(alloc, label, count as u32)?;
    let right = output_side(alloc, &rule.right)?;
    Ok(TransducerRule {
        state: rule.left,
        left,
        right,
        cost: rule.cost,
    })
}

// The rules of the derivations that begin with some rules, which are numbered from 1.
fn derivation_rules(
    alloc: Global,
    rules: &[Rule<u32>],
    labels: &mut Labels,
) -> Result<Vec<TransducerRule<u32>>, AllocError>
    requires { length rules.now < 2 ^ 32 }
    ensures rules { IfOk result (λ v. AreDerivationRules labels.new rules.now v.items) }
    ensures grows { Grows labels.old labels.new }
    ensures adds { IfOk result (λ _. AddsAll labels.old (rule_texts 1 (length rules.now))
        labels.new) }
{
    let mut derived = Vec::with_capacity(alloc, rules.len())?;
    let mut number: u32 = 0;
    let mut text = Vec::new(alloc);
    for rule in rules {
        number += 1;
        let label = label_of_rule(labels, number, &mut text)?;
        derived.push(derivation_rule(alloc, label, rule)?)?;
    }
    Ok(derived)
}

// The transducer of the derivations of a grammar, without what it gives.
fn derivations_of<S>(
    alloc: Global,
    grammar: Grammar<S>,
    labels: &mut Labels,
) -> Result<Transducer<S>, AllocError>
    ensures derivations { IfOk result (IsDerivations labels.new grammar) }
    ensures few { length grammar.rules < 2 ^ 32 }
    ensures grows { Grows labels.old labels.new }
    ensures adds { IfOk result (λ _. AddsAll labels.old (rule_texts 1 (length grammar.rules))
        labels.new) }
{
    grammar.is_sound();
    let (names, rules) = grammar.into_parts();
    let derived = derivation_rules(alloc, &rules, labels)?;
    match Transducer::new(names, derived) {
        Some(transducer) => Ok(transducer),
        None => unreachable!(),
    }
}

/// The transducer of the derivations of a grammar. It has the states of the grammar, and for each
/// rule one rule: that reads the label `r1`, `r2` and so on, by the number of the rule, over one
/// variable for each state on the right, and outputs the right-hand side, at the same cost. So it
/// reads a run of the grammar as a tree of these labels, and outputs the tree that the run yields,
/// at the cost of the run. The table gets the labels that it lacks. Err only if memory is refused,
/// a side has 2^32 items or more, or the table would have 2^32 texts or more; the table then keeps
/// what it had, with some of the labels after it. Cost: one pass over the items of the rules, and
/// one look-up by hash for each label.
pub fn derivations<S: Semiring>(
    alloc: Global,
    grammar: Grammar<S>,
    labels: &mut Labels,
) -> Result<Transducer<S>, AllocError>
    ensures derivations { IfOk result (IsDerivations labels.new grammar) }
    ensures gives { IfOk result (λ t. GivesDerivations S.product labels.new grammar.rules t.rules) }
    ensures one_cost { IfOk result (λ _. HaveOneCost S.product labels.new grammar.rules) }
    ensures series { IfOk result (λ t. KeepsSeries S.product grammar.rules t.rules) }
    ensures classes { IfOk result (λ t. AllMeet (demands true true true true false) t.rules) }
    ensures grows { Grows labels.old labels.new }
    ensures adds { IfOk result (λ _. AddsAll labels.old (rule_texts 1 (length grammar.rules))
        labels.new) }
{
    let transducer = derivations_of(alloc, grammar, labels)?;
    labels.len();
    Ok(transducer)
}
