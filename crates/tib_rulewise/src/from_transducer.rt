// The inverse of a transducer.
ghost use Rattle.std.specs.Prelude.{◌≡◌, [], ◌∷◌, ◌<◌, ◌^◌, length, map, IfOk};
ghost use Rattle.tib_lex.specs.Lists.{Each, Distinct};
ghost use Rattle.tib_grammar.specs.Items.{holes_in};
ghost use Rattle.tib_grammar.specs.Sides.{holes_of, side_map};
ghost use Rattle.tib_transducer.specs.Counting.{numbers_in};
ghost use Rattle.tib_transducer.specs.Range.{IsShaped, AreShaped, EndInHoles};
ghost use Rattle.tib_rulewise.specs.Placed.{item_with, placed_items, placed_side};
ghost use Rattle.tib_rulewise.specs.Inverse.{variable_at, inverse_rule as inverse_for, inverse_of, GivesInversely};
ghost use Rattle.tib_rulewise.specs.Invertible.{IsInvertible, AreInvertible};
ghost use Rattle.tib_rulewise.specs.Paired.{AreListed, pair_in};

use crate::sides::{count_holes, side_of};
use smallvec::SmallVec;
use std::alloc::{AllocError, Global};
use tib_cost::Semiring;
use tib_grammar::{Item, Side};
use tib_transducer::{Pair, Transducer, TransducerRule, Variable};

// The items, with the variable of its place for each pair.
fn read_items(
    alloc: Global,
    items: &[Item<Pair<u32>>],
) -> Result<SmallVec<Item<Variable>, 3>, AllocError>
    requires { length items.now < 2 ^ 32 }
    ensures { IfOk result (λ v. v.items ≡ placed_items variable_at 0 items.now) }
{
    let mut read = SmallVec::with_capacity(alloc, items.len())?;
    let mut next: u32 = 0;
    for item in items {
        match item {
            Item::Label { label, rank } => {
                read.push(Item::Label {
                    label: *label,
                    rank: *rank,
                })?;
            }
            Item::Hole(_) => {
                read.push(Item::Hole(Variable {
                    number: next,
                    label: None,
                }))?;
                next += 1;
            }
        }
    }
    Ok(read)
}

// The side, with the variable of its place for each pair.
fn read_side(alloc: Global, side: &Side<Pair<u32>>) -> Result<Side<Variable>, AllocError>
    ensures { IfOk result (λ s. s ≡ placed_side variable_at side.now) }
{
    let items = side.items();
    if items.len() > 4_294_967_295 {
        return Err(AllocError);
    }
    let read = read_items(alloc, items)?;
    side_of(read)
}

// For each variable below the count that is in a pair among some items, the state of the pair and
// its place among the pairs.
fn pairs_by_variable(
    alloc: Global,
    items: &[Item<Pair<u32>>],
    count: usize,
) -> Result<Vec<(u32, u32)>, AllocError>
    requires few { length items.now < 2 ^ 32 }
    requires once { Distinct (numbers_in items.now) }
    requires known { Each (λ i. i < count) (numbers_in items.now) }
    ensures long { IfOk result (λ v. length v.items ≡ count) }
    ensures listed { IfOk result (λ v. AreListed (holes_in items.now) (length (holes_in items.now))
        v.items) }
{
    let mut listed = vec![in alloc; (0, 0); count]?;
    let mut place: u32 = 0;
    for item in items {
        if let Item::Hole(pair) = item {
            listed[pair.variable as usize] = (pair.state, place);
            place += 1;
        }
    }
    Ok(listed)
}

// An item with the pair that is listed for its variable.
fn paired_item(item: &Item<Variable>, listed: &[(u32, u32)]) -> Item<Pair<u32>>
    requires { Each (λ x. x.number < length listed.now) (holes_in (item.now ∷ [])) }
    ensures { result ≡ item_with (pair_in listed.now) item.now }
{
    match item {
        Item::Label { label, rank } => Item::Label {
            label: *label,
            rank: *rank,
        },
        Item::Hole(variable) => {
            let (state, place) = listed[variable.number as usize];
            Item::Hole(Pair {
                state,
                variable: place,
            })
        }
    }
}

// The items, each with the pair that is listed for its variable.
fn paired_items(
    alloc: Global,
    items: &[Item<Variable>],
    listed: &[(u32, u32)],
) -> Result<SmallVec<Item<Pair<u32>>, 3>, AllocError>
    requires { Each (λ x. x.number < length listed.now) (holes_in items.now) }
    ensures { IfOk result (λ v. v.items ≡ map (item_with (pair_in listed.now)) items.now) }
{
    let mut paired = SmallVec::with_capacity(alloc, items.len())?;
    for item in items {
        paired.push(paired_item(item, listed))?;
    }
    Ok(paired)
}

// The side, with the pair that is listed for it in place of each variable.
fn paired_side(
    alloc: Global,
    side: &Side<Variable>,
    listed: &[(u32, u32)],
) -> Result<Side<Pair<u32>>, AllocError>
    requires { Each (λ x. x.number < length listed.now) (holes_of side.now) }
    ensures { IfOk result (λ s. s ≡ side_map (pair_in listed.now) side.now) }
{
    let paired = paired_items(alloc, side.items(), listed)?;
    side_of(paired)
}

// The right-hand side of the inverse of a rule.
fn output_side(alloc: Global, rule: &TransducerRule<u32>) -> Result<Side<Pair<u32>>, AllocError>
    requires shaped { IsShaped rule.now }
    requires invertible { IsInvertible rule.now }
    ensures { IfOk result (λ s. s ≡ (inverse_for rule.now).right) }
{
    let pairs = rule.right.items();
    if pairs.len() > 4_294_967_295 {
        return Err(AllocError);
    }
    let count = count_holes(rule.left.items());
    let listed = pairs_by_variable(alloc, pairs, count)?;
    paired_side(alloc, &rule.left, &listed)
}

// The inverse of a rule.
fn inverse_rule(
    alloc: Global,
    rule: &TransducerRule<u32>,
) -> Result<TransducerRule<u32>, AllocError>
    requires shaped { IsShaped rule.now }
    requires invertible { IsInvertible rule.now }
    ensures { IfOk result (λ r. r ≡ inverse_for rule.now) }
{
    let left = read_side(alloc, &rule.right)?;
    let right = output_side(alloc, rule)?;
    Ok(TransducerRule {
        state: rule.state,
        left,
        right,
        cost: rule.cost,
    })
}

// The inverses of some rules, in their order.
fn inverse_rules(
    alloc: Global,
    rules: &[TransducerRule<u32>],
) -> Result<Vec<TransducerRule<u32>>, AllocError>
    requires shaped { AreShaped rules.now }
    requires invertible { AreInvertible rules.now }
    ensures { IfOk result (λ v. v.items ≡ map inverse_for rules.now) }
{
    let mut inverses = Vec::with_capacity(alloc, rules.len())?;
    for rule in rules {
        inverses.push(inverse_rule(alloc, rule)?)?;
    }
    Ok(inverses)
}

// The inverse of a transducer, without what it gives.
fn inverse_rule_by_rule<S>(
    alloc: Global,
    transducer: Transducer<S>,
) -> Result<Transducer<S>, AllocError>
    requires { AreInvertible transducer.rules }
    ensures inverse { IfOk result (λ t. t ≡ inverse_of transducer) }
    ensures shaped { AreShaped transducer.rules }
    ensures leaves { EndInHoles transducer.rules }
{
    transducer.is_sound();
    let (names, rules) = transducer.into_parts();
    let inverses = inverse_rules(alloc, &rules)?;
    match Transducer::new(names, inverses) {
        Some(inverse) => Ok(inverse),
        None => unreachable!(),
    }
}

/// The inverse of a transducer of which each rule is linear, nondeleting, not labelled and strict,
/// which `first_outside` of `tib_transducer` tells: it reads what the transducer outputs and
/// outputs what that reads, at the same cost. It has the states of the transducer, and for each
/// rule, in order, the rule with the sides exchanged. It has an inverse too, which is the
/// transducer. Err only if memory is refused or a side has 2^32 items or more; the transducer is
/// then gone. Cost: one pass over the items of all sides.
pub fn inverse<S: Semiring>(
    alloc: Global,
    transducer: Transducer<S>,
) -> Result<Transducer<S>, AllocError>
    requires { AreInvertible transducer.rules }
    ensures inverse { IfOk result (λ t. t ≡ inverse_of transducer) }
    ensures invertible { IfOk result (λ t. AreInvertible t.rules) }
    ensures back { IfOk result (λ t. inverse_of t ≡ transducer) }
    ensures series { IfOk result (λ t. GivesInversely S.product transducer.rules t.rules) }
{
    inverse_rule_by_rule(alloc, transducer)
}
